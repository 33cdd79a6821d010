ghost use Rattle.std.specs.Prelude.{◌≡◌, true, MatchOption};
ghost use Rattle.std.specs.Str.{chars};
ghost use Rattle.skk_calls.specs.Rows.{is_note, IsBadNote};

use crate::limits::WORD_LIMIT;
use skk_text::{Copies, Memory, Sequence, Text};
use std::alloc::Global;
use std::marker::Model;
use thiserror::Error;

/// A candidate: a word that is not empty, and a note, which may be empty and holds no `/`, CR or LF. Both together
/// have at most 4,095 bytes.
#[derive(Debug, Drop)]
pub struct Cand {
    word: Text,
    note: Text,
}

impl Model for Cand {
    ghost use Rattle.std.specs.Prelude.{◌≡◌, true};
    ghost use Rattle.skk_calls.specs.Rows.{Cand, is_cand};

    ghost Value = { Cand };

    ghost view = { λ c. record { word = c.word; note = c.note } };

    ghost invariant = { λ c. is_cand (record { word = c.word; note = c.note }) ≡ true };
}

/// Why texts are no candidate. The first cause is told.
#[derive(Clone, Copy, Debug, PartialEq, Eq, Error)]
pub enum CandFault {
    /// The word is empty.
    #[error("empty word")]
    Empty,
    /// The note holds a `/`, CR or LF, the first of them at this byte.
    #[error("bad character in the note at byte {at}")]
    BadNote { at: usize },
    /// The word and the note have so many bytes together, which are too many.
    #[error("word and note of {bytes} bytes")]
    TooLong { bytes: usize },
}

impl Cand {
    ghost use Rattle.std.specs.Prelude.{◌≡◌, ◌≢◌, ◌↔◌, ◌<◌, ◌+◌, ℕ, [], true, IfOk, IsErrOf};
    ghost use Rattle.skk_text.specs.Text.{byte_len};
    ghost use Rattle.skk_calls.specs.Rows.{is_cand, word_limit, IsBadNote, is_note, is_word};

    /// The candidate, unless the texts are none. Takes no memory, and time in the note's length.
    pub fn new(word: Text, note: Text) -> Result<Cand, CandFault>
        ensures ok { IfOk result (λ cand. cand ≡ record { word = word; note = note }) }
        ensures empty { IsErrOf result CandFault.Empty ↔ (word ≡ []) }
        ensures bad_note { (at : ℕ) → IsErrOf result (CandFault.BadNote at) ↔ ((word ≢ []) × IsBadNote note at) }
        ensures too_long { (bytes : ℕ) → IsErrOf result (CandFault.TooLong bytes)
            ↔ ((word ≢ []) × (is_note note ≡ true) × (bytes ≡ byte_len word + byte_len note) × (word_limit < bytes)) }
    {
        if word.byte_len() == 0 {
            return Err(CandFault::Empty);
        }
        if let Some(at) = bad_note_at(note.as_str()) {
            return Err(CandFault::BadNote { at });
        }
        let bytes = word.as_str().len() + note.as_str().len();
        if bytes > WORD_LIMIT {
            return Err(CandFault::TooLong { bytes });
        }
        Ok(Cand { word, note })
    }

    /// The candidate of a word and a note, moved in. Takes no memory and constant time.
    pub fn of_parts(word: Text, note: Text) -> Cand
        requires { is_cand (record { word = word; note = note }) ≡ true }
        ensures { result ≡ record { word = word; note = note } }
    {
        Cand { word, note }
    }

    /// The candidate of a word, without a note. Takes no memory: the note keeps the allocator.
    pub fn of_word(alloc: Global, word: Text) -> Cand
        requires { is_word word ≡ true }
        ensures { result ≡ record { word = word; note = [] } }
    {
        Cand {
            word,
            note: Text::new(alloc),
        }
    }

    /// The word and the note, moved out. Takes no memory.
    pub fn into_parts(self) -> (Text, Text)
        ensures value { result ≡ (self.word, self.note) }
        ensures valid { is_cand self ≡ true }
    {
        (self.word, self.note)
    }

    /// The word.
    pub fn word(&self) -> &Text
        ensures value { result.now ≡ self.now.word }
        ensures valid { is_cand self.now ≡ true }
    {
        &self.word
    }

    /// The note, which may be empty.
    pub fn note(&self) -> &Text
        ensures value { result.now ≡ self.now.note }
        ensures valid { is_cand self.now ≡ true }
    {
        &self.note
    }
}

impl Copies for Cand {
    fn copy(&self, alloc: Global) -> Result<Cand, Memory> {
        Ok(Cand {
            word: self.word.copy(alloc)?,
            note: self.note.copy(alloc)?,
        })
    }
}

// Where the first character of a note stands that no note has.
fn bad_note_at(note: &str) -> Option<usize>
    ensures { MatchOption result (is_note (chars note.now) ≡ true) (λ at. IsBadNote (chars note.now) at) }
{
    note.find(['/', '\r', '\n'])
}

/// Candidates in order.
pub type Cands = Sequence<Cand>;
