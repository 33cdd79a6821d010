ghost use Rattle.std.specs.Prelude.{◌≡◌, ◌≢◌, [], true, IfOk};
ghost use Rattle.std.specs.Option.{option_copied, option_map};
ghost use Rattle.reading_state.specs.Puts.{new_reading, new_abbrev, suffix_reading};
ghost use Rattle.skk_calls.specs.Dictionary.{is_plain_reading};
ghost use Rattle.reading_state.specs.Keys.{key_of, key_with, okuri_of};

mod completing;
mod copying;
mod deletes;
mod okurigana;
mod prefix;
mod puts;

pub use completing::Completions;
use romaji_rules::Pending;
use skk_calls::{Okuri, Part, RowKey};
use skk_text::{Copies, Memory, Text};
use std::alloc::Global;
use std::marker::Model;

/// An okurigana that was begun: the letter behind the reading in its key, and its kana so far.
#[derive(Drop)]
pub struct BegunOkuri {
    letter: u8,
    text: Text,
}

impl Model for BegunOkuri {
    ghost use Rattle.reading_state.specs.Puts.{BegunOkuri};

    ghost Value = { BegunOkuri };

    ghost view = { λ b. record { letter = b.letter; text = b.text } };
}

/// An open reading, its okurigana where one was begun, the letters that wait for more, and its completions where they
/// are kept. The reading is empty or valid without okurigana, of at most 254 bytes. An okurigana has a letter from `a`
/// to `z` and a reading before it, and is empty or valid, of at most 60 bytes.
#[derive(Drop)]
pub struct Reading {
    text: Text,
    is_abbrev: bool,
    okuri: Option<BegunOkuri>,
    pending: Pending,
    completions: Option<Completions>,
}

impl Model for Reading {
    ghost use Rattle.std.specs.Prelude.{◌≡◌, true};
    ghost use Rattle.reading_state.specs.Puts.{Reading, is_open};

    ghost Value = { Reading };

    ghost view = { λ r. record {
      text = r.text;
      is_abbrev = r.is_abbrev;
      okuri = r.okuri;
      pending = r.pending;
      completions = r.completions;
    } };

    ghost invariant = { λ r. is_open (record {
      text = r.text;
      is_abbrev = r.is_abbrev;
      okuri = r.okuri;
      pending = r.pending;
      completions = r.completions;
    }) ≡ true };
}

impl Reading {
    /// An empty reading. Takes no memory: the reading keeps the allocator for what is put later.
    pub fn new(alloc: Global) -> Reading
        ensures { result ≡ new_reading }
    {
        Reading {
            text: Text::new(alloc),
            is_abbrev: false,
            okuri: None,
            pending: Pending::new(),
            completions: None,
        }
    }

    /// An empty abbreviation. Takes no memory: the reading keeps the allocator for what is put later.
    pub fn abbrev(alloc: Global) -> Reading
        ensures { result ≡ new_abbrev }
    {
        Reading {
            text: Text::new(alloc),
            is_abbrev: true,
            okuri: None,
            pending: Pending::new(),
            completions: None,
        }
    }

    /// A reading that begins with `>`, for a suffix.
    #[tactic(auto, using(crate::proofs::Texts::mark_may_read))]
    pub fn suffix(alloc: Global) -> Result<Reading, Memory>
        ensures { IfOk result (λ reading. reading ≡ suffix_reading) }
    {
        let mut reading = Reading::new(alloc);
        reading.text.push('>')?;
        Ok(reading)
    }

    /// The reading without its okurigana. It is valid without okurigana, unless it is empty.
    #[tactic(auto, using(crate::proofs::Texts::plain_of_may))]
    pub fn text(&self) -> &Text
        ensures value { result.now ≡ self.now.text }
        ensures plain { self.now.text ≢ [] → is_plain_reading self.now.text ≡ true }
    {
        &self.text
    }

    // Whether the reading is an abbreviation.
    pub(crate) fn is_abbrev(&self) -> bool
        ensures { result ≡ self.now.is_abbrev }
    {
        self.is_abbrev
    }

    /// The kana of the okurigana, where one was begun: it may have none yet.
    pub fn begun_text(&self) -> Option<&Text>
        ensures { option_copied result ≡ option_map (λ begun. begun.text) self.now.okuri }
    {
        match &self.okuri {
            Some(begun) => Some(&begun.text),
            None => None,
        }
    }

    /// The letters that wait for more.
    pub fn pending(&self) -> &Pending
        ensures { result.now ≡ self.now.pending }
    {
        &self.pending
    }

    /// The key that the reading is converted by. Takes time in the reading's length.
    #[tactic(auto, using(crate::proofs::Texts::plain_of_may))]
    pub fn key(&self, alloc: Global) -> Result<RowKey, Memory>
        requires { self.now.text ≢ [] }
        ensures { IfOk result (λ key. key ≡ key_of self.now) }
    {
        self.key_of(self.text.copy(alloc)?)
    }

    /// The key that another reading is converted by in the place of this one, with its okurigana: the text gets the
    /// letter of that, where it was begun.
    pub fn key_of(&self, text: Text) -> Result<RowKey, Memory>
        requires { is_plain_reading text ≡ true }
        ensures { IfOk result (λ key. key ≡ key_with text self.now.okuri) }
    {
        let mut text = text;
        match &self.okuri {
            Some(begun) => {
                text.push(begun.letter as char)?;
                Ok(RowKey::new(Part::Ari, text).unwrap())
            }
            None => Ok(RowKey::new(Part::Nasi, text).unwrap()),
        }
    }

    /// The okurigana that the reading is converted by, where one was begun and has a kana. Takes time in its length.
    pub fn okuri(&self, alloc: Global) -> Result<Option<Okuri>, Memory>
        ensures { IfOk result (λ okuri. okuri ≡ okuri_of self.now) }
    {
        match &self.okuri {
            Some(begun) => begun.okuri(alloc),
            None => Ok(None),
        }
    }
}
