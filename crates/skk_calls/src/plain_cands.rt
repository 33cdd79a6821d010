ghost use Rattle.std.specs.Prelude.{◌≡◌, ◌&&◌, IfOk, nat_le, not, true};
ghost use Rattle.std.specs.List.{list_all};
ghost use Rattle.std.specs.Str.{chars};
ghost use Rattle.skk_text.specs.Lists.{is_empty};
ghost use Rattle.skk_text.specs.Text.{byte_len};
ghost use Rattle.skk_calls.specs.PlainCands.{cand_of_item, cands_in, has_plain_items, is_plain_item, is_plain_list};
ghost use Rattle.skk_calls.specs.PlainCands.{is_plain_word, plain_limit, word_and_note};
ghost use Rattle.skk_calls.specs.Rows.{has_text, is_cand, is_note, same_text, words_of};

use crate::cand::{Cand, Cands};
use crate::distinct_cands::DistinctCands;
use crate::quoting::is_quoted;
use exact_readers::cut_at;
use skk_text::{Copies, Memory, Text};
use std::alloc::Global;
use std::marker::Model;

/// Candidates that lie in one text as a line of a dictionary has them: a plain list, which has one at least, and is
/// what is written of them. Their words differ.
#[derive(Debug, Drop)]
pub struct PlainCands {
    text: Text,
}

impl Model for PlainCands {
    ghost use Rattle.std.specs.Prelude.{◌≡◌, true, List};
    ghost use Rattle.skk_calls.specs.PlainCands.{cands_in, is_plain_list};
    ghost use Rattle.skk_calls.specs.Rows.{Cand};

    ghost Value = { List Cand };

    ghost view = { λ p. cands_in p.text };

    ghost invariant = { λ p. is_plain_list p.text ≡ true };
}

impl PlainCands {
    ghost use Rattle.std.specs.Prelude.{◌≡◌, false, true, map, IfOk};
    ghost use Rattle.std.specs.List.{flat_map, list_all};
    ghost use Rattle.std.specs.Str.{chars};
    ghost use Rattle.skk_text.specs.Lists.{is_empty};
    ghost use Rattle.skk_calls.specs.Canonical.{item, with_slash};
    ghost use Rattle.skk_calls.specs.PlainCands.{plain_cands};
    ghost use Rattle.skk_calls.specs.Rows.{is_cand, texts_differ, words_of};

    /// The candidates of a text, which is copied, where it is a plain list. Takes memory for the copy alone. A text of
    /// at most 512 bytes takes time in its length for each of its items, a longer one constant time.
    pub fn of(alloc: Global, text: &str) -> Result<Option<PlainCands>, Memory>
        ensures { IfOk result (λ cands. cands ≡ plain_cands (chars text.now)) }
    {
        if !is_plain_list(text) {
            return Ok(None);
        }
        let text = Text::from_str(alloc, text)?;
        Ok(Some(PlainCands { text }))
    }

    /// The text, in which each candidate is an item that a slash ends.
    pub fn text(&self) -> &Text
        ensures value { result.now ≡ flat_map with_slash (map item self.now) }
        ensures valid { list_all is_cand self.now ≡ true }
        ensures differ { texts_differ (words_of self.now) ≡ true }
        ensures some { is_empty self.now ≡ false }
    {
        &self.text
    }

    /// The candidates each by itself, copied.
    pub fn to_distinct(&self, alloc: Global) -> Result<DistinctCands, Memory>
        ensures { IfOk result (λ cands. cands ≡ self.now) }
    {
        let cands = cands_in(alloc, self.text.as_str())?;
        Ok(DistinctCands::new(cands))
    }
}

impl Copies for PlainCands {
    fn copy(&self, alloc: Global) -> Result<PlainCands, Memory> {
        let text = self.text.copy(alloc)?;
        Ok(PlainCands { text })
    }
}

// The most bytes of a plain list, so that its words may be told apart two by two.
const PLAIN_LIMIT: usize = 512;

// Whether a text is a plain list of candidates.
fn is_plain_list(text: &str) -> bool
    ensures { result ≡ is_plain_list (chars text.now) }
{
    !is_empty(text) && is_short(text) && has_plain_items(text)
}

// Whether a text is no longer than a plain list may be.
#[tactic(auto, using(crate::proofs::Strings::bytes))]
fn is_short(text: &str) -> bool
    ensures { result ≡ nat_le (byte_len (chars text.now)) plain_limit }
{
    text.len() <= PLAIN_LIMIT
}

// Whether a text has no character.
#[tactic(auto, using(crate::proofs::Strings::empty_text))]
fn is_empty(text: &str) -> bool
    ensures { result ≡ is_empty (chars text.now) }
{
    text.is_empty()
}

// Whether the items of a text are plain, slashes end all of it, and its words differ.
fn has_plain_items(text: &str) -> bool
    ensures { result ≡ has_plain_items (chars text.now) }
{
    let mut rest = text;
    while let Some((item, behind)) = cut_at(rest, '/') {
        if !is_new_item(item, behind) {
            return false;
        }
        rest = behind;
    }
    is_empty(rest)
}

// Whether an item is plain, and none of those behind it has its word.
fn is_new_item(item: &str, behind: &str) -> bool
    ensures { result ≡ (is_plain_item (chars item.now)
        && not (has_text (words_of (cands_in (chars behind.now))) (word_and_note (chars item.now)).0)) }
{
    is_plain_item(item) && !has_word(behind, word_and_note(item).0)
}

// Whether an item is what is written of the candidate that it is.
fn is_plain_item(item: &str) -> bool
    ensures { result ≡ is_plain_item (chars item.now) }
{
    match cut_at(item, ';') {
        Some((word, note)) => is_plain_word(word) && !is_empty(note) && is_note(note),
        None => is_plain_word(item),
    }
}

// Whether a word is not empty, and is written as it is.
fn is_plain_word(word: &str) -> bool
    ensures { result ≡ is_plain_word (chars word.now) }
{
    !is_empty(word) && !is_quoted(word)
}

// Whether a text is a note.
fn is_note(text: &str) -> bool
    ensures { result ≡ is_note (chars text.now) }
{
    text.chars().all(|c| !matches!(c, '/' | '\r' | '\n'))
}

// An item cut at its first semicolon.
#[tactic(auto, using(crate::proofs::Strings::no_text))]
fn word_and_note(item: &str) -> (&str, &str)
    ensures { (chars result.0.now, chars result.1.now) ≡ word_and_note (chars item.now) }
{
    match cut_at(item, ';') {
        Some(parts) => parts,
        None => (item, ""),
    }
}

// Whether an item of a text has this word.
fn has_word(text: &str, word: &str) -> bool
    ensures { result ≡ has_text (words_of (cands_in (chars text.now))) (chars word.now) }
{
    let mut rest = text;
    while let Some((item, behind)) = cut_at(rest, '/') {
        if is_same(word, word_and_note(item).0) {
            return true;
        }
        rest = behind;
    }
    false
}

// Whether two texts have the same characters.
#[tactic(auto, using(crate::proofs::Strings::same_chars))]
fn is_same(text: &str, other: &str) -> bool
    ensures { result ≡ same_text (chars text.now) (chars other.now) }
{
    text == other
}

// The candidates of a text, copied.
fn cands_in(alloc: Global, text: &str) -> Result<Cands, Memory>
    requires { list_all is_cand (cands_in (chars text.now)) ≡ true }
    ensures { IfOk result (λ cands. cands ≡ cands_in (chars text.now)) }
{
    let mut cands = Cands::new(alloc);
    let mut rest = text;
    while let Some((item, behind)) = cut_at(rest, '/') {
        cands.push(cand_of_item(alloc, item)?)?;
        rest = behind;
    }
    Ok(cands)
}

// The candidate that an item is, copied.
fn cand_of_item(alloc: Global, item: &str) -> Result<Cand, Memory>
    requires { is_cand (cand_of_item (chars item.now)) ≡ true }
    ensures { IfOk result (λ cand. cand ≡ cand_of_item (chars item.now)) }
{
    let (word, note) = word_and_note(item);
    let word = Text::from_str(alloc, word)?;
    let note = Text::from_str(alloc, note)?;
    Ok(Cand::of_parts(word, note))
}
