ghost use Rattle.std.specs.Prelude.{◌≡◌, ◌<◌, [], not, Some, None, IfOk, MatchOption, encode_utf8_all};
ghost use Rattle.std.specs.List.{list_all};
ghost use Rattle.std.specs.Str.{chars};
ghost use Rattle.skk_text.specs.Characters.{code};
ghost use Rattle.command_line.specs.Words.{is_name, is_askable, can_be_asked, ends_asked};
ghost use Rattle.command_line.specs.Words.{number_within, books_listed, cut};

use crate::book_numbers::books_listed;
use crate::number::number_within;
use skk_calls::BookList;
use skk_text::{Memory, Text};
use std::alloc::Global;
use std::convert::AsStr;
use std::marker::Model;

// The most bytes of what a server is asked for.
const LONGEST_ASKED: usize = 255;

/// A word, or a part of one, as it was handed in: contracts see the list of its characters. It owns nothing.
#[derive(Drop)]
pub struct Word<'a> {
    text: &'a str,
}

impl<'a> Model for Word<'a> {
    ghost use Rattle.std.specs.Prelude.{List, ℕ};
    ghost use Rattle.std.specs.Str.{chars};

    ghost Value = { List ℕ };

    ghost view = { λ w. chars w.text.now };
}

impl<'a> Default for Word<'a> {
    fn default() -> Word<'a> {
        Word::empty()
    }
}

impl<'a> Word<'a> {
    /// The empty word.
    #[tactic(auto, using(crate::proofs::WordTexts::empty))]
    pub fn empty() -> Word<'a>
        ensures { result ≡ [] }
    {
        Word { text: "" }
    }

    /// The word of a text.
    pub fn of(text: &'a Text) -> Word<'a>
        ensures { result ≡ text.now }
    {
        Word {
            text: text.as_str(),
        }
    }

    /// The word of a string.
    pub fn of_str(text: &'a str) -> Word<'a>
        ensures characters { result ≡ chars text.now }
        ensures bytes { encode_utf8_all result ≡ text.now }
    {
        Word { text }
    }

    /// The same word once more.
    pub fn again(&self) -> Word<'a>
        ensures { result ≡ self.now }
    {
        Word { text: self.text }
    }

    /// The word as a text of its own.
    pub fn to_text(&self, alloc: Global) -> Result<Text, Memory>
        ensures { IfOk result (λ text. text ≡ self.now) }
    {
        Text::from_str(alloc, self.text)
    }

    /// The word's content.
    pub fn as_str(&self) -> &'a str
        ensures { chars result.now ≡ self.now }
    {
        self.text
    }

    /// Whether the word may be a file's name.
    pub fn is_name(&self) -> bool
        ensures { result ≡ is_name self.now }
    {
        is_name(self.text)
    }

    /// Whether the word is what a server can be asked for: it may be a name, and has 1 to 255 bytes, none of which is a
    /// space, CR or LF.
    pub fn is_askable(&self) -> bool
        ensures { result ≡ is_askable self.now }
    {
        self.is_name() && can_be_asked(as_it_is(self.text).as_bytes())
    }

    /// The number that the word writes in decimal, without a sign and without leading zeros, where it is within the
    /// bounds.
    pub fn number_within(&self, least: u64, most: u64) -> Option<u64>
        ensures { result ≡ number_within least most self.now }
    {
        number_within(self.text, least, most)
    }

    /// The books that the word lists: their numbers from 0 to 65,535 in decimal, as above, between commas.
    pub fn books(&self) -> Option<BookList>
        ensures { result ≡ books_listed self.now }
    {
        books_listed(self.text)
    }

    /// What stands before and behind the first `=`, where there is one.
    pub fn cut(&self) -> Option<(Word<'a>, Word<'a>)>
        ensures { result ≡ cut (code "=") self.now }
    {
        match cut(self.text, '=') {
            Some((before, behind)) => Some((Word { text: before }, Word { text: behind })),
            None => None,
        }
    }
}

impl<'a> AsStr for Word<'a> {
    ghost use Rattle.std.specs.Prelude.{encode_utf8_all};

    ghost text = { λ w. encode_utf8_all w };

    fn as_str(&self) -> &str {
        as_it_is(self.text)
    }
}

// A text, of which the bytes are those of its characters.
fn as_it_is(text: &str) -> &str
    ensures { result.now ≡ encode_utf8_all (chars text.now) }
{
    text
}

// Whether a text is not empty, and does not begin with `-`.
fn is_name(text: &str) -> bool
    ensures { result ≡ is_name (chars text.now) }
{
    !text.is_empty() && !text.starts_with('-')
}

// Whether bytes can be asked of a server.
fn can_be_asked(bytes: &[u8]) -> bool
    ensures { result ≡ can_be_asked bytes.now }
{
    !bytes.is_empty() && bytes.len() <= LONGEST_ASKED && holds_no_end(bytes)
}

// Whether no byte is a space, CR or LF.
fn holds_no_end(bytes: &[u8]) -> bool
    ensures { result ≡ list_all (λ byte. not (ends_asked byte)) bytes.now }
{
    bytes.iter().all(|byte| !(*byte == b' ' || *byte == b'\r' || *byte == b'\n'))
}

/// What stands in a text before and behind the first of a character of ASCII, where the text has one.
pub fn cut(text: &str, at: char) -> Option<(&str, &str)>
    requires { at < 128 }
    ensures { MatchOption result (cut at (chars text.now) ≡ None)
        (λ parts. cut at (chars text.now) ≡ Some (chars parts.0.now, chars parts.1.now)) }
{
    text.split_once(at)
}
