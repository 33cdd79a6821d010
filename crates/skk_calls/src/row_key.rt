ghost use Rattle.std.specs.Prelude.{◌≡◌, ◌&&◌, nat_le, length, encode_utf8_all};
ghost use Rattle.std.specs.List.{list_all};
ghost use Rattle.std.specs.Ordering.{is_lt, is_eq, is_gt};
ghost use Rattle.std.specs.Str.{chars};
ghost use Rattle.skk_text.specs.Text.{last_chars};
ghost use Rattle.skk_calls.specs.Orders.{text_less};
ghost use Rattle.skk_calls.specs.Rows.{is_row_key, same_text, begins_well, may_begin_reading, is_reading_char};
ghost use Rattle.skk_calls.specs.Rows.{is_letter, fits_part};

use crate::part::Part;
use ordered_lists::order_bytes;
use skk_text::{Copies, Memory, Text};
use std::alloc::Global;
use std::cmp::Ordering;
use std::marker::Model;
use thiserror::Error;

/// A part of the dictionary and a valid reading in it.
///
/// A reading is not empty, holds no character up to the space and no DEL, and does not begin with `;`. Without
/// okurigana it has at most 254 bytes. With okurigana it has at most 255 bytes and at least two characters, the last
/// of them a letter from `a` to `z`.
#[derive(Debug, Drop)]
pub struct RowKey {
    part: Part,
    reading: Text,
}

impl Model for RowKey {
    ghost use Rattle.std.specs.Prelude.{◌≡◌, true};
    ghost use Rattle.skk_calls.specs.Rows.{RowKey, is_row_key};

    ghost Value = { RowKey };

    ghost view = { λ k. record { part = k.part; reading = k.reading } };

    ghost invariant = { λ k. is_row_key (record { part = k.part; reading = k.reading }) ≡ true };
}

/// Why a text is no reading of a key.
#[derive(Clone, Copy, Debug, PartialEq, Eq, Error)]
pub enum RowKeyFault {
    /// The reading is not valid in its part.
    #[error("invalid reading")]
    Invalid,
}

impl RowKey {
    ghost use Rattle.std.specs.Prelude.{◌≡◌, ◌↔◌, true, false, IfOk, IsErr};
    ghost use Rattle.skk_calls.specs.Orders.{key_less};
    ghost use Rattle.skk_calls.specs.Rows.{is_row_key, same_key};

    /// The key of a reading, unless that is not valid. Takes no memory, and time in the reading's length.
    pub fn new(part: Part, reading: Text) -> Result<RowKey, RowKeyFault>
        ensures ok { IfOk result (λ key. key ≡ record { part = part; reading = reading }) }
        ensures invalid { IsErr result ↔ (is_row_key (record { part = part; reading = reading }) ≡ false) }
    {
        if !is_row_key(part, &reading) {
            return Err(RowKeyFault::Invalid);
        }
        Ok(RowKey { part, reading })
    }

    /// The part.
    pub fn part(&self) -> Part
        ensures value { result ≡ self.now.part }
        ensures valid { is_row_key self.now ≡ true }
    {
        self.part
    }

    /// The reading.
    pub fn reading(&self) -> &Text
        ensures value { result.now ≡ self.now.reading }
        ensures valid { is_row_key self.now ≡ true }
    {
        &self.reading
    }

    /// Which of two keys is the lesser: by the part, and then by the bytes of the reading.
    pub fn order(&self, other: &RowKey) -> Ordering
        ensures less { is_lt result ≡ key_less self.now other.now }
        ensures equal { is_eq result ≡ same_key self.now other.now }
        ensures greater { is_gt result ≡ key_less other.now self.now }
    {
        match (self.part, other.part) {
            (Part::Nasi, Part::Ari) => Ordering::Less,
            (Part::Ari, Part::Nasi) => Ordering::Greater,
            _ => text_order(&self.reading, &other.reading),
        }
    }

    /// Whether two keys are the same.
    pub fn is_same(&self, other: &RowKey) -> bool
        ensures { result ≡ same_key self.now other.now }
    {
        self.part == other.part && bytes_of(self.reading()) == bytes_of(other.reading())
    }
}

impl Copies for RowKey {
    fn copy(&self, alloc: Global) -> Result<RowKey, Memory> {
        Ok(RowKey {
            part: self.part,
            reading: self.reading.copy(alloc)?,
        })
    }
}

// Which of two texts is the lesser by its bytes.
pub(crate) fn text_order(text: &Text, other: &Text) -> Ordering
    ensures less { is_lt result ≡ text_less text.now other.now }
    ensures equal { is_eq result ≡ same_text text.now other.now }
    ensures greater { is_gt result ≡ text_less other.now text.now }
{
    order_bytes(bytes_of(text), bytes_of(other))
}

// The bytes of a text.
fn bytes_of(text: &Text) -> &[u8]
    ensures { result.now ≡ encode_utf8_all text.now }
{
    text.as_str().as_bytes()
}

// Whether a reading is valid in its part.
fn is_row_key(part: Part, reading: &Text) -> bool
    ensures { result ≡ is_row_key (record { part = part; reading = reading.now }) }
{
    let text = reading.as_str();
    begins_well(text) && are_reading_chars(text) && fits_part(part, reading)
}

/// Whether a text begins as a reading does: it is not empty, and begins with something else than `;`. Takes no memory
/// and constant time.
pub fn begins_well(text: &str) -> bool
    ensures { result ≡ begins_well (chars text.now) }
{
    match text.chars().next() {
        Some(c) => may_begin_reading(c),
        None => false,
    }
}

/// Whether a reading may begin with a character that may stand in it.
pub fn may_begin_reading(c: char) -> bool
    ensures { result ≡ may_begin_reading c }
{
    c != ';'
}

/// Whether each character may stand in a reading. Takes no memory, and time in the text's length.
pub fn are_reading_chars(text: &str) -> bool
    ensures { result ≡ list_all is_reading_char (chars text.now) }
{
    text.chars().all(is_reading_char)
}

/// Whether a character may stand in a reading.
pub fn is_reading_char(c: char) -> bool
    ensures { result ≡ is_reading_char c }
{
    c > ' ' && c != '\u{7F}'
}

// Whether a reading has a length and an end as its part asks.
fn fits_part(part: Part, reading: &Text) -> bool
    ensures { result ≡ fits_part part reading.now }
{
    let fits = reading.byte_len() <= part.reading_limit();
    match part {
        Part::Nasi => fits,
        Part::Ari => fits && ends_in_letter(reading),
    }
}

// Whether a text ends in a letter behind something else.
fn ends_in_letter(text: &Text) -> bool
    ensures { result ≡ (nat_le 2 (length text.now) && is_letter (last_chars 1 text.now)) }
{
    let last = text.last(1);
    last.len() < text.byte_len() && is_letter(last.as_bytes())
}

// Whether bytes are one letter from `a` to `z`.
fn is_letter(bytes: &[u8]) -> bool
    ensures { result ≡ is_letter bytes.now }
{
    matches!(bytes, [b'a'..=b'z'])
}
