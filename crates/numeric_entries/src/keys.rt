ghost use Rattle.std.specs.Prelude.{◌≡◌, ◌++◌, true, false, IfOk};
ghost use Rattle.std.specs.Char.{is_ascii_digit};
ghost use Rattle.std.specs.List.{list_any};
ghost use Rattle.std.specs.Str.{chars};
ghost use Rattle.numeric_entries.specs.Numbers.{begins, is_number, number_key};

use crate::characters::first_character;
use skk_text::{Memory, Text, Texts};
use std::alloc::Global;
use std::marker::Model;

/// A reading with a `#` in the place of each number, and the numbers, in order. Each number is one or more ASCII
/// digits.
#[derive(Debug, Drop)]
pub struct NumberKey {
    key: Text,
    numbers: Texts,
}

impl Model for NumberKey {
    ghost use Rattle.std.specs.Prelude.{◌≡◌, true};
    ghost use Rattle.numeric_entries.specs.Numbers.{NumberKey, are_numbers};

    ghost Value = { NumberKey };

    ghost view = { λ k. record { key = k.key; numbers = k.numbers } };

    ghost invariant = { λ k. are_numbers k.numbers ≡ true };
}

impl NumberKey {
    ghost use Rattle.std.specs.Prelude.{◌≡◌, true};
    ghost use Rattle.numeric_entries.specs.Numbers.{are_numbers};

    /// The reading with a `#` in the place of each number.
    pub fn key(&self) -> &Text
        ensures { result.now ≡ self.now.key }
    {
        &self.key
    }

    /// The numbers, in order.
    pub fn numbers(&self) -> &Texts
        ensures value { result.now ≡ self.now.numbers }
        ensures valid { are_numbers self.now.numbers ≡ true }
    {
        &self.numbers
    }

    /// The key and the numbers, moved. Takes no memory.
    pub fn into_parts(self) -> (Text, Texts)
        ensures key { result.0 ≡ self.key }
        ensures numbers { result.1 ≡ self.numbers }
        ensures valid { are_numbers self.numbers ≡ true }
    {
        (self.key, self.numbers)
    }
}

/// The key of a reading with numbers; none exactly where the reading holds no ASCII digit. Each longest run of digits
/// is one number. A `#` that the reading holds stays. Takes time in the reading's length.
pub fn number_key(alloc: Global, reading: &Text) -> Result<Option<NumberKey>, Memory>
    ensures { IfOk result (λ found. found ≡ number_key reading.now) }
{
    if !holds_digit(reading.as_str()) {
        return Ok(None);
    }
    let mut key = Text::new(alloc);
    let mut numbers = Texts::new(alloc);
    let mut rest = reading.as_str();
    while let Some((c, behind)) = first_character(rest) {
        if c.is_ascii_digit() {
            let (number, behind) = first_number(alloc, rest)?;
            key.push('#')?;
            numbers.push(number)?;
            rest = behind;
        } else {
            key.push(c)?;
            rest = behind;
        }
    }
    Ok(Some(NumberKey { key, numbers }))
}

// Whether a text holds an ASCII digit.
fn holds_digit(text: &str) -> bool
    ensures { result ≡ list_any is_ascii_digit (chars text.now) }
{
    text.chars().any(|c| c.is_ascii_digit())
}

// The number that a text begins with, and what stands behind it.
fn first_number(alloc: Global, text: &str) -> Result<(Text, &str), Memory>
    requires { begins is_ascii_digit (chars text.now) ≡ true }
    ensures { IfOk result (λ parts. (chars text.now ≡ parts.0 ++ chars parts.1.now)
        × (is_number parts.0 ≡ true) × (begins is_ascii_digit (chars parts.1.now) ≡ false)) }
{
    let mut number = Text::new(alloc);
    let mut rest = text;
    while let Some((c, behind)) = first_character(rest) {
        if !c.is_ascii_digit() {
            break;
        }
        number.push(c)?;
        rest = behind;
    }
    Ok((number, rest))
}
