ghost use Rattle.std.specs.Prelude.{◌≡◌, ◌++◌, ◌≤◌, ◌<◌, ◌/◌, ◌+◌, ◌*◌, ◌∷◌, true, length, OnOk};
ghost use Rattle.std.specs.Char.{is_ascii_digit};
ghost use Rattle.std.specs.List.{list_all};
ghost use Rattle.numeric_entries.specs.Numbers.{is_number};
ghost use Rattle.numeric_entries.specs.Numerals.{digit_in_place, digits_in_places, group_named, groups_named};
ghost use Rattle.numeric_entries.specs.Numerals.{groups_of, in_places, is_zero, name_of};

use crate::digits::digits_of;
use crate::numerals::Numerals;
use skk_text::{Memory, Text};

// The most digits of a number that is written in kanji with places.
const MOST_DIGITS: usize = 16;

// How many digits a group has.
const GROUP_SIZE: usize = 4;

// Adds a number in kanji with places.
pub fn push_in_places(text: &mut Text, numerals: &Numerals, number: &Text) -> Result<(), Memory>
    requires { is_number number.now ≡ true }
    ensures { OnOk result (text.new ≡ text.old ++ in_places numerals.now number.now) }
{
    let digits = digits_of(number);
    if digits.len() > MOST_DIGITS {
        text.push_str(number.as_str())
    } else if is_zero(digits) {
        text.push(numerals.digit(b'0'))
    } else {
        push_groups(text, numerals, digits)
    }
}

// Adds groups of digits in kanji.
fn push_groups(text: &mut Text, numerals: &Numerals, number: &[u8]) -> Result<(), Memory>
    requires digits { list_all is_ascii_digit number.now ≡ true }
    requires few { length number.now ≤ 16 }
    ensures { OnOk result (text.new ≡ text.old ++ groups_named numerals.now (groups_of 4 number.now)) }
{
    let mut rest = number;
    while !rest.is_empty() {
        let (group, behind) = first_group(rest);
        push_group(text, numerals, group, behind.len() / GROUP_SIZE)?;
        rest = behind;
    }
    Ok(())
}

// The first group of digits that are grouped from the right, and what stands behind it.
fn first_group(digits: &[u8]) -> (&[u8], &[u8])
    requires { 0 < length digits.now }
    ensures cut { digits.now ≡ result.0.now ++ result.1.now }
    ensures group { groups_of 4 digits.now ≡ result.0.now ∷ groups_of 4 result.1.now }
    ensures some { 0 < length result.0.now }
    ensures size { length result.0.now ≤ 4 }
    ensures behind { length (groups_of 4 result.1.now) ≡ length result.1.now / 4 }
{
    digits.split_at((digits.len() - 1) % GROUP_SIZE + 1)
}

// Adds a group of digits in kanji with the name of its place, or nothing where it is zero.
fn push_group(
    text: &mut Text,
    numerals: &Numerals,
    group: &[u8],
    place: usize,
) -> Result<(), Memory>
    requires digits { list_all is_ascii_digit group.now ≡ true }
    requires few { length group.now ≤ 4 }
    requires named { place ≤ 3 }
    ensures { OnOk result (text.new ≡ text.old ++ group_named numerals.now group.now place) }
{
    if is_zero(group) {
        return Ok(());
    }
    push_digits(text, numerals, group)?;
    push_name(text, &numerals.groups, place)
}

// Whether each digit is a zero.
fn is_zero(digits: &[u8]) -> bool
    ensures { result ≡ is_zero digits.now }
{
    digits.iter().all(|digit| *digit == b'0')
}

// Adds the digits of a group in kanji with places.
fn push_digits(text: &mut Text, numerals: &Numerals, group: &[u8]) -> Result<(), Memory>
    requires digits { list_all is_ascii_digit group.now ≡ true }
    requires few { length group.now ≤ 4 }
    ensures { OnOk result (text.new ≡ text.old ++ digits_in_places numerals.now group.now) }
{
    let mut rest = group;
    while let [digit, behind @ ..] = rest {
        push_digit(text, numerals, *digit, behind.len())?;
        rest = behind;
    }
    Ok(())
}

// Adds a digit in kanji with the name of its place, or nothing where it is zero.
fn push_digit(text: &mut Text, numerals: &Numerals, digit: u8, place: usize) -> Result<(), Memory>
    requires digit { is_ascii_digit digit ≡ true }
    requires named { place ≤ 3 }
    ensures { OnOk result (text.new ≡ text.old ++ digit_in_place numerals.now digit place) }
{
    if digit == b'0' {
        return Ok(());
    }
    if digit != b'1' || place == 0 || numerals.writes_one {
        text.push(numerals.digit(digit))?;
    }
    push_name(text, &numerals.places, place)
}

// Adds the name of a place, which the last one does not have.
fn push_name(text: &mut Text, names: &[char; 3], place: usize) -> Result<(), Memory>
    requires { place ≤ 3 }
    ensures { OnOk result (text.new ≡ text.old ++ name_of names.now place) }
{
    if place == 0 {
        return Ok(());
    }
    text.push(names[place - 1])
}
