ghost use Rattle.std.specs.Prelude.{◌≡◌, ◌∷◌, ◌++◌, ℕ, true, false, map, OnOk};
ghost use Rattle.std.specs.Char.{is_ascii_digit};
ghost use Rattle.std.specs.List.{list_all};
ghost use Rattle.skk_text.specs.Characters.{code};
ghost use Rattle.skk_text.specs.Kana.{wide};
ghost use Rattle.numeric_entries.specs.Numbers.{is_number};
ghost use Rattle.numeric_entries.specs.Numerals.{is_counting_digit, numeral, on_board, with_commas};

use crate::numerals::{EVERYDAY, Numerals};
use skk_text::{Memory, Text, to_wide};

// How many digits stand between two commas.
const COMMA_DISTANCE: usize = 3;

// The digits of a number.
pub fn digits_of(number: &Text) -> &[u8]
    requires { is_number number.now ≡ true }
    ensures { result.now ≡ number.now }
{
    number.as_str().as_bytes()
}

// Adds digits, each in its wide form.
pub fn push_wide(text: &mut Text, digits: &[u8]) -> Result<(), Memory>
    ensures { OnOk result (text.new ≡ text.old ++ map wide digits.now) }
{
    for digit in digits {
        text.push(to_wide(*digit))?;
    }
    Ok(())
}

// Adds digits, each in kanji.
pub fn push_kanji(text: &mut Text, numerals: &Numerals, digits: &[u8]) -> Result<(), Memory>
    requires { list_all is_ascii_digit digits.now ≡ true }
    ensures { OnOk result (text.new ≡ text.old ++ map (numeral numerals.now) digits.now) }
{
    for digit in digits {
        text.push(numerals.digit(*digit))?;
    }
    Ok(())
}

// Adds digits, with a comma between each two groups of three from the right.
pub fn push_with_commas(text: &mut Text, digits: &[u8]) -> Result<(), Memory>
    ensures { OnOk result (text.new ≡ text.old ++ with_commas digits.now) }
{
    let mut rest = digits;
    while let [digit, behind @ ..] = rest {
        text.push(*digit as char)?;
        if follows_comma(behind) {
            text.push(',')?;
        }
        rest = behind;
    }
    Ok(())
}

// Whether a comma stands between a digit and those behind it.
fn follows_comma(digits: &[u8]) -> bool
    ensures comma { result ≡ true → (digit : ℕ) →
        with_commas (digit ∷ digits.now) ≡ digit ∷ code "," ∷ with_commas digits.now }
    ensures none { result ≡ false → (digit : ℕ) → with_commas (digit ∷ digits.now) ≡ digit ∷ with_commas digits.now }
{
    !digits.is_empty() && digits.len() % COMMA_DISTANCE == 0
}

// Adds a number as a square of a shogi board, where it is one.
pub fn push_on_board(text: &mut Text, number: &Text) -> Result<(), Memory>
    requires { is_number number.now ≡ true }
    ensures { OnOk result (text.new ≡ text.old ++ on_board number.now) }
{
    match digits_of(number) {
        [file @ b'1'..=b'9', rank @ b'1'..=b'9'] => {
            text.push(to_wide(*file))?;
            text.push(EVERYDAY.digit(*rank))
        }
        _ => text.push_str(number.as_str()),
    }
}
