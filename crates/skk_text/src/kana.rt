ghost use Rattle.std.specs.Prelude.{◌≡◌, IfOk, map};
ghost use Rattle.skk_text.specs.Kana.{katakana, hiragana, in_katakana, in_hiragana, wide};

use crate::memory::Memory;
use crate::text::Text;
use std::alloc::Global;

// How far the katakana of a hiragana is behind it in Unicode.
const KANA_DISTANCE: u32 = 0x60;

// How far the wide form of an ASCII character is behind it in Unicode.
const WIDE_DISTANCE: u32 = 0xFEE0;

// A map of characters to characters.
trait CharMap {
    ghost use Rattle.std.specs.Prelude.{ℕ};

    ghost mapped: { ℕ → ℕ };

    fn map_char(c: char) -> char
        ensures { result ≡ mapped c };
}

struct Katakana;

impl CharMap for Katakana {
    ghost mapped = { katakana };

    fn map_char(c: char) -> char {
        match c {
            'ぁ'..='ゖ' | 'ゝ' | 'ゞ' => char::from_u32(c as u32 + KANA_DISTANCE).unwrap(),
            _ => c,
        }
    }
}

struct Hiragana;

impl CharMap for Hiragana {
    ghost mapped = { hiragana };

    fn map_char(c: char) -> char {
        match c {
            'ァ'..='ヶ' | 'ヽ' | 'ヾ' => char::from_u32(c as u32 - KANA_DISTANCE).unwrap(),
            _ => c,
        }
    }
}

// The text with each character mapped.
fn map_chars<M: CharMap>(alloc: Global, text: &Text) -> Result<Text, Memory>
    ensures { IfOk result (λ t. t ≡ map M.mapped text.now) }
{
    let mut mapped = Text::new(alloc);
    for c in text.as_str().chars() {
        mapped.push(M::map_char(c))?;
    }
    Ok(mapped)
}

/// The text with its hiragana in katakana: ぁ to ゖ, ゝ and ゞ. Every other character stays.
pub fn to_katakana(alloc: Global, text: &Text) -> Result<Text, Memory>
    ensures { IfOk result (λ t. t ≡ in_katakana text.now) }
{
    map_chars::<Katakana>(alloc, text)
}

/// The text with its katakana in hiragana: ァ to ヶ, ヽ and ヾ. Every other character stays.
pub fn to_hiragana(alloc: Global, text: &Text) -> Result<Text, Memory>
    ensures { IfOk result (λ t. t ≡ in_hiragana text.now) }
{
    map_chars::<Hiragana>(alloc, text)
}

/// The wide form of an ASCII character: U+3000 for the space, U+FF01 to U+FF5E for `!` to `~`. Any other
/// byte has none, and gives the character of its number. Takes no memory.
pub fn to_wide(c: u8) -> char
    ensures { result ≡ wide c }
{
    match c {
        b' ' => '\u{3000}',
        b'!'..=b'~' => char::from_u32(c as u32 + WIDE_DISTANCE).unwrap(),
        _ => c as char,
    }
}
