ghost use Rattle.std.specs.Prelude.{◌≡◌};
ghost use Rattle.std.specs.List.{list_all};
ghost use Rattle.std.specs.Str.{chars};
ghost use Rattle.skk_calls.specs.Rows.{is_okuri, is_okuri_char};

use crate::limits::OKURI_LIMIT;
use skk_text::{Copies, Memory, Text};
use std::alloc::Global;
use std::marker::Model;
use thiserror::Error;

/// A valid okurigana: 1 to 60 bytes of hiragana from ぁ to ゖ, ゝ, ゞ and ー.
#[derive(Debug, Drop)]
pub struct Okuri {
    text: Text,
}

impl Model for Okuri {
    ghost use Rattle.std.specs.Prelude.{◌≡◌, true, List, ℕ};
    ghost use Rattle.skk_calls.specs.Rows.{is_okuri};

    ghost Value = { List ℕ };

    ghost view = { λ o. o.text };

    ghost invariant = { λ o. is_okuri o.text ≡ true };
}

/// Why a text is no okurigana.
#[derive(Clone, Copy, Debug, PartialEq, Eq, Error)]
pub enum OkuriFault {
    /// The text is empty, too long, or holds another character.
    #[error("invalid okurigana")]
    Invalid,
}

impl Okuri {
    ghost use Rattle.std.specs.Prelude.{◌≡◌, ◌↔◌, true, false, IfOk, IsErr};
    ghost use Rattle.skk_calls.specs.Rows.{is_okuri};

    /// The okurigana, unless the text is none. Takes no memory, and time in the text's length.
    pub fn new(text: Text) -> Result<Okuri, OkuriFault>
        ensures ok { IfOk result (λ okuri. okuri ≡ text) }
        ensures invalid { IsErr result ↔ (is_okuri text ≡ false) }
    {
        if !is_okuri(&text) {
            return Err(OkuriFault::Invalid);
        }
        Ok(Okuri { text })
    }

    /// The text.
    pub fn text(&self) -> &Text
        ensures value { result.now ≡ self.now }
        ensures valid { is_okuri self.now ≡ true }
    {
        &self.text
    }
}

impl Copies for Okuri {
    fn copy(&self, alloc: Global) -> Result<Okuri, Memory> {
        Ok(Okuri {
            text: self.text.copy(alloc)?,
        })
    }
}

// Whether a text is an okurigana.
fn is_okuri(text: &Text) -> bool
    ensures { result ≡ is_okuri text.now }
{
    let bytes = text.byte_len();
    1 <= bytes && bytes <= OKURI_LIMIT && are_okuri_chars(text.as_str())
}

/// Whether each character may stand in an okurigana. Takes no memory, and time in the text's length.
pub fn are_okuri_chars(text: &str) -> bool
    ensures { result ≡ list_all is_okuri_char (chars text.now) }
{
    text.chars().all(is_okuri_char)
}

// Whether a character may stand in an okurigana.
fn is_okuri_char(c: char) -> bool
    ensures { result ≡ is_okuri_char c }
{
    matches!(c, 'ぁ'..='ゖ' | 'ゝ' | 'ゞ' | 'ー')
}
