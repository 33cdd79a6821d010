use romaji_rules::{Kana, OutRef};
use skk_text::{Memory, Text};
use std::marker::Model;

/// The text that a key of the plain state inserts, where it stands in the rules: an output in one kana, and a
/// character behind it or none. Contracts see it as a text.
#[derive(Drop)]
pub struct Insertion<'r> {
    pub(crate) out: OutRef<'r>,
    pub(crate) kana: Kana,
    pub(crate) behind: Option<char>,
}

impl<'r> Model for Insertion<'r> {
    ghost use Rattle.std.specs.Prelude.{ℕ, List, ◌++◌};
    ghost use Rattle.std.specs.Option.{option_to_list};
    ghost use Rattle.romaji_rules.specs.Pieces.{out_in};

    ghost Value = { List ℕ };

    ghost view = { λ i. out_in i.kana i.out ++ option_to_list i.behind };
}

impl Insertion<'_> {
    ghost use Rattle.std.specs.Prelude.{◌≡◌, ◌++◌, nat_le, OnOk};
    ghost use Rattle.skk_text.specs.Text.{byte_len};

    /// Adds the text to the end of another. Takes time in its length. After `Memory` a part of it may stand there.
    pub fn push_to(&self, text: &mut Text) -> Result<(), Memory>
        ensures { OnOk result (text.new ≡ text.old ++ self.now) }
    {
        self.out.push_to(text, self.kana)?;
        match self.behind {
            Some(c) => text.push(c),
            None => Ok(()),
        }
    }

    /// Whether the text fits into a room in bytes.
    pub fn fits_in(&self, room: usize) -> bool
        ensures { result ≡ nat_le (byte_len self.now) room }
    {
        let Some(left) = self.out.room_behind(self.kana, room) else {
            return false;
        };
        match self.behind {
            Some(c) => c.len_utf8() <= left,
            None => true,
        }
    }
}
