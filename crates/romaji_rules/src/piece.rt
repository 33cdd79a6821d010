use crate::kana::Kana;
use crate::out::Out;
use skk_text::{Memory, Text};

// A piece of what comes out of the rules.
#[derive(Clone, Copy)]
pub(crate) enum Piece<'a> {
    // Nothing.
    Nothing,
    // A character as itself.
    Itself(u8),
    // The output of a rule.
    Rule(&'a Out),
}

impl Piece<'_> {
    ghost use Rattle.std.specs.Prelude.{◌≡◌, ◌++◌, OnOk};
    ghost use Rattle.skk_text.specs.Text.{byte_len};
    ghost use Rattle.romaji_rules.specs.Pieces.{out_in, piece_out, room_behind};

    // How many bytes the piece takes in one kana, in UTF-8.
    fn byte_len(&self, kana: Kana) -> usize
        ensures { result ≡ byte_len (out_in kana (piece_out self.now)) }
    {
        match self {
            Piece::Nothing => 0,
            Piece::Itself(c) => (*c as char).len_utf8(),
            Piece::Rule(out) => out.in_kana(kana).byte_len(),
        }
    }

    // How much of a room in bytes is left behind the piece in one kana, where it fits in.
    pub(crate) fn room_behind(&self, kana: Kana, room: usize) -> Option<usize>
        ensures { result ≡ room_behind room (out_in kana (piece_out self.now)) }
    {
        room.checked_sub(self.byte_len(kana))
    }

    // Adds the piece in one kana to the end of a text.
    pub(crate) fn push_to(&self, text: &mut Text, kana: Kana) -> Result<(), Memory>
        ensures { OnOk result (text.new ≡ text.old ++ out_in kana (piece_out self.now)) }
    {
        match self {
            Piece::Nothing => Ok(()),
            Piece::Itself(c) => text.push(*c as char),
            Piece::Rule(out) => text.push_str(out.in_kana(kana).as_str()),
        }
    }
}
