use crate::kana::Kana;
use crate::piece::Piece;
use skk_text::{Memory, Text};
use std::alloc::Global;
use std::marker::Model;

/// What comes out of the rules, where it stands in them: none of it is copied before it is asked for in one kana.
/// Contracts see it in both.
#[derive(Drop)]
pub struct OutRef<'a> {
    flushed: Piece<'a>,
    fed: Piece<'a>,
}

impl<'a> Model for OutRef<'a> {
    ghost use Rattle.romaji_rules.specs.declared.out.Out.{Out};
    ghost use Rattle.romaji_rules.specs.Output.{appended};
    ghost use Rattle.romaji_rules.specs.Pieces.{piece_out};

    ghost Value = { Out };

    ghost view = { λ o. appended (piece_out o.flushed) (piece_out o.fed) };
}

impl<'a> OutRef<'a> {
    ghost use Rattle.std.specs.Prelude.{◌≡◌, ◌++◌, IfOk, OnOk};
    ghost use Rattle.romaji_rules.specs.Output.{appended, nothing};
    ghost use Rattle.romaji_rules.specs.Pieces.{out_in, piece_out, room_behind};

    /// No output.
    pub fn nothing() -> OutRef<'a>
        ensures { result ≡ nothing }
    {
        OutRef::of(Piece::Nothing)
    }

    // One piece.
    pub(crate) fn of(piece: Piece<'a>) -> OutRef<'a>
        ensures { result ≡ piece_out piece.entry }
    {
        OutRef {
            flushed: Piece::Nothing,
            fed: piece,
        }
    }

    // What was pending, and a piece behind it.
    pub(crate) fn behind(flushed: Piece<'a>, fed: Piece<'a>) -> OutRef<'a>
        ensures { result ≡ appended (piece_out flushed.entry) (piece_out fed.entry) }
    {
        OutRef { flushed, fed }
    }

    /// The output in one kana. Takes time in its length.
    pub fn text(&self, alloc: Global, kana: Kana) -> Result<Text, Memory>
        ensures { IfOk result (λ text. text ≡ out_in kana self.now) }
    {
        let mut text = Text::new(alloc);
        self.push_to(&mut text, kana)?;
        Ok(text)
    }

    /// Adds the output in one kana to the end of a text. Takes time in its length. After `Memory` a part of it may
    /// stand there.
    pub fn push_to(&self, text: &mut Text, kana: Kana) -> Result<(), Memory>
        ensures { OnOk result (text.new ≡ text.old ++ out_in kana self.now) }
    {
        self.flushed.push_to(text, kana)?;
        self.fed.push_to(text, kana)
    }

    /// How much of a room in bytes is left behind the output in one kana, where it fits in.
    pub fn room_behind(&self, kana: Kana, room: usize) -> Option<usize>
        ensures { result ≡ room_behind room (out_in kana self.now) }
    {
        let left = self.flushed.room_behind(kana, room)?;
        self.fed.room_behind(kana, left)
    }
}
