use crate::kana::Kana;
use skk_text::{Memory, Text, to_katakana};
use std::alloc::Global;

/// What comes out of the rules, in both kana.
#[derive(Debug, Drop)]
pub struct Out {
    /// In hiragana.
    pub hira: Text,
    /// In katakana.
    pub kata: Text,
}

impl Out {
    ghost use Rattle.std.specs.Prelude.{◌≡◌, IfOk};
    ghost use Rattle.romaji_rules.specs.Output.{nothing, of_hiragana};
    ghost use Rattle.romaji_rules.specs.Pieces.{out_in};

    /// No output. Takes no memory.
    pub fn nothing(alloc: Global) -> Out
        ensures { result ≡ nothing }
    {
        Out {
            hira: Text::new(alloc),
            kata: Text::new(alloc),
        }
    }

    /// A hiragana text, and the same in katakana.
    pub fn of_hiragana(alloc: Global, hira: Text) -> Result<Out, Memory>
        ensures { IfOk result (λ out. out ≡ of_hiragana hira) }
    {
        let kata = to_katakana(alloc, &hira)?;
        Ok(Out { hira, kata })
    }

    /// The output in one kana.
    pub fn in_kana(&self, kana: Kana) -> &Text
        ensures { result.now ≡ out_in kana self.now }
    {
        match kana {
            Kana::Hiragana => &self.hira,
            Kana::Katakana => &self.kata,
        }
    }
}
