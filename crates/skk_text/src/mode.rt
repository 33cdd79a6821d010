ghost use Rattle.std.specs.Prelude.{◌≡◌};
ghost use Rattle.skk_text.specs.Modes.{other_kana};

/// What the keys of a frame write.
#[derive(Clone, Copy, Debug, PartialEq, Eq)]
pub enum Mode {
    /// Hiragana, by romaji.
    Hira,
    /// Katakana, by romaji.
    Kata,
    /// Each character as itself.
    Ascii,
    /// Each character in its wide form.
    Wide,
}

impl Mode {
    /// The mode of the other kana, where this one writes kana; else the same mode.
    pub fn other_kana(self) -> Mode
        ensures { result ≡ other_kana self }
    {
        match self {
            Mode::Hira => Mode::Kata,
            Mode::Kata => Mode::Hira,
            Mode::Ascii | Mode::Wide => self,
        }
    }
}
