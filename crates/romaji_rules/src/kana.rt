/// The two kana.
#[derive(Clone, Copy, Debug, PartialEq, Eq)]
pub enum Kana {
    /// Hiragana.
    Hiragana,
    /// Katakana.
    Katakana,
}
