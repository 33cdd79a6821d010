use crate::out::Out;
use skk_text::Bytes;

/// A rule: the input in ASCII, what is pending behind it, and what comes out.
#[derive(Debug, Drop)]
pub struct Rule {
    /// 1 to 8 bytes from 0x21 to 0x7E, none of them an upper-case letter.
    pub input: Bytes,
    /// Empty, or a proper prefix of an input.
    pub next: Bytes,
    /// In both kana.
    pub out: Out,
}
