ghost use Rattle.std.specs.Prelude.{◌≡◌, ◌↔◌, IfOk, IfErr, Err};
ghost use Rattle.skk_text.specs.TextFiles.{IsTextWithin, IsTextFault};
ghost use Rattle.skk_text.specs.declared.text_file.TextFault.{TextFault};

use simdutf8::compat::from_utf8;
use thiserror::Error;

/// Why the bytes of a file are no text.
#[derive(Clone, Copy, Debug, PartialEq, Eq, Error)]
pub enum TextFault {
    /// There are so many bytes, which are more than the limit.
    #[error("{bytes} bytes are too many")]
    TooLong { bytes: usize },
    /// They are not UTF-8: the longest prefix that is ends at this byte.
    #[error("not UTF-8 at byte {at}")]
    NotUtf8 { at: usize },
}

/// The text of a file's bytes, where these are no more than `limit` and UTF-8. Their number is looked at first. Takes
/// no memory, and time in the bytes.
pub fn text_within(bytes: &[u8], limit: usize) -> Result<&str, TextFault>
    ensures text { IfOk result (λ text. text.now ≡ bytes.now) }
    ensures within { IfOk result (λ _. IsTextWithin limit bytes.now) }
    ensures fault { IfErr result (IsTextFault limit bytes.now) }
    ensures exact { (fault : TextFault) → (result ≡ Err fault) ↔ IsTextFault limit bytes.now fault }
{
    if bytes.len() > limit {
        return Err(TextFault::TooLong { bytes: bytes.len() });
    }
    match from_utf8(bytes) {
        Ok(text) => Ok(text),
        Err(fault) => Err(TextFault::NotUtf8 {
            at: fault.valid_up_to(),
        }),
    }
}
