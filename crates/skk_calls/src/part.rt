use crate::limits::{OKURI_READING_LIMIT, READING_LIMIT};

/// A part of a dictionary, as the part lines of an SKK dictionary file name them.
#[derive(Clone, Copy, Debug, PartialEq, Eq)]
pub enum Part {
    /// `okuri-nasi`: readings as they are.
    Nasi,
    /// `okuri-ari`: readings that end in the first letter of an okurigana.
    Ari,
}

impl Part {
    ghost use Rattle.std.specs.Prelude.{◌≡◌};
    ghost use Rattle.skk_calls.specs.Rows.{reading_limit};

    /// The most bytes of a reading in this part.
    pub fn reading_limit(self) -> usize
        ensures { result ≡ reading_limit self }
    {
        match self {
            Part::Nasi => READING_LIMIT,
            Part::Ari => OKURI_READING_LIMIT,
        }
    }
}
