use skk_text::{Key, Notice};

/// What is done with the candidates behind a key.
#[derive(Clone, Copy, Debug, PartialEq, Eq)]
pub enum CandsDo {
    /// They stay, with a notice.
    Stay(Notice),
    /// They are closed, and the reading is open again as it was before they were looked up.
    Back,
    /// None is left: a registration opens.
    Register,
    /// The one that is shown is purged.
    Purge,
    /// The one at this place is chosen, counted from 0.
    Choose { place: usize, then: AfterChoose },
}

/// What a key does behind a candidate that it chose.
#[derive(Clone, Copy, Debug, PartialEq, Eq)]
pub enum AfterChoose {
    /// Nothing.
    Nothing,
    /// The text loses its last character.
    Delete,
    /// A newline is inserted, or a registration ends.
    Newline,
    /// A reading opens that begins with `>`.
    OpenSuffix,
    /// The key is read in the plain state.
    Read(Key),
}
