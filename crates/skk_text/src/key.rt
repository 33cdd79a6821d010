use crate::sequence::Sequence;

/// A key that a typist presses.
#[derive(Clone, Copy, Debug, PartialEq, Eq)]
pub enum Key {
    /// A character from 0x20 to 0x7E.
    Char(u8),
    /// `C-j`.
    Cj,
    /// `C-g`.
    Cg,
    /// Backspace.
    Bs,
    /// Return.
    Ret,
    /// Tab.
    Tab,
    /// Undo.
    Undo,
}

/// Keys in the order in which they are pressed.
pub type Keys = Sequence<Key>;
