//! The plain types that every crate above speaks of: texts, bytes, keys, modes and notices, lists of
//! them, the copies that are made of them, and the fault `Memory`.
//!
//! Beside the standard library it stands on the toolchain's `arrayvec`, `itoa`, `simdutf8` and
//! `thiserror` alone. A list is seen by contracts as the list of its items, a text as the list of its
//! characters, and each call says exactly what it makes of them. What takes memory answers `Memory`
//! where it is out of memory, and leaves the value as it was. A text of at most 24 bytes takes none.
#![tactic(auto)]

mod bytes;
mod content;
mod copies;
mod kana;
mod key;
mod key_text;
mod laws;
mod memory;
mod mode;
mod notice;
mod sequence;
mod text;
mod text_file;

pub use bytes::Bytes;
pub use copies::{Copies, copy_of};
pub use kana::{to_hiragana, to_katakana, to_wide};
pub use key::{Key, Keys};
pub use key_text::{KeyFault, print_keys, read_keys};
pub use laws::{kana_pairs, one_fault_of_key_text, one_list_of_keys};
pub use memory::Memory;
pub use mode::Mode;
pub use notice::Notice;
pub use sequence::{Sequence, copies_of};
pub use text::{Text, Texts};
pub use text_file::{TextFault, text_within};
