//! The plain state of a session: what a key does where no reading is open.
//!
//! It stands on the romaji rules. `press_plain` reads a key by the mode: in the two kana modes by the rules, and in
//! the two ASCII modes as itself. It says exactly which text is inserted, what is pending behind it, and what the key
//! does to the frame beside that; the frame itself it does not touch.
#![tactic(auto)]

mod insertion;
mod plain;

pub use insertion::Insertion;
pub use plain::{Plain, PlainDo, PlainThen, press_plain};
