//! The reading state ▽ of a session: what a key does to an open reading.
//!
//! It stands on the romaji rules and on the keys of the dictionary. `press_reading` reads a key: it puts kana into the
//! reading or its okurigana, deletes them, closes the reading, confirms it, or asks that it be converted or completed;
//! what is done then is the session's. The type `Reading` keeps that its text is empty or a valid reading, so that what
//! is converted always has a key.
#![tactic(auto)]

mod press;
mod reading;
mod reading_do;

pub use press::press_reading;
pub use reading::{BegunOkuri, Completions, Reading};
pub use reading_do::{AfterConfirm, ReadingDo, ReadingThen};
