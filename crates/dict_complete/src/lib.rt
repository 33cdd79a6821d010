//! The completion of a reading: what the books and the system files have that goes on from a prefix.
//!
//! It stands on `skk_text`, `skk_calls`, `ordered_lists` and `word_sets`. `complete` joins the readings of books,
//! which come in order, with those that a walk over the system files comes by, and stops where there are as many as a
//! completion gives. The laws in `specs/PrefixLaws.antt` say where the texts that begin with a prefix stand in the
//! order of texts, and those in `specs/FirstReadings.antt` that no more readings of a book are needed than are given.
#![tactic(auto)]

mod completing;
mod prefixes;

pub use completing::{COMPLETION_LIMIT, TextLists, complete};
pub use prefixes::begins_with;
