//! The candidate state ▼ of a session: the candidates that are shown, and what a key does to them.
//!
//! It stands on the candidates of the dictionary and on the forms of numbers. `shown_plain` shows the candidates that a
//! look-up found, which it moves, and `shown_numbers` those of a reading with numbers, filled. `press_cands` reads a
//! key: it goes on to the next candidate or page or back, asks whether one is to be purged, or tells the session to
//! choose, to purge, to register or to go back to the reading. It takes no memory and constant time, however many
//! candidates there are. `Picking::annotate` gives the candidate that is picked a new note.
#![tactic(auto)]

mod cands_do;
mod numbered;
mod picking;
mod press;
mod shown;

pub use cands_do::{AfterChoose, CandsDo};
pub use numbered::{NumberedList, TextCand, TextCands};
pub use picking::Picking;
pub use press::press_cands;
pub use shown::{BothFound, Found, Shown, ShownCands, ShownList, shown_numbers, shown_plain};
