//! A history of calls that many callers share, for contracts alone: one entry a call, in one order.
//!
//! It stands on `skk_text`, on `skk_calls`, whose definitions say what a history is, and on `atomic_table`. A history
//! is a table of one word, and what is known of it is cut among the table's seats: the pen knows it whole, each caller
//! knows its number, its own calls and a beginning of the history, and the roll knows how many numbers were drawn. At
//! run time there is the word, which counts the entries modulo 2^64, and a number in each caller's seat and in the
//! roll.
//!
//! Each caller has a number of its own, from 0 on. A call that is entered stands at the end of the history, once, with
//! its caller's number and its answer, and the caller has seen the history up to it. Whenever the pen and a caller's
//! seat meet, at `enter` or at `end`, what the caller had seen begins the history, and the calls of its number there
//! are just those that it made. When the roll is given back, by `end_roll`, no entry has a number that was not drawn.
//! Nothing is said of when a caller's turn comes: whoever has the pen, as behind a lock, enters calls.
#![tactic(auto)]

mod desk_name;
mod history;
mod rule;
mod seats;
mod steps;
mod view;

pub use desk_name::DeskName;
pub use history::History;
pub use seats::{CallerSeat, Pen, RollSeat};
pub use view::Account;
