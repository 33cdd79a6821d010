//! A learned dictionary behind a lock, which many callers share, and the one history of their calls.
//!
//! It stands on `skk_text`, `skk_calls`, `skk_disk`, `skk_journal`, `dict_layers`, `learn_index`, `learned_store` and
//! `desk_history`. A `&Desk` is an office: it admits callers, each with a number of its own. The call of a `Pass` finds
//! what the system files have for it, takes the lock, is answered by the store, and is entered into the history, at one
//! place: what a caller has seen then ends with that entry, behind all that it had seen before, and the entries of its
//! number are just its own calls. Each answer is the one of the dictionary of one thread at that place, or a refusal
//! with its cause.
//!
//! The lock is held for one call, never over a key or a line, nor over a search in the system files for a look-up, of
//! which no lock is needed. What lies under it keeps that the history of the callers is that of the store, so that
//! `Desk::close` gives the one history, what each caller that ended has said in it, and the disk with what a stop might
//! have left of it at each moment.
#![tactic(auto)]

mod desk;
mod locked;
mod pass;
mod roll;

pub use desk::Desk;
pub use pass::{Pass, Slip, Slips};
pub use roll::Roll;
