//! Work that a caller does over a dictionary that was just opened: the dictionary is named for the proof, worked with,
//! and closed.
//!
//! It stands on `learned_store`. `with_caller` does a `Work` by the one caller of a store. What is promised: the work
//! left what it says of itself, where the caller has said what the history of the dictionary has; the history is legal;
//! and the disk keeps it, at each moment. Whoever works knows neither the history nor the store. What a closed
//! dictionary leaves of its disk (`specs/Disks`) is the same for many callers at a desk, by the law `closes`.
#![tactic(auto)]

mod work;
mod worked;
mod working;

pub use work::Work;
pub use worked::Worked;
pub use working::with_caller;
