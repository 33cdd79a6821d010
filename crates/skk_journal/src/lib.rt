//! The learned dictionary of a disk: records behind gates in the live one of two files, each of which stands whole or
//! not at all.
//!
//! It stands on `skk_text`, `exact_readers`, `skk_outside` and `skk_disk`. `Journal::open` reads the records of the
//! live file up to the first gate that is closed, fills the first file with none where no file is live, and refuses any
//! other bytes by the first one of a file or by the place of the first bad record. Each file has a version, which says
//! which payloads it may have: those from 1 up to the newest one that `open` is given are right, `version` tells that
//! of the live file, which each addition keeps, and a file that is filled gets the newest one. `append` writes a record
//! behind the closed gate, syncs, opens the gate and syncs, so that a stop at any moment leaves the records with it or
//! without it. `append_many` does so with several records, of which the gate of the first one is opened last, so that a
//! stop leaves all of them or none. `compact` fills the other file behind its own gate, which it opens last, so that a
//! stop at any moment leaves the old records or the new ones. Where a gate may stand open after a call that failed, it
//! is in doubt, and `repair` closes it. The clauses say of every image that the disk may leave at each moment which
//! records both files are opened with.
#![tactic(auto)]

mod choice;
mod fault;
mod filling;
mod first;
mod found;
mod frame;
mod frames;
mod head;
mod journal;
mod live;
mod opening;
mod piece;
mod reading;
mod ready;
mod records;
mod steps;
mod through;
mod writing;

pub use choice::LiveChoice;
pub use fault::{AppendFault, OpenFault};
pub use found::{FoundRecord, Records};
pub use journal::{Journal, PAYLOAD_LIMIT, Unopened};
pub use live::{Doubt, Idle, Live};
