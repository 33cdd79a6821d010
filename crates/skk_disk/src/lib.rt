//! A disk of two files that may fail at any call, and what a stop at any moment may leave of it.
//!
//! It stands on `skk_text` and `skk_outside`. `Disk` is the device: its files are read, written at a place,
//! cut and synced, and its clauses say of each call, also of one that fails, what a stop within it and a
//! stop after it may leave of both files. `MemDisk` is a disk in memory that allows all that these rules
//! allow, and in which chosen calls fail.
//!
//! `FileDisk` is two files of the system. It is trusted: no clause says what they hold. It makes these calls
//! of the system, and no other: `open` of a file for reading and writing at the first call on it, which makes
//! the first file where it is absent, and the second one where the call is a write, and for the first file
//! `flock`, exclusive and without waiting; `fstat` for its length; `pread`, and `pwrite` until all bytes are
//! written; `ftruncate` to a smaller length, and for an empty write behind the end to a greater one;
//! `fdatasync` for a sync, and with a file's first one `open` and `fsync` of its folder, where the system lets
//! it; and `close`.
#![tactic(auto)]

mod call_record;
mod contents;
mod disk;
mod file_disk;
mod host_file;
mod made_call;
mod mem_disk;
mod which;

pub use disk::Disk;
pub use file_disk::FileDisk;
pub use made_call::MadeCall;
pub use mem_disk::MemDisk;
pub use which::Which;
