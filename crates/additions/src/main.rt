//! Times what a learned file takes: it opens the file that the first word names, adds as many records of 38 bytes as
//! the second word says, and prints the end of the file.
//!
//! It stands on `skk_text`, `skk_disk` and `skk_journal`. Its disk has a second file beside the first one, with `.b`
//! behind its name, which is never made. It is no part of the input method, and promises nothing but to end.
#![tactic(auto)]

use skk_disk::{Disk, FileDisk};
use skk_journal::Journal;
use skk_text::Text;
use std::alloc::Global;
use std::env;
use std::io::Write;
use std::process::ExitCode;

/// The most bytes that the file may have.
const LIMIT: u64 = 1 << 40;

// The version of the learned file that is filled.
const VERSION: u8 = 1;

/// What is added each time: as many bytes as the first learning of a word takes.
const PAYLOAD: [u8; 38] = [b'a'; 38];

fn main(rt: HostRuntime) -> ExitCode {
    match end_of(&rt) {
        Some(end) => print(&rt, end),
        None => ExitCode::FAILURE,
    }
}

// Prints where the file ends.
fn print(rt: &HostRuntime, end: u64) -> ExitCode {
    match writeln!(rt.stdout(), "{end}") {
        Ok(()) => ExitCode::SUCCESS,
        Err(_) => ExitCode::FAILURE,
    }
}

// The end of the file behind all additions; nothing where a word is wrong, or the file is none or fails.
fn end_of(rt: &HostRuntime) -> Option<u64> {
    let alloc = rt.alloc();
    let mut words = env::args(rt).ok()?.skip(1);
    let first = words.next()?;
    let count = words.next()?.parse().ok()?;
    let mut second = String::from_str(alloc, &first).ok()?;
    second.push_str(".b").ok()?;
    let disk = FileDisk::new(rt, Text::of(first), Text::of(second));
    add_all(alloc, disk, count)
}

// Adds so many records to the learned file of a disk, and gives its end.
fn add_all<D: Disk + Drop>(alloc: Global, disk: D, count: u32) -> Option<u64> {
    let (journal, _records) = Journal::open(alloc, disk, VERSION).ok()?;
    let mut journal = journal;
    for _ in 0..count {
        add(&mut journal)?;
    }
    Some(journal.end())
}

// Adds a record.
fn add<D: Disk>(journal: &mut Journal<D>) -> Option<()> {
    if journal.in_doubt() {
        return None;
    }
    journal.append(LIMIT, &PAYLOAD).ok()
}
