use crate::journals::write;
use crate::stores::{StoreStep, ask_each, lines, opened_file};
use expectations::same_at;
use skk_disk::{Disk, MadeCall, MemDisk, Which};
use std::alloc::Global;
use std::process::Abort;

// The reading and the word that are learnt again and again here.
pub(crate) const LEARNING: &[StoreStep<'static>] = &[StoreStep::Learn("かんじ", "漢字")];

// A limit that nothing here comes to.
const FAR: u64 = 1_000_000;

// What a stop leaves of the calls on a file that no sync of it followed.
#[derive(Clone, Copy, Debug)]
pub(crate) enum Torn {
    // Nothing.
    Nothing,
    // All that was done, and nothing of what failed.
    Done,
    // The cuts, and ones wherever bytes were to be written: open gates.
    Ones,
    // The cuts, and zeros there.
    Zeros,
    // The first half of the bytes of each write that was done.
    Halves,
}

static TORN: &[Torn] = &[
    Torn::Nothing,
    Torn::Done,
    Torn::Ones,
    Torn::Zeros,
    Torn::Halves,
];

static DONE: &[Torn] = &[Torn::Done];

// How often the word was learnt, as the disks have it that a stop behind these calls may leave: each number once, in
// order. Of all that the rules of a disk allow for a file with calls that no sync followed five cases are looked at.
pub(crate) fn counts_left<R: Abort>(rt: &R, alloc: Global, made: &[MadeCall]) -> Vec<u64> {
    let mut counts = Vec::new(alloc);
    for first in cases_of(made, Which::A) {
        add_counts(rt, alloc, made, *first, &mut counts);
    }
    counts.sort_unstable();
    counts
}

// Adds what is left where the first file is torn so, and the second one in each way.
fn add_counts<R: Abort>(
    rt: &R,
    alloc: Global,
    made: &[MadeCall],
    first: Torn,
    counts: &mut Vec<u64>,
) {
    for second in cases_of(made, Which::B) {
        let disk = disk_left(rt, alloc, made, first, *second);
        let count = count_of(rt, alloc, disk);
        if !counts.contains(&count) {
            counts.push(count).expect(rt, "memory");
        }
    }
}

// What a stop behind these calls may leave of a file.
pub(crate) fn cases_of(made: &[MadeCall], file: Which) -> &'static [Torn] {
    let mut is_synced = true;
    for call in made {
        if file_of(call) == file {
            is_synced = is_sync(call);
        }
    }
    if is_synced { DONE } else { TORN }
}

// How often the word was learnt, as a disk has it: that many times, since the next time has the stamp behind these.
fn count_of<R: Abort, D: Disk + Drop>(rt: &R, alloc: Global, disk: D) -> u64 {
    let mut store = opened_file(rt, alloc, disk, FAR);
    let rows = lines(rt, alloc, &store);
    let mut told = String::new(alloc);
    ask_each(rt, alloc, &mut store, LEARNING, &mut told);
    let next = stamp_told(rt, told.as_str());
    let wanted = if next == 1 { "" } else { "かんじ /漢字/\n" };
    same_at(rows.as_str(), wanted, next).expect(rt, "as wanted");
    next.saturating_sub(1)
}

// The stamp of a word that was learnt, as the answer is told.
fn stamp_told<R: Abort>(rt: &R, told: &str) -> u64 {
    let stamp = told.strip_prefix("Learned ").expect(rt, "it is learnt");
    stamp.trim_end().parse().expect(rt, "a number")
}

// The disk that a stop behind these calls leaves.
pub(crate) fn disk_left<R: Abort>(
    rt: &R,
    alloc: Global,
    made: &[MadeCall],
    first: Torn,
    second: Torn,
) -> MemDisk {
    let mut disk = MemDisk::new(alloc, Vec::new(alloc));
    for (place, call) in made.iter().enumerate() {
        let torn = if is_synced(made, place, file_of(call)) {
            Torn::Done
        } else {
            match file_of(call) {
                Which::A => first,
                Which::B => second,
            }
        };
        leave(rt, alloc, &mut disk, call, torn);
    }
    disk
}

// Whether a file is synced by one of these calls from a place of theirs on.
fn is_synced(made: &[MadeCall], place: usize, file: Which) -> bool {
    for call in made.iter().skip(place) {
        if is_sync(call) && file_of(call) == file {
            return true;
        }
    }
    false
}

fn is_sync(call: &MadeCall) -> bool {
    matches!(call, MadeCall::Sync { .. })
}

// The file of a call.
fn file_of(call: &MadeCall) -> Which {
    match call {
        MadeCall::Write { file, .. }
        | MadeCall::TornWrite { file, .. }
        | MadeCall::Cut { file, .. }
        | MadeCall::TornCut { file, .. }
        | MadeCall::Sync { file } => *file,
    }
}

// Does as much of a call as a stop leaves of it.
fn leave<R: Abort>(rt: &R, alloc: Global, disk: &mut MemDisk, call: &MadeCall, torn: Torn) {
    match call {
        MadeCall::Write { file, at, bytes } => {
            leave_write(rt, alloc, disk, *file, *at, bytes.as_slice(), torn);
        }
        MadeCall::TornWrite { file, at, count } => {
            leave_torn_write(rt, alloc, disk, *file, *at, *count, torn);
        }
        MadeCall::Cut { file, len } => leave_cut(rt, disk, *file, *len, torn, true),
        MadeCall::TornCut { file, len } => leave_cut(rt, disk, *file, *len, torn, false),
        MadeCall::Sync { .. } => {}
    }
}

fn leave_write<R: Abort>(
    rt: &R,
    alloc: Global,
    disk: &mut MemDisk,
    file: Which,
    at: u64,
    bytes: &[u8],
    torn: Torn,
) {
    match torn {
        Torn::Nothing => {}
        Torn::Done => write(rt, disk, file, at, bytes),
        Torn::Ones => write_each(rt, alloc, disk, file, at, bytes.len(), 1),
        Torn::Zeros => write_each(rt, alloc, disk, file, at, bytes.len(), 0),
        Torn::Halves => write(rt, disk, file, at, &bytes[..bytes.len() / 2]),
    }
}

// A write that failed: which bytes it was to write is not known.
fn leave_torn_write<R: Abort>(
    rt: &R,
    alloc: Global,
    disk: &mut MemDisk,
    file: Which,
    at: u64,
    count: u64,
    torn: Torn,
) {
    match torn {
        Torn::Nothing | Torn::Done | Torn::Halves => {}
        Torn::Ones => write_each(rt, alloc, disk, file, at, count as usize, 1),
        Torn::Zeros => write_each(rt, alloc, disk, file, at, count as usize, 0),
    }
}

// Writes so many times this byte.
fn write_each<R: Abort>(
    rt: &R,
    alloc: Global,
    disk: &mut MemDisk,
    file: Which,
    at: u64,
    count: usize,
    byte: u8,
) {
    let bytes = vec![in alloc; byte; count].expect(rt, "memory");
    write(rt, disk, file, at, &bytes);
}

fn leave_cut<R: Abort>(
    rt: &R,
    disk: &mut MemDisk,
    file: Which,
    len: u64,
    torn: Torn,
    is_done: bool,
) {
    let is_left = match torn {
        Torn::Nothing | Torn::Halves => false,
        Torn::Done => is_done,
        Torn::Ones | Torn::Zeros => true,
    };
    if is_left {
        same_at(disk.cut(file, len), Ok(()), len).expect(rt, "as wanted");
    }
}
