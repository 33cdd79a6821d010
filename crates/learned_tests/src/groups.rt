use crate::images::{Torn, cases_of, disk_left};
use crate::journals::{
    JournalStep, LEARNING, disk_of, expect_file, expect_journal, expect_kinds, expect_records,
    failing_disk,
};
use expectations::same_at;
use skk_disk::{Disk, MadeCall, Which};
use skk_journal::{AppendFault, Journal};
use std::alloc::Global;
use std::process::Abort;

// Two records that are added together: the gate of the first one is not among these bytes, the other one has an open
// gate, and a closed gate ends them.
const GROUP: &[u8] = b"\x01\0\0\0x\x01\x02\0\0\0yz\0";

// A limit that nothing here comes to.
const FAR: u64 = 1_000_000;

// They need 13 bytes, and each of the others here 6.
const FULL: AppendFault = AppendFault::Full {
    end: 18,
    need: 13,
    limit: 30,
};

static TOGETHER: &[JournalStep<'static>] = &[
    JournalStep::AppendMany(30, GROUP, Err(FULL)),
    JournalStep::End(18),
    JournalStep::AppendMany(31, GROUP, Ok(())),
    JournalStep::End(31),
    JournalStep::Append(FAR, b"w", Ok(())),
    JournalStep::AppendMany(FAR, GROUP, Ok(())),
    JournalStep::AppendMany(FAR, b"\x01\0\0\0v\0", Ok(())),
    JournalStep::End(56),
    JournalStep::InDoubt(false),
];

// The records of these, with their places, and the file that has them.
static ADDED: &[(u64, &[u8])] = &[
    (17, b"x"),
    (23, b"yz"),
    (30, b"w"),
    (36, b"x"),
    (42, b"yz"),
    (49, b"v"),
];

const ADDED_FILE: &[u8] = b"\x01SKKDESK\x01\x01\0\0\0\0\0\0\0\
    \x01\x01\0\0\0x\x01\x02\0\0\0yz\x01\x01\0\0\0w\
    \x01\x01\0\0\0x\x01\x02\0\0\0yz\x01\x01\0\0\0v\0";

#[test]
fn records_that_are_added_together_are_four_calls(rt: HostRuntime) {
    let alloc = rt.alloc();
    let disk = disk_of(&rt, alloc, b"", &[]);
    let mut disk = expect_journal(&rt, alloc, disk, &[], TOGETHER);
    expect_kinds(&rt, alloc, &disk, "sswscwwswswswswswswswswsws");
    expect_file(&rt, alloc, &mut disk, Which::A, ADDED_FILE);
    expect_journal(&rt, alloc, disk, ADDED, &[]);
    expect_long(&rt, alloc);
}

// Tells that records together may have more bytes than the longest record.
fn expect_long<R: Abort>(rt: &R, alloc: Global) {
    let long = vec![in alloc; 1; 70_000].expect(rt, "memory");
    let mut group = Vec::new(alloc);
    let pieces: [&[u8]; 5] = [b"p\x11\x01\0", &long, b"\x01p\x11\x01\0", &long, b"\0"];
    for piece in pieces {
        group.extend_from_slice(piece).expect(rt, "memory");
    }
    expect_both(rt, alloc, &group, &long)
}

fn expect_both<'x, R: Abort>(rt: &R, alloc: Global, group: &'x [u8], long: &'x [u8]) {
    let steps = [
        JournalStep::AppendMany(FAR, group, Ok(())),
        JournalStep::End(140_028),
    ];
    let disk = disk_of(rt, alloc, b"", &[]);
    let disk = expect_journal(rt, alloc, disk, &[], &steps);
    expect_journal(rt, alloc, disk, &[(17, long), (70_022, long)], &[]);
}

// A file with one record, to which two are added: all that there may be.
static LEFT: &[(u64, &[u8])] = &[(17, LEARNING), (60, b"x"), (66, b"yz")];

// A call of the disk that fails while they are added, of which the first one is the tenth; whether they are in doubt
// then, how many records a stop may leave, and the kinds of all calls, also of those of a repair and of the same
// addition once more.
type Failing = (u64, bool, &'static [usize], &'static str);

static FAILING: &[Failing] = &[
    (10, false, &[1], "wsssWwsws"),
    (11, false, &[1], "wssswwsws"),
    (12, true, &[1, 3], "wssswsWwswsws"),
    (13, true, &[1, 3], "wssswswwswsws"),
];

#[test]
fn a_stop_leaves_none_of_the_records_that_are_added_together_or_all(rt: HostRuntime) {
    for row in FAILING {
        expect_stop(&rt, rt.alloc(), row);
        expect_again(&rt, rt.alloc(), row);
    }
}

// Tells what a stop leaves where a call fails.
fn expect_stop<R: Abort>(rt: &R, alloc: Global, row: &Failing) {
    let (call, in_doubt, left, _) = *row;
    let steps = [
        JournalStep::AppendMany(FAR, GROUP, Err(AppendFault::Disk)),
        JournalStep::InDoubt(in_doubt),
        JournalStep::End(61),
    ];
    let disk = failing_disk(rt, alloc, &[call]);
    let disk = expect_journal(rt, alloc, disk, &LEFT[..1], &steps);
    expect_left(rt, alloc, disk.made(), left, call);
}

// Tells that the same records are added once more, behind a repair, and that a stop leaves them then.
fn expect_again<R: Abort>(rt: &R, alloc: Global, row: &Failing) {
    let (call, _, _, kinds) = *row;
    let steps = [
        JournalStep::AppendMany(FAR, GROUP, Err(AppendFault::Disk)),
        JournalStep::Repair(Ok(())),
        JournalStep::AppendMany(FAR, GROUP, Ok(())),
        JournalStep::End(74),
    ];
    let disk = failing_disk(rt, alloc, &[call]);
    let disk = expect_journal(rt, alloc, disk, &LEFT[..1], &steps);
    expect_kinds(rt, alloc, &disk, kinds);
    expect_left(rt, alloc, disk.made(), &[3], call);
}

// Tells how many records a stop behind these calls may leave: each number once, in order.
fn expect_left<R: Abort>(rt: &R, alloc: Global, made: &[MadeCall], wanted: &[usize], call: u64) {
    let mut counts = Vec::new(alloc);
    for torn in cases_of(made, Which::A) {
        let disk = disk_left(rt, alloc, made, *torn, Torn::Done);
        let count = count_of(rt, alloc, disk);
        if !counts.contains(&count) {
            counts.push(count).expect(rt, "memory");
        }
    }
    counts.sort_unstable();
    same_at(counts.as_slice(), wanted, call).expect(rt, "as wanted");
}

// How many records a disk is opened with: the first ones of all that there may be.
fn count_of<R: Abort, D: Disk + Drop>(rt: &R, alloc: Global, disk: D) -> usize {
    match Journal::open(alloc, disk, 1) {
        Ok((_journal, records)) => {
            let count = records.len();
            expect_records(rt, &records, &LEFT[..count.min(LEFT.len())]);
            count
        }
        Err(unopened) => panic!(rt; "{}", unopened.why),
    }
}
