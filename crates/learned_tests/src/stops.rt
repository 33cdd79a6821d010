use crate::files::{FileContent, TWICE, bytes_of};
use crate::images::{LEARNING, counts_left};
use crate::journals::{NEW_FILE_OF_THREE, disk_of_both, expect_file, kinds};
use crate::stores::{ask_each, lines, open_file, opened_file};
use expectations::same_at;
use skk_disk::{Disk, MemDisk, Which};
use skk_journal::{OpenFault, Unopened};
use std::alloc::Global;
use std::process::Abort;

// A file with one record has 61 bytes, one with two 104, and a third one needs 43.
const LIMIT: u64 = 110;

// A change: what both files have, how often the word is learnt before, and what is told of that; how many calls of the
// disk are made up to then, those that read among them, and what kinds of them are recorded; the stamp that the change
// gets, and the kinds of its calls.
#[derive(Clone, Copy, Debug)]
struct StoppedChange<'a> {
    a: FileContent<'a>,
    b: FileContent<'a>,
    learnt: u64,
    told: &'a str,
    before: u64,
    made: &'a str,
    stamp: u64,
    calls: &'a str,
}

// The first and the last of some calls of a change, counted from 1. Where one of them fails: whether a gate is in doubt
// then, how often a stop within it may leave the word learnt, and the kinds of the calls of the same change when it is
// made again, behind those that close the gate.
type Failing<'a> = (u64, u64, bool, &'a [u64], &'a str);

// An opening of empty files: both are synced and read, and the first one is filled.
const OPENED: &str = "sswscwwsws";

// Two files of which none is live, and the numbers of the calls of their opening, without those that read.
type Opening<'a> = (FileContent<'a>, FileContent<'a>, &'a [u64]);

static OPENINGS: &[Opening<'static>] = &[
    (
        FileContent::Bytes(b""),
        FileContent::Bytes(b""),
        &[1, 2, 5, 6, 7, 8, 9, 10, 11, 12],
    ),
    // The first byte of a file is 0, so that it is not written again.
    (
        FileContent::Headed(0, 5, TWICE),
        FileContent::Bytes(b""),
        &[3, 4, 7, 8, 9, 10, 11, 12],
    ),
    // It is another one than 1: an older generation without records is written first, so that no stop makes it live.
    (
        FileContent::Headed(7, 5, TWICE),
        FileContent::Headed(9, 6, TWICE),
        &[5, 6, 9, 10, 11, 12, 13, 14, 15, 16, 17, 18],
    ),
];

// Where the first record is added, and where the second one is.
const FIRST: StoppedChange<'static> = StoppedChange {
    a: FileContent::Bytes(b""),
    b: FileContent::Bytes(b""),
    learnt: 0,
    told: "",
    before: 12,
    made: OPENED,
    stamp: 1,
    calls: "wsws",
};

const SECOND: StoppedChange<'static> = StoppedChange {
    a: FileContent::Bytes(b""),
    b: FileContent::Bytes(b""),
    learnt: 1,
    told: "Learned 1\n",
    before: 16,
    made: "sswscwwswswsws",
    stamp: 2,
    calls: "wsws",
};

// The third one has no room: the other file's first byte is made 0, it is filled with the row and made live, and then
// the record is added there.
const THIRD: StoppedChange<'static> = StoppedChange {
    a: FileContent::Bytes(b""),
    b: FileContent::Bytes(b""),
    learnt: 2,
    told: "Learned 1\nLearned 2\n",
    before: 20,
    made: "sswscwwswswswswsws",
    stamp: 3,
    calls: "wscwwwswswsws",
};

// The same where both files were there before, with more in the second one. Its first byte is 0 already.
const BLANK: StoppedChange<'static> = StoppedChange {
    a: FileContent::Headed(1, 1, TWICE),
    b: FileContent::Headed(0, 2, TWICE),
    learnt: 0,
    told: "",
    before: 11,
    made: "wswsss",
    stamp: 3,
    calls: "cwwwswswsws",
};

// It has records that were live before those of the first one, of a generation that the next one follows.
const LOOSE: StoppedChange<'static> = StoppedChange {
    a: FileContent::Headed(1, 0, TWICE),
    b: FileContent::Headed(1, 18_446_744_073_709_551_615, b"\x01\x01\0\0\0x\0"),
    learnt: 0,
    told: "",
    before: 11,
    made: "wswsss",
    stamp: 3,
    calls: "wscwwwswswsws",
};

// It has one byte.
const BYTE: StoppedChange<'static> = StoppedChange {
    a: FileContent::Headed(1, 1, TWICE),
    b: FileContent::Bytes(b"\xff"),
    learnt: 0,
    told: "",
    before: 12,
    made: "wswsss",
    stamp: 3,
    calls: "wscwwwswswsws",
};

// Its records would be live if its first byte were 1, so that it gets an older generation and no records first.
const STRAY: StoppedChange<'static> = StoppedChange {
    a: FileContent::Headed(1, 18_446_744_073_709_551_615, TWICE),
    b: FileContent::Headed(7, 0, b"\x01\x01\0\0\0x\0"),
    learnt: 0,
    told: "",
    before: 11,
    made: "wswsss",
    stamp: 3,
    calls: "wswscwwwswswsws",
};

// The live file is the second one.
const BACK: StoppedChange<'static> = StoppedChange {
    a: FileContent::Headed(9, 6, b"\0"),
    b: FileContent::Headed(1, 5, TWICE),
    learnt: 0,
    told: "",
    before: 11,
    made: "wswsss",
    stamp: 3,
    calls: "wswscwwwswswsws",
};

// What a change in an empty file, or in one with room, comes to where one of its calls fails.
const FIRST_FAILING: &[Failing<'static>] = &[
    (1, 2, false, &[0], "wsws"),
    (3, 4, true, &[0, 1], "wsws"),
];

const SECOND_FAILING: &[Failing<'static>] = &[
    (1, 2, false, &[1], "wsws"),
    (3, 4, true, &[1, 2], "wsws"),
];

// The other file's first byte is written again where it was not made 0; where it was, it is known. Where a write of the
// 1 was begun, its gate is in doubt. Once it is live the record alone is wanting.
const THIRD_FAILING: &[Failing<'static>] = &[
    (1, 2, false, &[2], "wscwwwswswsws"),
    (3, 7, false, &[2], "cwwwswswsws"),
    (8, 9, true, &[2], "cwwwswswsws"),
    (10, 11, false, &[2], "wsws"),
    (12, 13, true, &[2, 3], "wsws"),
];

const BLANK_FAILING: &[Failing<'static>] = &[
    (1, 5, false, &[2], "cwwwswswsws"),
    (6, 7, true, &[2], "cwwwswswsws"),
    (8, 9, false, &[2], "wsws"),
    (10, 11, true, &[2, 3], "wsws"),
];

const STRAY_FAILING: &[Failing<'static>] = &[
    (1, 2, false, &[2], "wswscwwwswswsws"),
    (3, 4, false, &[2], "wscwwwswswsws"),
    (5, 9, false, &[2], "cwwwswswsws"),
    (10, 11, true, &[2], "cwwwswswsws"),
    (12, 13, false, &[2], "wsws"),
    (14, 15, true, &[2, 3], "wsws"),
];

type Row<'a> = (StoppedChange<'a>, &'a [Failing<'a>]);

static CHANGES: &[Row<'static>] = &[
    (FIRST, FIRST_FAILING),
    (SECOND, SECOND_FAILING),
    (THIRD, THIRD_FAILING),
];

static FILLINGS: &[Row<'static>] = &[
    (BLANK, BLANK_FAILING),
    (LOOSE, THIRD_FAILING),
    (BYTE, THIRD_FAILING),
    (STRAY, STRAY_FAILING),
    (BACK, STRAY_FAILING),
];

#[test]
fn a_stop_within_a_call_that_fails_leaves_what_was_or_is_to_be(rt: HostRuntime) {
    expect_openings(&rt, rt.alloc());
    expect_changes(&rt, rt.alloc(), CHANGES)
}

#[test]
fn a_file_is_filled_over_whatever_it_had(rt: HostRuntime) {
    expect_changes(&rt, rt.alloc(), FILLINGS)
}

fn expect_openings<R: Abort>(rt: &R, alloc: Global) {
    for opening in OPENINGS {
        expect_numbers(rt, alloc, opening);
    }
}

fn expect_numbers<R: Abort>(rt: &R, alloc: Global, opening: &Opening) {
    let (a, b, numbers) = *opening;
    let first = bytes_of(rt, alloc, a);
    let second = bytes_of(rt, alloc, b);
    for call in numbers {
        expect_opening(rt, alloc, &first, &second, *call);
    }
}

// Tells that an opening whose call of this number fails leaves no word, and that the next one goes well.
fn expect_opening<R: Abort>(rt: &R, alloc: Global, a: &[u8], b: &[u8], call: u64) {
    let disk = disk_of_both(rt, alloc, a, b, &[call]);
    let Err(Unopened { disk, why }) = open_file(rt, alloc, disk, LIMIT) else {
        panic!(rt; "call {call} does not fail");
    };
    assert!(rt; matches!(why, OpenFault::Disk), "call {call}: {why}");
    expect_left(rt, alloc, &disk, &[0], call);
    let store = opened_file(rt, alloc, disk, LIMIT);
    let rows = lines(rt, alloc, &store);
    same_at(rows.as_str(), "", call).expect(rt, "as wanted");
    let mut disk = store.close();
    expect_left(rt, alloc, &disk, &[0], call);
    expect_file(rt, alloc, &mut disk, Which::A, NEW_FILE_OF_THREE);
    expect_file(rt, alloc, &mut disk, Which::B, b);
}

fn expect_changes<R: Abort>(rt: &R, alloc: Global, changes: &[Row]) {
    for (change, rows) in changes {
        expect_rows(rt, alloc, change, rows);
    }
}

fn expect_rows<R: Abort>(rt: &R, alloc: Global, change: &StoppedChange, rows: &[Failing]) {
    for row in rows {
        expect_calls(rt, alloc, change, row);
    }
}

fn expect_calls<R: Abort>(rt: &R, alloc: Global, change: &StoppedChange, row: &Failing) {
    let (first, last, ..) = *row;
    for call in first..=last {
        expect_failing(rt, alloc, change, row, call);
        expect_again(rt, alloc, change, row, call);
    }
}

// Tells what the change comes to whose call of this number fails.
fn expect_failing<R: Abort>(
    rt: &R,
    alloc: Global,
    change: &StoppedChange,
    row: &Failing,
    call: u64,
) {
    let (_, _, _, left, _) = *row;
    let mut told = String::new(alloc);
    let disk = disk_after(rt, alloc, change, call, 1, &mut told);
    let wanted = format!(in alloc; "{}Disk\n", change.told).expect(rt, "memory");
    same_at(told.as_str(), wanted.as_str(), call).expect(rt, "as wanted");
    expect_left(rt, alloc, &disk, left, call);
}

// Tells that the same change goes well when it is made once more, and which calls of the disk are recorded of both.
fn expect_again<R: Abort>(rt: &R, alloc: Global, change: &StoppedChange, row: &Failing, call: u64) {
    let (_, _, in_doubt, _, again) = *row;
    let mut told = String::new(alloc);
    let disk = disk_after(rt, alloc, change, call, 2, &mut told);
    let wanted = format!(in alloc; "{}Disk\nLearned {}\n", change.told, change.stamp).expect(
        rt, "memory",
    );
    same_at(told.as_str(), wanted.as_str(), call).expect(rt, "as wanted");
    let begun = calls_begun(rt, alloc, change.calls, call);
    let closed = if in_doubt { "ws" } else { "" };
    let wanted = format!(in alloc; "{}{begun}{closed}{again}", change.made).expect(rt, "memory");
    let made = kinds(rt, alloc, disk.made());
    same_at(made.as_str(), wanted.as_str(), call).expect(rt, "as wanted");
    expect_left(rt, alloc, &disk, &[change.stamp], call);
}

// The calls of a change up to the one with this number, as they are recorded where it fails: a sync is not, and a write
// or a cut in upper case.
fn calls_begun<R: Abort>(rt: &R, alloc: Global, calls: &str, call: u64) -> String {
    let mut begun = String::new(alloc);
    let mut left = call;
    for kind in calls.chars() {
        if left > 1 {
            begun.push(kind).expect(rt, "memory");
        } else if left == 1 && kind != 's' {
            begun.push(kind.to_ascii_uppercase()).expect(rt, "memory");
        }
        left = left.saturating_sub(1);
    }
    begun
}

// The disk on which a change is asked for so many times, of which the call of this number fails, and what is told of
// that and of what was before.
fn disk_after<R: Abort>(
    rt: &R,
    alloc: Global,
    change: &StoppedChange,
    call: u64,
    times: u64,
    told: &mut String,
) -> MemDisk {
    let a = bytes_of(rt, alloc, change.a);
    let b = bytes_of(rt, alloc, change.b);
    let fails = [change.before.saturating_add(call)];
    let disk = disk_of_both(rt, alloc, &a, &b, &fails);
    let mut store = opened_file(rt, alloc, disk, LIMIT);
    for _ in 0..change.learnt.saturating_add(times) {
        ask_each(rt, alloc, &mut store, LEARNING, told);
    }
    store.close()
}

// Tells how often a stop on a disk may leave the word learnt.
fn expect_left<R: Abort>(rt: &R, alloc: Global, disk: &MemDisk, wanted: &[u64], call: u64) {
    let left = counts_left(rt, alloc, disk.made());
    same_at(left.as_slice(), wanted, call).expect(rt, "as wanted");
}
