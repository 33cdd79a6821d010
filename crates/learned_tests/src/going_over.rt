use crate::files::{
    COUNTED, FileContent, IN_ORDER, ONCE, TAKEN_BACK, THREE_AND_FOUR, TWICE, TWO_AND_THREE,
    TWO_WORDS, bytes_of,
};
use crate::journals::expect_file;
use crate::stores::{StoreStep, disk_after};
use expectations::same_at;
use skk_disk::{MemDisk, Which};
use std::alloc::Global;
use std::process::Abort;

// A limit, what is asked of new files, what the answers tell, and what both files have then.
type Kept<'a> = (
    u64,
    &'a [StoreStep<'a>],
    &'a str,
    FileContent<'a>,
    FileContent<'a>,
);

const ONE_LEARNING: &[StoreStep<'static>] = &[StoreStep::Learn("かんじ", "漢字")];

const TWO_LEARNINGS: &[StoreStep<'static>] = &[
    StoreStep::Learn("かんじ", "漢字"),
    StoreStep::Learn("かんじ", "漢字"),
];

const THREE_LEARNINGS: &[StoreStep<'static>] = &[
    StoreStep::Learn("かんじ", "漢字"),
    StoreStep::Learn("かんじ", "漢字"),
    StoreStep::Learn("かんじ", "漢字"),
];

const FOUR_LEARNINGS: &[StoreStep<'static>] = &[
    StoreStep::Learn("かんじ", "漢字"),
    StoreStep::Learn("かんじ", "漢字"),
    StoreStep::Learn("かんじ", "漢字"),
    StoreStep::Learn("かんじ", "漢字"),
];

const NONE: FileContent<'static> = FileContent::Bytes(b"");

static KEPT: &[Kept<'static>] = &[
    (
        64,
        ONE_LEARNING,
        "Learned 1\n",
        FileContent::Headed(1, 1, ONCE),
        NONE,
    ),
    // A file with the row that is live has 61 bytes, so that a second record of 43 has no room there either.
    (
        64,
        TWO_LEARNINGS,
        "Learned 1\nJournalFull { end: 61, need: 43, limit: 64 }\n",
        FileContent::Headed(1, 1, ONCE),
        NONE,
    ),
    (
        110,
        TWO_LEARNINGS,
        "Learned 1\nLearned 2\n",
        FileContent::Headed(1, 1, TWICE),
        NONE,
    ),
    // The row goes over to the other file with its stamp, and back again.
    (
        110,
        THREE_LEARNINGS,
        "Learned 1\nLearned 2\nLearned 3\n",
        FileContent::Headed(1, 1, TWICE),
        FileContent::Headed(1, 2, TWO_AND_THREE),
    ),
    (
        110,
        FOUR_LEARNINGS,
        "Learned 1\nLearned 2\nLearned 3\nLearned 4\n",
        FileContent::Headed(1, 3, THREE_AND_FOUR),
        FileContent::Headed(1, 2, TWO_AND_THREE),
    ),
    // A book without rows keeps its count.
    (
        100,
        &[
            StoreStep::Learn("かさ", "傘"),
            StoreStep::Unlearn,
            StoreStep::Learn("き", "木"),
        ],
        "Learned 1\nRestored\nLearned 2\n",
        FileContent::Headed(1, 1, TAKEN_BACK),
        FileContent::Headed(1, 2, COUNTED),
    ),
    // Rows go over in the order of their readings, each with its own stamp and the count of the book.
    (
        130,
        &[
            StoreStep::Learn("き", "木"),
            StoreStep::Learn("かさ", "傘"),
            StoreStep::Learn("かさ", "傘"),
            StoreStep::Learn("き", "木"),
        ],
        "Learned 1\nLearned 2\nLearned 3\nLearned 4\n",
        FileContent::Headed(1, 1, TWO_WORDS),
        FileContent::Headed(1, 2, IN_ORDER),
    ),
];

#[test]
fn a_file_that_is_full_goes_over_to_the_other_one(rt: HostRuntime) {
    expect_all_kept(&rt, rt.alloc())
}

fn expect_all_kept<R: Abort>(rt: &R, alloc: Global) {
    for kept in KEPT {
        expect_kept(rt, alloc, kept);
    }
}

fn expect_kept<R: Abort>(rt: &R, alloc: Global, kept: &Kept) {
    let (limit, steps, wanted, a, b) = *kept;
    let disk = MemDisk::new(alloc, Vec::new(alloc));
    let mut told = String::new(alloc);
    let mut disk = disk_after(rt, alloc, disk, limit, steps, &mut told);
    same_at(told.as_str(), wanted, limit).expect(rt, "as wanted");
    let first = bytes_of(rt, alloc, a);
    expect_file(rt, alloc, &mut disk, Which::A, &first);
    let second = bytes_of(rt, alloc, b);
    expect_file(rt, alloc, &mut disk, Which::B, &second);
}
