use crate::journals::text;
use expectations::same_at;
use skk_disk::{Disk, FileDisk, MadeCall, MemDisk, Which};
use skk_outside::Failed;
use std::alloc::Global;
use std::fs::{self, File, Files};
use std::process::Abort;

// A call of a disk and its answer. Of a read there is the place that is read from, and behind the answer all of the
// buffer then, which was dots.
#[derive(Clone, Copy, Debug)]
enum DiskStep<'a> {
    Len(Which, Result<u64, Failed>),
    Read(Which, u64, Result<usize, Failed>, &'a str),
    Write(Which, u64, &'a str, Result<(), Failed>),
    Cut(Which, u64, Result<(), Failed>),
    Sync(Which, Result<(), Failed>),
}

// Makes calls of a disk one after another. What its answers say besides is none of a test's business, and a call that
// stands alone is proved in a moment.
fn expect_steps<R: Abort, D: Disk>(rt: &R, alloc: Global, disk: &mut D, steps: &[DiskStep]) {
    for step in steps {
        expect_step(rt, alloc, disk, *step);
    }
}

fn expect_step<R: Abort, D: Disk>(rt: &R, alloc: Global, disk: &mut D, step: DiskStep) {
    match step {
        DiskStep::Len(file, answer) => same_at(disk.len(file), answer, step).expect(
            rt,
            "as wanted",
        ),
        DiskStep::Read(file, at, answer, left) => {
            let mut into = vec![in alloc; b'.'; left.len()].expect(rt, "memory");
            same_at(disk.read_at(file, at, &mut into), answer, step).expect(rt, "as wanted");
            same_at(into.as_slice(), left.as_bytes(), step).expect(rt, "as wanted");
        }
        DiskStep::Write(file, at, from, answer) => {
            same_at(disk.write_at(file, at, from.as_bytes()), answer, step).expect(rt, "as wanted");
        }
        DiskStep::Cut(file, len, answer) => same_at(disk.cut(file, len), answer, step).expect(
            rt,
            "as wanted",
        ),
        DiskStep::Sync(file, answer) => same_at(disk.sync(file), answer, step).expect(
            rt,
            "as wanted",
        ),
    }
}

// A call that was made, a write and a cut that failed, and a sync that was made.
fn records_what_failed(made: &[MadeCall]) -> bool {
    matches!(
        made,
        [
            _,
            MadeCall::TornWrite {
                at: 1,
                count: 3,
                ..
            },
            MadeCall::TornCut { len: 1, .. },
            MadeCall::Sync { .. }
        ]
    )
}

static FAILING: &[DiskStep<'static>] = &[
    DiskStep::Write(Which::A, 0, "abc", Ok(())),
    DiskStep::Write(Which::A, 1, "xyz", Err(Failed)),
    DiskStep::Len(Which::A, Ok(3)),
    DiskStep::Cut(Which::A, 1, Err(Failed)),
    DiskStep::Sync(Which::A, Ok(())),
    DiskStep::Sync(Which::A, Err(Failed)),
    DiskStep::Read(Which::A, 0, Ok(3), "abc."),
    DiskStep::Read(Which::A, 0, Err(Failed), "."),
    DiskStep::Len(Which::B, Ok(0)),
    DiskStep::Len(Which::A, Err(Failed)),
];

#[test]
fn a_disk_in_memory_fails_at_the_calls_that_are_to_fail(rt: HostRuntime) {
    let alloc = rt.alloc();
    let mut disk = MemDisk::new(alloc, vec![in alloc; 2, 4, 6, 8, 10].expect(&rt, "memory"));
    expect_steps(&rt, alloc, &mut disk, FAILING);
    assert!(rt; records_what_failed(disk.made()));
}

// Changes of the first file, and what a read of it from its second byte on gives afterwards.
static CHANGES: &[DiskStep<'static>] = &[
    DiskStep::Write(Which::A, 2, "abcd", Ok(())),
    DiskStep::Read(Which::A, 1, Ok(5), "\0abcd."),
    DiskStep::Write(Which::A, 3, "xy", Ok(())),
    DiskStep::Read(Which::A, 1, Ok(4), "\0axy"),
    DiskStep::Cut(Which::A, 9, Ok(())),
    DiskStep::Len(Which::A, Ok(6)),
    DiskStep::Cut(Which::A, 4, Ok(())),
    DiskStep::Read(Which::A, 1, Ok(3), "\0ax."),
    DiskStep::Read(Which::A, 4, Ok(0), "."),
    DiskStep::Read(Which::A, 1 << 40, Ok(0), "."),
    DiskStep::Write(Which::A, 1, "", Ok(())),
    DiskStep::Write(Which::A, 6, "", Ok(())),
    DiskStep::Read(Which::A, 3, Ok(3), "x\0\0."),
    DiskStep::Sync(Which::A, Ok(())),
    DiskStep::Len(Which::B, Ok(0)),
];

#[test]
fn a_disk_in_memory_is_written_cut_and_read(rt: HostRuntime) {
    let mut disk = MemDisk::new(rt.alloc(), Vec::new(rt.alloc()));
    expect_steps(&rt, rt.alloc(), &mut disk, CHANGES);
    let written = matches!(
        disk.made(),
        [
            MadeCall::Write {
                file: Which::A,
                at: 2,
                ..
            },
            ..
        ]
    );
    assert!(rt; written);
}

// Makes calls of the disk that two files of the system are.
fn expect_files<R: Abort + Files<File = File>>(
    rt: &R,
    alloc: Global,
    a: &str,
    b: &str,
    steps: &[DiskStep],
) {
    let a = text(rt, alloc, a);
    let mut disk = FileDisk::new(rt, a, text(rt, alloc, b));
    expect_steps(rt, alloc, &mut disk, steps)
}

// Makes calls of a disk while another one has its first file.
fn expect_taken<R: Abort + Files<File = File>>(rt: &R, alloc: Global, a: &str, b: &str) {
    let name = text(rt, alloc, a);
    let mut first = FileDisk::new(rt, name, text(rt, alloc, b));
    expect_steps(rt, alloc, &mut first, OPENED);
    expect_files(rt, alloc, a, b, TAKEN);
    expect_steps(rt, alloc, &mut first, OPENED)
}

const FOLDER: &str = "learned_tests_disk";

static WRITTEN: &[DiskStep<'static>] = &[
    DiskStep::Read(Which::A, 0, Ok(6), "\0\0ax\0\0."),
    DiskStep::Len(Which::B, Err(Failed)),
    DiskStep::Write(Which::A, 1, "z", Ok(())),
    DiskStep::Write(Which::B, 0, "x", Err(Failed)),
    DiskStep::Cut(Which::A, 3, Ok(())),
    DiskStep::Cut(Which::B, 0, Err(Failed)),
    DiskStep::Sync(Which::A, Ok(())),
    DiskStep::Sync(Which::B, Err(Failed)),
    DiskStep::Read(Which::B, 0, Err(Failed), "."),
    DiskStep::Read(Which::A, 0, Ok(3), "\0za."),
    DiskStep::Len(Which::A, Ok(3)),
];

// A second file whose folder is not there is empty until it is written.
static ABSENT: &[DiskStep<'static>] = &[
    DiskStep::Len(Which::B, Ok(0)),
    DiskStep::Read(Which::B, 0, Ok(0), "."),
    DiskStep::Cut(Which::B, 0, Ok(())),
    DiskStep::Sync(Which::B, Ok(())),
    DiskStep::Write(Which::B, 0, "x", Err(Failed)),
    DiskStep::Len(Which::B, Ok(0)),
    DiskStep::Len(Which::A, Ok(3)),
];

static OPENED: &[DiskStep<'static>] = &[DiskStep::Len(Which::A, Ok(6))];

static TAKEN: &[DiskStep<'static>] = &[
    DiskStep::Len(Which::A, Err(Failed)),
    DiskStep::Read(Which::A, 0, Err(Failed), "."),
    DiskStep::Write(Which::A, 0, "x", Err(Failed)),
    DiskStep::Cut(Which::A, 0, Err(Failed)),
    DiskStep::Sync(Which::A, Err(Failed)),
    DiskStep::Len(Which::B, Ok(0)),
];

static SHUT: &[DiskStep<'static>] = &[
    DiskStep::Write(Which::A, 0, "x", Err(Failed)),
    DiskStep::Sync(Which::A, Err(Failed)),
];

static FULL: &[DiskStep<'static>] = &[
    DiskStep::Write(Which::A, 0, "x", Err(Failed)),
    DiskStep::Write(Which::A, 0, "", Ok(())),
];

#[test]
fn files_of_the_system_are_a_disk(rt: HostRuntime) {
    // One that an earlier run left, which was stopped.
    let _ = fs::remove_dir_all(&rt, FOLDER);
    fs::create_dir(&rt, FOLDER).expect(&rt, "memory");
    expect_files(
        &rt,
        rt.alloc(),
        "learned_tests_disk/a",
        "learned_tests_disk/b",
        CHANGES,
    );
    // Its first file is another's as long as that one is there, and no longer.
    expect_taken(
        &rt,
        rt.alloc(),
        "learned_tests_disk/a",
        "learned_tests_disk/b",
    );
    // Another one finds in it what was written; its second file is a folder, or in one that is not there.
    expect_files(&rt, rt.alloc(), "learned_tests_disk/a", FOLDER, WRITTEN);
    expect_files(
        &rt,
        rt.alloc(),
        "learned_tests_disk/a",
        "learned_tests_disk/no/b",
        ABSENT,
    );
    // A folder in which nothing can be made.
    expect_files(&rt, rt.alloc(), "/proc/learned_tests_a", "/dev/null", SHUT);
    // A device that is full.
    expect_files(&rt, rt.alloc(), "/dev/full", "/dev/null", FULL);
    fs::remove_dir_all(&rt, FOLDER).expect(&rt, "memory");
}
