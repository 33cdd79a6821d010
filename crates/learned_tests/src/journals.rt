use expectations::{same, same_at};
use skk_disk::{Disk, FileDisk, MadeCall, MemDisk, Which};
use skk_journal::{AppendFault, Journal, OpenFault, PAYLOAD_LIMIT, Records, Unopened};
use skk_outside::Failed;
use skk_text::Text;
use std::alloc::Global;
use std::fs;
use std::process::Abort;

// The payload of the first learning of 漢字 for かんじ in book 1.
pub(crate) const LEARNING: &[u8] = b"\x01\x01\0\x01\0\0\0\0\0\0\0\x01\0\0\0\0\0\0\0\0\
    \xe3\x81\x8b\xe3\x82\x93\xe3\x81\x98 /\xe6\xbc\xa2\xe5\xad\x97/";

// A new file, one of version 2, one of version 3, and the file with that record.
const NEW_FILE: &[u8] = b"\x01SKKDESK\x01\x01\0\0\0\0\0\0\0\0";

const NEW_FILE_OF_TWO: &[u8] = b"\x01SKKDESK\x02\x01\0\0\0\0\0\0\0\0";

pub(crate) const NEW_FILE_OF_THREE: &[u8] = b"\x01SKKDESK\x03\x01\0\0\0\0\0\0\0\0";

pub(crate) const LEARNT_FILE: &[u8] = b"\x01SKKDESK\x01\x01\0\0\0\0\0\0\0\x01\x26\0\0\0\
    \x01\x01\0\x01\0\0\0\0\0\0\0\x01\0\0\0\0\0\0\0\0\
    \xe3\x81\x8b\xe3\x82\x93\xe3\x81\x98 /\xe6\xbc\xa2\xe5\xad\x97/\0";

// A disk whose first file has these bytes: two calls, where there are any.
pub(crate) fn disk_of<R: Abort>(rt: &R, alloc: Global, bytes: &[u8], fails: &[u64]) -> MemDisk {
    disk_of_both(rt, alloc, bytes, b"", fails)
}

// A disk whose files have these bytes: two calls for each that has any.
pub(crate) fn disk_of_both<R: Abort>(
    rt: &R,
    alloc: Global,
    a: &[u8],
    b: &[u8],
    fails: &[u64],
) -> MemDisk {
    let mut disk = MemDisk::new(alloc, fails.to_vec(alloc).expect(rt, "memory"));
    fill(rt, &mut disk, Which::A, a);
    fill(rt, &mut disk, Which::B, b);
    disk
}

// Writes bytes into an empty file of a disk and syncs it, where there are any.
fn fill<R: Abort, D: Disk>(rt: &R, disk: &mut D, file: Which, bytes: &[u8]) {
    if !bytes.is_empty() {
        write(rt, disk, file, 0, bytes);
        same(disk.sync(file), Ok(())).expect(rt, "as wanted");
    }
}

// Writes bytes at a place of a file of a disk.
pub(crate) fn write<R: Abort, D: Disk>(rt: &R, disk: &mut D, file: Which, at: u64, bytes: &[u8]) {
    same(disk.write_at(file, at, bytes), Ok(())).expect(rt, "as wanted");
}

// Tells that a file of a disk has these bytes.
pub(crate) fn expect_file<R: Abort, D: Disk>(
    rt: &R,
    alloc: Global,
    disk: &mut D,
    file: Which,
    bytes: &[u8],
) {
    let mut into = vec![in alloc; 0; bytes.len() + 1].expect(rt, "memory");
    same(disk.read_at(file, 0, &mut into), Ok(bytes.len())).expect(rt, "as wanted");
    same(&into[..bytes.len()], bytes).expect(rt, "as wanted");
}

// Tells which records there are: the place and the payload of each.
pub(crate) fn expect_records<R: Abort>(rt: &R, records: &Records, expected: &[(u64, &[u8])]) {
    same(records.len(), expected.len()).expect(rt, "as wanted");
    for (found, (at, payload)) in records.iter().zip(expected) {
        same(found.at, *at).expect(rt, "as wanted");
        same(found.payload.as_slice(), *payload).expect(rt, "as wanted");
    }
}

// What is asked of a journal, and its answer: to add a record within a limit, or records together, to fill the other
// file with records, to repair what is in doubt, which file is live and of which version it is, where its records end,
// and whether a gate is in doubt.
#[derive(Clone, Copy, Debug)]
pub(crate) enum JournalStep<'a> {
    Append(u64, &'a [u8], Result<(), AppendFault>),
    AppendMany(u64, &'a [u8], Result<(), AppendFault>),
    Compact(&'a [u8], Result<(), Failed>),
    Repair(Result<(), Failed>),
    File(u8),
    Version(u8),
    End(u64),
    InDoubt(bool),
}

// Asks a journal one step after another. Each stands in a call of its own that tells its caller nothing, so that the
// proof of a test carries nothing from step to step.
fn expect_steps<R: Abort, D: Disk>(rt: &R, journal: &mut Journal<D>, steps: &[JournalStep]) {
    for step in steps {
        expect_step(rt, journal, *step);
    }
}

fn expect_step<R: Abort, D: Disk>(rt: &R, journal: &mut Journal<D>, step: JournalStep) {
    match step {
        JournalStep::Append(limit, payload, answer) => {
            same_at(append(rt, journal, limit, payload), answer, step).expect(rt, "as wanted");
        }
        JournalStep::AppendMany(limit, records, answer) => {
            same_at(append_many(rt, journal, limit, records), answer, step).expect(rt, "as wanted");
        }
        JournalStep::Compact(records, answer) => {
            same_at(compact(rt, journal, records), answer, step).expect(rt, "as wanted");
        }
        JournalStep::File(file) => same_at(journal.file(), file, step).expect(rt, "as wanted"),
        JournalStep::Version(version) => same_at(journal.version(), version, step).expect(
            rt,
            "as wanted",
        ),
        JournalStep::Repair(answer) => same_at(journal.repair(), answer, step).expect(
            rt,
            "as wanted",
        ),
        JournalStep::End(end) => same_at(journal.end(), end, step).expect(rt, "as wanted"),
        JournalStep::InDoubt(doubt) => same_at(journal.in_doubt(), doubt, step).expect(
            rt,
            "as wanted",
        ),
    }
}

// Adds a record, where nothing is in doubt and it may be one.
fn append<R: Abort, D: Disk>(
    rt: &R,
    journal: &mut Journal<D>,
    limit: u64,
    payload: &[u8],
) -> Result<(), AppendFault> {
    assert!(rt; !journal.in_doubt());
    assert!(rt; !payload.is_empty());
    assert!(rt; payload.len() <= PAYLOAD_LIMIT);
    journal.append(limit, payload)
}

// Adds records together, where nothing is in doubt.
fn append_many<R: Abort, D: Disk>(
    rt: &R,
    journal: &mut Journal<D>,
    limit: u64,
    records: &[u8],
) -> Result<(), AppendFault> {
    assert!(rt; !journal.in_doubt());
    journal.append_many(limit, records)
}

// Fills the other file, where nothing is in doubt.
fn compact<R: Abort, D: Disk>(
    rt: &R,
    journal: &mut Journal<D>,
    records: &[u8],
) -> Result<(), Failed> {
    assert!(rt; !journal.in_doubt());
    journal.compact(records)
}

// Opens the learned file of a disk, which has these records and is of version 1, asks steps of it, and gives the disk
// back.
pub(crate) fn expect_journal<R: Abort, D: Disk + Drop>(
    rt: &R,
    alloc: Global,
    disk: D,
    records: &[(u64, &[u8])],
    steps: &[JournalStep],
) -> D {
    expect_journal_up_to(rt, alloc, disk, 1, records, steps)
}

// The same where this is the newest version.
fn expect_journal_up_to<R: Abort, D: Disk + Drop>(
    rt: &R,
    alloc: Global,
    disk: D,
    newest: u8,
    records: &[(u64, &[u8])],
    steps: &[JournalStep],
) -> D {
    let mut journal = open(rt, alloc, disk, newest, records);
    expect_steps(rt, &mut journal, steps);
    journal.close()
}

// Opens the learned file of a disk, which has these records.
fn open<R: Abort, D: Disk + Drop>(
    rt: &R,
    alloc: Global,
    disk: D,
    newest: u8,
    expected: &[(u64, &[u8])],
) -> Journal<D> {
    assert!(rt; newest >= 1);
    match Journal::open(alloc, disk, newest) {
        Ok((journal, records)) => {
            expect_records(rt, &records, expected);
            journal
        }
        Err(unopened) => panic!(rt; "{}", unopened.why),
    }
}

// The disk of a learned file that is not opened where 1 is the newest version, and why.
fn unopened<D: Disk + Drop>(alloc: Global, disk: D) -> Option<Unopened<D>> {
    Journal::open(alloc, disk, 1).err()
}

#[test]
fn an_empty_file_is_made_anew_and_a_record_is_its_bytes(rt: HostRuntime) {
    let alloc = rt.alloc();
    let full = AppendFault::Full {
        end: 18,
        need: 43,
        limit: 60,
    };
    let steps = [
        JournalStep::End(18),
        JournalStep::Append(60, LEARNING, Err(full)),
        JournalStep::Append(61, LEARNING, Ok(())),
        JournalStep::End(61),
    ];
    let disk = disk_of(&rt, alloc, b"", &[]);
    let mut disk = expect_journal(&rt, alloc, disk, &[], &steps);
    same(disk.made().len(), 14).expect(&rt, "as wanted");
    expect_file(&rt, alloc, &mut disk, Which::A, LEARNT_FILE);
    let steps = [JournalStep::End(61), JournalStep::InDoubt(false)];
    expect_journal(&rt, alloc, disk, &[(17, LEARNING)], &steps);
}

// What a file is opened as: records with their places, its first byte, or the place that is refused and the records
// before it.
#[derive(Clone, Copy, Debug)]
enum OpenedRow {
    Anew,
    Records(&'static [(u64, &'static [u8])]),
    NotJournal(u8),
    BadRecord(u64, &'static [(u64, &'static [u8])]),
}

// Opens a file where 1 is the newest version, or 2, and tells that a file that is refused, or has records, is the same
// afterwards.
fn expect_row<R: Abort>(rt: &R, alloc: Global, newest: u8, bytes: &[u8], row: OpenedRow) {
    let left = match row {
        OpenedRow::Anew if newest == 1 => NEW_FILE,
        OpenedRow::Anew => NEW_FILE_OF_TWO,
        _ => bytes,
    };
    let disk = disk_of(rt, alloc, bytes, &[]);
    let mut disk = opened_as(rt, alloc, disk, newest, row);
    expect_file(rt, alloc, &mut disk, Which::A, left);
}

// The disk of a learned file that is opened as a row has it.
fn opened_as<R: Abort, D: Disk + Drop>(
    rt: &R,
    alloc: Global,
    disk: D,
    newest: u8,
    row: OpenedRow,
) -> D {
    assert!(rt; newest >= 1);
    match Journal::open(alloc, disk, newest) {
        Ok((journal, records)) => {
            expect_opened(rt, &records, row);
            journal.close()
        }
        Err(Unopened { disk, why }) => {
            expect_fault(rt, &why, row);
            disk
        }
    }
}

fn expect_opened<R: Abort>(rt: &R, records: &Records, row: OpenedRow) {
    match row {
        OpenedRow::Anew => expect_records(rt, records, &[]),
        OpenedRow::Records(expected) => expect_records(rt, records, expected),
        _ => assert!(rt; false, "{row:?} is opened"),
    }
}

fn expect_fault<R: Abort>(rt: &R, why: &OpenFault, row: OpenedRow) {
    match (why, row) {
        (OpenFault::NotJournal { file, first }, OpenedRow::NotJournal(byte)) => {
            same((*file, *first), (0, byte)).expect(rt, "as wanted");
        }
        (
            OpenFault::BadRecord {
                file,
                at,
                version: _,
                before,
            },
            OpenedRow::BadRecord(place, expected),
        ) => {
            same((*file, *at), (0, place)).expect(rt, "as wanted");
            expect_records(rt, before, expected);
        }
        _ => assert!(rt; false, "{row:?} is refused: {why}"),
    }
}

// A file, and what it is opened as.
static HEADS: &[(&[u8], OpenedRow)] = &[
    (b"", OpenedRow::Anew),
    (b"P", OpenedRow::Anew),
    (b"\x01", OpenedRow::Anew),
    (b"\0plain text", OpenedRow::Anew),
    (b"\x02SKKDESK\x01", OpenedRow::Anew),
    (b"\xffSKKDESK\x01 and text", OpenedRow::Anew),
    (b"P.", OpenedRow::NotJournal(80)),
    (b"\x01\x01", OpenedRow::NotJournal(1)),
    (b"\x01SKKDESK", OpenedRow::NotJournal(1)),
    (b"\x02SKKDESK", OpenedRow::NotJournal(2)),
    (
        b"\x01SKKDESK\x02\x01\0\0\0\0\0\0\0\0",
        OpenedRow::NotJournal(1),
    ),
    (
        b"\x01SKKDESC\x01\x01\0\0\0\0\0\0\0\0",
        OpenedRow::NotJournal(1),
    ),
    (b"\x01SKKDESK\x01", OpenedRow::BadRecord(9, &[])),
    (
        b"\x01SKKDESK\x01\x01\0\0\0\0\0\0",
        OpenedRow::BadRecord(9, &[]),
    ),
    (
        b"\x01SKKDESK\x01\x01\0\0\0\0\0\0\0",
        OpenedRow::BadRecord(17, &[]),
    ),
    (
        b"\x01SKKDESK\x01\x07\0\0\0\0\0\0\x09\0",
        OpenedRow::Records(&[]),
    ),
];

// The newest version, a file, and what it is opened as.
static VERSIONS: &[(u8, &[u8], OpenedRow)] = &[
    (
        1,
        b"\x01SKKDESK\0\x01\0\0\0\0\0\0\0\0",
        OpenedRow::NotJournal(1),
    ),
    (
        2,
        b"\x01SKKDESK\0\x01\0\0\0\0\0\0\0\0",
        OpenedRow::NotJournal(1),
    ),
    (
        2,
        b"\x01SKKDESK\x01\x05\0\0\0\0\0\0\0\x01\x01\0\0\0x\0",
        OpenedRow::Records(&[(17, b"x")]),
    ),
    (
        2,
        b"\x01SKKDESK\x02\x05\0\0\0\0\0\0\0\x01\x01\0\0\0x\0",
        OpenedRow::Records(&[(17, b"x")]),
    ),
    (
        2,
        b"\x01SKKDESK\x03\x05\0\0\0\0\0\0\0\0",
        OpenedRow::NotJournal(1),
    ),
    (
        2,
        b"\x01SKKDESK\xff\x05\0\0\0\0\0\0\0\0",
        OpenedRow::NotJournal(1),
    ),
    (2, b"\x01SKKDESK\x02", OpenedRow::BadRecord(9, &[])),
    (1, b"\x02SKKDESK\x02", OpenedRow::NotJournal(2)),
    (2, b"\x02SKKDESK\x01", OpenedRow::Anew),
    (2, b"\x02SKKDESK\x02", OpenedRow::Anew),
    (2, b"\x02SKKDESK\x03", OpenedRow::NotJournal(2)),
    (2, b"", OpenedRow::Anew),
];

#[test]
fn files_are_opened_by_their_heads(rt: HostRuntime) {
    for (bytes, row) in HEADS {
        expect_row(&rt, rt.alloc(), 1, bytes, *row);
    }
    for (newest, bytes, row) in VERSIONS {
        expect_row(&rt, rt.alloc(), *newest, bytes, *row);
    }
}

// What stands behind the head of a file, and what that is opened as.
static TAILS: &[(&[u8], OpenedRow)] = &[
    (b"\0\x01\x01\0\0\0x\0", OpenedRow::Records(&[])),
    (b"\x02\x01\0\0\0x\0", OpenedRow::Records(&[])),
    (b"\x01", OpenedRow::BadRecord(17, &[])),
    (b"\x01\x01\0\0", OpenedRow::BadRecord(17, &[])),
    (b"\x01\0\0\0\0\0", OpenedRow::BadRecord(17, &[])),
    (b"\x01\x02\0\0\0x", OpenedRow::BadRecord(17, &[])),
    (b"\x01\x01\0\x02\0x", OpenedRow::BadRecord(17, &[])),
    (b"\x01\xff\xff\xff\xffx", OpenedRow::BadRecord(17, &[])),
    (b"\x01\x01\0\0\0x", OpenedRow::BadRecord(23, &[(17, b"x")])),
    (b"\x01\x01\0\0\0x\0", OpenedRow::Records(&[(17, b"x")])),
    (
        b"\x01\x01\0\0\0x\xffrest",
        OpenedRow::Records(&[(17, b"x")]),
    ),
    (
        b"\x01\x01\0\0\0x\x01\x02\0\0\0yz\0",
        OpenedRow::Records(&[(17, b"x"), (23, b"yz")]),
    ),
    (
        b"\x01\x01\0\0\0x\x01\x02\0\0\0yz\x01\0\0\0\0",
        OpenedRow::BadRecord(30, &[(17, b"x"), (23, b"yz")]),
    ),
];

#[test]
fn records_are_read_up_to_the_first_gate_that_is_not_open(rt: HostRuntime) {
    for (tail, row) in TAILS {
        let mut bytes = NEW_FILE[..17].to_vec(rt.alloc()).expect(&rt, "memory");
        bytes.extend_from_slice(tail).expect(&rt, "memory");
        expect_row(&rt, rt.alloc(), 1, &bytes, *row);
    }
}

#[test]
fn records_of_any_length_are_read_part_by_part(rt: HostRuntime) {
    let alloc = rt.alloc();
    let longest = vec![in alloc; b'a'; PAYLOAD_LIMIT].expect(&rt, "memory");
    same(longest.len(), 131_072).expect(&rt, "as wanted");
    let long = vec![in alloc; 1; 70_000].expect(&rt, "memory");
    expect_lengths(&rt, alloc, &longest, &long)
}

fn expect_lengths<'x, R: Abort>(rt: &R, alloc: Global, longest: &'x [u8], long: &'x [u8]) {
    const LIMIT: u64 = 1 << 28;
    let steps = [
        JournalStep::Append(LIMIT, b"x", Ok(())),
        JournalStep::Append(LIMIT, longest, Ok(())),
        JournalStep::Append(LIMIT, long, Ok(())),
        JournalStep::Append(LIMIT, long, Ok(())),
        JournalStep::Append(LIMIT, b"y", Ok(())),
        JournalStep::Append(LIMIT, longest, Ok(())),
        JournalStep::Append(LIMIT, b"z", Ok(())),
        JournalStep::End(402_200),
    ];
    let expected: &[(u64, &[u8])] = &[
        (17, b"x"),
        (23, longest),
        (131_100, long),
        (201_105, long),
        (271_110, b"y"),
        (271_116, longest),
        (402_193, b"z"),
    ];
    let disk = disk_of(rt, alloc, b"", &[]);
    let disk = expect_journal(rt, alloc, disk, &[], &steps);
    expect_journal(rt, alloc, disk, expected, &[]);
}

#[test]
fn a_record_may_not_be_one_byte_too_long(rt: HostRuntime) {
    let alloc = rt.alloc();
    let longest = vec![in alloc; b'a'; 131_072].expect(&rt, "memory");
    let mut disk = disk_of(&rt, alloc, &NEW_FILE[..17], &[]);
    write(&rt, &mut disk, Which::A, 17, b"\x01\x01\0\x02\0");
    write(&rt, &mut disk, Which::A, 22, &longest);
    write(&rt, &mut disk, Which::A, 22 + 131_072, b"a\0");
    let unopened = unopened(alloc, disk).expect(&rt, "a record that is too long is opened");
    expect_fault(&rt, &unopened.why, OpenedRow::BadRecord(17, &[]));
}

// A disk whose file has one record, the calls of which with these numbers fail: the first one behind its opening is
// the tenth.
pub(crate) fn failing_disk<R: Abort>(rt: &R, alloc: Global, fails: &[u64]) -> MemDisk {
    disk_of(rt, alloc, LEARNT_FILE, fails)
}

// What the calls of a disk were, from a number of them on.
pub(crate) fn kinds<R: Abort>(rt: &R, alloc: Global, made: &[MadeCall]) -> String {
    let mut kinds = String::new(alloc);
    for call in made {
        kinds.push(kind_of(call)).expect(rt, "memory");
    }
    assert!(rt; kinds.len() == made.len());
    kinds
}

fn kind_of(call: &MadeCall) -> char {
    match call {
        MadeCall::Write { .. } => 'w',
        MadeCall::TornWrite { .. } => 'W',
        MadeCall::Cut { .. } => 'c',
        MadeCall::TornCut { .. } => 'C',
        MadeCall::Sync { .. } => 's',
    }
}

// Tells what the calls of a disk were.
pub(crate) fn expect_kinds<R: Abort>(rt: &R, alloc: Global, disk: &MemDisk, wanted: &str) {
    let kinds = kinds(rt, alloc, disk.made());
    same(kinds.as_str(), wanted).expect(rt, "as wanted");
}

// Two new files, of which each is filled once. The seventh call of the second filling is to fail, which is the
// thirty-sixth in all: the opening has twelve, each record four, and the first filling nine.
static FILLED: &[JournalStep<'static>] = &[
    JournalStep::File(0),
    JournalStep::Append(1000, b"x", Ok(())),
    JournalStep::Compact(b"\x01\x02\0\0\0yz", Ok(())),
    JournalStep::File(1),
    JournalStep::End(25),
    JournalStep::Append(1000, b"w", Ok(())),
    JournalStep::Compact(b"", Err(Failed)),
    JournalStep::InDoubt(true),
    JournalStep::File(1),
    JournalStep::End(31),
    JournalStep::Repair(Ok(())),
    JournalStep::Compact(b"", Ok(())),
    JournalStep::File(0),
    JournalStep::End(18),
    JournalStep::InDoubt(false),
];

#[test]
fn records_go_over_to_the_other_file(rt: HostRuntime) {
    let alloc = rt.alloc();
    let disk = disk_of(&rt, alloc, b"", &[36]);
    let mut disk = expect_journal(&rt, alloc, disk, &[], FILLED);
    expect_kinds(
        &rt,
        alloc,
        &disk,
        "sswscwwswswswswscwwwswswswswscwwsWwscwwsws",
    );
    let a = b"\x01SKKDESK\x01\x03\0\0\0\0\0\0\0\0";
    expect_file(&rt, alloc, &mut disk, Which::A, a);
    let b = b"\x01SKKDESK\x01\x02\0\0\0\0\0\0\0\x01\x02\0\0\0yz\x01\x01\0\0\0w\0";
    expect_file(&rt, alloc, &mut disk, Which::B, b);
    expect_journal(&rt, alloc, disk, &[], &[]);
}

// A file of version 1 where 2 is the newest version: a record more leaves it so, and the other file is filled with
// version 2.
static OLDER: &[JournalStep<'static>] = &[
    JournalStep::Version(1),
    JournalStep::Append(1000, b"x", Ok(())),
    JournalStep::Version(1),
    JournalStep::Compact(b"\x01\x02\0\0\0yz", Ok(())),
    JournalStep::Version(2),
    JournalStep::File(1),
    JournalStep::End(25),
];

#[test]
fn a_file_keeps_its_version_until_records_go_over(rt: HostRuntime) {
    let alloc = rt.alloc();
    let disk = disk_of(&rt, alloc, LEARNT_FILE, &[]);
    let mut disk = expect_journal_up_to(&rt, alloc, disk, 2, &[(17, LEARNING)], OLDER);
    let b = b"\x01SKKDESK\x02\x02\0\0\0\0\0\0\0\x01\x02\0\0\0yz\0";
    expect_file(&rt, alloc, &mut disk, Which::B, b);
    let disk = expect_above(&rt, alloc, disk);
    let steps = [JournalStep::Version(2), JournalStep::File(1)];
    expect_journal_up_to(&rt, alloc, disk, 2, &[(17, b"yz")], &steps);
}

// Tells that a disk whose second file has a version above the newest one is not opened, and gives it back.
fn expect_above<R: Abort>(rt: &R, alloc: Global, disk: MemDisk) -> MemDisk {
    let Some(Unopened { disk, why }) = unopened(alloc, disk) else {
        panic!(rt; "a version above the newest one is opened");
    };
    assert!(rt;
        matches!(why, OpenFault::NotJournal { file: 1, first: 1 }),
        "{why}"
    );
    disk
}

#[test]
fn a_record_whose_calls_fail_is_in_doubt_from_the_third_on(rt: HostRuntime) {
    for (call, doubt, made) in [
        (10, false, "wsssWwsws"),
        (11, false, "wssswwsws"),
        (12, true, "wssswsWwswsws"),
        (13, true, "wssswswwswsws"),
    ] {
        expect_doubt(&rt, rt.alloc(), call, doubt, made);
    }
}

fn expect_doubt<R: Abort>(rt: &R, alloc: Global, call: u64, doubt: bool, made: &str) {
    let steps = [
        JournalStep::Append(1000, b"x", Err(AppendFault::Disk)),
        JournalStep::InDoubt(doubt),
        JournalStep::End(61),
        JournalStep::Repair(Ok(())),
        JournalStep::Append(1000, b"y", Ok(())),
    ];
    let disk = failing_disk(rt, alloc, &[call]);
    let disk = expect_journal(rt, alloc, disk, &[(17, LEARNING)], &steps);
    expect_kinds(rt, alloc, &disk, made);
    expect_journal(rt, alloc, disk, &[(17, LEARNING), (60, b"y")], &[]);
}

#[test]
fn a_doubt_stands_until_it_is_repaired(rt: HostRuntime) {
    let alloc = rt.alloc();
    let steps = [
        JournalStep::Append(1000, b"x", Err(AppendFault::Disk)),
        JournalStep::Repair(Err(Failed)),
        JournalStep::Repair(Err(Failed)),
        JournalStep::InDoubt(true),
        JournalStep::Repair(Ok(())),
        JournalStep::InDoubt(false),
    ];
    let disk = failing_disk(&rt, alloc, &[13, 14, 16]);
    let disk = expect_journal(&rt, alloc, disk, &[(17, LEARNING)], &steps);
    expect_kinds(&rt, alloc, &disk, "wssswswWwws");
    expect_journal(&rt, alloc, disk, &[(17, LEARNING)], &[]);
}

// Tells that the opening of a file fails at a call of the disk, which it gives back: then the file has these records.
fn expect_given_back<R: Abort>(
    rt: &R,
    alloc: Global,
    bytes: &[u8],
    call: u64,
    records: &[(u64, &[u8])],
) -> MemDisk {
    let disk = disk_of(rt, alloc, bytes, &[call]);
    let Some(Unopened { disk, why }) = unopened(alloc, disk) else {
        panic!(rt; "call {call} does not fail");
    };
    assert!(rt; matches!(why, OpenFault::Disk), "call {call}: {why}");
    expect_journal(rt, alloc, disk, records, &[])
}

#[test]
fn an_opening_whose_calls_fail_gives_the_disk_back(rt: HostRuntime) {
    let alloc = rt.alloc();
    for call in 1..=12 {
        let mut disk = expect_given_back(&rt, alloc, b"", call, &[]);
        expect_file(&rt, alloc, &mut disk, Which::A, NEW_FILE);
    }
    for call in 3..=9 {
        expect_given_back(&rt, alloc, LEARNT_FILE, call, &[(17, LEARNING)]);
    }
}

const FOLDER: &str = "learned_tests_journal";

pub(crate) fn text(rt: &impl Abort, alloc: Global, name: &str) -> Text {
    Text::from_str(alloc, name).expect(rt, "memory")
}

#[test]
fn a_file_of_the_system_is_a_journal(rt: HostRuntime) {
    let alloc = rt.alloc();
    // One that an earlier run left, which was stopped.
    let _ = fs::remove_dir_all(&rt, FOLDER);
    fs::create_dir(&rt, FOLDER).expect(&rt, "memory");
    let a = text(&rt, alloc, "learned_tests_journal/a");
    let disk = FileDisk::new(&rt, a, text(&rt, alloc, "learned_tests_journal/b"));
    expect_learnt_file(&rt, alloc, disk);
    fs::remove_dir_all(&rt, FOLDER).expect(&rt, "memory");
}

// Learns in the new file of a disk.
fn expect_learnt_file<R: Abort, D: Disk + Drop>(rt: &R, alloc: Global, disk: D) {
    let steps = [JournalStep::Append(1000, LEARNING, Ok(()))];
    let mut disk = expect_journal(rt, alloc, disk, &[], &steps);
    expect_file(rt, alloc, &mut disk, Which::A, LEARNT_FILE);
    expect_journal(rt, alloc, disk, &[(17, LEARNING)], &[]);
}
