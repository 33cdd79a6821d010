use crate::files::{FileContent, KASA, ONCE, bytes_of};
use crate::journals::{NEW_FILE_OF_THREE, disk_of_both, expect_file};
use crate::stores::{lines, open_file};
use expectations::same_at;
use skk_disk::{Disk, MemDisk, Which};
use skk_journal::Unopened;
use std::alloc::Global;
use std::process::Abort;

// What two files are opened as: they have no word, and the first one is made anew; or their words are these lines of
// book 1, or they are refused in these words, and are left as they are.
#[derive(Clone, Copy, Debug)]
enum PairOpening {
    Anew,
    Told(&'static str),
}

// The first file, the second one, and what they are opened as.
type Pair = (FileContent<'static>, FileContent<'static>, PairOpening);

// The words of each file, where that one is live.
const A_LIVE: PairOpening = PairOpening::Told("かんじ /漢字/\n");

const B_LIVE: PairOpening = PairOpening::Told("かさ /傘/\n");

const A_FOREIGN: PairOpening = PairOpening::Told("the first byte of file 0 is 80");

const B_FOREIGN: PairOpening = PairOpening::Told("the first byte of file 1 is 81");

const A_SHORT: PairOpening = PairOpening::Told("no record at 9 of file 0");

const B_SHORT: PairOpening = PairOpening::Told("no record at 9 of file 1");

const EMPTY: FileContent<'static> = FileContent::Bytes(b"");

const PLAIN: FileContent<'static> = FileContent::Bytes(b"P.");

const OTHER: FileContent<'static> = FileContent::Bytes(b"Q SKKDESK\x01");

// A head without its last byte.
const SHORT: FileContent<'static> = FileContent::Bytes(b"\x01SKKDESK\x01\x01\0\0\0\0\0\0");

// A limit that nothing here comes to.
const FAR: u64 = 1_000_000;

// The greatest generation.
const LAST: u64 = 18_446_744_073_709_551_615;

static PAIRS: &[Pair] = &[
    // No file is live: each is empty, has one byte, or another first byte than 1.
    (EMPTY, EMPTY, PairOpening::Anew),
    (
        FileContent::Bytes(b"P"),
        FileContent::Bytes(b"\x01"),
        PairOpening::Anew,
    ),
    (
        FileContent::Headed(0, 5, ONCE),
        FileContent::Headed(0, 6, KASA),
        PairOpening::Anew,
    ),
    (
        FileContent::Headed(2, 5, ONCE),
        FileContent::Headed(255, 6, KASA),
        PairOpening::Anew,
    ),
    (EMPTY, FileContent::Headed(2, 1, KASA), PairOpening::Anew),
    (
        FileContent::Bytes(b"\0plain text"),
        EMPTY,
        PairOpening::Anew,
    ),
    // One is.
    (FileContent::Headed(1, 1, ONCE), EMPTY, A_LIVE),
    (
        FileContent::Headed(1, 1, ONCE),
        FileContent::Bytes(b"Q"),
        A_LIVE,
    ),
    (
        FileContent::Headed(1, 1, ONCE),
        FileContent::Headed(0, 2, KASA),
        A_LIVE,
    ),
    (
        FileContent::Headed(1, 1, ONCE),
        FileContent::Headed(3, 2, KASA),
        A_LIVE,
    ),
    (EMPTY, FileContent::Headed(1, 2, KASA), B_LIVE),
    (
        FileContent::Bytes(b"P"),
        FileContent::Headed(1, 2, KASA),
        B_LIVE,
    ),
    (
        FileContent::Headed(0, 3, ONCE),
        FileContent::Headed(1, 2, KASA),
        B_LIVE,
    ),
    (
        FileContent::Headed(3, 3, ONCE),
        FileContent::Headed(1, 2, KASA),
        B_LIVE,
    ),
    (
        FileContent::Bytes(b"\0"),
        FileContent::Headed(1, 2, b"\0"),
        PairOpening::Told(""),
    ),
    // Both have a head: the generation that comes next after the other one, else the greater one, else the first file.
    (
        FileContent::Headed(1, 1, ONCE),
        FileContent::Headed(1, 2, KASA),
        B_LIVE,
    ),
    (
        FileContent::Headed(1, 2, ONCE),
        FileContent::Headed(1, 1, KASA),
        A_LIVE,
    ),
    (
        FileContent::Headed(1, 5, ONCE),
        FileContent::Headed(1, 3, KASA),
        A_LIVE,
    ),
    (
        FileContent::Headed(1, 3, ONCE),
        FileContent::Headed(1, 5, KASA),
        B_LIVE,
    ),
    (
        FileContent::Headed(1, 4, ONCE),
        FileContent::Headed(1, 4, KASA),
        A_LIVE,
    ),
    (
        FileContent::Headed(1, 0, ONCE),
        FileContent::Headed(1, 0, KASA),
        A_LIVE,
    ),
    (
        FileContent::Headed(1, LAST, ONCE),
        FileContent::Headed(1, LAST, KASA),
        A_LIVE,
    ),
    (
        FileContent::Headed(1, LAST, ONCE),
        FileContent::Headed(1, 0, KASA),
        B_LIVE,
    ),
    (
        FileContent::Headed(1, 0, ONCE),
        FileContent::Headed(1, LAST, KASA),
        A_LIVE,
    ),
    (
        FileContent::Headed(1, LAST, ONCE),
        FileContent::Headed(1, 1, KASA),
        A_LIVE,
    ),
    (
        FileContent::Headed(1, 1, ONCE),
        FileContent::Headed(1, LAST, KASA),
        B_LIVE,
    ),
    (
        FileContent::Headed(1, 18_446_744_073_709_551_614, ONCE),
        FileContent::Headed(1, LAST, KASA),
        B_LIVE,
    ),
    (
        FileContent::Headed(1, 18_446_744_073_709_551_614, ONCE),
        FileContent::Headed(1, 0, KASA),
        A_LIVE,
    ),
    (
        FileContent::Headed(1, 256, ONCE),
        FileContent::Headed(1, 255, KASA),
        A_LIVE,
    ),
    (
        FileContent::Headed(1, 9_223_372_036_854_775_808, ONCE),
        FileContent::Headed(1, 0, KASA),
        A_LIVE,
    ),
    // The first foreign file comes before the first one that is cut short, and both before what is live.
    (PLAIN, OTHER, A_FOREIGN),
    (PLAIN, EMPTY, A_FOREIGN),
    (PLAIN, SHORT, A_FOREIGN),
    (PLAIN, FileContent::Headed(1, 1, KASA), A_FOREIGN),
    (EMPTY, OTHER, B_FOREIGN),
    (SHORT, OTHER, B_FOREIGN),
    (FileContent::Headed(1, 1, ONCE), OTHER, B_FOREIGN),
    (SHORT, SHORT, A_SHORT),
    (SHORT, EMPTY, A_SHORT),
    (SHORT, FileContent::Headed(1, 1, KASA), A_SHORT),
    (EMPTY, SHORT, B_SHORT),
    (FileContent::Headed(1, 1, ONCE), SHORT, B_SHORT),
    // The records of the live file are judged, and those of the other one are not.
    (
        FileContent::Headed(1, 2, ONCE),
        FileContent::Headed(1, 1, b"\x01"),
        A_LIVE,
    ),
    (
        FileContent::Headed(1, 1, b""),
        FileContent::Headed(1, 2, KASA),
        B_LIVE,
    ),
    (
        FileContent::Headed(1, 2, b""),
        FileContent::Headed(1, 1, KASA),
        PairOpening::Told("no record at 17 of file 0"),
    ),
    (
        FileContent::Headed(1, 2, ONCE),
        FileContent::Headed(1, 3, b"\x01"),
        PairOpening::Told("no record at 17 of file 1"),
    ),
    (
        EMPTY,
        FileContent::Headed(1, 1, b""),
        PairOpening::Told("no record at 17 of file 1"),
    ),
    (
        FileContent::Headed(1, 2, ONCE),
        FileContent::Headed(
            1,
            3,
            b"\x01\x0b\0\0\0\x03\x01\0\x01\0\0\0\0\0\0\0\x01\x01\0\0\0x\0",
        ),
        PairOpening::Told("no record at 33 of file 1"),
    ),
    // The head that a file had before its records is alive again, beside the generation that came before the other's.
    (
        FileContent::Headed(1, 0, ONCE),
        FileContent::Headed(1, LAST, b"\0\x26\0\0\0\x01"),
        A_LIVE,
    ),
    (
        FileContent::Headed(1, 4, b"\0\x26\0\0\0\x01"),
        FileContent::Headed(1, 5, KASA),
        B_LIVE,
    ),
];

#[test]
fn two_files_are_opened_by_both_heads(rt: HostRuntime) {
    expect_pairs(&rt, rt.alloc());
    expect_cuts(&rt, rt.alloc())
}

fn expect_pairs<R: Abort>(rt: &R, alloc: Global) {
    for pair in PAIRS {
        let (a, b, opening) = *pair;
        let first = bytes_of(rt, alloc, a);
        let second = bytes_of(rt, alloc, b);
        expect_opening(rt, alloc, &first, &second, opening);
    }
}

// Tells what two files are opened as, and what they have then.
fn expect_opening<R: Abort>(rt: &R, alloc: Global, a: &[u8], b: &[u8], opening: PairOpening) {
    let (wanted, left) = match opening {
        PairOpening::Anew => ("", NEW_FILE_OF_THREE),
        PairOpening::Told(told) => (told, a),
    };
    let disk = disk_of_both(rt, alloc, a, b, &[]);
    let (told, mut disk) = opened_as(rt, alloc, disk);
    same_at(told.as_str(), wanted, (a, b)).expect(rt, "as wanted");
    expect_file(rt, alloc, &mut disk, Which::A, left);
    expect_file(rt, alloc, &mut disk, Which::B, b);
}

// The lines of book 1 of both files of a disk, or why they are refused, and the disk.
fn opened_as<R: Abort>(rt: &R, alloc: Global, disk: MemDisk) -> (String, MemDisk) {
    match open_file(rt, alloc, disk, FAR) {
        Ok(store) => (lines(rt, alloc, &store), store.close()),
        Err(Unopened { disk, why }) => { (format!(in alloc; "{why}").expect(rt, "memory"), disk) }
    }
}

// Which files are cut to a length: the first one beside an empty one, and beside a live one of the next generation, the
// second one likewise, or both, of which the second one has the next generation.
#[derive(Clone, Copy, Debug)]
enum CutFile {
    A,
    B,
    ABesideLive,
    BBesideLive,
    Both,
}

// The first and the last of some lengths, and what the files are opened as that are cut to one of them. Whole they have
// 61 bytes, and a word each.
type Lengths = (CutFile, usize, usize, PairOpening);

static CUTS: &[Lengths] = &[
    (CutFile::A, 0, 1, PairOpening::Anew),
    (
        CutFile::A,
        2,
        8,
        PairOpening::Told("the first byte of file 0 is 1"),
    ),
    (CutFile::A, 9, 16, A_SHORT),
    (
        CutFile::A,
        17,
        59,
        PairOpening::Told("no record at 17 of file 0"),
    ),
    (
        CutFile::A,
        60,
        60,
        PairOpening::Told("no record at 60 of file 0"),
    ),
    (CutFile::A, 61, 61, A_LIVE),
    (CutFile::B, 0, 1, PairOpening::Anew),
    (
        CutFile::B,
        2,
        8,
        PairOpening::Told("the first byte of file 1 is 1"),
    ),
    (CutFile::B, 9, 16, B_SHORT),
    (
        CutFile::B,
        17,
        59,
        PairOpening::Told("no record at 17 of file 1"),
    ),
    (
        CutFile::B,
        60,
        60,
        PairOpening::Told("no record at 60 of file 1"),
    ),
    (CutFile::B, 61, 61, A_LIVE),
    (CutFile::ABesideLive, 0, 1, B_LIVE),
    (
        CutFile::ABesideLive,
        2,
        8,
        PairOpening::Told("the first byte of file 0 is 1"),
    ),
    (CutFile::ABesideLive, 9, 16, A_SHORT),
    (CutFile::ABesideLive, 17, 61, B_LIVE),
    (CutFile::BBesideLive, 0, 1, B_LIVE),
    (
        CutFile::BBesideLive,
        2,
        8,
        PairOpening::Told("the first byte of file 1 is 1"),
    ),
    (CutFile::BBesideLive, 9, 16, B_SHORT),
    (CutFile::BBesideLive, 17, 61, B_LIVE),
    (CutFile::Both, 0, 1, PairOpening::Anew),
    (
        CutFile::Both,
        2,
        8,
        PairOpening::Told("the first byte of file 0 is 1"),
    ),
    (CutFile::Both, 9, 16, A_SHORT),
    (
        CutFile::Both,
        17,
        59,
        PairOpening::Told("no record at 17 of file 1"),
    ),
    (
        CutFile::Both,
        60,
        60,
        PairOpening::Told("no record at 60 of file 1"),
    ),
    (CutFile::Both, 61, 61, A_LIVE),
];

fn expect_cuts<R: Abort>(rt: &R, alloc: Global) {
    for cut in CUTS {
        expect_lengths(rt, alloc, cut);
    }
}

fn expect_lengths<R: Abort>(rt: &R, alloc: Global, cut: &Lengths) {
    let (files, first, last, opening) = *cut;
    for len in first..=last {
        expect_cut(rt, alloc, files, len, opening);
    }
}

fn expect_cut<R: Abort>(rt: &R, alloc: Global, cut: CutFile, len: usize, opening: PairOpening) {
    let whole = bytes_of(rt, alloc, FileContent::Headed(1, 1, ONCE));
    let newer = bytes_of(rt, alloc, FileContent::Headed(1, 2, ONCE));
    let live = bytes_of(rt, alloc, FileContent::Headed(1, 2, KASA));
    match cut {
        CutFile::A => expect_opening(rt, alloc, head_of(&whole, len), b"", opening),
        CutFile::B => expect_opening(rt, alloc, b"", head_of(&whole, len), opening),
        CutFile::ABesideLive => expect_opening(rt, alloc, head_of(&whole, len), &live, opening),
        CutFile::BBesideLive => expect_opening(rt, alloc, &live, head_of(&whole, len), opening),
        CutFile::Both => {
            expect_opening(
                rt,
                alloc,
                head_of(&whole, len),
                head_of(&newer, len),
                opening,
            );
        }
    }
}

// The first bytes of a file, or all.
fn head_of(bytes: &[u8], len: usize) -> &[u8] {
    &bytes[..len.min(bytes.len())]
}
