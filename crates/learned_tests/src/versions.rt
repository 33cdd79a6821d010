use crate::journals::{LEARNT_FILE, disk_of, expect_file};
use crate::stores::{StoreStep, disk_after, found_text, lines, opened_file, opening_text};
use expectations::{same, same_at};
use skk_disk::{Disk, Which};
use std::alloc::Global;
use std::process::Abort;

// A limit that nothing here comes to.
const FAR: u64 = 1_000_000;

// The second file after 漢字 got the note *よい in the file of version 1 that has it: version 3, generation 2, the row of
// the compaction, and the note, whose payload has 36 bytes.
const NOTED_FILE: &[u8] = b"\x01SKKDESK\x03\x02\0\0\0\0\0\0\0\x01\x26\0\0\0\
    \x01\x01\0\x01\0\0\0\0\0\0\0\x01\0\0\0\0\0\0\0\0\
    \xe3\x81\x8b\xe3\x82\x93\xe3\x81\x98 /\xe6\xbc\xa2\xe5\xad\x97/\x01\x24\0\0\0\
    \x04\x01\0\x02\0\0\0\0\0\0\0\0\x09\xe3\x81\x8b\xe3\x82\x93\xe3\x81\x98\
    \xe6\xbc\xa2\xe5\xad\x97;*\xe3\x82\x88\xe3\x81\x84\0";

// The second file after typist 1 got the books 7 and 0 in that file: version 3, generation 2, the row of the
// compaction, and the list, whose payload has 8 bytes; and then the book 258 alone, whose payload has 6.
const SHARED_FILE: &[u8] = b"\x01SKKDESK\x03\x02\0\0\0\0\0\0\0\x01\x26\0\0\0\
    \x01\x01\0\x01\0\0\0\0\0\0\0\x01\0\0\0\0\0\0\0\0\
    \xe3\x81\x8b\xe3\x82\x93\xe3\x81\x98 /\xe6\xbc\xa2\xe5\xad\x97/\x01\x08\0\0\0\
    \x05\x01\0\x02\x07\0\0\0\x01\x06\0\0\0\x05\x01\0\x01\x02\x01\0";

#[test]
fn a_list_of_books_takes_a_file_of_the_first_version_to_the_third(rt: HostRuntime) {
    let alloc = rt.alloc();
    let disk = disk_of(&rt, alloc, LEARNT_FILE, &[]);
    let mut told = String::new(alloc);
    let steps = [
        StoreStep::Share(2, &[0]),
        StoreStep::Share(1, &[7, 0]),
        StoreStep::Share(1, &[7, 0]),
        StoreStep::Share(1, &[258]),
    ];
    let mut disk = disk_after(&rt, alloc, disk, FAR, &steps, &mut told);
    same(told.as_str(), "Unchanged\nShared\nUnchanged\nShared\n").expect(&rt, "as wanted");
    same(SHARED_FILE.len(), 85).expect(&rt, "as wanted");
    expect_file(&rt, alloc, &mut disk, Which::B, SHARED_FILE);
    expect_version(&rt, alloc, disk, 3, "かんじ /漢字/\n");
}

#[test]
fn a_note_takes_a_file_of_the_first_version_to_the_third(rt: HostRuntime) {
    let alloc = rt.alloc();
    let disk = disk_of(&rt, alloc, LEARNT_FILE, &[]);
    let mut told = String::new(alloc);
    let steps = [
        StoreStep::Annotate("かんじ", "漢字", "*よい"),
        StoreStep::Annotate("かんじ", "漢字", "*よい"),
    ];
    let mut disk = disk_after(&rt, alloc, disk, FAR, &steps, &mut told);
    same(told.as_str(), "Annotated\nUnchanged\n").expect(&rt, "as wanted");
    same(NOTED_FILE.len(), 102).expect(&rt, "as wanted");
    expect_file(&rt, alloc, &mut disk, Which::B, NOTED_FILE);
    expect_version(&rt, alloc, disk, 3, "かんじ /漢字;*よい/\n");
}

// A further learning is of a form that the first version has, and so it stays behind the other records.
#[test]
fn a_file_of_old_changes_keeps_its_version(rt: HostRuntime) {
    let alloc = rt.alloc();
    let disk = disk_of(&rt, alloc, LEARNT_FILE, &[]);
    let mut told = String::new(alloc);
    let steps = [
        StoreStep::Learn("かんじ", "感じ"),
        StoreStep::Annotate("き", "木", "*x"),
    ];
    let disk = disk_after(&rt, alloc, disk, FAR, &steps, &mut told);
    same(told.as_str(), "Learned 2\nAnnotated\n").expect(&rt, "as wanted");
    expect_version(&rt, alloc, disk, 1, "かんじ /感じ/漢字/\nき /木;*x/\n");
}

// The records of the state and the note need 84 bytes behind the 18 of a file that has none.
#[test]
fn a_note_is_refused_where_no_file_has_room_for_it(rt: HostRuntime) {
    let alloc = rt.alloc();
    expect_limited(
        &rt,
        alloc,
        101,
        "JournalFull { end: 61, need: 41, limit: 101 }\n",
    );
    expect_limited(&rt, alloc, 102, "Annotated\n");
}

// Tells what the note is answered within a limit.
fn expect_limited<R: Abort>(rt: &R, alloc: Global, limit: u64, wanted: &str) {
    let disk = disk_of(rt, alloc, LEARNT_FILE, &[]);
    let mut told = String::new(alloc);
    let steps = [StoreStep::Annotate("かんじ", "漢字", "*よい")];
    drop(disk_after(rt, alloc, disk, limit, &steps, &mut told));
    same(told.as_str(), wanted).expect(rt, "as wanted");
}

// Tells the version of the learned file of a disk, and the lines of book 1.
fn expect_version<R: Abort, D: Disk + Drop>(
    rt: &R,
    alloc: Global,
    disk: D,
    version: u8,
    wanted: &str,
) {
    let store = opened_file(rt, alloc, disk, FAR);
    same(store.version(), version).expect(rt, "as wanted");
    same(lines(rt, alloc, &store).as_str(), wanted).expect(rt, "as wanted");
}

// The version of a file that has the word 漢字 for かんじ in book 1, whose count is 1; what stands behind that record; and
// what the file is opened as: the lines of book 1, or why it is refused.
static RECORDS: &[(u8, &[u8], &str)] = &[
    (1, b"\0", "かんじ /漢字/\n"),
    (2, b"\0", "かんじ /漢字/\n"),
    (0, b"\0", "the first byte of file 0 is 1"),
    (3, b"\0", "かんじ /漢字/\n"),
    (4, b"\0", "the first byte of file 0 is 1"),
    (255, b"\0", "the first byte of file 0 is 1"),
    // 漢字 with the note *, with none as before, and 字 behind it with the note x.
    (
        2,
        b"\x01\x1e\0\0\0\x04\x01\0\x02\0\0\0\0\0\0\0\0\x09\xe3\x81\x8b\xe3\x82\x93\xe3\x81\x98\
            \xe6\xbc\xa2\xe5\xad\x97;*\0",
        "かんじ /漢字;*/\n",
    ),
    (
        2,
        b"\x01\x1c\0\0\0\x04\x01\0\x01\0\0\0\0\0\0\0\0\x09\xe3\x81\x8b\xe3\x82\x93\xe3\x81\x98\
            \xe6\xbc\xa2\xe5\xad\x97\0",
        "かんじ /漢字/\n",
    ),
    (
        2,
        b"\x01\x1b\0\0\0\x04\x01\0\x02\0\0\0\0\0\0\0\0\x09\xe3\x81\x8b\xe3\x82\x93\xe3\x81\x98\
            \xe5\xad\x97;x\0",
        "かんじ /漢字/字;x/\n",
    ),
    // A note in a file of the first version; the row of another book, of another reading, and of another part.
    (
        1,
        b"\x01\x1e\0\0\0\x04\x01\0\x02\0\0\0\0\0\0\0\0\x09\xe3\x81\x8b\xe3\x82\x93\xe3\x81\x98\
            \xe6\xbc\xa2\xe5\xad\x97;*\0",
        "no record at 60 of file 0",
    ),
    (
        2,
        b"\x01\x1e\0\0\0\x04\x02\0\x02\0\0\0\0\0\0\0\0\x09\xe3\x81\x8b\xe3\x82\x93\xe3\x81\x98\
            \xe6\xbc\xa2\xe5\xad\x97;*\0",
        "no record at 60 of file 0",
    ),
    (
        2,
        b"\x01\x1b\0\0\0\x04\x01\0\x02\0\0\0\0\0\0\0\0\x06\xe3\x81\x8b\xe3\x82\x93\xe6\xbc\xa2\
            \xe5\xad\x97;*\0",
        "no record at 60 of file 0",
    ),
    (
        2,
        b"\x01\x1c\0\0\0\x04\x01\0\x02\0\0\0\0\0\0\0\x01\x07\xe3\x81\x8b\xe3\x82\x93k\xe6\xbc\
            \xa2\xe5\xad\x97;*\0",
        "no record at 60 of file 0",
    ),
    // A count of 0, in a book that has none, and one below that of the book.
    (
        2,
        b"\x01\x1e\0\0\0\x04\x03\0\0\0\0\0\0\0\0\0\0\x09\xe3\x81\x8b\xe3\x82\x93\xe3\x81\x98\
            \xe6\xbc\xa2\xe5\xad\x97;*\0",
        "no record at 60 of file 0",
    ),
    (
        2,
        b"\x01\x1e\0\0\0\x04\x01\0\0\0\0\0\0\0\0\0\0\x09\xe3\x81\x8b\xe3\x82\x93\xe3\x81\x98\
            \xe6\xbc\xa2\xe5\xad\x97;*\0",
        "no record at 60 of file 0",
    ),
    // A part that is neither, a reading that ends too late, and one that is no key or no text.
    (
        2,
        b"\x01\x1e\0\0\0\x04\x01\0\x02\0\0\0\0\0\0\0\x02\x09\xe3\x81\x8b\xe3\x82\x93\xe3\x81\
            \x98\xe6\xbc\xa2\xe5\xad\x97;*\0",
        "no record at 60 of file 0",
    ),
    (
        2,
        b"\x01\x16\0\0\0\x04\x01\0\x02\0\0\0\0\0\0\0\0\x0a\xe3\x81\x8b\xe3\x82\x93\xe3\x81\x98\
            \0",
        "no record at 60 of file 0",
    ),
    (
        2,
        b"\x01\x17\0\0\0\x04\x01\0\x02\0\0\0\0\0\0\0\0\x02;x\xe6\xbc\xa2\xe5\xad\x97;*\0",
        "no record at 60 of file 0",
    ),
    (
        2,
        b"\x01\x16\0\0\0\x04\x01\0\x02\0\0\0\0\0\0\0\0\x01\xff\xe6\xbc\xa2\xe5\xad\x97;*\0",
        "no record at 60 of file 0",
    ),
    // No item, a note without a character, two items, a block, and a word that is quoted where it need not be.
    (
        2,
        b"\x01\x16\0\0\0\x04\x01\0\x02\0\0\0\0\0\0\0\0\x09\xe3\x81\x8b\xe3\x82\x93\xe3\x81\x98\
            \0",
        "no record at 60 of file 0",
    ),
    (
        2,
        b"\x01\x1d\0\0\0\x04\x01\0\x02\0\0\0\0\0\0\0\0\x09\xe3\x81\x8b\xe3\x82\x93\xe3\x81\x98\
            \xe6\xbc\xa2\xe5\xad\x97;\0",
        "no record at 60 of file 0",
    ),
    (
        2,
        b"\x01 \0\0\0\x04\x01\0\x02\0\0\0\0\0\0\0\0\x09\xe3\x81\x8b\xe3\x82\x93\xe3\x81\x98\
            \xe6\xbc\xa2\xe5\xad\x97/\xe5\xad\x97\0",
        "no record at 60 of file 0",
    ),
    (
        2,
        b"\x01 \0\0\0\x04\x01\0\x02\0\0\0\0\0\0\0\0\x09\xe3\x81\x8b\xe3\x82\x93\xe3\x81\x98[\
            \xe3\x81\x8f/\xe5\xad\x97/]\0",
        "no record at 60 of file 0",
    ),
    (
        2,
        b"\x01)\0\0\0\x04\x01\0\x02\0\0\0\0\0\0\0\0\x09\xe3\x81\x8b\xe3\x82\x93\xe3\x81\x98(co\
            ncat \x22\xe6\xbc\xa2\xe5\xad\x97\x22);*\0",
        "no record at 60 of file 0",
    ),
    (
        2,
        b"\x01\x19\0\0\0\x04\x01\0\x02\0\0\0\0\0\0\0\0\x09\xe3\x81\x8b\xe3\x82\x93\xe3\x81\x98\
            \xff;*\0",
        "no record at 60 of file 0",
    ),
    // A payload that ends before its reading has a length, and one of a form that no version has.
    (
        2,
        b"\x01\x0c\0\0\0\x04\x01\0\x02\0\0\0\0\0\0\0\0\0",
        "no record at 60 of file 0",
    ),
    (
        2,
        b"\x01\x1e\0\0\0\x06\x01\0\x02\0\0\0\0\0\0\0\0\x09\xe3\x81\x8b\xe3\x82\x93\xe3\x81\x98\
            \xe6\xbc\xa2\xe5\xad\x97;*\0",
        "no record at 60 of file 0",
    ),
];

#[test]
fn files_are_opened_by_their_version_and_their_notes(rt: HostRuntime) {
    for (version, tail, wanted) in RECORDS {
        expect_told(&rt, rt.alloc(), *version, tail, wanted);
    }
}

// Tells what the file with one record is opened as that has this version and these bytes behind its record.
fn expect_told<R: Abort>(rt: &R, alloc: Global, version: u8, tail: &[u8], wanted: &str) {
    let disk = disk_of(rt, alloc, &learnt_file(rt, alloc, version, tail), &[]);
    let told = opening_text(rt, alloc, disk);
    same_at(told.as_str(), wanted, tail).expect(rt, "as wanted");
}

// The file with one record that has this version and these bytes behind its record.
fn learnt_file<R: Abort>(rt: &R, alloc: Global, version: u8, tail: &[u8]) -> Vec<u8> {
    let mut bytes = LEARNT_FILE[..60].to_vec(alloc).expect(rt, "memory");
    bytes[8] = version;
    bytes.extend_from_slice(tail).expect(rt, "memory");
    bytes
}

// The version of the same file, what stands behind its record, and what typist 2 finds in it for かんじ, each word with a
// space behind it, or why it is refused. Who has no list reads the shared book alone beside the own one.
static LISTS: &[(u8, &[u8], &str)] = &[
    (3, b"\0", ""),
    // Book 1 alone, behind book 7, and as the last of eight.
    (3, b"\x01\x06\0\0\0\x05\x02\0\x01\x01\0\0", "漢字 "),
    (3, b"\x01\x08\0\0\0\x05\x02\0\x02\x07\0\x01\0\0", "漢字 "),
    (
        3,
        b"\x01\x14\0\0\0\x05\x02\0\x08\x08\0\x07\0\x06\0\x05\0\x04\0\x03\0\xff\xff\x01\0\0",
        "漢字 ",
    ),
    // A list without book 1, and one of another typist.
    (3, b"\x01\x08\0\0\0\x05\x02\0\x02\0\0\0\x01\0", ""),
    (3, b"\x01\x06\0\0\0\x05\x02\x01\x01\x01\0\0", ""),
    // The last of two lists counts, and the shared book alone takes a list away.
    (
        3,
        b"\x01\x06\0\0\0\x05\x02\0\x01\x01\0\x01\x06\0\0\0\x05\x02\0\x01\x07\0\0",
        "",
    ),
    (
        3,
        b"\x01\x06\0\0\0\x05\x02\0\x01\x07\0\x01\x06\0\0\0\x05\x02\0\x01\x01\0\0",
        "漢字 ",
    ),
    (
        3,
        b"\x01\x06\0\0\0\x05\x02\0\x01\x01\0\x01\x06\0\0\0\x05\x02\0\x01\0\0\0",
        "",
    ),
    // A list in files of the first version and of the second.
    (
        1,
        b"\x01\x06\0\0\0\x05\x02\0\x01\x01\0\0",
        "no record at 60 of file 0",
    ),
    (
        2,
        b"\x01\x06\0\0\0\x05\x02\0\x01\x01\0\0",
        "no record at 60 of file 0",
    ),
    // A payload that ends before the typist, within it, and before the number of books.
    (3, b"\x01\x01\0\0\0\x05\0", "no record at 60 of file 0"),
    (3, b"\x01\x02\0\0\0\x05\x02\0", "no record at 60 of file 0"),
    (
        3,
        b"\x01\x03\0\0\0\x05\x02\0\0",
        "no record at 60 of file 0",
    ),
    // No book, nine books, and a book twice, once side by side and once apart.
    (
        3,
        b"\x01\x04\0\0\0\x05\x02\0\0\0",
        "no record at 60 of file 0",
    ),
    (
        3,
        b"\x01\x16\0\0\0\x05\x02\0\x09\x09\0\x08\0\x07\0\x06\0\x05\0\x04\0\x03\0\x02\0\x01\0\0",
        "no record at 60 of file 0",
    ),
    (
        3,
        b"\x01\x08\0\0\0\x05\x02\0\x02\x01\0\x01\0\0",
        "no record at 60 of file 0",
    ),
    (
        3,
        b"\x01\x0a\0\0\0\x05\x02\0\x03\x01\0\x07\0\x01\0\0",
        "no record at 60 of file 0",
    ),
    // A byte and a book too few, and too many.
    (
        3,
        b"\x01\x07\0\0\0\x05\x02\0\x02\x07\0\x01\0",
        "no record at 60 of file 0",
    ),
    (
        3,
        b"\x01\x06\0\0\0\x05\x02\0\x02\x01\0\0",
        "no record at 60 of file 0",
    ),
    (
        3,
        b"\x01\x07\0\0\0\x05\x02\0\x01\x01\0\0\0",
        "no record at 60 of file 0",
    ),
    (
        3,
        b"\x01\x08\0\0\0\x05\x02\0\x01\x01\0\x07\0\0",
        "no record at 60 of file 0",
    ),
];

#[test]
fn files_are_opened_by_their_lists_of_books(rt: HostRuntime) {
    for (version, tail, wanted) in LISTS {
        expect_found(&rt, rt.alloc(), *version, tail, wanted);
    }
}

// Tells what typist 2 finds in the file with one record that has this version and these bytes behind its record.
fn expect_found<R: Abort>(rt: &R, alloc: Global, version: u8, tail: &[u8], wanted: &str) {
    let disk = disk_of(rt, alloc, &learnt_file(rt, alloc, version, tail), &[]);
    let found = found_text(rt, alloc, disk, 2, "かんじ");
    same_at(found.as_str(), wanted, tail).expect(rt, "as wanted");
}
