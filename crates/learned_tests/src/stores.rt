ghost use Rattle.std.specs.Prelude.{◌≡◌, true};
ghost use Rattle.skk_calls.specs.Dictionary.{is_fit};
ghost use Rattle.skk_calls.specs.Rows.{is_word};

use crate::journals::{LEARNT_FILE, disk_of, kinds, text};
use dict_layers::System;
use expectations::same_at;
use learned_store::Store;
use skk_calls::{Answer, BookList, Books, Call, Cand, FoundCands, Learned, Part, Reply, RowKey};
use skk_disk::{Disk, MemDisk};
use skk_journal::Unopened;
use skk_text::{Copies, Text, Texts};
use std::alloc::Global;
use std::process::Abort;

// The part lines of a dictionary file without okurigana.
const PART_LINES: &str = ";; okuri-ari entries.\n;; okuri-nasi entries.\n";

// A limit that nothing here comes to.
const FAR: u64 = 1_000_000;

// What is asked of a store. Words are learnt and purged in book 1.
#[derive(Clone, Copy)]
pub(crate) enum StoreStep<'a> {
    // Learns a word for a reading.
    Learn(&'a str, &'a str),
    // Learns for the reading a the word that has a letter so many times.
    LearnLong(&'a str, usize),
    // Purges a word of a reading.
    Purge(&'a str, &'a str),
    // Gives the word of a reading a note.
    Annotate(&'a str, &'a str, &'a str),
    // Gives a typist a list of books.
    Share(u16, &'a [u16]),
    // Takes back what was learnt last.
    Unlearn,
    // Finds the words of a reading.
    Find(&'a str),
    // Finds the readings that go on from a prefix.
    Complete(&'a str),
}

// The calls of the disk that fail, by their numbers: the first change begins with the thirteenth. A limit. What is
// asked of new files. What the answers tell, and then the lines of book 1 when they are opened again. The calls of the
// disk up to then.
type Case<'a> = (&'a [u64], u64, &'a [StoreStep<'a>], &'a str, &'a str);

// A change of the row of かさ whose calls fail, behind what was learnt before it, and then another one.
const LEARNS: &[StoreStep<'static>] = &[
    StoreStep::Learn("かさ", "傘"),
    StoreStep::Learn("き", "木"),
    StoreStep::Learn("き", "気"),
    StoreStep::Find("かさ"),
];

const PURGES: &[StoreStep<'static>] = &[
    StoreStep::Learn("かさ", "傘"),
    StoreStep::Learn("かさ", "笠"),
    StoreStep::Purge("かさ", "傘"),
    StoreStep::Learn("き", "木"),
    StoreStep::Find("かさ"),
];

const RESTORES: &[StoreStep<'static>] = &[
    StoreStep::Learn("かさ", "傘"),
    StoreStep::Learn("かさ", "笠"),
    StoreStep::Unlearn,
    StoreStep::Learn("き", "木"),
    StoreStep::Find("かさ"),
];

const REMOVES: &[StoreStep<'static>] = &[
    StoreStep::Learn("かさ", "傘"),
    StoreStep::Unlearn,
    StoreStep::Learn("き", "木"),
    StoreStep::Find("かさ"),
];

// What they tell where the change is refused, and where the one that follows is refused too.
const NOT_LEARNT: &str = "Disk\nLearned 1\nLearned 2\n\nき /気/木/\n";

const NEITHER_LEARNT: &str = "Disk\nDisk\nLearned 1\n\nき /気/\n";

const NOT_PURGED: &str = "Learned 1\nLearned 2\nDisk\nLearned 3\n笠 傘 \nかさ /笠/傘/\nき /木/\n";

const NOT_RESTORED: &str = NOT_PURGED;

const NOT_REMOVED: &str = "Learned 1\nDisk\nLearned 2\n傘 \nかさ /傘/\nき /木/\n";

// What no other change follows: a record whose gate was opened may stand in the file.
const LEARNS_LAST: &[StoreStep<'static>] = &[StoreStep::Learn("かさ", "傘"), StoreStep::Find("かさ")];

static FAILINGS: &[Case<'static>] = &[
    (&[13], FAR, LEARNS, NOT_LEARNT, "sswscwwswsWwswswsws"),
    (&[14], FAR, LEARNS, NOT_LEARNT, "sswscwwswswwswswsws"),
    (&[15], FAR, LEARNS, NOT_LEARNT, "sswscwwswswsWwswswswsws"),
    (&[16], FAR, LEARNS, NOT_LEARNT, "sswscwwswswswwswswswsws"),
    (
        &[15, 16],
        FAR,
        LEARNS,
        NEITHER_LEARNT,
        "sswscwwswswsWWwswsws",
    ),
    (
        &[15, 17],
        FAR,
        LEARNS,
        NEITHER_LEARNT,
        "sswscwwswswsWwwswsws",
    ),
    (
        &[16, 17],
        FAR,
        LEARNS,
        NEITHER_LEARNT,
        "sswscwwswswswWwswsws",
    ),
    (
        &[16, 18],
        FAR,
        LEARNS,
        NEITHER_LEARNT,
        "sswscwwswswswwwswsws",
    ),
    (&[21], FAR, PURGES, NOT_PURGED, "sswscwwswswswswswsWwsws"),
    (&[22], FAR, PURGES, NOT_PURGED, "sswscwwswswswswswswwsws"),
    (
        &[23],
        FAR,
        PURGES,
        NOT_PURGED,
        "sswscwwswswswswswswsWwswsws",
    ),
    (
        &[24],
        FAR,
        PURGES,
        NOT_PURGED,
        "sswscwwswswswswswswswwswsws",
    ),
    (
        &[21],
        FAR,
        RESTORES,
        NOT_RESTORED,
        "sswscwwswswswswswsWwsws",
    ),
    (
        &[22],
        FAR,
        RESTORES,
        NOT_RESTORED,
        "sswscwwswswswswswswwsws",
    ),
    (
        &[23],
        FAR,
        RESTORES,
        NOT_RESTORED,
        "sswscwwswswswswswswsWwswsws",
    ),
    (
        &[24],
        FAR,
        RESTORES,
        NOT_RESTORED,
        "sswscwwswswswswswswswwswsws",
    ),
    (&[17], FAR, REMOVES, NOT_REMOVED, "sswscwwswswswsWwsws"),
    (&[18], FAR, REMOVES, NOT_REMOVED, "sswscwwswswswswwsws"),
    (&[19], FAR, REMOVES, NOT_REMOVED, "sswscwwswswswswsWwswsws"),
    (&[20], FAR, REMOVES, NOT_REMOVED, "sswscwwswswswswswwswsws"),
    (&[15], FAR, LEARNS_LAST, "Disk\n\n", "sswscwwswswsW"),
    (&[16], FAR, LEARNS_LAST, "Disk\n\nかさ /傘/\n", "sswscwwswswsw"),
];

#[test]
fn a_change_whose_calls_fail_is_not_made(rt: HostRuntime) {
    expect_cases(&rt, rt.alloc(), FAILINGS)
}

// Look-ups, and changes that change nothing: after them the first call that fails is the next one.
static LOOKED_UP: &[Case<'static>] = &[
    (
        &[25],
        FAR,
        &[
            StoreStep::Learn("かさ", "傘"),
            StoreStep::Learn("かさ", "笠"),
            StoreStep::Purge("かさ", "傘"),
            StoreStep::Find("かさ"),
            StoreStep::Complete("か"),
            StoreStep::Purge("かさ", "傘"),
            StoreStep::Unlearn,
            StoreStep::Learn("き", "木"),
        ],
        "Learned 1\nLearned 2\nPurged\n笠 \nかさ \nUnchanged\nOvertaken(3)\nDisk\n\
            かさ /笠/(skk-ignore-dic-word \"傘\")/\n",
        "sswscwwswswswswswswswsW",
    ),
    (
        &[29],
        FAR,
        &[
            StoreStep::Learn("かさ", "傘"),
            StoreStep::Learn("かさ", "笠"),
            StoreStep::Unlearn,
            StoreStep::Find("かさ"),
            StoreStep::Unlearn,
            StoreStep::Find("かさ"),
            StoreStep::Complete("か"),
            StoreStep::Learn("き", "木"),
        ],
        "Learned 1\nLearned 2\nRestored\n傘 \nRestored\n\n\nDisk\n",
        "sswscwwswswswswswswswswswsW",
    ),
];

#[test]
fn what_changes_nothing_calls_no_disk(rt: HostRuntime) {
    expect_cases(&rt, rt.alloc(), LOOKED_UP)
}

// The record of 125 needs 49 bytes, and that of かんじ 43. A doubt is closed before the file is found to be full.
static LIMITS: &[Case<'static>] = &[
    (
        &[],
        64,
        &[
            StoreStep::Learn("125", "東京都葛飾区"),
            StoreStep::Learn("かんじ", "漢字"),
        ],
        "JournalFull { end: 18, need: 49, limit: 64 }\nLearned 1\nかんじ /漢字/\n",
        "sswscwwswswsws",
    ),
    (
        &[],
        64,
        &[StoreStep::Learn("かんじ", "漢字"), StoreStep::Learn("かんじ", "漢字")],
        "Learned 1\nJournalFull { end: 61, need: 43, limit: 64 }\nかんじ /漢字/\n",
        "sswscwwswswsws",
    ),
    (
        &[],
        103,
        &[StoreStep::Learn("かんじ", "漢字"), StoreStep::Learn("かんじ", "漢字")],
        "Learned 1\nJournalFull { end: 61, need: 43, limit: 103 }\nかんじ /漢字/\n",
        "sswscwwswswsws",
    ),
    (
        &[],
        66,
        &[StoreStep::Learn("125", "東京都葛飾区"), StoreStep::Find("125")],
        "JournalFull { end: 18, need: 49, limit: 66 }\n\n",
        "sswscwwsws",
    ),
    (
        &[],
        67,
        &[StoreStep::Learn("125", "東京都葛飾区"), StoreStep::Find("125")],
        "Learned 1\n東京都葛飾区 \n125 /東京都葛飾区/\n",
        "sswscwwswswsws",
    ),
    (
        &[16],
        64,
        &[
            StoreStep::Learn("かんじ", "漢字"),
            StoreStep::Learn("125", "東京都葛飾区"),
        ],
        "Disk\nJournalFull { end: 18, need: 49, limit: 64 }\n",
        "sswscwwswswswws",
    ),
    (
        &[16, 18],
        64,
        &[
            StoreStep::Learn("かんじ", "漢字"),
            StoreStep::Learn("125", "東京都葛飾区"),
        ],
        "Disk\nDisk\n",
        "sswscwwswswsww",
    ),
];

#[test]
fn a_file_takes_what_its_limit_leaves(rt: HostRuntime) {
    expect_cases(&rt, rt.alloc(), LIMITS)
}

fn expect_cases<R: Abort>(rt: &R, alloc: Global, cases: &[Case]) {
    for case in cases {
        expect_case(rt, alloc, case);
    }
}

fn expect_case<R: Abort>(rt: &R, alloc: Global, case: &Case) {
    let (fails, limit, _, wanted, made) = *case;
    let (calls, told) = told_of(rt, alloc, case);
    same_at(
        (calls.as_str(), told.as_str()),
        (made, wanted),
        (&fails, &limit),
    )
    .expect(rt, "as wanted");
}

// Asks for the steps of a case over a new file, closes it, and opens it again: the calls of the disk up to then, and
// what is told.
fn told_of<R: Abort>(rt: &R, alloc: Global, case: &Case) -> (String, String) {
    let (fails, limit, steps, ..) = *case;
    let disk = MemDisk::new(alloc, fails.to_vec(alloc).expect(rt, "memory"));
    let mut told = String::new(alloc);
    let disk = disk_after(rt, alloc, disk, limit, steps, &mut told);
    let calls = kinds(rt, alloc, disk.made());
    add_lines(rt, &mut told, alloc, disk);
    (calls, told)
}

// The line that the row comes to has exactly 65,535 bytes: the reading and ` /` have 3, each of 15 words 4,096 with
// its slash, and the last 4,092.
const LONG: &[StoreStep<'static>] = &[
    StoreStep::LearnLong("a", 4095),
    StoreStep::LearnLong("b", 4095),
    StoreStep::LearnLong("c", 4095),
    StoreStep::LearnLong("d", 4095),
    StoreStep::LearnLong("e", 4095),
    StoreStep::LearnLong("f", 4095),
    StoreStep::LearnLong("g", 4095),
    StoreStep::LearnLong("h", 4095),
    StoreStep::LearnLong("i", 4095),
    StoreStep::LearnLong("j", 4095),
    StoreStep::LearnLong("k", 4095),
    StoreStep::LearnLong("l", 4095),
    StoreStep::LearnLong("m", 4095),
    StoreStep::LearnLong("n", 4095),
    StoreStep::LearnLong("o", 4095),
    StoreStep::LearnLong("p", 4092),
    StoreStep::LearnLong("p", 4091),
];

const LONG_TOLD: &str =
    "Learned 1\nLearned 2\nLearned 3\nLearned 4\nLearned 5\nLearned 6\nLearned 7\n\
    Learned 8\nLearned 9\nLearned 10\nLearned 11\nLearned 12\nLearned 13\nLearned 14\nLearned 15\n\
    TooBig(65536)\nLearned 16\n";

const LONG_MADE: &str =
    "sswscwwswswswswswswswswswswswswswswswswswswswswswswswswswswswswswswswswsws";

#[test]
fn a_row_may_be_long(rt: HostRuntime) {
    let told = long_told(&rt, rt.alloc());
    expect_case(&rt, rt.alloc(), &(&[], FAR, LONG, &told, LONG_MADE))
}

// What is told of the long row, and then its line.
fn long_told(rt: &impl Abort, alloc: Global) -> String {
    let line = long_line(rt, alloc, 4091);
    format!(in alloc; "{LONG_TOLD}{line}\n").expect(rt, "memory")
}

// The letters of the words behind the first one of the long row.
static LETTERS: &[&str] = &[
    "o", "n", "m", "l", "k", "j", "i", "h", "g", "f", "e", "d", "c", "b", "a",
];

// The line of the long row, whose first word has so many bytes.
fn long_line(rt: &impl Abort, alloc: Global, count: usize) -> String {
    let mut line = String::from_str(alloc, "a /").expect(rt, "memory");
    add_long(rt, &mut line, alloc, "p", count);
    for letter in LETTERS {
        add_long(rt, &mut line, alloc, letter, 4095);
    }
    line
}

// Adds a word of so many letters and a slash.
fn add_long(rt: &impl Abort, line: &mut String, alloc: Global, letter: &str, count: usize) {
    let word = letter.repeat(alloc, count).expect(rt, "memory");
    line.push_str(&word).expect(rt, "memory");
    line.push('/').expect(rt, "memory")
}

// So many bytes of the file with one record, other bytes behind them, and what that file is opened as: the lines of
// book 1, or why it is refused.
static FILES: &[(usize, &[u8], &str)] = &[
    (0, b"", ""),
    (0, b"P", ""),
    (0, b"P.", "the first byte of file 0 is 80"),
    (17, b"\0", ""),
    (60, b"\0", "かんじ /漢字/\n"),
    // The row is taken out.
    (
        60,
        b"\x01\x15\0\0\0\x02\x01\0\x01\0\0\0\0\0\0\0\0\xe3\x81\x8b\xe3\x82\x93\xe3\x81\x98\0",
        "",
    ),
    // The count is 1 still, and then it would be 0.
    (
        60,
        b"\x01\x0b\0\0\0\x03\x01\0\x01\0\0\0\0\0\0\0\0",
        "かんじ /漢字/\n",
    ),
    (
        60,
        b"\x01\x0b\0\0\0\x03\x01\0\0\0\0\0\0\0\0\0\0",
        "no record at 60 of file 0",
    ),
    // A record that says nothing, alone and before a bad frame, and a bad frame alone.
    (17, b"\x01\x01\0\0\0x\0", "no record at 17 of file 0"),
    (17, b"\x01\x01\0\0\0x\x01", "no record at 17 of file 0"),
    (60, b"\x01", "no record at 60 of file 0"),
];

#[test]
fn files_are_opened_by_what_their_records_say(rt: HostRuntime) {
    for (count, tail, wanted) in FILES {
        expect_opened(&rt, rt.alloc(), &LEARNT_FILE[..*count], tail, wanted);
    }
}

// Records behind the first one that put the long row, with lines of 65,535 and of 65,536 bytes.
#[test]
fn a_line_in_a_file_may_be_long(rt: HostRuntime) {
    let alloc = rt.alloc();
    let line = long_line(&rt, alloc, 4091);
    let tail = long_record(&rt, alloc, b"\x01\x13\0\x01\0", &line);
    let wanted = format!(in alloc; "{line}\nかんじ /漢字/\n").expect(&rt, "memory");
    expect_opened(&rt, alloc, &LEARNT_FILE[..60], &tail, &wanted);
    let line = long_line(&rt, alloc, 4092);
    let tail = long_record(&rt, alloc, b"\x01\x14\0\x01\0", &line);
    expect_opened(
        &rt,
        alloc,
        &LEARNT_FILE[..60],
        &tail,
        "no record at 60 of file 0",
    );
}

// An open gate and a payload's length, the payload that puts the first row into book 1, and a closed gate.
fn long_record(rt: &impl Abort, alloc: Global, head: &[u8], line: &str) -> Vec<u8> {
    let mut record = head.to_vec(alloc).expect(rt, "memory");
    record
        .extend_from_slice(b"\x01\x01\0\x01\0\0\0\0\0\0\0\x01\0\0\0\0\0\0\0\0")
        .expect(rt, "memory");
    record
        .extend_from_slice(line.as_bytes())
        .expect(rt, "memory");
    record.push(0).expect(rt, "memory");
    record
}

// Tells what the file of these bytes is opened as.
fn expect_opened<R: Abort>(rt: &R, alloc: Global, head: &[u8], tail: &[u8], wanted: &str) {
    let mut bytes = head.to_vec(alloc).expect(rt, "memory");
    bytes.extend_from_slice(tail).expect(rt, "memory");
    let disk = disk_of(rt, alloc, &bytes, &[]);
    let told = opening_text(rt, alloc, disk);
    same_at(told.as_str(), wanted, tail).expect(rt, "as wanted");
}

// The lines of book 1 of the learned file of a disk, or why that is refused.
pub(crate) fn opening_text<D: Disk + Drop>(rt: &impl Abort, alloc: Global, disk: D) -> String {
    match open_file(rt, alloc, disk, FAR) {
        Ok(store) => lines(rt, alloc, &store),
        Err(unopened) => format!(in alloc; "{}", unopened.why).expect(rt, "memory"),
    }
}

// The words that a typist finds for a reading in the learned file of a disk, each with a space behind it, or why that
// is refused.
pub(crate) fn found_text<D: Disk + Drop>(
    rt: &impl Abort,
    alloc: Global,
    disk: D,
    who: u16,
    reading: &str,
) -> String {
    match open_file(rt, alloc, disk, FAR) {
        Ok(store) => found_in(rt, alloc, store, who, reading),
        Err(unopened) => format!(in alloc; "{}", unopened.why).expect(rt, "memory"),
    }
}

// The words that a typist finds for a reading in a store, each with a space behind it.
fn found_in<D: Disk + Drop>(
    rt: &impl Abort,
    alloc: Global,
    mut store: Store<D>,
    who: u16,
    reading: &str,
) -> String {
    let look_up = Call::Lookup {
        who,
        key: key(rt, alloc, reading),
        okuri: None,
    };
    let answer = answer(alloc, &mut store, look_up);
    let mut told = String::new(alloc);
    if let Answer::Done(reply) = &answer {
        add_reply(rt, &mut told, alloc, reply);
    }
    told
}

// Opens the new file of a disk with a limit, asks for steps, and closes it.
pub(crate) fn disk_after<D: Disk + Drop>(
    rt: &impl Abort,
    alloc: Global,
    disk: D,
    limit: u64,
    steps: &[StoreStep],
    told: &mut String,
) -> D {
    let mut store = opened_file(rt, alloc, disk, limit);
    ask_each(rt, alloc, &mut store, steps, told);
    store.close()
}

// Asks for steps one after another, and adds what the answers tell.
pub(crate) fn ask_each<D: Disk>(
    rt: &impl Abort,
    alloc: Global,
    store: &mut Store<D>,
    steps: &[StoreStep],
    told: &mut String,
) {
    let mut learnings = Vec::new(alloc);
    for step in steps {
        ask(rt, alloc, store, *step, &mut learnings, told);
    }
}

// Asks for a step, adds what the answer tells, and keeps what was learnt.
fn ask<D: Disk>(
    rt: &impl Abort,
    alloc: Global,
    store: &mut Store<D>,
    step: StoreStep,
    learnings: &mut Vec<Learned>,
    told: &mut String,
) {
    let call = call_of(rt, alloc, step, learnings);
    let answer = answer(alloc, store, call);
    add_answer(rt, told, alloc, &answer);
    keep(rt, learnings, answer)
}

// Keeps what was learnt, where an answer tells of that.
fn keep(rt: &impl Abort, learnings: &mut Vec<Learned>, answer: Answer) {
    if let Some(learned) = learned_of(answer) {
        learnings.push(learned).expect(rt, "memory");
    }
}

// The answer to a call. Calls are let go here alone: each place where one is takes long to prove.
fn answer<D: Disk>(alloc: Global, store: &mut Store<D>, call: Call) -> Answer
    requires { is_fit call ≡ true }
{
    answer_to(alloc, store, &call)
}

// The answer of a store to a call.
fn answer_to<D: Disk>(alloc: Global, store: &mut Store<D>, call: &Call) -> Answer
    requires { is_fit call.now ≡ true }
{
    store.serve(alloc, call)
}

// Opens the learned file of a disk over no system files.
pub(crate) fn open_file<D: Disk + Drop>(
    rt: &impl Abort,
    alloc: Global,
    disk: D,
    limit: u64,
) -> Result<Store<D>, Unopened<D>> {
    let system = System::of_books(alloc, Books::new(alloc)).expect(rt, "memory");
    open_over(alloc, disk, system, limit)
}

// Opens the learned file of a disk.
fn open_over<D: Disk>(
    alloc: Global,
    disk: D,
    system: System,
    limit: u64,
) -> Result<Store<D>, Unopened<D>> {
    Store::open(alloc, disk, system, limit)
}

// Opens the learned file of a disk, which is one.
pub(crate) fn opened_file<D: Disk + Drop>(
    rt: &impl Abort,
    alloc: Global,
    disk: D,
    limit: u64,
) -> Store<D> {
    match open_file(rt, alloc, disk, limit) {
        Ok(store) => store,
        Err(unopened) => panic!(rt; "{}", unopened.why),
    }
}

// Adds the lines of book 1 of the learned file of a disk.
fn add_lines<D: Disk + Drop>(rt: &impl Abort, told: &mut String, alloc: Global, disk: D) {
    let store = opened_file(rt, alloc, disk, FAR);
    told.push_str(&lines(rt, alloc, &store))
        .expect(rt, "memory")
}

// The lines of book 1, without the part lines.
pub(crate) fn lines<D: Disk>(rt: &impl Abort, alloc: Global, store: &Store<D>) -> String {
    let dump = store.dump(alloc, 1).expect(rt, "memory");
    let lines = dump
        .as_str()
        .strip_prefix(PART_LINES)
        .expect(rt, "other part lines");
    String::from_str(alloc, lines).expect(rt, "memory")
}

// The key of a reading without okurigana.
fn key(rt: &impl Abort, alloc: Global, reading: &str) -> RowKey {
    RowKey::new(Part::Nasi, text(rt, alloc, reading)).expect(rt, "a key")
}

// A word without a note.
fn cand(rt: &impl Abort, alloc: Global, word: &str) -> Cand {
    Cand::new(text(rt, alloc, word), Text::new(alloc)).expect(rt, "a candidate")
}

// A word.
fn word_of(rt: &impl Abort, alloc: Global, content: &str) -> Text
    ensures { is_word result ≡ true }
{
    let cand = cand(rt, alloc, content);
    cand.word().copy(alloc).expect(rt, "memory")
}

// The call of a step, which may take back what was learnt.
fn call_of(rt: &impl Abort, alloc: Global, step: StoreStep, learnings: &mut Vec<Learned>) -> Call
    ensures { is_fit result ≡ true }
{
    match step {
        StoreStep::Learn(reading, word) => learning(rt, alloc, reading, word),
        StoreStep::LearnLong(letter, count) => learning_long(rt, alloc, letter, count),
        StoreStep::Purge(reading, word) => purging(rt, alloc, reading, word),
        StoreStep::Annotate(reading, word, note) => annotating(rt, alloc, reading, word, note),
        StoreStep::Share(who, books) => sharing(rt, who, books),
        StoreStep::Unlearn => unlearning(rt, learnings),
        StoreStep::Find(reading) => finding(rt, alloc, reading),
        StoreStep::Complete(prefix) => completing(rt, alloc, prefix),
    }
}

fn learning(rt: &impl Abort, alloc: Global, reading: &str, word: &str) -> Call
    ensures { is_fit result ≡ true }
{
    Call::Learn {
        book: 1,
        key: key(rt, alloc, reading),
        okuri: None,
        cand: cand(rt, alloc, word),
    }
}

fn learning_long(rt: &impl Abort, alloc: Global, letter: &str, count: usize) -> Call
    ensures { is_fit result ≡ true }
{
    let word = letter.repeat(alloc, count).expect(rt, "memory");
    learning(rt, alloc, "a", &word)
}

fn purging(rt: &impl Abort, alloc: Global, reading: &str, word: &str) -> Call
    ensures { is_fit result ≡ true }
{
    Call::Purge {
        book: 1,
        key: key(rt, alloc, reading),
        word: word_of(rt, alloc, word),
    }
}

fn annotating(rt: &impl Abort, alloc: Global, reading: &str, word: &str, note: &str) -> Call
    ensures { is_fit result ≡ true }
{
    let (word, note) = (text(rt, alloc, word), text(rt, alloc, note));
    Call::Annotate {
        book: 1,
        key: key(rt, alloc, reading),
        cand: Cand::new(word, note).expect(rt, "a candidate"),
    }
}

fn sharing(rt: &impl Abort, who: u16, books: &[u16]) -> Call
    ensures { is_fit result ≡ true }
{
    Call::Share {
        who,
        books: BookList::new(books).expect(rt, "a list"),
    }
}

fn unlearning(rt: &impl Abort, learnings: &mut Vec<Learned>) -> Call
    ensures { is_fit result ≡ true }
{
    let learned = learnings.pop().expect(rt, "nothing was learnt");
    Call::Unlearn { learned }
}

fn finding(rt: &impl Abort, alloc: Global, reading: &str) -> Call
    ensures { is_fit result ≡ true }
{
    Call::Lookup {
        who: 1,
        key: key(rt, alloc, reading),
        okuri: None,
    }
}

fn completing(rt: &impl Abort, alloc: Global, prefix: &str) -> Call
    ensures { is_fit result ≡ true }
{
    Call::Complete {
        who: 1,
        prefix: text(rt, alloc, prefix),
    }
}

// What was learnt, where an answer tells of that.
fn learned_of(answer: Answer) -> Option<Learned> {
    match answer {
        Answer::Done(Reply::Learned(learned)) => Some(learned),
        _ => None,
    }
}

// Adds a line of what an answer tells: of a refusal its cause.
fn add_answer(rt: &impl Abort, told: &mut String, alloc: Global, answer: &Answer) {
    match answer {
        Answer::Done(reply) => add_reply(rt, told, alloc, reply),
        Answer::Refused(refusal) => write!(told, "{refusal:?}").expect(rt, "memory"),
    }
    told.push('\n').expect(rt, "memory")
}

// Adds what a reply tells.
fn add_reply(rt: &impl Abort, told: &mut String, alloc: Global, reply: &Reply) {
    match reply {
        Reply::Found(found) => add_words(rt, told, alloc, found),
        Reply::Readings(readings) => add_texts(rt, told, readings),
        Reply::Learned(learned) => {
            write!(told, "Learned {}", learned.stamp()).expect(rt, "memory");
        }
        reply => write!(told, "{reply:?}").expect(rt, "memory"),
    }
}

// Adds the words of candidates, each with a space behind it.
fn add_words(rt: &impl Abort, told: &mut String, alloc: Global, found: &FoundCands) {
    let found = found.copy(alloc).expect(rt, "memory");
    let found = found.into_distinct(alloc).expect(rt, "memory");
    for cand in found.cands().as_slice() {
        told.push_str(cand.word().as_str()).expect(rt, "memory");
        told.push(' ').expect(rt, "memory");
    }
}

// Adds texts, each with a space behind it.
fn add_texts(rt: &impl Abort, told: &mut String, texts: &Texts) {
    for text in texts.as_slice() {
        told.push_str(text.as_str()).expect(rt, "memory");
        told.push(' ').expect(rt, "memory");
    }
}
