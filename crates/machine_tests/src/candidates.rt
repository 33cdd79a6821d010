ghost use Rattle.std.specs.Prelude.{◌≡◌, true};
ghost use Rattle.numeric_entries.specs.Numbers.{are_numbers};

use crate::making::{distinct_cands, text};
use candidate_state::{
    BothFound, CandsDo, Found, Picking, Shown, ShownList, press_cands, shown_numbers, shown_plain,
};
use expectations::{same, same_at};
use numeric_entries::number_key;
use skk_calls::{Part, RowKey};
use skk_text::{Copies, Notice, Text, Texts, read_keys};
use std::alloc::Global;
use std::process::Abort;

static NUMBERS: &str = "一,二,三,四,五,六,七,八,九,十,百,千";

// What is found of a reading: the first so many candidates of a list.
fn found(rt: &impl Abort, alloc: Global, reading: Text, list: &str, count: usize) -> Found {
    Found {
        key: RowKey::new(Part::Nasi, reading).expect(rt, "a key"),
        cands: distinct_cands(rt, alloc, list, count),
    }
}

// The candidates that are shown of the first so many of a list.
fn shown_list(rt: &impl Abort, alloc: Global, list: &str, count: usize) -> ShownList {
    let found = found(rt, alloc, text(rt, alloc, "すう"), list, count);
    shown_plain(found)
}

// What keys make of so many candidates, and what is done behind the last key.
fn picking_after(rt: &impl Abort, alloc: Global, count: usize, keys: &str) -> (Picking, CandsDo) {
    let list = shown_list(rt, alloc, NUMBERS, count);
    assert!(rt; list.len() > 0);
    let mut picking = Picking::new(list);
    let mut done = CandsDo::Stay(Notice::Empty);
    for key in read_keys(alloc, keys.as_bytes()).expect(rt, "keys").iter() {
        done = press_cands(&mut picking, *key);
    }
    (picking, done)
}

// Of so many candidates behind these keys: the place, whether a purge is asked for, and what the last key does.
static PICKINGS: [(usize, &str, &str); 23] = [
    (1, " ", "0 false Register"),
    (1, "x", "0 false Back"),
    (1, "<cj>", "0 false Choose { place: 0, then: Nothing }"),
    (4, "   ", "3 false Stay(Empty)"),
    (4, "    ", "3 false Register"),
    (4, "  x", "1 false Stay(Empty)"),
    (4, " <cg>", "1 false Back"),
    (4, " <bs>", "1 false Choose { place: 1, then: Delete }"),
    (4, " <ret>", "1 false Choose { place: 1, then: Newline }"),
    (4, " >", "1 false Choose { place: 1, then: OpenSuffix }"),
    (
        4,
        " k",
        "1 false Choose { place: 1, then: Read(Char(107)) }",
    ),
    (4, " X", "1 true Stay(Empty)"),
    (4, " XY", "1 false Purge"),
    (4, " Xx", "1 false Stay(Empty)"),
    (5, "    ", "4 false Stay(Empty)"),
    (5, "    a", "4 false Choose { place: 4, then: Nothing }"),
    (5, "    s", "4 false Stay(NoCandidate)"),
    (11, "    l", "4 false Choose { place: 10, then: Nothing }"),
    (11, "     ", "4 false Register"),
    (12, "     ", "11 false Stay(Empty)"),
    (12, "     <bs>x", "3 false Stay(Empty)"),
    (12, "    <cg>", "4 false Back"),
    (12, "    X", "4 false Stay(Empty)"),
];

#[test]
fn keys_pick_candidates(rt: HostRuntime) {
    for (count, keys, wanted) in &PICKINGS {
        expect_picking(&rt, rt.alloc(), *count, keys, wanted);
    }
}

fn expect_picking<R: Abort>(rt: &R, alloc: Global, count: usize, keys: &str, wanted: &str) {
    let (picking, done) = picking_after(rt, alloc, count, keys);
    let outcome = picking_text(rt, alloc, &picking, done);
    same_at(outcome.as_str(), wanted, (&keys, &count)).expect(rt, "as wanted");
}

fn picking_text(rt: &impl Abort, alloc: Global, picking: &Picking, done: CandsDo) -> String {
    let (place, asked) = (picking.place(), picking.is_asked());
    format!(in alloc; "{place} {asked} {done:?}").expect(rt, "memory")
}

// A candidate that is shown: its reading, its word, its text and its note.
type ShownRow = (&'static str, &'static str, &'static str, &'static str);

fn expect_shown<R: Abort>(rt: &R, shown: &Shown, row: &ShownRow) {
    let (reading, word, text, note) = *row;
    same(shown.key.reading().as_str(), reading).expect(rt, "as wanted");
    same(shown.cand.word().as_str(), word).expect(rt, "as wanted");
    same(
        (shown.text.as_str(), shown.cand.note().as_str()),
        (text, note),
    )
    .expect(rt, "as wanted");
}

#[test]
fn the_first_of_each_word_is_shown(rt: HostRuntime) {
    let alloc = rt.alloc();
    let list = shown_list(&rt, alloc, "幹事;宴会の,漢字,幹事;x", 3);
    assert_eq!(rt; list.len(), 2);
    expect_shown(&rt, &list.at(0), &("すう", "幹事", "幹事", "宴会の"));
    expect_shown(&rt, &list.at(1), &("すう", "漢字", "漢字", ""));
}

// A word as it was found stands before a number that is filled, and of equal texts the first is shown.
static BOTH: [ShownRow; 4] = [
    ("9ねん", "九年", "九年", ""),
    ("9ねん", "9年", "9年", "数字"),
    ("#ねん", "#1年", "９年", ""),
    ("#ねん", "#4", "9", "#4"),
];

#[test]
fn words_of_both_keys_are_shown(rt: HostRuntime) {
    let list = list_of_both(&rt, rt.alloc());
    assert_eq!(rt; list.len(), 4);
    for (place, row) in BOTH.iter().enumerate() {
        expect_shown(&rt, &list.at(place), row);
    }
}

// The candidates that are shown of a reading and of the key of its numbers.
fn list_of_both<R: Abort>(rt: &R, alloc: Global) -> ShownList {
    let reading = text(rt, alloc, "9ねん");
    let number_key = number_key(alloc, &reading)
        .expect(rt, "memory")
        .expect(rt, "no number");
    let (key, numbers) = number_key.into_parts();
    let firsts = numbers.copy(alloc).expect(rt, "memory");
    let plain = found(rt, alloc, reading, "九年,9年;数字", 2);
    let numbered = found(rt, alloc, key, "#0年,#1年,#3年;漢字,#4;#4", 4);
    shown_both(rt, alloc, BothFound { plain, numbered }, &numbers, &firsts)
}

fn shown_both<R: Abort>(
    rt: &R,
    alloc: Global,
    both: BothFound,
    numbers: &Texts,
    firsts: &Texts,
) -> ShownList
    requires { are_numbers numbers.now ≡ true }
{
    assert_eq!(rt; firsts.len(), numbers.len());
    shown_numbers(alloc, both, numbers, firsts).expect(rt, "memory")
}
