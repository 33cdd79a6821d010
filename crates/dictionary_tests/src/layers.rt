use crate::making::{add_entry, okuri, rows_of, text};
use dict_format::read_line;
use dict_layers::{RowList, System, cands_in_order, merge};
use expectations::{same, same_at};
use skk_calls::{Cands, Part, Row, RowKey, Walk};
use std::alloc::Global;
use std::process::Abort;

// The row of a line with okurigana.
fn row(rt: &impl Abort, alloc: Global, line: &str) -> Row {
    let line = text(rt, alloc, line);
    read_line(alloc, Part::Ari, &line).expect(rt, "a line")
}

// The candidates, each as its word, a semicolon, its note, and a slash.
fn told(rt: &impl Abort, alloc: Global, cands: &Cands) -> String {
    let mut told = String::new(alloc);
    for cand in cands.as_slice() {
        add_entry(rt, &mut told, cand.word().as_str(), cand.note().as_str());
    }
    told
}

static BLOCKS: &str = "おおk /大/多;おおい/[く/多/]/[き/大/]/[い/覆/]/";

// An okurigana, which may be empty, and the candidates of that row in their order for it.
static IN_ORDER: [(&str, &str); 5] = [
    ("く", "多;おおい/大;/"),
    ("き", "大;/多;おおい/"),
    ("い", "覆;/大;/多;おおい/"),
    ("た", "大;/多;おおい/"),
    ("", "大;/多;おおい/"),
];

#[test]
fn words_of_a_block_stand_first(rt: HostRuntime) {
    let row = row(&rt, rt.alloc(), BLOCKS);
    for (okuri, wanted) in &IN_ORDER {
        expect_order(&rt, rt.alloc(), &row, okuri, wanted);
    }
}

fn expect_order(rt: &impl Abort, alloc: Global, row: &Row, okurigana: &str, wanted: &str) {
    let okuri = okuri(rt, alloc, okurigana);
    let cands = cands_in_order(alloc, row, okuri.as_ref()).expect(rt, "memory");
    drop(okuri);
    let told = told(rt, alloc, &cands);
    same_at(told.as_str(), wanted, wanted).expect(rt, "as wanted");
}

// An upper row and a lower one, an okurigana, and the candidates of both. A word is hidden in the rows below alone, and
// the first of each word is kept.
static MERGED: [(&str, &str, &str, &str); 3] = [
    (
        "おおk /(skk-ignore-dic-word \"漢字\")/",
        "おおk /漢字/幹事;宴会の/感じ/[く/多/]/",
        "き",
        "幹事;宴会の/感じ;/",
    ),
    (
        "おおk /a;x/b/(skk-ignore-dic-word \"a\" \"c\")/",
        "おおk /c/a/b;y/d/[く/多/]/",
        "き",
        "a;x/b;/d;/",
    ),
    ("おおk /b/", "おおk /大/多;y/b;z/[く/多/]/", "く", "b;/多;y/大;/"),
];

#[test]
fn layers_are_merged(rt: HostRuntime) {
    for (upper, lower, okuri, wanted) in &MERGED {
        expect_merged(&rt, rt.alloc(), [upper, lower], okuri, wanted);
    }
}

fn expect_merged(rt: &impl Abort, alloc: Global, rows: [&str; 2], okuri: &str, wanted: &str) {
    let [upper, lower] = rows;
    let (upper, lower) = (row(rt, alloc, upper), row(rt, alloc, lower));
    let told = merged_text(rt, alloc, [&upper, &lower], okuri);
    same_at(told.as_str(), wanted, wanted).expect(rt, "as wanted");
}

// The candidates of rows, the upper one first, for an okurigana.
fn merged_text(rt: &impl Abort, alloc: Global, rows: [&Row; 2], okurigana: &str) -> String {
    let [upper, lower] = rows;
    let mut layers = RowList::new(alloc);
    layers.push(upper).expect(rt, "memory");
    layers.push(lower).expect(rt, "memory");
    let okuri = okuri(rt, alloc, okurigana);
    let cands = merge(alloc, &layers, okuri.as_ref()).expect(rt, "memory");
    drop(okuri);
    told(rt, alloc, cands.cands())
}

// Two files of rows in no order, of which each has one that only hides words.
static FILES: [&str; 2] = [
    "ちょう> /下/\np# /下/\nかんじ /下/\n125 /下/\n#ねん /下/\nだれ /(skk-ignore-dic-word \"下\")/\n\
        ;; okuri-ari entries.\nおおk /下/\nうごk /下/\nいt /下/\n",
    "かんじ /下/\np# /(skk-ignore-dic-word \"下\")/\n",
];

// A key, and how many rows it has.
static COUNTS: [(Part, &str, usize); 9] = [
    (Part::Nasi, "かんじ", 2),
    (Part::Nasi, "#ねん", 1),
    (Part::Nasi, "ちょう>", 1),
    (Part::Nasi, "p#", 2),
    (Part::Ari, "いt", 1),
    (Part::Ari, "おおk", 1),
    (Part::Nasi, "おおk", 0),
    (Part::Nasi, "か", 0),
    (Part::Ari, "んz", 0),
];

#[test]
fn rows_of_a_key_are_found(rt: HostRuntime) {
    let system = rows_of(&rt, rt.alloc(), &FILES);
    for (part, reading, count) in &COUNTS {
        let found = count_of(&rt, rt.alloc(), &system, *part, reading);
        same_at(found, *count, reading).expect(&rt, "as wanted");
    }
}

// How many rows of a key a system has.
fn count_of(rt: &impl Abort, alloc: Global, system: &System, part: Part, reading: &str) -> usize {
    let key = RowKey::new(part, text(rt, alloc, reading)).expect(rt, "a key");
    let found = system.find(alloc, &key).expect(rt, "memory");
    found.len()
}

// A file, a reading, and the next one, which is empty where there is none.
static NEXT: [(usize, &str, &str); 9] = [
    (0, "", "#ねん"),
    (0, "#ねん", "125"),
    (0, "125", "p#"),
    (0, "p#", "かんじ"),
    (0, "か", "かんじ"),
    (0, "かんじ", "ちょう>"),
    (0, "ちょう>", ""),
    (1, "", "かんじ"),
    (1, "かんじ", ""),
];

#[test]
fn readings_are_gone_over(rt: HostRuntime) {
    let system = rows_of(&rt, rt.alloc(), &FILES);
    for (file, low, wanted) in &NEXT {
        expect_next(&rt, rt.alloc(), &system, (*file, *low), wanted);
    }
}

fn expect_next(
    rt: &impl Abort,
    alloc: Global,
    walk: &impl Walk,
    (file, low): (usize, &str),
    wanted: &str,
) {
    assert!(rt; file < walk.files());
    let low = text(rt, alloc, low);
    match walk.above(alloc, file, &low).expect(rt, "memory") {
        Some(next) => same(next.as_str(), wanted).expect(rt, "as wanted"),
        None => same("", wanted).expect(rt, "as wanted"),
    }
}
