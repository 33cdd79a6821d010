use crate::making::{files_of, rows_of, text};
use dict_files::{DictionaryFile, walks_go_over_completions};
use dict_format::{FileFault, print_line};
use dict_layers::System;
use expectations::{same, same_at};
use skk_calls::{FoundRows, Part, RowKey, Walk};
use skk_text::{Bytes, Text, TextFault};
use std::alloc::Global;
use std::process::Abort;

// Keys with two lines, and bad lines before them.
const TWICE: &str = "かんじ /漢字/\nかんじ /幹事/\n";

const BAD_FIRST: &str = "かんじ\nかんじ 漢字\nかんじ /漢字\nかんじ /感じ;\u{611F}/\nかんじ /幹事/\n";
// Parts as they stand in most files, and with CR LF, behind U+FEFF and without a part line, and twice.
const PARTS: &str = ";; okuri-ari entries.\nおおk /大/[く/多/]/\nうごk /動/\nいt /行/\n\
    ;; okuri-nasi entries.\nあ /亜/\nい /胃;note/\nいい /良い/\n";

const RETURNS: &str =
    ";; okuri-ari entries.\r\nいt /行/\r\n;; okuri-nasi entries.\r\nい /胃/\t \r\nあ /亜/\r\n";

const MARKED: &str = "\u{FEFF}あ /亜/\n;; okuri-ari entries.\nあ /悪い/\nあk /開/\n";

const PARTS_TWICE: &str = ";; okuri-nasi entries.\nい /胃/\n;; okuri-ari entries.\nいt /行/\n\
    ;; okuri-nasi entries.\nい /医/\nあ /亜/\n;; okuri-ari entries.\nいt /言/\n";
// No LF at the end, rows that only hide words, comments and spaces, and readings in no order, of which some begin
// others.
const UNENDED: &str = "い /胃/";

const HIDING: &str = "う /(skk-ignore-dic-word \"鵜\")/\nう /鵜/\nえ /絵/\n";

const COMMENTS: &str = " い /胃/\n; comment\n;い /医/\nい  /意/\n";

const UNSORTED: &str = "いい /良い/\nい /胃/\nい! /異/\nいあ /居合/\nあ /亜/\nい /医/\nんn /ん/\n";

const MIXED: &str = "か /下/\nが /蛾/\nーか /可/\nka /科/\nKa /化/\n";

static FILES: [&str; 14] = [
    "",
    "\n",
    ";; okuri-nasi entries.\n",
    TWICE,
    BAD_FIRST,
    PARTS,
    RETURNS,
    MARKED,
    PARTS_TWICE,
    UNENDED,
    HIDING,
    COMMENTS,
    UNSORTED,
    MIXED,
];

// Keys of these files, and others.
static KEYS: [(Part, &str); 24] = [
    (Part::Nasi, "かんじ"),
    (Part::Ari, "おおk"),
    (Part::Ari, "うごk"),
    (Part::Ari, "いt"),
    (Part::Ari, "あk"),
    (Part::Ari, "んn"),
    (Part::Ari, "いい"),
    (Part::Nasi, "おおk"),
    (Part::Nasi, "いt"),
    (Part::Nasi, "あ"),
    (Part::Nasi, "い"),
    (Part::Nasi, "いい"),
    (Part::Nasi, "い!"),
    (Part::Nasi, "いあ"),
    (Part::Nasi, "いう"),
    (Part::Nasi, "う"),
    (Part::Nasi, "え"),
    (Part::Nasi, "んn"),
    (Part::Nasi, "か"),
    (Part::Nasi, "が"),
    (Part::Nasi, "ーか"),
    (Part::Nasi, "ka"),
    (Part::Nasi, "Ka"),
    (Part::Nasi, "\u{10FFFF}"),
];

// The lines of the rows of a key.
fn lines_of(rt: &impl Abort, alloc: Global, system: &System, part: Part, reading: &str) -> Text {
    match RowKey::new(part, text(rt, alloc, reading)) {
        Ok(key) => lines_of_key(rt, alloc, system, &key),
        Err(_) => Text::new(alloc),
    }
}

fn lines_of_key(rt: &impl Abort, alloc: Global, system: &System, key: &RowKey) -> Text {
    let rows = system.find(alloc, key).expect(rt, "memory");
    lines_of_rows(rt, alloc, rows)
}

fn lines_of_rows(rt: &impl Abort, alloc: Global, rows: FoundRows) -> Text {
    let mut lines = Text::new(alloc);
    for row in rows.into_vec() {
        let row = row.into_row(alloc).expect(rt, "memory");
        lines
            .push_str(print_line(alloc, &row).expect(rt, "memory").as_str())
            .expect(rt, "memory");
    }
    lines
}

// The readings of a walk over the first file, at most ten, each behind a space.
fn readings_of(rt: &impl Abort, alloc: Global, system: &System) -> Text {
    let mut readings = Text::new(alloc);
    let mut low = Text::new(alloc);
    for _ in 0..10 {
        let Some(next) = next_reading(rt, alloc, system, &low) else {
            return readings;
        };
        readings.push(' ').expect(rt, "memory");
        readings.push_str(next.as_str()).expect(rt, "memory");
        low = next;
    }
    readings
}

// The next reading of the first file, where there are a file and a reading.
fn next_reading(rt: &impl Abort, alloc: Global, system: &System, low: &Text) -> Option<Text> {
    if system.files() == 0 {
        return None;
    }
    system.above(alloc, 0, low).expect(rt, "memory")
}

#[test]
fn files_as_they_lie_have_the_rows_that_are_read(rt: HostRuntime) {
    walks_go_over_completions();
    for file in &FILES {
        expect_same_file(&rt, rt.alloc(), file);
    }
}

fn expect_same_file(rt: &impl Abort, alloc: Global, file: &str) {
    let rows = rows_of(rt, alloc, &[file]);
    let lies = files_of(rt, alloc, &[file]);
    expect_same(rt, alloc, &rows, &lies)
}

// Tells that a file as it lies has the rows and the readings of its rows in memory.
fn expect_same(rt: &impl Abort, alloc: Global, rows: &System, lies: &System) {
    same(lies.file_count(), 1).expect(rt, "as wanted");
    for (part, reading) in &KEYS {
        let wanted = lines_of(rt, alloc, rows, *part, reading);
        expect_lines(rt, alloc, lies, (*part, *reading), wanted.as_str());
    }
    let wanted = readings_of(rt, alloc, rows);
    expect_readings(rt, alloc, lies, wanted.as_str())
}

// Tells which lines the rows of a key have.
fn expect_lines(
    rt: &impl Abort,
    alloc: Global,
    lies: &System,
    (part, reading): (Part, &str),
    wanted: &str,
) {
    let lines = lines_of(rt, alloc, lies, part, reading);
    same_at(lines.as_str(), wanted, reading).expect(rt, "as wanted");
}

// Tells which readings the first file has.
fn expect_readings(rt: &impl Abort, alloc: Global, lies: &System, wanted: &str) {
    let readings = readings_of(rt, alloc, lies);
    same(readings.as_str(), wanted).expect(rt, "as wanted");
}

// A file, a key, and its line.
static FIRST_LINES: [(&str, Part, &str, &str); 13] = [
    (TWICE, Part::Nasi, "かんじ", "かんじ /漢字/"),
    (BAD_FIRST, Part::Nasi, "かんじ", "かんじ /感じ;感/"),
    (PARTS, Part::Ari, "おおk", "おおk /大/[く/多/]/"),
    (PARTS, Part::Nasi, "い", "い /胃;note/"),
    (RETURNS, Part::Nasi, "い", "い /胃/"),
    (MARKED, Part::Nasi, "あ", "あ /亜/"),
    (MARKED, Part::Ari, "あk", "あk /開/"),
    (PARTS_TWICE, Part::Nasi, "い", "い /胃/"),
    (PARTS_TWICE, Part::Ari, "いt", "いt /行/"),
    (UNENDED, Part::Nasi, "い", "い /胃/"),
    (COMMENTS, Part::Nasi, "い", "い /意/"),
    (UNSORTED, Part::Nasi, "い", "い /胃/"),
    (UNSORTED, Part::Ari, "んn", ""),
];

// A file, and its readings.
static READINGS: [(&str, &str); 6] = [
    ("", ""),
    (BAD_FIRST, " かんじ"),
    (PARTS, " あ い いい"),
    (HIDING, " え"),
    (UNSORTED, " あ い い! いあ いい んn"),
    (MIXED, " Ka ka か が ーか"),
];

#[test]
fn the_first_line_of_a_key_that_spells_a_row_counts(rt: HostRuntime) {
    for (file, part, reading, line) in &FIRST_LINES {
        let lies = files_of(&rt, rt.alloc(), &[*file]);
        expect_lines(&rt, rt.alloc(), &lies, (*part, *reading), line);
    }
}

#[test]
fn readings_are_gone_over_in_order(rt: HostRuntime) {
    for (file, readings) in &READINGS {
        let lies = files_of(&rt, rt.alloc(), &[*file]);
        expect_readings(&rt, rt.alloc(), &lies, readings);
    }
}

#[test]
fn files_that_are_no_text_are_refused(rt: HostRuntime) {
    let file = b"\xE3\x81\x82 /\xA4\xA2/\n"
        .to_vec(rt.alloc())
        .expect(&rt, "memory");
    let fault = DictionaryFile::open(rt.alloc(), Bytes::of(file)).err();
    same(fault, Some(FileFault::NoText(TextFault::NotUtf8 { at: 5 }))).expect(&rt, "as wanted");
}
