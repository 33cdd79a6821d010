use crate::making::{long_text, text};
use dict_format::{
    BadLines, FileFault, LineFault, LineReason, files_list_one_thing, lines_spell_one_row,
    lines_spell_rows_or_have_reasons, print_file, print_item, print_line,
    printing_order_moves_rows, read_file, read_line,
};
use expectations::{same, same_at};
use skk_calls::{Book, Cand, Part};
use skk_text::{Text, TextFault};
use std::alloc::Global;
use std::process::Abort;

// The canonical line of the row that a line spells, or why it spells none.
fn printed_line(alloc: Global, part: Part, line: &Text) -> Result<Text, LineFault> {
    let row = read_line(alloc, part, line)?;
    Ok(print_line(alloc, &row)?)
}

// Lines, each with its part and with the canonical line of its row.
static LINES: &[(Part, &str, &str)] = &[
    // what stands is printed as it stands
    (Part::Nasi, "かんじ /漢字/幹事;宴会の/感じ/", "かんじ /漢字/幹事;宴会の/感じ/"),
    (Part::Nasi, "#ねん /#1年/#3年/#0年/", "#ねん /#1年/#3年/#0年/"),
    (Part::Nasi, "125 /東京都葛飾区/", "125 /東京都葛飾区/"),
    (Part::Nasi, "p# /#4/", "p# /#4/"),
    (Part::Nasi, "ちょう> /超/", "ちょう> /超/"),
    (Part::Ari, "うごk /動/[く/動/]/", "うごk /動/[く/動/]/"),
    (
        Part::Ari,
        "おおk /大/多/[く/多/]/[き/大/]/",
        "おおk /大/多/[く/多/]/[き/大/]/",
    ),
    (Part::Ari, "いt /言/行/[った/言/]/", "いt /言/行/[った/言/]/"),
    // kanji, notes in kanji and kana, of which one begins as a form does, and forms: a note keeps each of its bytes
    (
        Part::Nasi,
        "OMG /the Object Management Group;CORBA策定のための組織/(concat \"http:\\057\\057www.omg.org\\057\")/",
        "OMG /the Object Management Group;CORBA策定のための組織/(concat \"http:\\057\\057www.omg.org\\057\")/",
    ),
    (
        Part::Nasi,
        "りっそく /律速;(concat \"複要素が絡み合う事柄\\057\")の要素/入出力;イオ/(concat \"I\\057Oポート\")/",
        "りっそく /律速;(concat \"複要素が絡み合う事柄\\057\")の要素/入出力;イオ/(concat \"I\\057Oポート\")/",
    ),
    // several spaces, an empty word, a word that came before
    (Part::Nasi, "か   /蚊//蚊;むし/", "か /蚊/"),
    // a bracket in the okuri-nasi part, and a closing one alone
    (
        Part::Nasi,
        "か /[x/]/y/",
        "か /(concat \"[x\")/(concat \"]\")/y/",
    ),
    (Part::Ari, "かk /]/", "かk /(concat \"]\")/"),
    // repeated blocks, an empty one, an okurigana that is none, a note and a bracket in a block
    (
        Part::Ari,
        "おおk /[く/多/]/[き/大/]/[く/大/多/]/",
        "おおk /[く/多/大/]/[き/大/]/",
    ),
    (
        Part::Ari,
        "おおk /[く/]/[き/大;x/[y/]/[k/大/]/",
        "おおk /[き/大/(concat \"[y\")/]/",
    ),
    // strings
    (
        Part::Nasi,
        "か /(concat \"\\057\\073\")/",
        "か /(concat \"\\057\\073\")/",
    ),
    (
        Part::Nasi,
        "か /(concat \"a\\\"b\\\\c\\r\\n\")/",
        "か /(concat \"a\\\"b\\\\c\\r\\n\")/",
    ),
    (Part::Nasi, "か /(concat \"a\\177b\")/", "か /a\u{7F}b/"),
    (
        Part::Nasi,
        "か /(concat \"\\141;b\")/",
        "か /(concat \"(concat \\\"\\\\141\");b\")/",
    ),
    // forms that are none
    (
        Part::Nasi,
        "か /(concat \"\\200\")/",
        "か /(concat \"(concat \\\"\\\\200\\\")\")/",
    ),
    (
        Part::Nasi,
        "か /(concat \"\\t\")/",
        "か /(concat \"(concat \\\"\\\\t\\\")\")/",
    ),
    (
        Part::Nasi,
        "か /(concat \"a\" \"b\")/",
        "か /(concat \"(concat \\\"a\\\" \\\"b\\\")\")/",
    ),
    // marks
    (
        Part::Nasi,
        "か /(skk-ignore-dic-word \"x\" \"y\")/z/(skk-ignore-dic-word \"x\" \"\" \"w\")/",
        "か /z/(skk-ignore-dic-word \"x\" \"y\" \"w\")/",
    ),
    (
        Part::Nasi,
        "か /(skk-ignore-dic-word  \"x\")/(skk-ignore-dic-word)/",
        "か /(concat \"(skk-ignore-dic-word  \\\"x\\\")\")/(skk-ignore-dic-word)/",
    ),
];

#[test]
fn lines_are_read_and_printed(rt: HostRuntime) {
    for (part, line, canonical) in LINES {
        expect_line(&rt, rt.alloc(), *part, line, canonical);
    }
}

fn expect_line(rt: &impl Abort, alloc: Global, part: Part, line: &str, canonical: &str) {
    match printed_line(alloc, part, &text(rt, alloc, line)) {
        Ok(again) => same(again.as_str(), canonical).expect(rt, "as wanted"),
        Err(fault) => assert!(rt; false, "at {line:?}: {fault:?}"),
    }
}

// The part of a line; the line, which is a text, another one so many times, and an end; and the first reason for which
// it is refused.
type RefusedRow = (
    Part,
    &'static str,
    &'static str,
    usize,
    &'static str,
    Option<LineReason>,
);

static REFUSED: &[RefusedRow] = &[
    (Part::Nasi, "か /蚊", "", 0, "", Some(LineReason::NoSlash)),
    (Part::Nasi, "か /", "", 0, "", Some(LineReason::NoSlash)),
    (Part::Nasi, "か //", "", 0, "", Some(LineReason::Empty)),
    (
        Part::Nasi,
        "か /(skk-ignore-dic-word \"\")/",
        "",
        0,
        "",
        Some(LineReason::Empty),
    ),
    (
        Part::Ari,
        "おおk /大/[く/多/",
        "",
        0,
        "",
        Some(LineReason::Block),
    ),
    (Part::Ari, "おお /大/", "", 0, "", Some(LineReason::OkuriKey)),
    (Part::Ari, "k /大/", "", 0, "", Some(LineReason::OkuriKey)),
    (Part::Nasi, "か", "", 0, "", Some(LineReason::NoSpace)),
    (Part::Nasi, " /か/", "", 0, "", Some(LineReason::BadReading)),
    (
        Part::Nasi,
        ";か /か/",
        "",
        0,
        "",
        Some(LineReason::BadReading),
    ),
    (
        Part::Nasi,
        "か\u{7F} /か/",
        "",
        0,
        "",
        Some(LineReason::BadReading),
    ),
    (
        Part::Nasi,
        "\t",
        "か",
        200,
        " /か/",
        Some(LineReason::BadReading),
    ),
    (Part::Nasi, "", "a", 254, " /か/", None),
    (
        Part::Nasi,
        "",
        "a",
        255,
        " /か/",
        Some(LineReason::LongReading),
    ),
    (Part::Ari, "", "a", 255, " /か/", None),
    (
        Part::Ari,
        "",
        "a",
        256,
        " /か/",
        Some(LineReason::LongReading),
    ),
    (Part::Nasi, "か /", "a", 4_095, "/", None),
    (
        Part::Nasi,
        "か /b/",
        "a",
        4_096,
        "/",
        Some(LineReason::LongCandidate),
    ),
    (Part::Nasi, "か /b;", "a", 4_094, "/", None),
    (
        Part::Nasi,
        "か /b;",
        "a",
        4_095,
        "/",
        Some(LineReason::LongCandidate),
    ),
    (Part::Nasi, "か /(concat \"", "\\141", 4_095, "\")/", None),
    (
        Part::Nasi,
        "か /(concat \"",
        "\\141",
        4_096,
        "\")/",
        Some(LineReason::LongCandidate),
    ),
    (Part::Nasi, "aa /", "b/", 32_765, "/", None),
    (
        Part::Nasi,
        "aaa /",
        "b/",
        32_765,
        "/",
        Some(LineReason::LongLine),
    ),
];

#[test]
fn lines_are_refused_by_their_first_reason(rt: HostRuntime) {
    for row in REFUSED {
        expect_refused(&rt, rt.alloc(), row);
    }
}

fn expect_refused(rt: &impl Abort, alloc: Global, row: &RefusedRow) {
    let (part, start, unit, count, end, reason) = *row;
    let line = long_text(rt, alloc, start, unit, count, end);
    let fault = printed_line(alloc, part, &line).err();
    same_at(fault, reason.map(LineFault::Reason), row).expect(rt, "as wanted");
}

static ITEMS: &[(&str, &str, &str)] = &[
    ("[x", "", "(concat \"[x\")"),
    ("a;b", "宴会の", "(concat \"a\\073b\");宴会の"),
];

// The item of a word and its note.
fn printed_item(rt: &impl Abort, alloc: Global, word: &str, note: &str) -> Text {
    let cand = Cand::new(text(rt, alloc, word), text(rt, alloc, note)).expect(rt, "a candidate");
    print_item(alloc, &cand).expect(rt, "memory")
}

#[test]
fn items_are_printed(rt: HostRuntime) {
    for (word, note, item) in ITEMS {
        let printed = printed_item(&rt, rt.alloc(), word, note);
        same(printed.as_str(), *item).expect(&rt, "as wanted");
    }
    lines_spell_one_row();
    lines_spell_rows_or_have_reasons();
}

const S: &str = ";; okuri-ari entries.
おおk /大/多/[く/多/]/[き/大/]/
うごk /動/[く/動/]/
いt /言/行/[った/言/]/
;; okuri-nasi entries.
#ねん /#1年/#3年/#0年/
125 /東京都葛飾区/
p# /#4/
かんじ /漢字/幹事;宴会の/感じ/
ちょう> /超/
";

// A file, how its rows are printed, and its bad lines by their numbers, each with its reason.
type FileRow = (&'static str, &'static str, &'static [(usize, LineReason)]);

static FILES: &[FileRow] = &[
    (S, S, &[]),
    ("", ";; okuri-ari entries.\n;; okuri-nasi entries.\n", &[]),
    // a mark at the head, no part line, rows out of order, and no LF at the end
    (
        "\u{FEFF}かん /漢/\nか /蚊/\nか /香/",
        ";; okuri-ari entries.\n;; okuri-nasi entries.\nか /蚊/\nかん /漢/\n",
        &[(3, LineReason::Twice)],
    ),
    // CR LF, blanks at the end, comments and empty lines
    (
        ";c\r\n\r\n;; okuri-ari entries. \r\nおおk /大/ \t\r\n;; okuri-nasi entries.\r\nか /蚊/\r",
        ";; okuri-ari entries.\nおおk /大/\n;; okuri-nasi entries.\nか /蚊/\n",
        &[],
    ),
    // a part that comes again, and one reading in both parts
    (
        ";; okuri-ari entries.\nak /a/\nakk /b/\n;; okuri-nasi entries.\nak /c/\n;; okuri-ari entries.\nak /d/\n\
            く /e\n",
        ";; okuri-ari entries.\nakk /b/\nak /a/\n;; okuri-nasi entries.\nak /c/\n",
        &[(7, LineReason::Twice), (8, LineReason::OkuriKey)],
    ),
    (
        ";; -*- mode: fundamental; coding: utf-8 -*-\n;; okuri-ari entries.\n;; okuri-nasi entries.\nあい /愛/\n\
            か /蚊\n",
        ";; okuri-ari entries.\n;; okuri-nasi entries.\nあい /愛/\n",
        &[(5, LineReason::NoSlash)],
    ),
];

// Tells how a file is printed, and its bad lines.
fn expect_file(rt: &impl Abort, alloc: Global, row: &FileRow) {
    let (file, printed, bad) = *row;
    let listed = read_file(alloc, file.as_bytes()).expect(rt, "a file");
    expect_printed(rt, alloc, &listed.book, printed);
    expect_bad(rt, &listed.bad, bad);
}

fn expect_printed(rt: &impl Abort, alloc: Global, book: &Book, printed: &str) {
    let text = print_file(alloc, book).expect(rt, "memory");
    same(text.as_str(), printed).expect(rt, "as wanted");
}

fn expect_bad(rt: &impl Abort, found: &BadLines, bad: &[(usize, LineReason)]) {
    same_at(found.len(), bad.len(), bad).expect(rt, "as wanted");
    for (found, wanted) in found.as_slice().iter().zip(bad) {
        same_at((found.line, found.reason), *wanted, bad).expect(rt, "as wanted");
    }
}

// Why a file is not read.
fn fault_of(alloc: Global, file: &[u8]) -> Option<FileFault> {
    read_file(alloc, file).err()
}

#[test]
fn files_are_read_and_printed(rt: HostRuntime) {
    for row in FILES {
        expect_file(&rt, rt.alloc(), row);
    }
    let fault = fault_of(rt.alloc(), b";; okuri-nasi entries.\n\xA4\xA2");
    same(
        fault,
        Some(FileFault::NoText(TextFault::NotUtf8 { at: 23 })),
    )
    .expect(&rt, "as wanted");
    files_list_one_thing();
    printing_order_moves_rows();
}
