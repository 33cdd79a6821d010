use crate::learning::{add_texts, run};
use crate::making::{files_of, text};
use dict_complete::{TextLists, complete};
use expectations::{same, same_at};
use skk_text::Texts;
use std::alloc::Global;
use std::process::Abort;

const WORDS: &str = ";; okuri-ari entries.\nおおk /大/多/[く/多/]/[き/大/]/\nうごk /動/[く/動/]/\n\
    いt /言/行/[った/言/]/\n;; okuri-nasi entries.\n#ねん /#1年/#3年/#0年/\n125 /東京都葛飾区/\np# /#4/\n\
    かんじ /漢字/幹事;宴会の/感じ/\nちょう> /超/\n";

const CRAB: &str = "かに /蟹/\nかい /貝/\nきく /菊/\nかわ /(skk-ignore-dic-word \"川\")/\n";

const TURTLE: &str = "かい /貝/\nかめ /亀/\nか /蚊/\nかるた /歌留多/\n";

// Readings of two books, two files, a prefix, and what is given.
type Joined = (
    &'static str,
    &'static str,
    &'static str,
    &'static str,
    &'static str,
    &'static str,
);

static JOINED: [Joined; 11] = [
    ("", "", WORDS, "", "か", "かんじ"),
    ("", "", WORDS, "", "かんじ", ""),
    ("", "", WORDS, "", "", "#ねん 125 p# かんじ ちょう>"),
    ("", "", WORDS, "", "おお", ""),
    ("かさ かき", "かに かき", "", "", "か", "かさ かき かに"),
    ("かさ かき", "かき かさ", CRAB, TURTLE, "か", "かさ かき かい かに かめ かるた"),
    ("かめ", "", TURTLE, CRAB, "か", "かめ かい かるた かに"),
    ("", "", CRAB, TURTLE, "かい", ""),
    ("", "", CRAB, TURTLE, "き", "きく"),
    ("", "", CRAB, TURTLE, "が", ""),
    ("", "", "", "", "", ""),
];

// How many readings the typist's book has and how many the file, how many are given, and the last of them.
type Counted = (usize, usize, usize, &'static str);

static COUNTED: [Counted; 8] = [
    (0, 255, 255, "あ254"),
    (0, 256, 256, "あ255"),
    (0, 257, 256, "あ255"),
    (255, 0, 255, "あ254"),
    (257, 0, 256, "あ255"),
    (250, 10, 250, "あ249"),
    (255, 257, 256, "あ255"),
    (257, 257, 256, "あ255"),
];

// The prefix itself, another reading, a key with okurigana and a purged row do not complete, and what was learnt last
// comes first. The shared book comes second, once, and then each file.
static BOOKS: &str = "
learn 1 かき 柿 = learned 1 after 0
learn 1 かん 缶 = learned 2 after 0
learn 1 か 蚊 = learned 3 after 0
learn 1 かさ 傘 = learned 4 after 0
learn 1 きく 菊 = learned 5 after 0
learn 1 かk 書 = learned 6 after 0
learn 1 かい 貝 = learned 7 after 0
purge 1 かい 貝 = purged
complete 1 か = かさ かん かき
learn 1 かき 火気 = learned 9 after 1
complete 1 か = かき かさ かん
complete 1 = かき きく かさ か かん
complete 1 かき =
complete 1 が =
learn 0 かん 感 = learned 1 after 0
learn 0 かに 蟹 = learned 2 after 0
complete 1 か = かき かさ かん かに
complete 2 か = かに かん
complete 0 か = かに かん
learn 7 かに 蟹 = learned 1 after 0
learn 7 かめ 亀 = learned 2 after 0
learn 7 かい 貝 = learned 3 after 0
learn 7 かk 書 = learned 4 after 0
learn 8 かめ 瓶 = learned 1 after 0
learn 8 かお 顔 = learned 2 after 0
learn 8 かわ 川 = learned 3 after 0
purge 8 かわ 川 = purged
file 7 8 = done
complete 1 か = かき かさ かん かに かい かめ かお
complete 2 = かに かん かい かめ かお
complete 0 か = かに かん かい かめ かお
";

// Of rows with one stamp the one whose reading is less by its bytes comes first.
static ONE_STAMP: &str = "
learn 1 かん 缶 = learned 1 after 0
learn 2 かき 柿 = learned 1 after 0
learn 3 かさ 傘 = learned 1 after 0
learn 3 かに 蟹 = learned 2 after 0
put 1 かん 5 = done
put 2 かき 5 = done
put 3 かさ 5 = done
put 3 かに 5 = done
swap = done
complete 5 か = かに かき かさ かん
";

#[test]
fn readings_are_joined(rt: HostRuntime) {
    for row in &JOINED {
        expect_joined(&rt, rt.alloc(), row);
    }
}

fn expect_joined(rt: &impl Abort, alloc: Global, row: &Joined) {
    let (newest, shared, file, other, prefix, wanted) = *row;
    let lists = lists_of(rt, alloc, &[newest, shared]);
    let given = given_of(rt, alloc, &lists, file, other, prefix);
    let mut told = String::new(alloc);
    add_texts(rt, &mut told, &given);
    same_at(told.trim(), wanted, row).expect(rt, "as wanted");
}

// The readings of books, of each by the words of a line.
fn lists_of(rt: &impl Abort, alloc: Global, books: &[&str]) -> TextLists {
    let mut lists = TextLists::new(alloc);
    for words in books {
        lists.push(texts(rt, alloc, words)).expect(rt, "memory");
    }
    lists
}

// What is given of the readings of books and two files.
fn given_of(
    rt: &impl Abort,
    alloc: Global,
    lists: &TextLists,
    file: &str,
    other: &str,
    prefix: &str,
) -> Texts {
    let system = files_of(rt, alloc, &[file, other]);
    complete(alloc, lists, &system, &text(rt, alloc, prefix)).expect(rt, "memory")
}

#[test]
fn readings_are_256_at_most(rt: HostRuntime) {
    for row in &COUNTED {
        expect_counted(&rt, rt.alloc(), row);
    }
}

fn expect_counted(rt: &impl Abort, alloc: Global, row: &Counted) {
    let (in_book, in_file, count, last) = *row;
    let words = numbered(rt, alloc, in_book, " ");
    let lists = lists_of(rt, alloc, &[words.as_str()]);
    let file = numbered(rt, alloc, in_file, " /亜/\n");
    let given = given_of(rt, alloc, &lists, &file, "", "あ");
    expect_last(rt, &given, count, last);
}

// Tells how many texts there are, and the last of them.
fn expect_last(rt: &impl Abort, texts: &Texts, count: usize, last: &str) {
    same(texts.len(), count).expect(rt, "as wanted");
    let found = texts.as_slice().last().expect(rt, "no text");
    same(found.as_str(), last).expect(rt, "as wanted");
}

#[test]
fn books_are_completed(rt: HostRuntime) {
    run(&rt, rt.alloc(), BOOKS);
    run(&rt, rt.alloc(), ONE_STAMP)
}

// The texts of words.
fn texts(rt: &impl Abort, alloc: Global, words: &str) -> Texts {
    let mut texts = Texts::new(alloc);
    for word in words.split_whitespace() {
        texts.push(text(rt, alloc, word)).expect(rt, "memory");
    }
    texts
}

// Numbered readings, each with this behind it.
fn numbered(rt: &impl Abort, alloc: Global, count: usize, behind: &str) -> String {
    let mut readings = String::new(alloc);
    for number in 0..count {
        readings
            .push_str(&format!(in alloc; "あ{number:03}{behind}").expect(rt, "memory"))
            .expect(rt, "memory");
    }
    readings
}
