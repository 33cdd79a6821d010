use crate::expected::{expect_cuts, expect_rows, expect_sizes};
use crate::pieces::{SIZES, push};
use crate::tables::bytes_of;
use crate::ways::Way;
use romaji_rules::Rules;
use skk_calls::Caller;
use skk_text::Bytes;
use std::alloc::Global;
use std::process::Abort;
use std::sync::Wait;
use typist_line::{Going, Typing, run_typist};

// What is sent for pieces that come from a typist, and `over` behind it where nothing more is read.
pub(crate) fn typed<R: Abort, C: Caller>(
    rt: &R,
    alloc: Global,
    caller: &mut C,
    pieces: Vec<Bytes>,
) -> Vec<u8> {
    let rules = Rules::standard(alloc).expect(rt, "memory");
    let mut lines = Typing::new(alloc);
    let mut sent = Vec::new(alloc);
    let mut going = Going::More;
    for piece in pieces.as_slice() {
        going = run_typist(
            &mut lines,
            alloc,
            piece.as_slice(),
            &rules,
            caller,
            &mut sent,
        )
        .expect(rt, "memory");
    }
    drop(rules);
    drop(lines);
    drop(pieces);
    if going == Going::Over {
        push(rt, &mut sent, b"over");
    }
    sent
}

// First lines by which a connection is opened.
const OPENING: &str = "\
T1 1
T1 0
T0 0
T65535 65535
T65535 0";

// And by which it is refused.
const OPENING_NOTHING: &str = "\
// a number that is too great, and one that goes past 16 bits, or past 64, to one that would do
T65536 0
T1 65536
T65536 65536
T65537 1
T1 65537
T18446744073709551617 1
// zeros in front of a number
T01 1
T1 01
T1 00
T00 0
// another typist's book
T1 2
T0 1
// what is no number, no space or more than one, and what stands in front or behind
T1  1
T 1
T 1 1
T1
T1 \n\
T11
T1\t1
T1,1
T1 1 \n\
T1 1\r
T+1 1
T1 -0
T

t1 1
TT1 1
1 1";

// The line behind is typed where the first one opens the connection, and is not read where it is refused.
fn expect_openings<R: Wait + Abort + Copy + Drop + Send + Sync>(
    rt: R,
    alloc: Global,
    lines: &str,
    told: &str,
) {
    for line in lines.split('\n') {
        if !line.starts_with("//") {
            let row = format!(in alloc; "{line}^~^a~|{told}").expect(&rt, "memory");
            expect_rows(rt, alloc, Way::Typist, row.as_str(), &[]);
        }
    }
}

#[test]
fn a_first_line_opens_a_connection(rt: HostRuntime) {
    expect_openings(rt, rt.alloc(), OPENING, "かな\t\t~かな\tあ\t~");
    expect_openings(rt, rt.alloc(), OPENING_NOTHING, "0~over");
}

// What a connection sends over a learned file of its own, and what is sent back.
const TYPED: &str = "\
|
T1 1|
T1 1~|かな\t\t~
T1 1~Kanji |かな\t\t~
T1 1~Kanji ~<zz>~|かな\t\t~かな\t▼漢字\t~?0~
// the first fault of a line is told, and nothing of the line is typed
T1 1~Kanji  ~ab<x>\t~a\tb~ <lt~a\r~か~aか~~|かな\t\t~かな\t▼幹事\t;宴会の~?2~?1~?1~?1~?0~?1~かな\t▼幹事\t;宴会の~
// an empty line is answered, and a `#` begins no comment
T2 0~~#~#a~~|かな\t\t~かな\t\t~かな\t#\t~かな\t##あ\t~かな\t##あ\t~
// a first line that comes again is keys
T1 1~T1 1~|かな\t\t~かな\t[辞書登録] #: 1\t~
T1 1~qka~lka~<cj>Lka~|かな\t\t~カナ\tカ\t~SKK\tカka\t~全英\tカkaｋａ\t~
T1 1~Kanji ~  <cj>~Kanji ~  ~|かな\t\t~かな\t▼漢字\t~かな\t感じ\t~かな\t感じ▼感じ\t~かな\t感じ▼幹事\t;宴会の~
T1 1~OoKu~ ~<cg>~<cg>OoKi~|かな\t\t~かな\t▼多く\t~かな\t▼大く\t~かな\t▽おお*く\t~かな\t▼大き\t~
T3 3~ItTa~|かな\t\t~かな\t▼言った\t~
T1 1~Q1995nen ~ ~ ~|かな\t\t~かな\t▼１９９５年\t~かな\t▼千九百九十五年\t~かな\t▼1995年\t~
T1 1~Nuno ~Kanji <cj><ret>~Nuno ~|かな\t\t~かな\t[辞書登録] ぬの: \t~かな\t漢字\t~かな\t漢字▼漢字\t~
T1 1~Kanji X~Y~Kanji ~|かな\t\t~かな\t▼漢字[削除 Y/N]\t~かな\t\tpurged~かな\t▼幹事\t;宴会の~
T1 0~Kanji   <cj>~<undo>~|かな\t\t~かな\t感じ\t~かな\t▼感じ\tundone~
T1 1~Ka<tab>~.~|かな\t\t~かな\t▽かんじ\t~かな\t▽かんじ\tno-more~";

#[test]
fn lines_are_answered(rt: HostRuntime) {
    expect_rows(rt, rt.alloc(), Way::Typist, TYPED, &[]);
}

// A line of 4,096 bytes is at the limit, and one of 4,097 is refused before it ends. `<bs>` has four bytes.
const LONG: &str = "\
{4096 T}|
T{4095 1}|
T{4095 1}~|0~over
T{4096 1}|0~over
T{4096 1}~|0~over
T1 1~{1024 <bs>}|かな\t\t~
T1 1~{1024 <bs>}~a~|かな\t\t~かな\t\t~かな\tあ\t~
T1 1~{1024 <bs>}a|かな\t\t~0~over
T1 1~{1024 <bs>}a~a~|かな\t\t~0~over
T1 1~a~{5000 z}|かな\t\t~かな\tあ\t~0~over";

#[test]
fn lines_have_a_limit(rt: HostRuntime) {
    expect_rows(rt, rt.alloc(), Way::Typist, LONG, SIZES);
}

// Lines of every kind: the first one, keys of which some ask the dictionary and learn, faults, and empty ones.
const STREAM: &str =
    "T1 1~Kanji ~<zz>~  <cj>~~Nuno ~Kanji <cj><ret>~a<l~#か~Kanji X~Y~/p125 ~ITta~ka";

const STREAM_SENT: &str = "かな\t\t~かな\t▼漢字\t~?0~かな\t感じ\t~かな\t感じ\t~かな\t[辞書登録] ぬの: \t~\
    かな\t感じ感じ\t~?1~?1~かな\t感じ感じ▼感じ[削除 Y/N]\t~かな\t感じ感じ\tpurged~\
    かな\t感じ感じ▼東京都葛飾区\t~かな\t感じ感じ東京都葛飾区▼言った\t~";

#[test]
fn lines_may_be_cut_anywhere(rt: HostRuntime) {
    expect_stream(rt, rt.alloc());
}

fn expect_stream<R: Wait + Abort + Copy + Drop + Send + Sync>(rt: R, alloc: Global) {
    let bytes = bytes_of(&rt, alloc, STREAM);
    let mut sent = bytes_of(&rt, alloc, STREAM_SENT);
    expect_cut(rt, alloc, Way::Typist, &bytes, &sent);
    push(&rt, &mut sent, b";Closed 13");
    expect_cut(rt, alloc, Way::Link, &bytes, &sent);
    expect_cut(rt, alloc, Way::Pass, &bytes, &sent);
}

fn expect_cut<R: Wait + Abort + Copy + Drop + Send + Sync>(
    rt: R,
    alloc: Global,
    way: Way,
    bytes: &[u8],
    sent: &[u8],
) {
    expect_cuts(rt, alloc, way, bytes, sent);
    expect_sizes(rt, alloc, way, bytes, sent, SIZES);
}
