ghost use Rattle.std.specs.Prelude.{Some};

use crate::making::{disk, shelf_of, sink, source_of, words_of};
use crate::statuses::status_of;
use expectations::{same, same_at};
use skk_outside::{Failed, MemSink, Outside, Sink};
use std::alloc::Global;
use std::process::Abort;

// The input, in two pieces.
static LINES: [&str; 2] = ["1:kitte\n1", ":kanji\n1:zl\n"];

const TYPED: &str = "1\tかな\tきって\t\n1\tかな\tきってかんじ\t\n1\tかな\tきってかんじ→\t\n1=きってかんじ→\n";

// A file in which the okuri-ari part comes behind a row without okurigana.
const SMALL: &str = "か /蚊/\n;; okuri-ari entries.\nおおk /大/\nおお /大/\nおおk 大/\n";

const CHECKED: &str = "line 4 OkuriKey\nline 5 NoSlash\nokuri-ari 1 okuri-nasi 1 bad 2\n";

const PRINTED: &str = ";; okuri-ari entries.\nおおk /大/\n;; okuri-nasi entries.\nか /蚊/\n";

const WITHOUT_ROWS: &str = ";; okuri-ari entries.\n;; okuri-nasi entries.\n";

const FEW: &str = "load --seed=0 --sessions=2 --lines=3";

const FEW_LOADED: &str = "lines 6\nlearned 4\nrestored 1\nrows 3\nbytes 33\n";

const OUTSIDE: &str = "skk: outside\n";

// The words of a run; the numbers of the call of the file `words`, of the input, of the output and of what faults are
// told to, that are to fail, each 0 where none is; the status; and what is written and told.
type Run = (&'static str, [u64; 4], u8, &'static str, &'static str);

// The content of the file `words`, and a run.
static RUNS: [(&str, Run); 31] = [
    // the script is read in two pieces and then to its end; the output is written at once and flushed; a fault is told
    // in one write
    ("", ("type", [1, 0, 0, 0], 0, TYPED, "")),
    ("", ("type", [1, 1, 0, 0], 4, "", OUTSIDE)),
    ("", ("type", [1, 2, 0, 0], 4, "", OUTSIDE)),
    ("", ("type", [1, 3, 0, 0], 4, "", OUTSIDE)),
    ("", ("type", [1, 4, 0, 0], 0, TYPED, "")),
    ("", ("type", [1, 0, 1, 0], 4, "", OUTSIDE)),
    ("", ("type", [1, 0, 2, 0], 4, TYPED, OUTSIDE)),
    ("", ("type", [1, 0, 3, 0], 0, TYPED, "")),
    ("", ("type", [1, 1, 0, 1], 4, "", "")),
    // a file is read in one piece and then to its end, and the input is not
    (SMALL, ("check words", [0, 1, 0, 0], 0, CHECKED, "")),
    (SMALL, ("check words", [1, 1, 0, 0], 4, "", OUTSIDE)),
    (SMALL, ("check words", [2, 1, 0, 0], 4, "", OUTSIDE)),
    (SMALL, ("check words", [3, 1, 0, 0], 0, CHECKED, "")),
    (SMALL, ("check words", [0, 1, 1, 0], 4, "", OUTSIDE)),
    (SMALL, ("check words", [0, 1, 2, 0], 4, CHECKED, OUTSIDE)),
    (
        "",
        (
            "check words",
            [0, 1, 0, 0],
            0,
            "okuri-ari 0 okuri-nasi 0 bad 0\n",
            "",
        ),
    ),
    ("", ("check nowhere", [0, 1, 0, 0], 4, "", OUTSIDE)),
    // dictionaries are read one after another, each as above, and the input is not; what they come to is written at
    // once and flushed
    (SMALL, ("expr words", [3, 1, 0, 0], 0, PRINTED, "")),
    (SMALL, ("expr words + words", [5, 1, 0, 0], 0, PRINTED, "")),
    (SMALL, ("expr words + words", [1, 1, 0, 0], 4, "", OUTSIDE)),
    (SMALL, ("expr words + words", [4, 1, 0, 0], 4, "", OUTSIDE)),
    (SMALL, ("expr words - words", [0, 1, 1, 0], 4, "", OUTSIDE)),
    (
        SMALL,
        ("expr words - words", [0, 1, 2, 0], 4, WITHOUT_ROWS, OUTSIDE),
    ),
    (
        SMALL,
        ("expr words - words", [0, 1, 3, 0], 0, WITHOUT_ROWS, ""),
    ),
    (
        SMALL,
        ("expr words - nowhere", [0, 1, 0, 0], 4, "", OUTSIDE),
    ),
    // of a load nothing is read
    ("", (FEW, [1, 1, 0, 0], 0, FEW_LOADED, "")),
    ("", (FEW, [1, 1, 1, 0], 4, "", OUTSIDE)),
    ("", (FEW, [1, 1, 2, 0], 4, FEW_LOADED, OUTSIDE)),
    ("", (FEW, [1, 1, 3, 0], 0, FEW_LOADED, "")),
    (
        "",
        (
            "load --lines=1 --seed=18446744073709551615 --sessions=64",
            [1, 1, 0, 0],
            0,
            "lines 64\nlearned 47\nrestored 18\nrows 29\nbytes 305\n",
            "",
        ),
    ),
    (
        "",
        (
            "load --lines=1 --seed=1 --sessions=65",
            [1, 1, 0, 0],
            1,
            "",
            "skk: words\n",
        ),
    ),
];

static NO_UTF8: &[u8] = b"a /\xE3\x81\x82/\n /\xE3\x81/\n";

static NO_TEXT: Run = (
    "check words",
    [0, 1, 0, 0],
    3,
    "",
    "skk: dictionary 1 byte 10\n",
);

#[test]
fn runs_are_told_by_their_status(rt: HostRuntime) {
    for (content, run) in &RUNS {
        expect_run(&rt, rt.alloc(), content.as_bytes(), run);
    }
    expect_run(&rt, rt.alloc(), NO_UTF8, &NO_TEXT)
}

fn expect_run(rt: &impl Abort, alloc: Global, content: &[u8], run: &Run) {
    let (words, [file, input, write, tell], status, written, told) = *run;
    let mut out = sink(rt, alloc, write);
    let mut err = sink(rt, alloc, tell);
    let ended = status_over(rt, alloc, content, (words, file, input), &mut out, &mut err);
    same_at(ended, status, words).expect(rt, "as wanted");
    expect_written(rt, &out, written);
    expect_written(rt, &err, told);
}

// The status of a run of these words, with the numbers of the calls of the file `words` and of the input that are to
// fail.
fn status_over<O: Sink>(
    rt: &impl Abort,
    alloc: Global,
    content: &[u8],
    (words, file, input): (&str, u64, u64),
    out: &mut O,
    err: &mut MemSink,
) -> u8 {
    let mut shelf = shelf_of(rt, alloc, content, file);
    let mut input = source_of(rt, alloc, &LINES, input);
    let words = words_of(rt, alloc, words);
    let disk = disk(alloc);
    status_of(
        alloc,
        words.as_slice(),
        &mut shelf,
        disk,
        &mut input,
        out,
        err,
    )
}

// Tells what was written to a sink.
pub fn expect_written(rt: &impl Abort, sink: &MemSink, wanted: &str) {
    same_at(sink.written(), wanted.as_bytes(), wanted).expect(rt, "as wanted");
}

// A sink that takes one byte at a time.
#[derive(Drop)]
struct OneByOne(MemSink);

impl Outside for OneByOne {
    ghost faults = { λ s. s.0.count.faults };

    ghost written = { λ s. Some s.0.written };
}

impl Sink for OneByOne {
    fn write(&mut self, from: &[u8]) -> Result<usize, Failed> {
        self.0.write(&from[..from.len().min(1)])
    }

    fn flush(&mut self) -> Result<(), Failed> {
        self.0.flush()
    }
}

// Each byte is written by a call of its own, and the flush is the last call.
#[test]
fn bytes_are_written_one_by_one(rt: HostRuntime) {
    let whole = TYPED.as_bytes();
    let last = whole.len() as u64 + 2;
    for call in 1..=last {
        expect_one_by_one(&rt, rt.alloc(), call, call == last);
    }
}

// Has the call of a number fail. No call has the last number, and that run ends well.
fn expect_one_by_one(rt: &impl Abort, alloc: Global, call: u64, is_last: bool) {
    let mut out = OneByOne(sink(rt, alloc, call));
    let mut err = sink(rt, alloc, 0);
    let status = status_over(rt, alloc, b"", ("type", 1, 0), &mut out, &mut err);
    same_at(status, if is_last { 0 } else { 4 }, call).expect(rt, "as wanted");
    expect_begun(rt, out.0.written(), call);
}

// Tells that what was written is the bytes of the calls before this one.
fn expect_begun(rt: &impl Abort, written: &[u8], call: u64) {
    let whole = TYPED.as_bytes();
    same(
        (written.len() as u64),
        call.saturating_sub(1).min(whole.len() as u64),
    )
    .expect(rt, "as wanted");
    assert!(rt; whole.starts_with(written), "at call {call}");
}
