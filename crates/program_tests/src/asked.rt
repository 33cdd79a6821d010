use crate::making::{disk, shelf_of, sink, source_of, words_of};
use crate::runs::expect_written;
use crate::served::{Given, expect_links, listener_of};
use crate::statuses::status_in_threads;
use expectations::{same, same_at};
use skk_outside::{Listener, MemSink, Open};
use std::alloc::Global;
use std::process::Abort;
use std::sync::Wait;
use std::thread::Threads;

// Asks by these words, without a shelf and an input that can be read.
pub fn ask<N: Listener<Link: Send + Drop>, R: Threads + Wait + Abort + Copy + Send + Sync>(
    rt: R,
    alloc: Global,
    words: &str,
    net: &mut N,
    out: &mut MemSink,
    err: &mut MemSink,
) -> u8 {
    let words = words_of(&rt, alloc, words);
    let mut shelf = shelf_of(&rt, alloc, b"", 1);
    let mut input = source_of(&rt, alloc, &[], 1);
    status_in_threads(
        rt,
        alloc,
        words.as_slice(),
        &mut shelf,
        disk(alloc),
        &mut input,
        out,
        err,
        net,
        &Open,
    )
}

// What is asked: the words; the links that come; the numbers of the listener's call and of the call that writes that
// are to fail; the status; and what is printed and told.
type Asking = (
    &'static str,
    &'static [Given],
    (u64, u64),
    u8,
    &'static str,
    &'static str,
);

const OUTSIDE: &str = "skk: outside\n";

const LOOK: &str = "ask --port 1178 --look かんじ";

const COMPLETE: &str = "ask --complete か --port=1";

const FOUND: Given = (&["1/漢字/幹", "事;宴会の/\n"], 0);

const PRINTED: &str = "漢字\n幹事;宴会の\n";

// A server's candidates, a reply without a slash at its end, nothing found, and readings; the listener that does not
// dial, and has no link; the link that fails in each of its calls; and the output that fails in each of its own. What
// comes back was closed, and was written this.
static ASKED: [(Asking, &[&str]); 13] = [
    ((LOOK, &[FOUND], (0, 0), 0, PRINTED, ""), &["1かんじ 0"]),
    (
        (
            LOOK,
            &[(&["1漢\n"], 0)],
            (0, 0),
            9,
            "",
            "skk: reply bad at 1\n",
        ),
        &["1かんじ "],
    ),
    ((LOOK, &[(&["4ぬ \n"], 0)], (0, 0), 0, "", ""), &["1かんじ 0"]),
    (
        (COMPLETE, &[(&["1/かんじ/か/\n"], 0)], (0, 0), 0, "かんじ\nか\n", ""),
        &["4か 0"],
    ),
    ((LOOK, &[FOUND], (1, 0), 4, "", OUTSIDE), &[]),
    ((LOOK, &[], (0, 0), 4, "", OUTSIDE), &[]),
    ((LOOK, &[(&["4 \n"], 1)], (0, 0), 4, "", OUTSIDE), &[""]),
    (
        (LOOK, &[(&["4 \n"], 2)], (0, 0), 4, "", OUTSIDE),
        &["1かんじ "],
    ),
    (
        (LOOK, &[(&["4 \n"], 3)], (0, 0), 4, "", OUTSIDE),
        &["1かんじ "],
    ),
    (
        (LOOK, &[(&["1/蚊/\n"], 4)], (0, 0), 4, "蚊\n", OUTSIDE),
        &["1かんじ "],
    ),
    (
        (LOOK, &[(&["1/蚊/\n"], 5)], (0, 0), 4, "蚊\n", OUTSIDE),
        &["1かんじ 0"],
    ),
    ((LOOK, &[FOUND], (0, 1), 4, "", OUTSIDE), &["1かんじ "]),
    ((LOOK, &[FOUND], (0, 2), 4, PRINTED, OUTSIDE), &["1かんじ "]),
];

#[test]
fn servers_are_asked(rt: HostRuntime) {
    for (asking, links) in &ASKED {
        expect_asking(rt, rt.alloc(), asking, links);
    }
}

fn expect_asking<R: Threads + Wait + Abort + Copy + Send + Sync>(
    rt: R,
    alloc: Global,
    asking: &Asking,
    links: &[&str],
) {
    let (words, coming, (call, write), status, printed, told) = *asking;
    let mut net = listener_of(&rt, alloc, coming, call);
    let mut out = sink(&rt, alloc, write);
    let mut err = sink(&rt, alloc, 0);
    let ended = ask(rt, alloc, words, &mut net, &mut out, &mut err);
    same_at(ended, status, words).expect(&rt, "as wanted");
    expect_written(&rt, &out, printed);
    expect_written(&rt, &err, told);
    expect_links(&rt, net.over(), links);
}

// The program is asked at a port of loopback, by the program itself.
pub fn expect_found<N: Listener<Link: Send + Drop>, R: Threads + Wait + Abort + Copy + Send + Sync>(
    rt: R,
    alloc: Global,
    words: &str,
    net: &mut N,
    printed: &str,
) {
    let mut out = sink(&rt, alloc, 0);
    let mut err = sink(&rt, alloc, 0);
    let status = ask(rt, alloc, words, net, &mut out, &mut err);
    expect_written(&rt, &err, "");
    same(status, 0).expect(&rt, "as wanted");
    expect_written(&rt, &out, printed);
}
