ghost use Rattle.skk_disk.specs.Image.{empty_image};

use crate::making::{disk, fails, pieces_of, shelf_of, sink, source_of, words_of};
use crate::runs::expect_written;
use crate::side_by_side::Meeting;
use crate::statuses::status_in_threads;
use expectations::{same, same_at};
use skk_disk::{Disk, MemDisk, Which};
use skk_outside::{Count, Failed, Gate, MemLink, MemListener, MemSink, Open};
use std::alloc::Global;
use std::process::Abort;
use std::sync::Wait;
use std::sync::atomic::{AtomicBool, AtomicU32, Ordering};
use std::thread::Threads;

pub static WORDS: &str = ";; okuri-nasi entries.\n125 /東京都葛飾区/\nかんじ /漢字/幹事;宴会の/感じ/\n";

// A link: what each read of it gives, and the number of its call that is to fail.
pub type Given = (&'static [&'static str], u64);

fn link_of(rt: &impl Abort, alloc: Global, given: &Given) -> MemLink {
    let (reads, fail) = *given;
    MemLink::new(alloc, pieces_of(rt, alloc, reads), fails(rt, alloc, fail))
}

// A listener to which links come, and of which the call with this number is to fail.
pub fn listener_of(rt: &impl Abort, alloc: Global, links: &[Given], fail: u64) -> MemListener {
    let mut coming = Vec::new(alloc);
    for given in links {
        coming.push(link_of(rt, alloc, given)).expect(rt, "memory");
    }
    MemListener::new(alloc, coming, fails(rt, alloc, fail))
}

// Serves with these options, over a dictionary and an input that must not be read.
fn serve<D: Disk + Drop + Send, G: Gate + Sync, R: Threads + Wait + Abort + Copy + Send + Sync>(
    rt: R,
    alloc: Global,
    options: &str,
    disk: D,
    net: &mut MemListener,
    gate: &G,
    out: &mut MemSink,
    err: &mut MemSink,
) -> u8 {
    let mut shelf = shelf_of(&rt, alloc, WORDS.as_bytes(), 0);
    let mut input = source_of(&rt, alloc, &[], 1);
    let words = words_of(&rt, alloc, options);
    status_in_threads(
        rt,
        alloc,
        words.as_slice(),
        &mut shelf,
        disk,
        &mut input,
        out,
        err,
        net,
        gate,
    )
}

// What is served: the words; the links that come; the numbers of the listener's call and of the call that writes that
// are to fail; the status; and what is printed and told.
type Serving = (
    &'static str,
    &'static [Given],
    (u64, u64),
    u8,
    &'static str,
    &'static str,
);

// Tells the status of what is served over a disk, and what is printed and told, and gives the listener.
fn expect_serving<
    D: Disk + Drop + Send,
    G: Gate + Sync,
    R: Threads + Wait + Abort + Copy + Send + Sync,
>(rt: R, alloc: Global, serving: &Serving, disk: D, gate: &G) -> MemListener {
    let (words, links, (call, write), status, printed, told) = *serving;
    let mut net = listener_of(&rt, alloc, links, call);
    let mut out = sink(&rt, alloc, write);
    let mut err = sink(&rt, alloc, 0);
    let ended = serve(rt, alloc, words, disk, &mut net, gate, &mut out, &mut err);
    same_at(ended, status, printed).expect(&rt, "as wanted");
    expect_written(&rt, &out, printed);
    expect_written(&rt, &err, told);
    net
}

// Each link that came back was closed, and was written this.
pub fn expect_links(rt: &impl Abort, over: &[MemLink], links: &[&str]) {
    same(over.len(), links.len()).expect(rt, "as wanted");
    for (link, wanted) in over.iter().zip(links) {
        assert!(rt; link.is_closed());
        same(link.written(), wanted.as_bytes()).expect(rt, "as wanted");
    }
}

const OUTSIDE: &str = "skk: outside\n";

const ONE: &str = "serve --learned learned --connections 1";

const TWO: &str = "serve --learned learned --connections 2";

const NINE: &str = "serve --learned learned --connections 9";

const DICT: &str = "serve --learned learned --dict words";

const LIMIT: &str = "serve --learned learned --dict=words --limit=64";

const PAIR: &[Given] = &[(&["1ぬ "], 0), (&[], 0)];

// A client that ends itself, a bad byte, a typist's first line that is bad, a link whose read fails and one whose write
// fails, and a line of keys that is bad. None of them changes the status.
const ENDS: &[Given] = &[
    (&["201ぬ "], 0),
    (&["9"], 0),
    (&["T1 2\nka\n"], 0),
    (&["1ぬ "], 1),
    (&["1ぬ "], 2),
    (&["T1 1\n<zz>\nka\n"], 0),
];

const ENDED: &[&str] = &[
    "skk-desk-1.0 ",
    "0\n",
    "0\n",
    "",
    "",
    "かな\t\t\n?0\nかな\tか\t\n",
];

// What is served, and what each link is written that comes back. The port is asked for by the listener's first call,
// and each link by one more.
static SERVED: [(Serving, &[&str]); 10] = [
    (
        (TWO, PAIR, (0, 0), 0, "ready\nserved 2\n", ""),
        &["4ぬ \n", ""],
    ),
    // fewer than come, and more
    ((ONE, PAIR, (0, 0), 0, "ready\nserved 1\n", ""), &["4ぬ \n"]),
    (
        (NINE, PAIR, (0, 0), 0, "ready\nserved 2\n", ""),
        &["4ぬ \n", ""],
    ),
    // the port can't be opened, and the second link not accepted
    ((TWO, PAIR, (1, 0), 4, "", OUTSIDE), &[]),
    ((TWO, PAIR, (3, 0), 4, "ready\n", OUTSIDE), &["4ぬ \n"]),
    // the first line is not written, or not handed on, and then the second one
    ((TWO, PAIR, (0, 1), 4, "", OUTSIDE), &[]),
    ((TWO, PAIR, (0, 2), 4, "ready\n", OUTSIDE), &[]),
    (
        (TWO, PAIR, (0, 4), 4, "ready\nserved ", OUTSIDE),
        &["4ぬ \n", ""],
    ),
    (
        (TWO, PAIR, (0, 6), 4, "ready\nserved 2\n", OUTSIDE),
        &["4ぬ \n", ""],
    ),
    // connections end each for itself
    ((DICT, ENDS, (0, 0), 0, "ready\nserved 6\n", ""), ENDED),
];

#[test]
fn connections_are_served(rt: HostRuntime) {
    for (serving, links) in &SERVED {
        let net = expect_serving(rt, rt.alloc(), serving, disk(rt.alloc()), &Open);
        expect_links(&rt, net.over(), links);
    }
}

// A client that asks twice at once.
const TWICE: Given = (&["1ぬ 1ぬ "], 0);

const REPLIES: &str = "4ぬ \n4ぬ \n";

// Two of them; and between them one whose first read fails, its write, what hands that on, or its second read.
const ALONE: &[Given] = &[TWICE, TWICE];

const NOT_READ: &[Given] = &[TWICE, (&["1ぬ ", "1ぬ "], 1), TWICE];

const NOT_WRITTEN: &[Given] = &[TWICE, (&["1ぬ ", "1ぬ "], 2), TWICE];

const NOT_HANDED_ON: &[Given] = &[TWICE, (&["1ぬ ", "1ぬ "], 3), TWICE];

const NOT_READ_AGAIN: &[Given] = &[TWICE, (&["1ぬ ", "1ぬ "], 4), TWICE];

const THREE_SERVED: &str = "ready\nserved 3\n";

// Two connections are served at the same time: each waits for the other between its replies. Neither these nor the
// status know of a link that fails beside them, and where a third one can't be accepted both are served to their end.
static HELD: [(Serving, &[&str]); 6] = [
    (
        (DICT, ALONE, (0, 0), 0, "ready\nserved 2\n", ""),
        &[REPLIES, REPLIES],
    ),
    (
        (DICT, NOT_READ, (0, 0), 0, THREE_SERVED, ""),
        &[REPLIES, "", REPLIES],
    ),
    (
        (DICT, NOT_WRITTEN, (0, 0), 0, THREE_SERVED, ""),
        &[REPLIES, "", REPLIES],
    ),
    (
        (DICT, NOT_HANDED_ON, (0, 0), 0, THREE_SERVED, ""),
        &[REPLIES, "4ぬ \n", REPLIES],
    ),
    (
        (DICT, NOT_READ_AGAIN, (0, 0), 0, THREE_SERVED, ""),
        &[REPLIES, "4ぬ \n", REPLIES],
    ),
    (
        (DICT, ALONE, (4, 0), 4, "ready\n", OUTSIDE),
        &[REPLIES, REPLIES],
    ),
];

#[test]
fn two_held(rt: HostRuntime) {
    for (serving, links) in &HELD {
        expect_held(rt, rt.alloc(), serving, links);
    }
}

fn expect_held<R: Threads + Wait + Abort + Copy + Send + Sync>(
    rt: R,
    alloc: Global,
    serving: &Serving,
    links: &[&str],
) {
    let meeting = Meeting::new();
    let net = expect_serving(rt, alloc, serving, disk(alloc), &meeting);
    expect_links(&rt, net.over(), links);
    same(meeting.count(), 2).expect(&rt, "as wanted");
    assert!(rt; !meeting.is_missed());
}

// What a gate sees of a disk, and does to it.
#[derive(Drop)]
struct Watch {
    calls: AtomicU32,
    is_broken: AtomicBool,
}

impl Watch {
    fn new() -> Watch {
        Watch {
            calls: AtomicU32::new(0),
            is_broken: AtomicBool::new(false),
        }
    }
}

// A disk that counts its calls where a gate sees them, and of which each fails once the gate has broken it.
#[derive(Drop)]
struct Watched<'a> {
    disk: MemDisk,
    watch: &'a Watch,
    faults: Count,
}

impl<'a> Watched<'a> {
    fn new(alloc: Global, watch: &'a Watch) -> Watched<'a> {
        Watched {
            disk: MemDisk::new(alloc, Vec::new(alloc)),
            watch,
            faults: Count::new(),
        }
    }
}

// Counts a call, which fails where the disk is broken.
fn begin(watch: &Watch) -> Result<(), Failed> {
    watch.calls.fetch_add(1, Ordering::SeqCst);
    if watch.is_broken.load(Ordering::SeqCst) {
        return Err(Failed);
    }
    Ok(())
}

impl Disk for Watched<'_> {
    ghost tells = { ⊥ };

    ghost faults = { λ d. d.faults };

    ghost time = { λ d. 0 };

    ghost seen = { λ d. empty_image };

    ghost left_since = { λ d t image. ⊥ };

    ghost earlier = { λ d t u image le left. left };

    ghost reads_image = { λ d told. told };

    ghost apart = { λ d c e is_c is_e. is_c };

    ghost tells_images = { λ d t image left. left };

    fn len(&mut self, file: Which) -> Result<u64, Failed> {
        if begin(self.watch).is_ok() {
            if let Ok(length) = self.disk.len(file) {
                return Ok(length);
            }
        }
        Err(self.faults.fail())
    }

    fn read_at(&mut self, file: Which, at: u64, into: &mut [u8]) -> Result<usize, Failed> {
        if begin(self.watch).is_ok() {
            if let Ok(n) = self.disk.read_at(file, at, into) {
                return Ok(n);
            }
        }
        Err(self.faults.fail())
    }

    fn write_at(&mut self, file: Which, at: u64, from: &[u8]) -> Result<(), Failed> {
        if begin(self.watch).is_ok() && self.disk.write_at(file, at, from).is_ok() {
            return Ok(());
        }
        Err(self.faults.fail())
    }

    fn cut(&mut self, file: Which, len: u64) -> Result<(), Failed> {
        if begin(self.watch).is_ok() && self.disk.cut(file, len).is_ok() {
            return Ok(());
        }
        Err(self.faults.fail())
    }

    fn sync(&mut self, file: Which) -> Result<(), Failed> {
        if begin(self.watch).is_ok() && self.disk.sync(file).is_ok() {
            return Ok(());
        }
        Err(self.faults.fail())
    }
}

// Sees how many calls were made when each of the first two replies is to be written.
#[derive(Drop)]
struct Witness<'a> {
    watch: &'a Watch,
    first: AtomicU32,
    second: AtomicU32,
}

impl Gate for Witness<'_> {
    fn at(&self, _caller: u32, turn: u64) {
        let calls = self.watch.calls.load(Ordering::SeqCst);
        match turn {
            0 => self.first.store(calls, Ordering::SeqCst),
            1 => self.second.store(calls, Ordering::SeqCst),
            _ => {}
        }
    }
}

static LEARNT: Serving = (
    DICT,
    &[(&["T1 1\n", "Kanji <cj>\n"], 0)],
    (0, 0),
    0,
    "ready\nserved 1\n",
    "",
);

// What is learnt is on the disk before the line that tells of it is written.
#[test]
fn written_first(rt: HostRuntime) {
    let watch = Watch::new();
    let witness = Witness {
        watch: &watch,
        first: AtomicU32::new(0),
        second: AtomicU32::new(0),
    };
    let disk = Watched::new(rt.alloc(), &watch);
    let net = expect_serving(rt, rt.alloc(), &LEARNT, disk, &witness);
    expect_links(&rt, net.over(), &["かな\t\t\nかな\t漢字\t\n"]);
    let first = witness.first.load(Ordering::SeqCst);
    let second = witness.second.load(Ordering::SeqCst);
    same(second.wrapping_sub(first), 4).expect(&rt, "as wanted");
}

// Breaks a disk when the first reply is to be written.
#[derive(Drop)]
struct Breaker<'a>(&'a Watch);

impl Gate for Breaker<'_> {
    fn at(&self, _caller: u32, turn: u64) {
        if turn == 0 {
            self.0.is_broken.store(true, Ordering::SeqCst);
        }
    }
}

static FULL: Serving = (
    LIMIT,
    &[(&["T1 1\n/125 <cj>\n"], 0)],
    (0, 0),
    7,
    "ready\nserved 1\n",
    "skk: journal full\n",
);

static BOTH: Serving = (
    LIMIT,
    &[(&["T1 1\n", "/125 <cj>\nKanji <cj>\n"], 0)],
    (0, 0),
    4,
    "ready\nserved 1\n",
    OUTSIDE,
);

// A learned file that is full for one learning, and a disk that fails the next: the disk comes first.
#[test]
fn a_disk_that_fails_comes_before_a_full_file(rt: HostRuntime) {
    expect_serving(rt, rt.alloc(), &FULL, disk(rt.alloc()), &Open);
    let watch = Watch::new();
    let disk = Watched::new(rt.alloc(), &watch);
    expect_serving(rt, rt.alloc(), &BOTH, disk, &Breaker(&watch));
}
