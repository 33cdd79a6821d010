use crate::making::{disk, shelf_of, sink, source_of, words_of};
use crate::statuses::status_in_threads;
use expectations::same;
use skk_outside::{Gate, MemListener, MemSink};
use std::alloc::Global;
use std::process::Abort;
use std::sync::Wait;
use std::sync::atomic::{AtomicBool, AtomicU32, Ordering};
use std::thread::{self, Threads};

static WORDS: &str = ";; okuri-nasi entries.\nかんじ /漢字/幹事;宴会の/感じ/\n";

static LINES: &str = "1:Kanji \n1: \n2:Kanji \n2: \n";

static TYPED: &str = "1\tかな\t▼漢字\t\n1\tかな\t▼幹事\t;宴会の\n2\tかな\t▼漢字\t\n2\tかな\t▼幹事\t;宴会の\n1=\n2=\n";

// How often a caller looks whether the other has come, at most.
const TURNS: u32 = 1_000_000;

/// A gate that holds each of two callers at its second step until the other has come to its own.
#[derive(Drop)]
pub struct Meeting {
    come: AtomicU32,
    is_missed: AtomicBool,
}

impl Meeting {
    /// Nobody has come yet.
    pub fn new() -> Meeting {
        Meeting {
            come: AtomicU32::new(0),
            is_missed: AtomicBool::new(false),
        }
    }

    /// How many have come.
    pub fn count(&self) -> u32 {
        self.come.load(Ordering::SeqCst)
    }

    /// Whether one of them waited for the other in vain.
    pub fn is_missed(&self) -> bool {
        self.is_missed.load(Ordering::SeqCst)
    }
}

impl Gate for Meeting {
    fn at(&self, _caller: u32, turn: u64) {
        if turn != 1 {
            return;
        }
        self.come.fetch_add(1, Ordering::SeqCst);
        for _ in 0..TURNS {
            if self.come.load(Ordering::SeqCst) == 2 {
                return;
            }
            thread::yield_now();
        }
        self.is_missed.store(true, Ordering::SeqCst);
    }
}

// Types the lines by a caller for each session that comes to the gate.
fn type_by_two<R: Threads + Wait + Abort + Copy + Send + Sync>(
    rt: R,
    alloc: Global,
    meeting: &Meeting,
    out: &mut MemSink,
) -> u8 {
    let mut shelf = shelf_of(&rt, alloc, WORDS.as_bytes(), 0);
    let mut input = source_of(&rt, alloc, &[LINES], 0);
    let words = words_of(&rt, alloc, "type --dict=words --threads");
    let disk = disk(alloc);
    let mut err = sink(&rt, alloc, 0);
    let mut net = MemListener::new(alloc, Vec::new(alloc), Vec::new(alloc));
    status_in_threads(
        rt,
        alloc,
        words.as_slice(),
        &mut shelf,
        disk,
        &mut input,
        out,
        &mut err,
        &mut net,
        meeting,
    )
}

// Two sessions are typed at the same time: each waits for the other between its lines.
#[test]
fn two_typed(rt: HostRuntime) {
    let alloc = rt.alloc();
    let meeting = Meeting::new();
    let mut out = sink(&rt, alloc, 0);
    let status = type_by_two(rt, alloc, &meeting, &mut out);
    same(status, 0).expect(&rt, "as wanted");
    same(out.written(), TYPED.as_bytes()).expect(&rt, "as wanted");
    same(meeting.count(), 2).expect(&rt, "as wanted");
    assert!(rt; !meeting.is_missed());
}
