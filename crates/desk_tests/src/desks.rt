use crate::left::{Left, reopened};
use crate::sharing::{SharedDesk, share};
use crate::shift::Shift;
use crate::worker::Notes;
use expectations::same;
use skk_calls::Tally;
use skk_disk::MemDisk;
use std::alloc::Global;
use std::process::Abort;
use std::sync::Wait;
use std::thread::Threads;

// The tests run these functions, which know as little of the runtime as they need: what is called with the real one
// takes long to prove.

// The desk over the learned file of a disk in memory, the calls of which with these numbers fail, after a shift.
fn shared_after<R: Threads + Wait + Abort + Copy + Drop + Send + Sync>(
    rt: R,
    alloc: Global,
    fails: &[u64],
    shift: Shift,
) -> SharedDesk<MemDisk> {
    let disk = MemDisk::new(alloc, fails.to_vec(alloc).expect(&rt, "memory"));
    share(rt, alloc, disk, shift)
}

// What is left of that desk, of which the tally and the number of the recorded calls of the disk are told.
fn left_after<R: Threads + Wait + Abort + Copy + Drop + Send + Sync>(
    rt: R,
    alloc: Global,
    fails: &[u64],
    shift: Shift,
    (tally, calls): (Tally, usize),
) -> Left<MemDisk> {
    let shared = shared_after(rt, alloc, fails, shift);
    reopened(&rt, alloc, shared, tally, calls)
}

fn work_in_turn<R: Threads + Wait + Abort + Copy + Drop + Send + Sync>(rt: R, alloc: Global) {
    let shared = shared_after(rt, alloc, &[], Shift::InTurn);
    expect_found(&rt, &shared.one, &shared.two);
}

// Tells the numbers of two workers, and what the second one found.
fn expect_found<R: Abort>(rt: &R, one: &Notes, two: &Notes) {
    same((one.number, two.number), (0, 1)).expect(rt, "as wanted");
    same(two.found.as_str(), "感じ; 漢字; 幹事;宴会の ").expect(rt, "as wanted");
}

fn work_at_once<R: Threads + Wait + Abort + Copy + Drop + Send + Sync>(rt: R, alloc: Global) {
    let shift = Shift::AtOnce {
        cycles: 625,
        words: 4,
    };
    let told = (Tally::new(10_000, 0, 3, false, false, false), 40_010);
    let mut left = left_after(rt, alloc, &[], shift, told);
    expect_all_learnt(&rt, alloc, &mut left)
}

fn expect_all_learnt<R: Abort>(rt: &R, alloc: Global, left: &mut Left<MemDisk>) {
    let counts = [
        left.one.own.count(),
        left.two.own.count(),
        left.one.shared.count(),
        left.two.shared.count(),
    ];
    same(counts, [2_500, 2_500, 2_500, 2_500]).expect(rt, "as wanted");
    left.expect_words(rt, alloc, 1, "甲03/甲02/甲01/甲00/");
    left.expect_words(rt, alloc, 2, "乙03/乙02/乙01/乙00/");
    left.expect_shared(rt, alloc, 8);
    left.expect_stamps(rt, alloc);
}

fn work_and_fail<R: Threads + Wait + Abort + Copy + Drop + Send + Sync>(rt: R, alloc: Global) {
    let shift = Shift::AtOnce {
        cycles: 1,
        words: 50,
    };
    let told = (Tally::new(193, 0, 3, false, true, false), 801);
    let mut left = left_after(rt, alloc, FAILING, shift, told);
    expect_most_learnt(&rt, alloc, &mut left)
}

fn expect_most_learnt<R: Abort>(rt: &R, alloc: Global, left: &mut Left<MemDisk>) {
    same((left.refused(), left.made()), (7, 193)).expect(rt, "as wanted");
    let words = left.one.own.words(rt, alloc);
    left.expect_words(rt, alloc, 1, words.as_str());
    let words = left.two.own.words(rt, alloc);
    left.expect_words(rt, alloc, 2, words.as_str());
    let count = left.shared_count();
    left.expect_shared(rt, alloc, count);
    left.expect_stamps(rt, alloc);
}

#[test]
fn one_learns_and_another_finds(rt: HostRuntime) {
    work_in_turn(rt, rt.alloc())
}

// Each thread makes 10,000 calls: 2,500 words are learnt in its own book and 2,500 in the shared one, and each is
// looked up. A learning is four calls of the disk, and the opening has ten that are recorded.
#[test]
fn two_threads_learn(rt: HostRuntime) {
    work_at_once(rt, rt.alloc())
}

// The calls of the disk with these numbers fail. The thirteenth is the first call of the first learning, of four: a
// write and a sync of the record, and a write and a sync of the gate behind it. Where one of the last two fails, the
// next learning first makes two calls more. So the third learning fails at its first call, the fifth at its second, the
// seventh at its third, the ninth at its fourth, the tenth at the second of the calls that it makes first, the
// hundredth at its first, and the one behind fifty more at its third.
static FAILING: &[u64] = &[21, 27, 34, 44, 46, 405, 604];

// Each thread makes 200 calls: 50 words are to be learnt in its own book and 50 in the shared one. Whose learnings they
// are that fail is not said.
#[test]
fn two_threads_on_a_failing_disk(rt: HostRuntime) {
    work_and_fail(rt, rt.alloc())
}
