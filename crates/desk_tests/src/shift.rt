ghost use Rattle.std.specs.Prelude.{◌<◌, ◌+◌};

use crate::worker::{DeskWorker, Notes};
use skk_calls::{Caller, Office};
use std::alloc::Global;
use std::process::Abort;
use std::thread::{Threads, join};

// What two workers do.
#[derive(Clone, Copy)]
pub(crate) enum Shift {
    // The first one learns 感じ in the shared book, and then the second one finds it.
    InTurn,
    // Both do so many cycles of so many words, in two threads.
    AtOnce { cycles: u64, words: u64 },
}

// Admits two callers, has them work, and rests them.
pub(crate) fn work<W: Office<Pass: Send + Drop>, R: Threads + Abort + Sync>(
    rt: &R,
    alloc: Global,
    office: &W,
    roll: &mut W::Roll,
    shift: Shift,
) -> (W::Slip, W::Slip, Notes, Notes)
    requires owns { W.owns office.now roll.old }
    requires room { W.drawn roll.old + 1 < 4294967295 }
{
    let one = office.admit(alloc, roll).expect(rt, "memory");
    let two = office.admit(alloc, roll).expect(rt, "memory");
    let one = DeskWorker::new(alloc, one, 1, "甲", "子");
    let two = DeskWorker::new(alloc, two, 2, "乙", "丑");
    let (one, two) = after_shift(rt, alloc, shift, one, two);
    let DeskWorker { caller, notes } = one;
    let first = office.rest(caller);
    let DeskWorker {
        caller,
        notes: others,
    } = two;
    (first, office.rest(caller), notes, others)
}

// The workers after a shift.
fn after_shift<R: Threads + Abort + Sync, C: Caller + Send + Drop>(
    rt: &R,
    alloc: Global,
    shift: Shift,
    one: DeskWorker<C>,
    two: DeskWorker<C>,
) -> (DeskWorker<C>, DeskWorker<C>) {
    match shift {
        Shift::InTurn => in_turn(rt, alloc, one, two),
        Shift::AtOnce { cycles, words } => at_once(rt, alloc, cycles, words, one, two),
    }
}

fn in_turn<R: Abort, C: Caller>(
    rt: &R,
    alloc: Global,
    mut one: DeskWorker<C>,
    mut two: DeskWorker<C>,
) -> (DeskWorker<C>, DeskWorker<C>) {
    one.learn_text(rt, alloc, "感じ");
    two.find(rt, alloc);
    (one, two)
}

fn at_once<R: Threads + Abort + Sync, C: Caller + Send + Drop>(
    rt: &R,
    alloc: Global,
    cycles: u64,
    words: u64,
    one: DeskWorker<C>,
    two: DeskWorker<C>,
) -> (DeskWorker<C>, DeskWorker<C>) {
    join(
        rt,
        move || one.after_cycles(rt, alloc, cycles, words),
        move || two.after_cycles(rt, alloc, cycles, words),
    )
}
