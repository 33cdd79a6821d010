ghost use Rattle.std.specs.Prelude.{◌≡◌, ◌≤◌, ◌<◌, ◌+◌, ◌++◌, ◌∷◌, ℕ, [], true, length, map, slice_index_or};
ghost use Rattle.std.specs.Prelude.{vec_capacity};
ghost use Rattle.std.specs.Prelude.{All, IfOk, IsErr, OnOk};
ghost use Rattle.std.specs.List.{list_all};
ghost use Rattle.std.specs.Map.{values_of};
ghost use Rattle.key_scripts.specs.Script.{opens_well};
ghost use Rattle.script_typing.specs.MapLaws.{Ascend};
ghost use Rattle.script_typing.specs.Workers.{AreHired, AreRested, IsLeftOf, AddsTo, HasRun, WorkedBy};

use crate::host::Host;
use crate::typed::Typed;
use crate::worker::Worker;
use key_scripts::Line;
use romaji_rules::Rules;
use skk_calls::{Caller, Office};
use skk_outside::Gate;
use skk_text::{Memory, Sequence};
use std::alloc::Global;
use std::collections::BTreeMap;
use std::thread::{Threads, for_each_mut};

/// Types the lines of each session by a caller of its own that an office admits, in the order of their numbers, and in
/// a thread of its own where one can be started. Waits until all have ended.
pub fn type_tasks<R: Threads + Sync, W: Office<Pass: Send + Drop>, G: Gate + Sync>(
    host: &Host<'_, R, G>,
    rules: &Rules,
    tasks: BTreeMap<u8, Sequence<Line>>,
    office: &W,
    roll: &mut W::Roll,
) -> (Result<Typed, Memory>, Vec<W::Slip>)
    requires owns { W.owns office.now roll.old }
    requires few { W.drawn roll.old + length tasks.entries < 4294967295 }
    requires opens { All (λ lines. list_all opens_well lines ≡ true) (values_of tasks.entries) }
    requires ascend { Ascend tasks.entries }
    ensures worked { WorkedBy rules.now tasks.entries (W.drawn roll.old) result.0 (map W.Slip.number result.1.items)
        (map W.Slip.said result.1.items) }
    ensures drawn { W.drawn roll.new ≡ W.drawn roll.old + length result.1.items }
    ensures owned { W.owns office.now roll.new }
{
    let alloc = host.alloc;
    let Ok(mut workers) = Vec::with_capacity(alloc, tasks.len()) else {
        return (Err(Memory), Vec::new(alloc));
    };
    let Ok(mut slips) = Vec::with_capacity(alloc, tasks.len()) else {
        return (Err(Memory), Vec::new(alloc));
    };
    match hire_all(alloc, tasks, office, roll, &mut workers) {
        Ok(()) => {
            run_all(host, rules, &mut workers);
            let typed = rest_all(alloc, workers, office, &mut slips);
            (typed, slips)
        }
        Err(memory) => {
            let _none_ran = rest_all(alloc, workers, office, &mut slips);
            (Err(memory), slips)
        }
    }
}

// Hires a worker for each task, for which there is room.
fn hire_all<W: Office<Pass: Drop>>(
    alloc: Global,
    tasks: BTreeMap<u8, Sequence<Line>>,
    office: &W,
    roll: &mut W::Roll,
    workers: &mut Vec<Worker<W::Pass>>,
) -> Result<(), Memory>
    requires owns { W.owns office.now roll.old }
    requires few { W.drawn roll.old + length tasks.entries < 4294967295 }
    requires opens { All (λ lines. list_all opens_well lines ≡ true) (values_of tasks.entries) }
    requires none { workers.old.items ≡ [] }
    requires room { length tasks.entries ≤ vec_capacity workers.old }
    ensures hired { AreHired W.Pass.Caller (W.drawn roll.old) tasks.entries workers.new.items }
    ensures all { OnOk result (length workers.new.items ≡ length tasks.entries) }
    ensures few { length workers.new.items ≤ length tasks.entries }
    ensures drawn { W.drawn roll.new ≡ W.drawn roll.old + length workers.new.items }
    ensures owned { W.owns office.now roll.new }
{
    let mut tasks = tasks;
    while let Some((number, lines)) = tasks.pop_first() {
        let caller = office.admit(alloc, roll)?;
        workers.push_reserved(Worker::new(alloc, number, lines, caller));
    }
    Ok(())
}

// Runs each worker in a thread of its own, where one can be started.
fn run_all<R: Threads + Sync, C: Caller + Send, G: Gate + Sync>(
    host: &Host<'_, R, G>,
    rules: &Rules,
    workers: &mut Vec<Worker<C>>,
)
    ensures same { length workers.new.items ≡ length workers.old.items }
    ensures each { (i : ℕ) (d : _) → i < length workers.old.items
        → HasRun C.Caller rules.now (slice_index_or workers.old.items i d) (slice_index_or workers.new.items i d) }
{
    if workers.is_empty() {
        return;
    }
    let (alloc, gate) = (host.alloc, host.gate);
    let threads = workers.len();
    for_each_mut(
        &host.rt,
        workers.as_mut_slice(),
        threads,
        &|_, worker| { worker.run(alloc, rules, gate) },
    );
}

// Takes apart what the workers left, and rests their callers, for whose slips there is room.
fn rest_all<W: Office<Pass: Drop>>(
    alloc: Global,
    workers: Vec<Worker<W::Pass>>,
    office: &W,
    slips: &mut Vec<W::Slip>,
) -> Result<Typed, Memory>
    requires none { slips.old.items ≡ [] }
    requires room { length workers.items ≤ vec_capacity slips.old }
    requires ascend { Ascend (map (λ worker. (worker.number, worker.session)) workers.items) }
    ensures rested { AreRested W.Pass.Caller W.Slip.Kept workers.items slips.new.items }
    ensures left { IfOk result (IsLeftOf workers.items) }
{
    let mut typed = Ok(Typed::new(alloc));
    for worker in workers {
        typed = rest(worker, typed, office, slips);
    }
    typed
}

// Takes apart what a worker left, adds it to what others left, and rests its caller.
fn rest<W: Office<Pass: Drop>>(
    worker: Worker<W::Pass>,
    typed: Result<Typed, Memory>,
    office: &W,
    slips: &mut Vec<W::Slip>,
) -> Result<Typed, Memory>
    requires room { length slips.old.items < vec_capacity slips.old }
    ensures slip { (slip : _) × (slips.new.items ≡ slips.old.items ++ slip ∷ [])
        × (W.Slip.number slip ≡ W.Pass.number worker.caller) × (W.Slip.said slip ≡ W.Pass.said worker.caller) }
    ensures room { vec_capacity slips.new ≡ vec_capacity slips.old }
    ensures typed { IfOk result (λ after. IfOk typed (λ before. AddsTo worker before after)) }
    ensures lost { IsErr typed → IsErr result }
{
    let Worker {
        number,
        lines: _,
        caller,
        session,
        pages,
        ended,
    } = worker;
    slips.push_reserved(office.rest(caller));
    let mut typed = typed?;
    typed.add(number, pages, session, ended)?;
    Ok(typed)
}
