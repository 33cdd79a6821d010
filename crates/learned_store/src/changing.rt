ghost use Rattle.std.specs.Prelude.{◌≡◌, ◌⊎◌, ◌+◌, ◌≤◌, true, false, List, IsOk, IsErrOf, MatchResult};
ghost use Rattle.skk_calls.specs.declared.answer.Answer.TheVariants.{Done, Refused};
ghost use Rattle.skk_calls.specs.declared.answer.Refusal.TheVariants as refusals;
ghost use Rattle.skk_calls.specs.declared.call.Call.{Call as call_value};
ghost use Rattle.skk_calls.specs.Dictionary.{after, answer, is_call, is_fit};
ghost use Rattle.skk_calls.specs.Histories.{tight};
ghost use Rattle.skk_calls.specs.Rows.{Row};
ghost use Rattle.skk_journal.specs.Records.{IsSized, need};
ghost use Rattle.learn_index.specs.Plans.{is_question, IsPlanned, HasRoom};
ghost use Rattle.learned_store.specs.Served.{Serves};
ghost use Rattle.learned_store.specs.Written.{TellsOf, Told};

use crate::committing::{commit, commit_compacted, settle};
use crate::room::{Room, room_for};
use crate::sizes::record_need;
use crate::writing::{Record, planned_record};
use dict_laws::changes_keep_states_valid;
use learn_index::{Index, Plan};
use skk_calls::{Answer, Call, Refusal};
use skk_disk::Disk;
use skk_journal::Journal;
use skk_outside::Failed;
use skk_text::Memory;
use std::alloc::Global;

// Answers a change, over any system files. All memory is taken before the learned dictionary is touched.
pub(crate) fn change<D: Disk>(
    alloc: Global,
    journal: &mut Journal<D>,
    index: &mut Index,
    limit: u64,
    call: &Call,
) -> Answer
    requires change { is_question call.now ≡ false }
    requires fit { is_fit call.now ≡ true }
    requires tight { tight index.old.state ≤ journal.old.end }
    ensures serves { (files : List (List Row)) → Serves D.Disk
        (record { journal = journal.old; state = index.old.state; files = files; limit = limit })
        (record { journal = journal.new; state = index.new.state; files = files; limit = limit }) call.now result }
    ensures tight { tight index.new.state ≤ journal.new.end }
    ensures typed { (index.new.state ≡ index.old.state) ⊎ (is_call call.now ≡ true) }
{
    let Ok(plan) = index.plan(alloc, call) else {
        return Answer::Refused(Refusal::Memory);
    };
    let Ok(record) = planned_record(alloc, index, call, &plan) else {
        return Answer::Refused(Refusal::Memory);
    };
    match record {
        None => Answer::Done(index.apply(plan)),
        Some(record) => {
            let planned = Planned {
                plan,
                written: record,
            };
            write_and_apply(alloc, journal, index, limit, call, planned)
        }
    }
}

// A change that was planned, and its record.
struct Planned {
    plan: Plan,
    written: Record,
}

// Writes the record of a change that was planned where there is room for it, and makes the change where it was written.
fn write_and_apply<D: Disk>(
    alloc: Global,
    journal: &mut Journal<D>,
    index: &mut Index,
    limit: u64,
    call: &Call,
    planned: Planned,
) -> Answer
    requires change { is_question call.now ≡ false }
    requires typed { is_call call.now ≡ true }
    requires fit { is_fit call.now ≡ true }
    requires planned { IsPlanned index.old.state call.now planned.plan }
    requires room { HasRoom index.old planned.plan }
    requires told { TellsOf index.old.state call.now planned.plan planned.written }
    requires tight { tight index.old.state ≤ journal.old.end }
    ensures serves { (files : List (List Row)) → Serves D.Disk
        (record { journal = journal.old; state = index.old.state; files = files; limit = limit })
        (record { journal = journal.new; state = index.new.state; files = files; limit = limit }) call.now result }
    ensures tight { tight index.new.state ≤ journal.new.end }
{
    changes_keep_states_valid();
    // The count of a book tells that the state is valid.
    let _valid = index.count(0);
    let Planned { plan, written } = planned;
    match write(alloc, journal, index, limit, &written) {
        Ok(()) => Answer::Done(index.apply(plan)),
        Err(refusal) => {
            drop(plan);
            Answer::Refused(refusal)
        }
    }
}

// Writes the record of a change where there is room for it: behind the records of the live file, where its version has
// such records, or else in the other file behind those of the state.
fn write<D: Disk>(
    alloc: Global,
    journal: &mut Journal<D>,
    index: &Index,
    limit: u64,
    change: &Record,
) -> Result<(), Refusal>
    requires sized { IsSized change.now.payload }
    requires tight { tight index.now.state ≤ journal.old.end }
    ensures serves { (files : List (List Row)) (call : call_value) → is_question call ≡ false
        → Told index.now.state call change.now → MatchResult result
        (λ _. Serves D.Disk (record { journal = journal.old; state = index.now.state; files = files; limit = limit })
        (record { journal = journal.new; state = after index.now.state call; files = files; limit = limit }) call
        (Done (answer files index.now.state call))) (λ refusal. Serves D.Disk
        (record { journal = journal.old; state = index.now.state; files = files; limit = limit })
        (record { journal = journal.new; state = index.now.state; files = files; limit = limit }) call
        (Refused refusal)) }
    ensures tight { MatchResult result
        (λ _. tight index.now.state + need change.now.payload ≤ journal.new.end)
        (λ _. tight index.now.state ≤ journal.new.end) }
{
    let payload = change.payload.as_slice();
    match room_for(alloc, index, journal, limit, change) {
        Ok(Room::Behind) => unless_disk(commit(journal, limit, payload)),
        Ok(Room::Compacted(records)) => {
            unless_disk(commit_compacted(journal, limit, records.as_slice(), payload))
        }
        Ok(Room::Full(end)) => {
            let need = record_need(payload);
            match settle(journal) {
                Ok(()) => Err(Refusal::JournalFull { end, need, limit }),
                Err(Failed) => Err(Refusal::Disk),
            }
        }
        Err(Memory) => Err(Refusal::Memory),
    }
}

// A disk that failed, as a change is refused for it.
fn unless_disk(done: Result<(), Failed>) -> Result<(), Refusal>
    ensures { MatchResult done (λ _. IsOk result) (λ _. IsErrOf result refusals.Disk) }
{
    match done {
        Ok(()) => Ok(()),
        Err(Failed) => Err(Refusal::Disk),
    }
}
