ghost use Rattle.std.specs.Prelude.{◌≡◌, ◌≤◌, ◌++◌, ◌∷◌, [], drop, length, min, true, IfOk, IfErr, OnOk};
ghost use Rattle.std.specs.List.{list_all};
ghost use Rattle.skk_text.specs.Counts.{last_count};
ghost use Rattle.skk_calls.specs.Dictionary.{is_call};
ghost use Rattle.skk_calls.specs.Histories.{tight};
ghost use Rattle.skk_calls.specs.States.{count_of};
ghost use Rattle.skk_calls.specs.Tallies.{Tally as tally_value, count_rows};
ghost use Rattle.learn_index.specs.Groups.{AreMade, ArePlanned, HaveRoom, IsGroup};
ghost use Rattle.learned_store.specs.Stands.{opening_note};
ghost use Rattle.learned_store.specs.Stores.{opening_now};
ghost use Rattle.batch_store.specs.Batches.{Commits, IsPieceOf};
ghost use Rattle.batch_store.specs.Entries.{AreEntered, answers_of, entered, entered_at, fault_answers, store_of};
ghost use Rattle.batch_store.specs.Entries.{tally_behind};

use crate::entries::Entries;
use crate::group_fault::{GroupAnswer, GroupFault};
use crate::group_records::group_records;
use crate::writing::write_piece;
use dict_laws::{changes_keep_states_valid, counting_comes_to_the_tally};
use learn_index::{Group, Index, Plan};
use learned_store::{
    Closed, Parts, changes_keep_the_tight_end, changes_need_their_records,
    changes_tell_what_may_be_written, kept_states_are_recovered,
    plans_tell_what_their_changes_tell, records_leave_what_changes_leave, sound_records_fit,
};
use skk_calls::{Call, Calls, Chronicle, Refusal, Tally};
use skk_disk::Disk;
use skk_text::{Bytes, Memory};
use std::alloc::Global;
use std::marker::Model;

/// A learned dictionary each of whose groups of changes stands in the live file of a disk, all of them or none; and its
/// history, in which all calls are those of the caller 0.
#[derive(Drop)]
pub struct Batch<D: Disk> {
    parts: Parts<D>,
    entries: Entries,
}

impl<D: Disk> Model for Batch<D> {
    ghost use Rattle.std.specs.Prelude.{◌≤◌};
    ghost use Rattle.skk_calls.specs.Histories.{tight};
    ghost use Rattle.learned_store.specs.Stands.{NotedStore};
    ghost use Rattle.batch_store.specs.Entries.{AreEntered, store_of};

    ghost Value = { NotedStore D };

    ghost view = { λ b. record { store = store_of b.parts; notes = b.entries.trace } };

    // The live file holds at least what the state needs, and the history is that of the dictionary.
    ghost invariant = { λ b. (tight b.parts.index.state ≤ b.parts.journal.end)
        × AreEntered D.Disk b.entries.trace b.entries.tally (store_of b.parts) };
}

impl<D: Disk> Batch<D> {
    /// A dictionary of the parts of a store. Where there is no memory to begin its history they come back. Takes
    /// constant memory.
    pub fn of_parts(alloc: Global, parts: Parts<D>) -> Result<Batch<D>, Parts<D>>
        requires tight { tight parts.index.state ≤ parts.journal.end }
        ensures store { IfOk result (λ batch. batch.store ≡ store_of parts) }
        ensures notes { IfOk result (λ batch. batch.notes ≡ opening_note (opening_now D.Disk (store_of parts)) ∷ []) }
        ensures back { IfErr result (λ back. back ≡ parts) }
    {
        counting_comes_to_the_tally();
        match Entries::new(alloc, &parts) {
            Ok(entries) => Ok(Batch { parts, entries }),
            Err(_) => Err(parts),
        }
    }

    /// The count of a book, 0 where it was never changed. Takes no memory.
    pub fn count(&self, book: u16) -> u64
        ensures { result ≡ count_of self.now.store.state book }
    {
        self.parts.index.count(book)
    }

    /// Serves a group of learnings, all of them or none. All memory is taken first; then a gate in doubt is closed, the
    /// records of those that change something are added together, and only then are the changes made. So a stop at any
    /// moment leaves the state before the group, the one after all of it, or one that was in doubt. Where no call
    /// changes anything, and after `Memory`, the disk was not called. Costs what the calls cost the index, and two
    /// writes and two syncs for all of them, or three where a gate was in doubt; where the other file is written, at
    /// most eleven calls more, and time and memory in what the rows and lists hold.
    pub fn commit(&mut self, alloc: Global, calls: &Calls) -> GroupAnswer
        requires { IsGroup self.old.store.state calls.now }
        ensures commits { Commits D.Disk self.old.store self.new.store calls.now result }
        ensures notes { self.new.notes ≡ self.old.notes ++ entered (D.time self.new.store.journal.disk)
            (D.faults self.new.store.journal.disk) calls.now (answers_of self.old.store calls.now result) }
    {
        changes_keep_the_tight_end();
        counting_comes_to_the_tally();
        kept_states_are_recovered::<D>();
        let parts = &mut self.parts;
        let Planned { group, written } = planned_group(alloc, &mut parts.index, calls)?;
        // Without the gate of the first record, which is opened last.
        let records = &written.as_slice()[1..];
        if let Err(fault) = write_piece(
            alloc,
            &mut parts.journal,
            &parts.index,
            parts.limit,
            records,
        ) {
            let plans = group.plans.as_slice();
            enter_fault(&mut self.entries, parts, calls.as_slice(), plans, fault);
            return Err(fault);
        }
        let replies = parts.index.apply_group(group);
        self.entries
            .enter_replies(parts, calls.as_slice(), replies.as_slice());
        Ok(replies)
    }

    /// Ends the history, and gives the disk back as it is. Takes no memory.
    pub fn close(self) -> Closed<D>
        ensures disk { result.disk ≡ self.store.journal.disk }
        ensures chronicle { result.chronicle ≡ self.notes }
        ensures entered { (tally : tally_value) × AreEntered D.Disk self.notes tally self.store
            × (result.tally ≡ record tally { rows = min (count_rows self.store.state) last_count }) }
    {
        let Batch { parts, entries } = self;
        let Parts { index, journal, .. } = parts;
        let Entries { trace, tally } = entries;
        Closed {
            disk: journal.close(),
            tally: Tally::new(
                tally.learned(),
                tally.restored(),
                index.rows(),
                tally.memory(),
                tally.disk(),
                tally.full(),
            ),
            chronicle: Chronicle::of(trace),
        }
    }
}

// A group that was planned, and the records of its changes, which have the gate of the first one.
struct Planned {
    group: Group,
    written: Bytes,
}

// Plans a group of learnings, and writes down what its changes leave.
fn planned_group(alloc: Global, index: &mut Index, calls: &Calls) -> Result<Planned, Memory>
    requires { IsGroup index.old.state calls.now }
    ensures state { index.new.state ≡ index.old.state }
    ensures planned { IfOk result (λ planned. ArePlanned index.old.state calls.now planned.group.plans) }
    ensures typed { OnOk result (list_all is_call calls.now ≡ true) }
    ensures made { IfOk result (λ planned. AreMade index.new.state planned.group.plans) }
    ensures room { IfOk result (λ planned. HaveRoom index.new planned.group.plans) }
    ensures gate { IfOk result (λ planned. 1 ≤ length planned.written) }
    ensures piece { IfOk result (λ planned. IsPieceOf index.old.state calls.now (drop 1 planned.written)) }
{
    changes_keep_states_valid();
    changes_need_their_records();
    changes_tell_what_may_be_written();
    plans_tell_what_their_changes_tell();
    records_leave_what_changes_leave();
    sound_records_fit();
    // The count of a book tells that the state is valid.
    let _valid = index.count(0);
    let group = index.plan_group(alloc, calls)?;
    let written = group_records(alloc, group.plans.as_slice())?;
    Ok(Planned { group, written })
}

// Enters why no call of a group was served: each that would change something was refused for the disk, or the only one
// for want of room.
fn enter_fault<D: Disk>(
    entries: &mut Entries,
    parts: &Parts<D>,
    calls: &[Call],
    plans: &[Plan],
    fault: GroupFault,
)
    requires { length plans.now ≡ length calls.now }
    ensures notes { entries.new.trace ≡ entries.old.trace
        ++ entered_at D.Disk parts.now calls.now (fault_answers calls.now plans.now fault) }
    ensures tally { entries.new.tally ≡ tally_behind entries.old.tally (fault_answers calls.now plans.now fault) }
{
    match fault {
        GroupFault::Memory => {}
        GroupFault::Disk => entries.enter_failure(parts, calls, plans),
        GroupFault::Full { end, need, limit } => {
            if let [call] = calls {
                entries.enter_refusal(parts, call, &Refusal::JournalFull { end, need, limit });
            }
        }
    }
}
