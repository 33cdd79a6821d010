ghost use Rattle.std.specs.Prelude.{◌≡◌, ◌+◌, ◌≤◌, nat_le, Err, Ok, List, length, MatchResult};
ghost use Rattle.skk_calls.specs.declared.call.Call.{Call};
ghost use Rattle.skk_calls.specs.Histories.{after_calls, tight};
ghost use Rattle.skk_calls.specs.Rows.{Row};
ghost use Rattle.learn_index.specs.Groups.{replies_to};
ghost use Rattle.batch_store.specs.Batches.{Commits, IsPieceOf, TellsGroup};

use crate::committing::{commit_behind, commit_compacted};
use crate::group_fault::GroupFault;
use learn_index::Index;
use learned_store::{
    compacted_records_leave_their_state, kept_states_are_recovered, live_records, settle,
    the_tight_end_is_least, tight_end,
};
use skk_disk::Disk;
use skk_journal::Journal;
use std::alloc::Global;

// Writes the records of a group, where one of its calls changes something.
pub(crate) fn write_piece<D: Disk>(
    alloc: Global,
    journal: &mut Journal<D>,
    index: &Index,
    limit: u64,
    records: &[u8],
) -> Result<(), GroupFault>
    requires tight { tight index.now.state ≤ journal.old.end }
    ensures commits { (files : List (List Row)) (calls : List Call) → IsPieceOf index.now.state calls records.now
        → MatchResult result
        (λ _. Commits D.Disk
        (record { journal = journal.old; state = index.now.state; files = files; limit = limit })
        (record { journal = journal.new; state = after_calls index.now.state calls; files = files; limit = limit })
        calls (Ok (replies_to files index.now.state calls)))
        (λ fault. Commits D.Disk
        (record { journal = journal.old; state = index.now.state; files = files; limit = limit })
        (record { journal = journal.new; state = index.now.state; files = files; limit = limit })
        calls (Err fault)) }
    ensures tight { MatchResult result
        (λ _. tight index.now.state + length records.now ≤ journal.new.end)
        (λ _. tight index.now.state ≤ journal.new.end) }
{
    kept_states_are_recovered::<D>();
    if records.is_empty() {
        return Ok(());
    }
    write(alloc, journal, index, limit, records)
}

// Writes the records of a group where there is room for all of them: behind those of the live file, or else in the
// other file behind those of the state.
fn write<D: Disk>(
    alloc: Global,
    journal: &mut Journal<D>,
    index: &Index,
    limit: u64,
    records: &[u8],
) -> Result<(), GroupFault>
    requires tight { tight index.now.state ≤ journal.old.end }
    ensures commits { (files : List (List Row)) (calls : List Call) → TellsGroup index.now.state calls records.now
        → MatchResult result
        (λ _. Commits D.Disk
        (record { journal = journal.old; state = index.now.state; files = files; limit = limit })
        (record { journal = journal.new; state = after_calls index.now.state calls; files = files; limit = limit })
        calls (Ok (replies_to files index.now.state calls)))
        (λ fault. Commits D.Disk
        (record { journal = journal.old; state = index.now.state; files = files; limit = limit })
        (record { journal = journal.new; state = index.now.state; files = files; limit = limit })
        calls (Err fault)) }
    ensures tight { MatchResult result
        (λ _. tight index.now.state + length records.now ≤ journal.new.end)
        (λ _. tight index.now.state ≤ journal.new.end) }
{
    compacted_records_leave_their_state();
    kept_states_are_recovered::<D>();
    the_tight_end_is_least();
    // The version of the live file tells that it has records of rows.
    let _version = journal.version();
    let need = records.len() as u64;
    if fits(journal.end(), need, limit) {
        commit_behind(journal, limit, records)?;
        return Ok(());
    }
    let end = tight_end(index);
    if fits(end, need, limit) {
        let compacted = live_records(alloc, index)?;
        commit_compacted(journal, limit, compacted.as_slice(), records)?;
        return Ok(());
    }
    settle(journal)?;
    Err(GroupFault::Full { end, need, limit })
}

// Whether so many more behind a number are within a limit.
pub(crate) fn fits(number: u64, more: u64, limit: u64) -> bool
    ensures { result ≡ nat_le (number + more) limit }
{
    match number.checked_add(more) {
        Some(last) => last <= limit,
        None => false,
    }
}
