ghost use Rattle.std.specs.Prelude.{◌≡◌, ◌+◌, ◌≤◌, nat_le, IfOk};
ghost use Rattle.skk_calls.specs.Histories.{tight};
ghost use Rattle.skk_journal.specs.Records.{need};
ghost use Rattle.learned_store.specs.Rooms.{IsRoom, goes_behind};

use crate::compacting::live_records;
use crate::sizes::{record_need, tight_end};
use crate::writing::Record;
use learn_index::Index;
use skk_journal::Journal;
use skk_text::{Bytes, Memory};
use std::alloc::Global;

// Where the record of a change goes.
pub(crate) enum Room {
    // Behind the records of the live file.
    Behind,
    // Into the other file, behind these records, which are those of the state.
    Compacted(Bytes),
    // Nowhere: a file that has just the records of the state ends here.
    Full(u64),
}

// Finds room for a record. Where it may not stand behind the records of the live file, or does not fit there, this
// takes time in what the rows hold, and memory for their records.
pub(crate) fn room_for<D>(
    alloc: Global,
    index: &Index,
    journal: &Journal<D>,
    limit: u64,
    change: &Record,
) -> Result<Room, Memory>
    requires tight { tight index.now.state ≤ journal.now.end }
    ensures { IfOk result (IsRoom index.now.state
        (goes_behind limit journal.now.live.version journal.now.end change.now.version (need change.now.payload))
        limit (need change.now.payload)) }
{
    let need = record_need(change.payload.as_slice());
    let end = journal.end();
    if goes_behind(limit, journal.version(), end, change.version, need) {
        return Ok(Room::Behind);
    }
    let least = tight_end(index);
    if fits(least, limit, need) {
        Ok(Room::Compacted(live_records(alloc, index)?))
    } else {
        Ok(Room::Full(least))
    }
}

// Whether a record that a version first has, and that needs so many bytes, goes behind those of a live file that ends
// here: its version has such records, and there is room.
fn goes_behind(limit: u64, version: u8, end: u64, first: u8, need: u64) -> bool
    ensures { result ≡ goes_behind limit version end first need }
{
    first <= version && fits(end, limit, need)
}

// Whether so many bytes behind an end are within a limit.
fn fits(end: u64, limit: u64, need: u64) -> bool
    ensures { result ≡ nat_le (end + need) limit }
{
    match end.checked_add(need) {
        Some(last) => last <= limit,
        None => false,
    }
}
