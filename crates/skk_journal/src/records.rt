ghost use Rattle.std.specs.Prelude.{◌≡◌, ◌≤◌, ◌<◌, ◌+◌, ◌^◌, length, drop, IfOk, IfErr, IsErrOf};
ghost use Rattle.skk_outside.specs.Faults.{Rose};
ghost use Rattle.skk_disk.specs.Image.{part};
ghost use Rattle.skk_disk.specs.Runs.{OnlyReads};
ghost use Rattle.skk_journal.specs.declared.journal.TheConstants.{PIECE_ROOM};
ghost use Rattle.skk_journal.specs.Records.{first_place, end_of};
ghost use Rattle.skk_journal.specs.Found.{payloads, found_from};
ghost use Rattle.skk_journal.specs.Reading.{StopsAt, StopsWithin, AreRead, BreakOff, TellsNoPlace};

use crate::found::Records;
use crate::frames::{Stop, read_frames};
use crate::journal::PIECE_ROOM;
use crate::reading::read_full;
use skk_disk::{Disk, Which};
use skk_outside::Failed;
use skk_text::Memory;
use std::alloc::Global;

// The place of the first record's gate.
pub(crate) const FIRST_PLACE: u64 = 17;

// The most bytes of a file that is read. A longer one does not fit into memory.
pub(crate) const FILE_LIMIT: u64 = 1 << 62;

// Why the records were not read to their end.
#[derive(Debug, Drop)]
pub(crate) enum RecordsFault {
    Disk,
    Memory,
    Bad { at: u64, before: Records },
}

impl From<Failed> for RecordsFault {
    ghost use Rattle.std.specs.Prelude.{◌≡◌};
    ghost use Rattle.skk_journal.specs.declared.records.RecordsFault.TheVariants as faults;

    ghost from_gives = { λ _ fault. fault ≡ faults.Disk };

    fn from(_failed: Failed) -> RecordsFault {
        RecordsFault::Disk
    }
}

impl From<Memory> for RecordsFault {
    ghost use Rattle.std.specs.Prelude.{◌≡◌};
    ghost use Rattle.skk_journal.specs.declared.records.RecordsFault.TheVariants as faults;

    ghost from_gives = { λ _ fault. fault ≡ faults.Memory };

    fn from(_memory: Memory) -> RecordsFault {
        RecordsFault::Memory
    }
}

// The records of a file, and one more than the place of the gate behind them.
#[derive(Debug, Drop)]
pub(crate) struct Read {
    pub(crate) records: Records,
    pub(crate) end: u64,
}

// Reads the records of a file of this length, whose head was read.
pub(crate) fn read_records<D: Disk>(
    alloc: Global,
    disk: &mut D,
    file: Which,
    len: u64,
    buffer: &mut [u8],
) -> Result<Read, RecordsFault>
    requires len { len ≤ 2 ^ 62 }
    requires told { D.tells → len ≡ length (part file (D.seen disk.old)) }
    requires room { length buffer.old ≡ PIECE_ROOM }
    ensures records { D.tells → IfOk result (λ read.
        AreRead (drop first_place (part file (D.seen disk.old))) read.records) }
    ensures end { IfOk result (λ read. read.end ≡ end_of (payloads read.records)) }
    ensures places { IfOk result (λ read. read.records ≡ found_from first_place (payloads read.records)) }
    ensures bad { D.tells → IfErr result (BreakOff (drop first_place (part file (D.seen disk.old)))) }
    ensures only_reads { OnlyReads D.Disk disk.old disk.new }
    ensures failed { IsErrOf result RecordsFault.Disk → Rose (D.faults disk.old) (D.faults disk.new) }
{
    let mut records = Records::new(alloc);
    let mut at = FIRST_PLACE;
    while at < len {
        match read_part(alloc, disk, file, at, buffer, &mut records)? {
            Stop::End(from) => {
                let end = at + from as u64 + 1;
                return Ok(Read { records, end });
            }
            Stop::Else(from) => {
                if from == 0 {
                    return Err(RecordsFault::Bad {
                        at,
                        before: records,
                    });
                }
                at += from as u64;
            }
        }
    }
    Err(RecordsFault::Bad {
        at,
        before: records,
    })
}

// Reads the records from the place of a gate on, as far as they are whole in a buffer that has room for any of them.
fn read_part<D: Disk>(
    alloc: Global,
    disk: &mut D,
    file: Which,
    at: u64,
    buffer: &mut [u8],
    records: &mut Records,
) -> Result<Stop, RecordsFault>
    requires place { at < 2 ^ 63 }
    requires room { length buffer.old ≡ PIECE_ROOM }
    ensures next { IfOk result (StopsAt D.tells (drop at (part file (D.seen disk.old))) at records.old records.new) }
    ensures within { IfOk result (StopsWithin PIECE_ROOM) }
    ensures no_place { IfErr result TellsNoPlace }
    ensures only_reads { OnlyReads D.Disk disk.old disk.new }
    ensures failed { IsErrOf result RecordsFault.Disk → Rose (D.faults disk.old) (D.faults disk.new) }
{
    let n = read_full(disk, file, at, buffer)?;
    let stop = read_frames(alloc, &buffer[..n], at, records)?;
    Ok(stop)
}
