ghost use Rattle.std.specs.Prelude.{◌≡◌, IfOk, IfErr};
ghost use Rattle.skk_journal.specs.Records.{first_place};
ghost use Rattle.skk_journal.specs.Found.{payloads, found_from};
ghost use Rattle.learned_store.specs.Recovered.{Leave};
ghost use Rattle.learned_store.specs.Recovering.{IsBreak};

use crate::gathered::Gathered;
use learn_index::Index;
use skk_journal::Records;
use skk_text::Memory;
use std::alloc::Global;

// Why no state was recovered of records.
#[derive(Debug, Drop)]
pub(crate) enum RecoverFault {
    Memory,
    // The payload of the record whose gate stands at this place is none of the forms.
    Break { at: u64 },
}

impl From<Memory> for RecoverFault {
    ghost use Rattle.std.specs.Prelude.{◌≡◌};
    ghost use Rattle.learned_store.specs.declared.recovery.RecoverFault.TheVariants as faults;

    ghost from_gives = { λ _ fault. fault ≡ faults.Memory };

    fn from(_memory: Memory) -> RecoverFault {
        RecoverFault::Memory
    }
}

// The index of the state that the records of a file of a version leave. What they say is gathered first, so that of
// each key the last row alone comes into the index, and at the end of its book. Takes time in their bytes, with one
// logarithm in the number of rows that are left, and beside the index the memory that these take while they are
// gathered; that of a record is given back when it was gathered.
pub(crate) fn recover(alloc: Global, version: u8, records: Records) -> Result<Index, RecoverFault>
    ensures left { IfOk result (λ index.
        Leave (record { version = version; records = payloads records }) index.state) }
    ensures broken { records ≡ found_from first_place (payloads records)
        → IfErr result (IsBreak (record { version = version; records = payloads records })) }
{
    let mut gathered = Gathered::new(alloc);
    for found in records.into_vec() {
        if !gathered.add(alloc, version, found.payload.as_slice())? {
            return Err(RecoverFault::Break { at: found.at });
        }
    }
    Ok(gathered.into_index(alloc)?)
}
