ghost use Rattle.std.specs.Prelude.{◌≡◌, ◌⊎◌, ◌+◌, ◌≤◌, ◌++◌, ◌∷◌, [], ℕ, length, List, Option, None, Some, false};
ghost use Rattle.std.specs.Prelude.{OnOk, OnErr};
ghost use Rattle.skk_outside.specs.Faults.{Rose};
ghost use Rattle.skk_calls.specs.States.{State};
ghost use Rattle.skk_disk.specs.Runs.{Advances};
ghost use Rattle.skk_journal.specs.Images.{Each};
ghost use Rattle.skk_journal.specs.Journal.{is_in_doubt};
ghost use Rattle.skk_journal.specs.Records.{IsGroup, first_place};
ghost use Rattle.learned_store.specs.Payloads.{newest_version};
ghost use Rattle.learned_store.specs.Stores.{AddsAll, IsCompaction, Keeps, KeepsOneOf, RecoversOneOf, with_doubt};

use learned_store::{settle, shrink};
use skk_disk::Disk;
use skk_journal::{AppendFault, Journal};
use skk_outside::Failed;

// Adds records together to the live file, after a gate in doubt was closed.
pub(crate) fn commit_behind<D: Disk>(
    journal: &mut Journal<D>,
    limit: u64,
    records: &[u8],
) -> Result<(), Failed>
    requires room { journal.old.end + length records.now ≤ limit }
    ensures end { OnOk result (journal.new.end ≡ journal.old.end + length records.now) }
    ensures end_stays { OnErr result (journal.new.end ≡ journal.old.end) }
    ensures calm { OnOk result (is_in_doubt journal.new.doubt ≡ false) }

    // What each image is opened as afterwards, and at each moment.
    ensures ok { OnOk result ((state after : State) (doubt : Option State) (added : List (List ℕ))
        → IsGroup added records.now → AddsAll journal.old.live.version added state after →
        Keeps D.Disk journal.old state doubt → Keeps D.Disk journal.new after None) }
    ensures err { OnErr result ((state after : State) (doubt : Option State) (added : List (List ℕ))
        → IsGroup added records.now → AddsAll journal.old.live.version added state after →
        Keeps D.Disk journal.old state doubt →
        KeepsOneOf D.Disk journal.new state (doubt ∷ None ∷ Some state ∷ Some after ∷ [])) }
    ensures images { (state after : State) (doubt : Option State) (added : List (List ℕ))
        → IsGroup added records.now → AddsAll journal.old.live.version added state after →
        Keeps D.Disk journal.old state doubt →
        Each (D.left_since journal.new.disk (D.time journal.old.disk))
        (RecoversOneOf (with_doubt state doubt ++ after ∷ [])) }

    ensures advances { Advances D.Disk journal.old.disk journal.new.disk }
    ensures failed { OnErr result (Rose (D.faults journal.old.disk) (D.faults journal.new.disk)) }
{
    settle(journal)?;
    add(journal, limit, records)
}

// Adds records together for which the live file has no room: after a gate in doubt was closed those of the state are
// written into the other file, which is live then.
pub(crate) fn commit_compacted<D: Disk>(
    journal: &mut Journal<D>,
    limit: u64,
    compacted: &[u8],
    records: &[u8],
) -> Result<(), Failed>
    requires room { first_place + 1 + length compacted.now + length records.now ≤ limit }
    ensures end { OnOk result (journal.new.end ≡ first_place + 1 + length compacted.now + length records.now) }
    ensures end_left { OnErr result ((journal.new.end ≡ journal.old.end)
        ⊎ (journal.new.end ≡ first_place + 1 + length compacted.now)) }
    ensures calm { OnOk result (is_in_doubt journal.new.doubt ≡ false) }

    // What each image is opened as afterwards, and at each moment.
    ensures ok { OnOk result ((state after : State) (doubt : Option State) (added : List (List ℕ))
        → IsGroup added records.now → AddsAll newest_version added state after →
        IsCompaction state compacted.now →
        Keeps D.Disk journal.old state doubt → Keeps D.Disk journal.new after None) }
    ensures err { OnErr result ((state after : State) (doubt : Option State) (added : List (List ℕ))
        → IsGroup added records.now → AddsAll newest_version added state after →
        IsCompaction state compacted.now →
        Keeps D.Disk journal.old state doubt →
        KeepsOneOf D.Disk journal.new state (doubt ∷ None ∷ Some state ∷ Some after ∷ [])) }
    ensures images { (state after : State) (doubt : Option State) (added : List (List ℕ))
        → IsGroup added records.now → AddsAll newest_version added state after →
        IsCompaction state compacted.now →
        Keeps D.Disk journal.old state doubt →
        Each (D.left_since journal.new.disk (D.time journal.old.disk))
        (RecoversOneOf (with_doubt state doubt ++ after ∷ [])) }

    ensures advances { Advances D.Disk journal.old.disk journal.new.disk }
    ensures failed { OnErr result (Rose (D.faults journal.old.disk) (D.faults journal.new.disk)) }
{
    settle(journal)?;
    shrink(journal, compacted)?;
    add(journal, limit, records)
}

// Adds records together that end within the limit.
fn add<D: Disk>(journal: &mut Journal<D>, limit: u64, records: &[u8]) -> Result<(), Failed>
    requires calm { is_in_doubt journal.old.doubt ≡ false }
    requires room { journal.old.end + length records.now ≤ limit }
    ensures calm { OnOk result (is_in_doubt journal.new.doubt ≡ false) }
    ensures end { OnOk result (journal.new.end ≡ journal.old.end + length records.now) }
    ensures end_stays { OnErr result (journal.new.end ≡ journal.old.end) }

    ensures ok { OnOk result ((state after : State) (added : List (List ℕ)) → IsGroup added records.now
        → AddsAll journal.old.live.version added state after →
        Keeps D.Disk journal.old state None → Keeps D.Disk journal.new after None) }
    ensures err { OnErr result ((state after : State) (added : List (List ℕ)) → IsGroup added records.now
        → AddsAll journal.old.live.version added state after →
        Keeps D.Disk journal.old state None →
        KeepsOneOf D.Disk journal.new state (None ∷ Some after ∷ [])) }
    ensures images { (state after : State) (added : List (List ℕ)) → IsGroup added records.now
        → AddsAll journal.old.live.version added state after →
        Keeps D.Disk journal.old state None →
        Each (D.left_since journal.new.disk (D.time journal.old.disk)) (RecoversOneOf (state ∷ after ∷ [])) }

    ensures advances { Advances D.Disk journal.old.disk journal.new.disk }
    ensures failed { OnErr result (Rose (D.faults journal.old.disk) (D.faults journal.new.disk)) }
{
    match journal.append_many(limit, records) {
        Ok(()) => Ok(()),
        Err(AppendFault::Disk) => Err(Failed),
        Err(AppendFault::Full { .. }) => unreachable!(),
    }
}
