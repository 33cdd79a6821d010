ghost use Rattle.std.specs.Prelude.{◌≡◌, ◌⊎◌, ◌+◌, ◌≤◌, ◌++◌, ◌∷◌, [], ℕ, length, Option, None, Some, true, false};
ghost use Rattle.std.specs.Prelude.{OnOk, OnErr, MatchResult};
ghost use Rattle.skk_outside.specs.Faults.{Rose};
ghost use Rattle.skk_calls.specs.States.{State};
ghost use Rattle.skk_disk.specs.Runs.{Advances};
ghost use Rattle.skk_journal.specs.Images.{Each};
ghost use Rattle.skk_journal.specs.Journal.{is_in_doubt};
ghost use Rattle.skk_journal.specs.Records.{IsSized, first_place, need};
ghost use Rattle.learned_store.specs.Payloads.{newest_version};
ghost use Rattle.learned_store.specs.Stores.{Adds, IsCompaction, Keeps, KeepsOneOf, RecoversOneOf, with_doubt};

use skk_disk::Disk;
use skk_journal::{AppendFault, Journal};
use skk_outside::Failed;

// Adds a record to the live file, after a gate in doubt was closed.
pub(crate) fn commit<D: Disk>(
    journal: &mut Journal<D>,
    limit: u64,
    payload: &[u8],
) -> Result<(), Failed>
    requires sized { IsSized payload.now }
    requires room { journal.old.end + need payload.now ≤ limit }
    ensures end { OnOk result (journal.new.end ≡ journal.old.end + need payload.now) }
    ensures end_stays { OnErr result (journal.new.end ≡ journal.old.end) }
    ensures version { journal.new.live.version ≡ journal.old.live.version }
    ensures calm { OnOk result (is_in_doubt journal.new.doubt ≡ false) }

    // What each image is opened as afterwards, and at each moment.
    ensures ok { OnOk result ((state after : State) (doubt : Option State)
        → Adds journal.old.live.version payload.now state after →
        Keeps D.Disk journal.old state doubt → Keeps D.Disk journal.new after None) }
    ensures err { OnErr result ((state after : State) (doubt : Option State)
        → Adds journal.old.live.version payload.now state after →
        Keeps D.Disk journal.old state doubt →
        KeepsOneOf D.Disk journal.new state (doubt ∷ None ∷ Some state ∷ Some after ∷ [])) }
    ensures images { (state after : State) (doubt : Option State)
        → Adds journal.old.live.version payload.now state after →
        Keeps D.Disk journal.old state doubt →
        Each (D.left_since journal.new.disk (D.time journal.old.disk))
        (RecoversOneOf (with_doubt state doubt ++ after ∷ [])) }

    ensures advances { Advances D.Disk journal.old.disk journal.new.disk }
    ensures failed { OnErr result (Rose (D.faults journal.old.disk) (D.faults journal.new.disk)) }
{
    settle(journal)?;
    add(journal, limit, payload)
}

// Adds a record for which the live file has no room: after a gate in doubt was closed the records of the state are
// written into the other file, which is live then.
pub(crate) fn commit_compacted<D: Disk>(
    journal: &mut Journal<D>,
    limit: u64,
    compacted: &[u8],
    payload: &[u8],
) -> Result<(), Failed>
    requires sized { IsSized payload.now }
    requires room { first_place + 1 + length compacted.now + need payload.now ≤ limit }
    ensures end { OnOk result (journal.new.end ≡ first_place + 1 + length compacted.now + need payload.now) }
    ensures end_left { OnErr result ((journal.new.end ≡ journal.old.end)
        ⊎ (journal.new.end ≡ first_place + 1 + length compacted.now)) }
    ensures version { OnOk result (journal.new.live.version ≡ journal.old.newest) }
    ensures calm { OnOk result (is_in_doubt journal.new.doubt ≡ false) }

    // What each image is opened as afterwards, and at each moment.
    ensures ok { OnOk result ((state after : State) (doubt : Option State)
        → Adds newest_version payload.now state after →
        IsCompaction state compacted.now →
        Keeps D.Disk journal.old state doubt → Keeps D.Disk journal.new after None) }
    ensures err { OnErr result ((state after : State) (doubt : Option State)
        → Adds newest_version payload.now state after →
        IsCompaction state compacted.now →
        Keeps D.Disk journal.old state doubt →
        KeepsOneOf D.Disk journal.new state (doubt ∷ None ∷ Some state ∷ Some after ∷ [])) }
    ensures images { (state after : State) (doubt : Option State) → Adds newest_version payload.now state after →
        IsCompaction state compacted.now →
        Keeps D.Disk journal.old state doubt →
        Each (D.left_since journal.new.disk (D.time journal.old.disk))
        (RecoversOneOf (with_doubt state doubt ++ after ∷ [])) }

    ensures advances { Advances D.Disk journal.old.disk journal.new.disk }
    ensures failed { OnErr result (Rose (D.faults journal.old.disk) (D.faults journal.new.disk)) }
{
    settle(journal)?;
    shrink(journal, compacted)?;
    add(journal, limit, payload)
}

/// Closes the gate in doubt: at most two calls of the disk, and none where nothing is in doubt. Takes no memory.
pub fn settle<D: Disk>(journal: &mut Journal<D>) -> Result<(), Failed>
    ensures calm { OnOk result (is_in_doubt journal.new.doubt ≡ false) }
    ensures stands { OnErr result (is_in_doubt journal.old.doubt ≡ true) }
    ensures end { journal.new.end ≡ journal.old.end }
    ensures version { journal.new.live.version ≡ journal.old.live.version }
    ensures newest { journal.new.newest ≡ journal.old.newest }

    ensures keeps { (state : State) (doubt : Option State) → Keeps D.Disk journal.old state doubt →
        MatchResult result (λ _. Keeps D.Disk journal.new state None) (λ _. Keeps D.Disk journal.new state doubt) }
    ensures images { (state : State) (doubt : Option State) → Keeps D.Disk journal.old state doubt →
        Each (D.left_since journal.new.disk (D.time journal.old.disk)) (RecoversOneOf (with_doubt state doubt)) }

    ensures advances { Advances D.Disk journal.old.disk journal.new.disk }
    ensures failed { OnErr result (Rose (D.faults journal.old.disk) (D.faults journal.new.disk)) }
{
    journal.repair()
}

/// Writes the records of the state into the other file, which is live then: at most eleven calls of the disk. Takes no
/// memory.
pub fn shrink<D: Disk>(journal: &mut Journal<D>, compacted: &[u8]) -> Result<(), Failed>
    requires { is_in_doubt journal.old.doubt ≡ false }
    ensures calm { OnOk result (is_in_doubt journal.new.doubt ≡ false) }
    ensures end { OnOk result (journal.new.end ≡ first_place + 1 + length compacted.now) }
    ensures end_stays { OnErr result (journal.new.end ≡ journal.old.end) }
    ensures version { OnOk result (journal.new.live.version ≡ journal.old.newest) }

    ensures keeps { (state : State) → IsCompaction state compacted.now →
        Keeps D.Disk journal.old state None →
        MatchResult result
        (λ _. Keeps D.Disk journal.new state None) (λ _. KeepsOneOf D.Disk journal.new state (None ∷ Some state ∷ [])) }
    ensures images { (state : State) → IsCompaction state compacted.now →
        Keeps D.Disk journal.old state None →
        Each (D.left_since journal.new.disk (D.time journal.old.disk)) (RecoversOneOf (state ∷ [])) }

    ensures advances { Advances D.Disk journal.old.disk journal.new.disk }
    ensures failed { OnErr result (Rose (D.faults journal.old.disk) (D.faults journal.new.disk)) }
{
    journal.compact(compacted)
}

// Adds a record that ends within the limit.
fn add<D: Disk>(journal: &mut Journal<D>, limit: u64, payload: &[u8]) -> Result<(), Failed>
    requires calm { is_in_doubt journal.old.doubt ≡ false }
    requires sized { IsSized payload.now }
    requires room { journal.old.end + need payload.now ≤ limit }
    ensures calm { OnOk result (is_in_doubt journal.new.doubt ≡ false) }
    ensures end { OnOk result (journal.new.end ≡ journal.old.end + need payload.now) }
    ensures end_stays { OnErr result (journal.new.end ≡ journal.old.end) }
    ensures version { journal.new.live.version ≡ journal.old.live.version }

    ensures ok { OnOk result ((state after : State) → Adds journal.old.live.version payload.now state after →
        Keeps D.Disk journal.old state None → Keeps D.Disk journal.new after None) }
    ensures err { OnErr result ((state after : State) → Adds journal.old.live.version payload.now state after →
        Keeps D.Disk journal.old state None →
        KeepsOneOf D.Disk journal.new state (None ∷ Some after ∷ [])) }
    ensures images { (state after : State) → Adds journal.old.live.version payload.now state after →
        Keeps D.Disk journal.old state None →
        Each (D.left_since journal.new.disk (D.time journal.old.disk)) (RecoversOneOf (state ∷ after ∷ [])) }

    ensures advances { Advances D.Disk journal.old.disk journal.new.disk }
    ensures failed { OnErr result (Rose (D.faults journal.old.disk) (D.faults journal.new.disk)) }
{
    match journal.append(limit, payload) {
        Ok(()) => Ok(()),
        Err(AppendFault::Disk) => Err(Failed),
        Err(AppendFault::Full { .. }) => unreachable!(),
    }
}
