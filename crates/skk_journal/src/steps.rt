ghost use Rattle.std.specs.Prelude.{◌≡◌, ◌+◌, ◌≤◌, ◌∷◌, [], List, ℕ, false, length, OnOk, OnErr};
ghost use Rattle.skk_outside.specs.Faults.{Rose};
ghost use Rattle.skk_disk.specs.Runs.{Advances, ImagesAfter, ImagesWithin};
ghost use Rattle.skk_journal.specs.Records.{IsGroup, IsSized};
ghost use Rattle.skk_journal.specs.declared.journal.TheConstants.{PIECE_ROOM};
ghost use Rattle.skk_journal.specs.Gating.{KeepsContents, Stages, KeepsStaged, Gates, Adds, AddsAllOrNone};
ghost use Rattle.skk_journal.specs.Gating.{FailsAdding};
ghost use Rattle.skk_journal.specs.Journal.{is_in_doubt};

use crate::journal::PIECE_ROOM;
use crate::live::Doubt;
use crate::piece::put_together;
use crate::through::write_through;
use skk_disk::{Disk, Which};
use skk_outside::Failed;

/// What an open gate is.
pub(crate) const OPEN: u8 = 1;

/// What a gate that is closed is.
pub(crate) const CLOSED: u8 = 0;

// Writes records behind the closed gate, but for the gate of the first one: two calls.
fn write_behind<D: Disk>(disk: &mut D, file: Which, end: u64, piece: &[u8]) -> Result<(), Failed>
    ensures images { ImagesWithin D.Disk file (KeepsContents end) disk.old disk.new }
    ensures ok { OnOk result ((added : List (List ℕ)) → IsGroup added piece.now →
        ImagesAfter D.Disk file (Stages end added) disk.old disk.new) }
    ensures advances { Advances D.Disk disk.old disk.new }
    ensures failed { OnErr result (Rose (D.faults disk.old) (D.faults disk.new)) }
{
    write_through(disk, file, end, piece)
}

// Writes the gate behind the records: two calls.
pub(crate) fn write_gate<D: Disk>(
    disk: &mut D,
    file: Which,
    at: u64,
    gate: u8,
) -> Result<(), Failed>
    ensures images { ImagesWithin D.Disk file (KeepsStaged at) disk.old disk.new }
    ensures ok { OnOk result (ImagesAfter D.Disk file (Gates at gate) disk.old disk.new) }
    ensures advances { Advances D.Disk disk.old disk.new }
    ensures failed { OnErr result (Rose (D.faults disk.old) (D.faults disk.new)) }
{
    write_through(disk, file, at, &[gate])
}

// Adds records behind those of the live file, all of them or none: four calls. Where one of the last two fails they are
// in doubt.
pub(crate) fn add_records<D: Disk>(
    disk: &mut D,
    file: Which,
    end: u64,
    doubt: &mut Doubt,
    piece: &[u8],
) -> Result<(), Failed>
    requires some { 1 ≤ end }
    requires calm { is_in_doubt doubt.old ≡ false }
    ensures settled { OnOk result (is_in_doubt doubt.new ≡ false) }
    ensures ok { OnOk result ((added : List (List ℕ)) → IsGroup added piece.now →
        ImagesAfter D.Disk file (Adds end added) disk.old disk.new) }
    ensures err { OnErr result ((added : List (List ℕ)) → IsGroup added piece.now →
        ImagesAfter D.Disk file (FailsAdding doubt.new end added) disk.old disk.new) }
    ensures images { (added : List (List ℕ)) → IsGroup added piece.now →
        ImagesWithin D.Disk file (AddsAllOrNone end added) disk.old disk.new }
    ensures advances { Advances D.Disk disk.old disk.new }
    ensures failed { OnErr result (Rose (D.faults disk.old) (D.faults disk.new)) }
{
    write_behind(disk, file, end, piece)?;
    // From here on the gate may be open.
    *doubt = Doubt::Record;
    write_gate(disk, file, end - 1, OPEN)?;
    *doubt = Doubt::Calm;
    Ok(())
}

// Adds one record behind those of the live file, which is put together in the front of the buffer: four calls.
pub(crate) fn add_record<D: Disk>(
    disk: &mut D,
    file: Which,
    end: u64,
    doubt: &mut Doubt,
    buffer: &mut [u8],
    payload: &[u8],
) -> Result<(), Failed>
    requires some { 1 ≤ end }
    requires calm { is_in_doubt doubt.old ≡ false }
    requires sized { IsSized payload.now }
    requires room { length buffer.old ≡ PIECE_ROOM }
    ensures settled { OnOk result (is_in_doubt doubt.new ≡ false) }
    ensures ok { OnOk result (ImagesAfter D.Disk file (Adds end (payload.now ∷ [])) disk.old disk.new) }
    ensures err { OnErr result (ImagesAfter D.Disk file (FailsAdding doubt.new end (payload.now ∷ []))
        disk.old disk.new) }
    ensures images { ImagesWithin D.Disk file (AddsAllOrNone end (payload.now ∷ [])) disk.old disk.new }
    ensures advances { Advances D.Disk disk.old disk.new }
    ensures failed { OnErr result (Rose (D.faults disk.old) (D.faults disk.new)) }
{
    put_together(buffer, payload);
    add_records(disk, file, end, doubt, &buffer[..payload.len() + 5])
}
