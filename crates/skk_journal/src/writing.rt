ghost use Rattle.std.specs.Prelude.{◌≡◌, ◌≤◌, ◌+◌, ◌<◌, ◌^◌, ◌++◌, ◌∷◌, [], length, OnOk, OnErr};
ghost use Rattle.skk_outside.specs.Faults.{Rose};
ghost use Rattle.skk_disk.specs.Image.{part};
ghost use Rattle.skk_disk.specs.Runs.{Advances, ImagesWithin};
ghost use Rattle.skk_disk.specs.Steps.{Makes};
ghost use Rattle.skk_journal.specs.Filling.{filled_bytes};
ghost use Rattle.skk_journal.specs.Idle.{IsBlank};
ghost use Rattle.std.specs.Int.{w64};
ghost use Rattle.exact_readers.specs.Numbers.{number_bytes};
ghost use Rattle.skk_journal.specs.Records.{mark, first_place};

use crate::head::MARK_NAME;
use crate::records::FIRST_PLACE;
use crate::steps::CLOSED;
use skk_disk::{Disk, Which};
use skk_outside::Failed;

// Writes bytes behind those that a read gives of a blank file: one call, or none for no bytes.
fn write_end<D: Disk>(disk: &mut D, file: Which, at: u64, bytes: &[u8]) -> Result<(), Failed>
    requires { 1 ≤ at }
    ensures images { ImagesWithin D.Disk file (Makes IsBlank IsBlank) disk.old disk.new }
    ensures ok { OnOk result (D.tells → length (part file (D.seen disk.old)) ≡ at →
        part file (D.seen disk.new) ≡ part file (D.seen disk.old) ++ bytes.now) }
    ensures advances { Advances D.Disk disk.old disk.new }
    ensures failed { OnErr result (Rose (D.faults disk.old) (D.faults disk.new)) }
{
    if bytes.is_empty() {
        return Ok(());
    }
    disk.write_at(file, at, bytes)
}

// Cuts a blank file to its first byte, and writes a head of this version behind it: two calls.
fn write_head<D: Disk>(
    disk: &mut D,
    file: Which,
    version: u8,
    generation: u64,
) -> Result<(), Failed>
    ensures images { ImagesWithin D.Disk file (Makes IsBlank IsBlank) disk.old disk.new }
    ensures ok { OnOk result (D.tells → IsBlank (part file (D.seen disk.old)) →
        part file (D.seen disk.new) ≡ 0 ∷ (mark version ++ number_bytes w64 generation)) }
    ensures advances { Advances D.Disk disk.old disk.new }
    ensures failed { OnErr result (Rose (D.faults disk.old) (D.faults disk.new)) }
{
    let head = head_bytes(version, generation);
    disk.cut(file, 1)?;
    write_end(disk, file, 1, &head)
}

// Writes records behind the head of a blank file, and a closed gate: two calls, or one for no records.
fn write_records<D: Disk>(disk: &mut D, file: Which, records: &[u8]) -> Result<(), Failed>
    requires { length records.now < 2 ^ 63 }
    ensures images { ImagesWithin D.Disk file (Makes IsBlank IsBlank) disk.old disk.new }
    ensures ok { OnOk result (D.tells → length (part file (D.seen disk.old)) ≡ first_place →
        part file (D.seen disk.new) ≡ (part file (D.seen disk.old) ++ records.now) ++ 0 ∷ []) }
    ensures advances { Advances D.Disk disk.old disk.new }
    ensures failed { OnErr result (Rose (D.faults disk.old) (D.faults disk.new)) }
{
    write_end(disk, file, FIRST_PLACE, records)?;
    write_end(disk, file, FIRST_PLACE + records.len() as u64, &[CLOSED])
}

// Writes a head of this version, records and a closed gate behind the first byte of a blank file: four calls at most.
pub(crate) fn write_behind_first<D: Disk>(
    disk: &mut D,
    file: Which,
    version: u8,
    generation: u64,
    records: &[u8],
) -> Result<(), Failed>
    requires { length records.now < 2 ^ 63 }
    ensures images { ImagesWithin D.Disk file (Makes IsBlank IsBlank) disk.old disk.new }
    ensures ok { OnOk result (D.tells → IsBlank (part file (D.seen disk.old)) →
        part file (D.seen disk.new) ≡ filled_bytes 0 version generation records.now) }
    ensures advances { Advances D.Disk disk.old disk.new }
    ensures failed { OnErr result (Rose (D.faults disk.old) (D.faults disk.new)) }
{
    write_head(disk, file, version, generation)?;
    write_records(disk, file, records)
}

// The mark of this version, and a generation.
#[tactic(auto, unfolding(exact_readers::specs::Numbers::number_bytes))]
fn head_bytes(version: u8, generation: u64) -> [u8; 16]
    ensures { result ≡ mark version ++ number_bytes w64 generation }
{
    let [s, k, k2, d, e, s2, k3] = MARK_NAME;
    let [n0, n1, n2, n3, n4, n5, n6, n7] = generation.to_le_bytes();
    [
        s, k, k2, d, e, s2, k3, version, n0, n1, n2, n3, n4, n5, n6, n7,
    ]
}
