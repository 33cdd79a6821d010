ghost use Rattle.std.specs.Prelude.{◌≤◌, [], OnOk, OnErr};
ghost use Rattle.skk_disk.specs.declared.which.Which.TheVariants.{A};
ghost use Rattle.skk_outside.specs.Faults.{Rose};
ghost use Rattle.skk_disk.specs.Runs.{Advances, ImagesWithin};
ghost use Rattle.skk_journal.specs.Filling.{IsNew};
ghost use Rattle.skk_journal.specs.Generations.{first_live};
ghost use Rattle.skk_journal.specs.Idle.{IsFreshAs};
ghost use Rattle.skk_journal.specs.Contents.{no_records};
ghost use Rattle.skk_journal.specs.Images.{Each, Sides, OpensRecords, Anyhow};
ghost use Rattle.skk_journal.specs.Journal.{Holds};

use crate::filling::write_first;
use crate::live::Idle;
use crate::ready::make_ready;
use crate::steps::OPEN;
use skk_disk::{Disk, Which};
use skk_outside::Failed;

// Fills the first file with the newest version and no records, where both are fresh: at most eleven calls.
pub(crate) fn fill_first<D: Disk>(
    disk: &mut D,
    newest: u8,
    mut first: Idle,
    second: Idle,
) -> Result<(), Failed>
    requires { 1 ≤ newest }
    ensures images { Each (D.left_since disk.old (D.time disk.old))
        (Sides A (IsFreshAs newest first) (IsFreshAs newest second)) →
        Each (D.left_since disk.new (D.time disk.old)) (OpensRecords newest []) }
    ensures ok { OnOk result (
        Each (D.left_since disk.old (D.time disk.old)) (Sides A (IsFreshAs newest first) (IsFreshAs newest second)) →
        Each (D.left_since disk.new (D.time disk.new))
        (Holds newest (first_live newest) second (no_records newest))) }
    ensures anew { OnOk result (
        Each (D.left_since disk.old (D.time disk.old)) (Sides A (IsFreshAs newest first) (IsFreshAs newest second)) →
        Each (D.left_since disk.new (D.time disk.new)) (IsNew newest)) }
    ensures first_alone { ImagesWithin D.Disk A Anyhow disk.old disk.new }
    ensures advances { Advances D.Disk disk.old disk.new }
    ensures failed { OnErr result (Rose (D.faults disk.old) (D.faults disk.new)) }
{
    make_ready(disk, Which::A, newest, None, &mut first, &[])?;
    write_first(disk, Which::A, OPEN)
}
