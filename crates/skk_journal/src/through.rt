ghost use Rattle.std.specs.Prelude.{length, OnOk, OnErr};
ghost use Rattle.skk_outside.specs.Faults.{Rose};
ghost use Rattle.skk_disk.specs.Steps.{IsPlaced, PartlyWritten};
ghost use Rattle.skk_disk.specs.Runs.{Advances, ImagesAfter, ImagesWithin};

use skk_disk::{Disk, Which};
use skk_outside::Failed;

// Writes bytes at a place of a file and syncs it: two calls of the disk. After `Ok` they stand in each image; after
// `Failed` a stop may leave any bytes in their range.
pub(crate) fn write_through<D: Disk>(
    disk: &mut D,
    file: Which,
    at: u64,
    bytes: &[u8],
) -> Result<(), Failed>
    ensures images { ImagesWithin D.Disk file (PartlyWritten (record { at = at; count = length bytes.now }))
        disk.old disk.new }
    ensures placed { OnOk result (ImagesAfter D.Disk file (IsPlaced at bytes.now) disk.old disk.new) }
    ensures advances { Advances D.Disk disk.old disk.new }
    ensures failed { OnErr result (Rose (D.faults disk.old) (D.faults disk.new)) }
{
    disk.write_at(file, at, bytes)?;
    disk.sync(file)?;
    Ok(())
}
