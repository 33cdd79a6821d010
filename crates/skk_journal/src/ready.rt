ghost use Rattle.std.specs.Prelude.{◌≡◌, ◌<◌, ◌^◌, length, OnOk, OnErr};
ghost use Rattle.skk_outside.specs.Faults.{Rose};
ghost use Rattle.skk_disk.specs.Runs.{Advances, ImagesAfter, ImagesWithin};
ghost use Rattle.skk_disk.specs.Steps.{Makes};
ghost use Rattle.skk_journal.specs.declared.live.Idle.TheVariants as idles;
ghost use Rattle.skk_journal.specs.Filling.{IsReady};
ghost use Rattle.skk_journal.specs.Generations.{HasGeneration, next_generation};
ghost use Rattle.skk_journal.specs.Idle.{IsBlank, IsIdle, IsKnown};

use crate::filling::blank;
use crate::live::{Idle, Live, generation_beside};
use crate::writing::write_behind_first;
use skk_disk::{Disk, Which};
use skk_outside::Failed;

// Fills a blank file with this version up to its gate, which stays closed, and syncs it: at most five calls.
fn write_ready<D: Disk>(
    disk: &mut D,
    file: Which,
    version: u8,
    generation: u64,
    records: &[u8],
) -> Result<(), Failed>
    requires { length records.now < 2 ^ 63 }
    ensures images { ImagesWithin D.Disk file (Makes IsBlank IsBlank) disk.old disk.new }
    ensures ok { OnOk result (ImagesAfter D.Disk file (Makes IsBlank (IsReady version generation records.now))
        disk.old disk.new) }
    ensures advances { Advances D.Disk disk.old disk.new }
    ensures failed { OnErr result (Rose (D.faults disk.old) (D.faults disk.new)) }
{
    write_behind_first(disk, file, version, generation, records)?;
    disk.sync(file)
}

// Makes the idle file ready to be live with the newest version, so that both files are opened as before at each moment:
// at most nine calls.
pub(crate) fn make_ready<D: Disk>(
    disk: &mut D,
    file: Which,
    newest: u8,
    beside: Option<Live>,
    idle: &mut Idle,
    records: &[u8],
) -> Result<(), Failed>
    requires { length records.now < 2 ^ 63 }
    ensures images { ImagesWithin D.Disk file (Makes (IsKnown newest beside idle.old) (IsIdle newest beside))
        disk.old disk.new }
    ensures known { ImagesAfter D.Disk file (Makes (IsKnown newest beside idle.old) (IsKnown newest beside idle.new))
        disk.old disk.new }
    ensures blank { OnOk result (idle.new ≡ idles.Blank) }
    ensures ok { OnOk result (ImagesAfter D.Disk file
        (Makes (IsKnown newest beside idle.old) (IsReady newest (next_generation beside) records.now))
        disk.old disk.new) }
    ensures small { HasGeneration beside }
    ensures advances { Advances D.Disk disk.old disk.new }
    ensures failed { OnErr result (Rose (D.faults disk.old) (D.faults disk.new)) }
{
    let generation = generation_beside(beside);
    blank(disk, file, beside, idle)?;
    write_ready(disk, file, newest, generation, records)
}
