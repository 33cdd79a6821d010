ghost use Rattle.std.specs.Prelude.{◌≡◌, ◌++◌, ◌∷◌, [], ℕ, OnOk, OnErr};
ghost use Rattle.skk_outside.specs.Faults.{Rose};
ghost use Rattle.skk_disk.specs.Runs.{Advances, ImagesAfter, ImagesWithin};
ghost use Rattle.skk_disk.specs.Steps.{Makes};
ghost use Rattle.skk_journal.specs.declared.live.Idle.TheVariants as idles;
ghost use Rattle.skk_journal.specs.Filling.{IsAged};
ghost use Rattle.skk_journal.specs.Idle.{IsStray, IsIdle, IsKnown, OtherFirst, FirstIs};
ghost use Rattle.skk_journal.specs.Nearer.{nearer};
ghost use Rattle.exact_readers.specs.Numbers.{number_bytes};
ghost use Rattle.std.specs.Int.{w64};

use crate::head::GENERATION_PLACE;
use crate::live::{Idle, Live, aged_generation};
use crate::steps::CLOSED;
use crate::through::write_through;
use skk_disk::{Disk, Which};
use skk_outside::Failed;

// Writes another first byte: two calls.
pub(crate) fn write_first<D: Disk>(disk: &mut D, file: Which, first: u8) -> Result<(), Failed>
    ensures images { ImagesWithin D.Disk file OtherFirst disk.old disk.new }
    ensures ok { OnOk result (ImagesAfter D.Disk file (FirstIs first) disk.old disk.new) }
    ensures advances { Advances D.Disk disk.old disk.new }
    ensures failed { OnErr result (Rose (D.faults disk.old) (D.faults disk.new)) }
{
    write_through(disk, file, 0, &[first])
}

// Writes this generation and a closed gate behind it into a stray file: two calls.
fn age<D: Disk>(disk: &mut D, file: Which, generation: u64) -> Result<(), Failed>
    ensures images { (newest : ℕ) →
        ImagesWithin D.Disk file (Makes (IsStray newest) (IsStray newest)) disk.old disk.new }
    ensures ok { OnOk result ((newest : ℕ) →
        ImagesAfter D.Disk file (Makes (IsStray newest) (IsAged newest generation)) disk.old disk.new) }
    ensures advances { Advances D.Disk disk.old disk.new }
    ensures failed { OnErr result (Rose (D.faults disk.old) (D.faults disk.new)) }
{
    let piece = aged_piece(generation);
    write_through(disk, file, GENERATION_PLACE, &piece)
}

// Brings the idle file one step nearer to the first byte 0, or leaves it where that is there: two calls at most.
fn bring_nearer<D: Disk>(
    disk: &mut D,
    file: Which,
    beside: Option<Live>,
    idle: &mut Idle,
) -> Result<(), Failed>
    ensures images { (newest : ℕ) →
        ImagesWithin D.Disk file (Makes (IsKnown newest beside idle.old) (IsIdle newest beside)) disk.old disk.new }
    ensures known { (newest : ℕ) →
        ImagesAfter D.Disk file (Makes (IsKnown newest beside idle.old) (IsKnown newest beside idle.new))
        disk.old disk.new }
    ensures ok { OnOk result (idle.new ≡ nearer idle.old) }
    ensures advances { Advances D.Disk disk.old disk.new }
    ensures failed { OnErr result (Rose (D.faults disk.old) (D.faults disk.new)) }
{
    match *idle {
        Idle::Blank => Ok(()),
        Idle::Loose => {
            write_first(disk, file, CLOSED)?;
            *idle = Idle::Blank;
            Ok(())
        }
        Idle::Stray => {
            age(disk, file, aged_generation(beside))?;
            *idle = Idle::Loose;
            Ok(())
        }
    }
}

// Makes the first byte of the idle file 0, so that both files are opened as before at each moment: at most four calls.
pub(crate) fn blank<D: Disk>(
    disk: &mut D,
    file: Which,
    beside: Option<Live>,
    idle: &mut Idle,
) -> Result<(), Failed>
    ensures images { (newest : ℕ) →
        ImagesWithin D.Disk file (Makes (IsKnown newest beside idle.old) (IsIdle newest beside)) disk.old disk.new }
    ensures known { (newest : ℕ) →
        ImagesAfter D.Disk file (Makes (IsKnown newest beside idle.old) (IsKnown newest beside idle.new))
        disk.old disk.new }
    ensures ok { OnOk result (idle.new ≡ idles.Blank) }
    ensures advances { Advances D.Disk disk.old disk.new }
    ensures failed { OnErr result (Rose (D.faults disk.old) (D.faults disk.new)) }
{
    bring_nearer(disk, file, beside, idle)?;
    bring_nearer(disk, file, beside, idle)
}

// The bytes of a generation, and a closed gate.
#[tactic(auto, unfolding(exact_readers::specs::Numbers::number_bytes))]
fn aged_piece(generation: u64) -> [u8; 9]
    ensures { result ≡ number_bytes w64 generation ++ 0 ∷ [] }
{
    let [a, b, c, d, e, f, g, h] = generation.to_le_bytes();
    [a, b, c, d, e, f, g, h, CLOSED]
}
