ghost use Rattle.std.specs.Prelude.{◌≡◌, ◌≤◌, ◌<◌, ℕ, length, take, Some, IfOk, OnOk, OnErr};
ghost use Rattle.std.specs.Io.{ReadsAtMost};
ghost use Rattle.skk_outside.specs.Faults.{Rose};
ghost use Rattle.skk_outside.specs.Shelves.{ReadsFrom};
ghost use Rattle.skk_disk.specs.Image.{Image, part, with_part};
ghost use Rattle.skk_disk.specs.Steps.{placed, PartlyWritten, PartlyCut, InFile, ComeFrom};
ghost use Rattle.skk_disk.specs.Moments.{Passes, SameImages, Earlier, Apart};

use crate::which::Which;
use skk_outside::Failed;

/// A device with two files. A type of disk tells what it holds, or tells nothing of it.
///
/// An image is what a stop might leave of both files. A write, a cut or a sync that fails may have done any part of its
/// work, and what stands after it is said as of one that went well, by the images since the call's start.
pub trait Disk {
    /// Whether disks of this type tell what they hold.
    ghost tells: { Type 0 };

    /// How many of its calls failed, up to 2^64 - 1. It never falls.
    ghost faults: { Self → ℕ };

    /// The time, a number that never falls.
    ghost time: { Self → ℕ };

    /// What a read gives of both files.
    ghost seen: { Self → Image };

    /// What a stop at some moment since a time might have left: since the present time, what a stop now may leave.
    ghost left_since: { Self → ℕ → Image → Type 0 };

    /// The length of a file in bytes.
    fn len(&mut self, file: Which) -> Result<u64, Failed>
        ensures length { tells → IfOk result (λ n. n ≡ length (part file (seen self.old))) }
        ensures seen { seen self.new ≡ seen self.old }
        ensures time { time self.new ≡ time self.old }
        ensures images { SameImages (left_since self.old) (left_since self.new) }
        ensures failed { OnErr result (Rose (faults self.old) (faults self.new)) }
        ensures counted { faults self.old ≤ faults self.new };

    /// Reads bytes of a file from a place on into the head of `into`, and answers how many: 0 only where
    /// the file ends by then, or where `into` has no room.
    fn read_at(&mut self, file: Which, at: u64, into: &mut [u8]) -> Result<usize, Failed>
        ensures bound { ReadsAtMost result into.new }
        ensures bytes { tells → ReadsFrom (Some (part file (seen self.old))) at result into.new }
        ensures seen { seen self.new ≡ seen self.old }
        ensures time { time self.new ≡ time self.old }
        ensures images { SameImages (left_since self.old) (left_since self.new) }
        ensures failed { OnErr result (Rose (faults self.old) (faults self.new)) }
        ensures counted { faults self.old ≤ faults self.new };

    /// Writes bytes at a place of a file. Until the file's next sync a stop may leave any bytes in their
    /// range.
    fn write_at(&mut self, file: Which, at: u64, from: &[u8]) -> Result<(), Failed>
        ensures written { OnOk result (tells →
            seen self.new ≡ with_part file (placed at from.now (part file (seen self.old))) (seen self.old)) }
        ensures partly { tells → InFile file (PartlyWritten (record { at = at; count = length from.now }))
            (seen self.old) (seen self.new) }
        ensures images { ComeFrom (InFile file (PartlyWritten (record { at = at; count = length from.now })))
            (left_since self.old (time self.old)) (left_since self.new (time self.old)) }
        ensures past { Passes (time self.old) (time self.new) (left_since self.old) (left_since self.new) }
        ensures later { OnOk result (tells → time self.old < time self.new) }
        ensures failed { OnErr result (Rose (faults self.old) (faults self.new)) }
        ensures counted { faults self.old ≤ faults self.new };

    /// Cuts a file to a length, where it is longer.
    fn cut(&mut self, file: Which, len: u64) -> Result<(), Failed>
        ensures cut { OnOk result (tells →
            seen self.new ≡ with_part file (take len (part file (seen self.old))) (seen self.old)) }
        ensures partly { tells → InFile file (PartlyCut len) (seen self.old) (seen self.new) }
        ensures images { ComeFrom (InFile file (PartlyCut len))
            (left_since self.old (time self.old)) (left_since self.new (time self.old)) }
        ensures past { Passes (time self.old) (time self.new) (left_since self.old) (left_since self.new) }
        ensures later { OnOk result (tells → time self.old < time self.new) }
        ensures failed { OnErr result (Rose (faults self.old) (faults self.new)) }
        ensures counted { faults self.old ≤ faults self.new };

    /// Makes a file durable: after it a stop leaves of the file what a read gives.
    fn sync(&mut self, file: Which) -> Result<(), Failed>
        ensures durable { OnOk result ((image : Image) → left_since self.new (time self.new) image →
            part file image ≡ part file (seen self.new)) }
        ensures seen { OnOk result (seen self.new ≡ seen self.old) }
        ensures images { (image : Image) → left_since self.new (time self.old) image →
            left_since self.old (time self.old) image }
        ensures past { Passes (time self.old) (time self.new) (left_since self.old) (left_since self.new) }
        ensures later { OnOk result (tells → time self.old < time self.new) }
        ensures failed { OnErr result (Rose (faults self.old) (faults self.new)) }
        ensures counted { faults self.old ≤ faults self.new };

    /// What a stop since a moment might have left, one since an earlier moment might have left.
    ghost earlier: { (disk : Self) → Earlier (left_since disk) };

    /// What a read gives is one of the images that a stop now may leave.
    ghost reads_image: { (disk : Self) → tells → left_since disk (time disk) (seen disk) };

    /// Each file goes its own way.
    ghost apart: { (disk : Self) → Apart (left_since disk (time disk)) };

    /// There are images only where they are told.
    ghost tells_images: { (disk : Self) (t : ℕ) (image : Image) → left_since disk t image → tells };
}
