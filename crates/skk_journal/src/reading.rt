ghost use Rattle.std.specs.Prelude.{◌≡◌, ◌≤◌, ◌<◌, ◌+◌, ◌^◌, ◌++◌, length, take, drop, IfOk, OnErr};
ghost use Rattle.skk_outside.specs.Faults.{Rose};
ghost use Rattle.skk_disk.specs.Image.{part};
ghost use Rattle.skk_disk.specs.Runs.{OnlyReads};

use skk_disk::{Disk, Which};
use skk_outside::Failed;

// Reads what a file has from a place on, as far as `into` has room, and answers how many bytes that are.
pub(crate) fn read_full<D: Disk>(
    disk: &mut D,
    file: Which,
    at: u64,
    into: &mut [u8],
) -> Result<usize, Failed>
    requires { at + length into.old < 2 ^ 64 }
    ensures bound { IfOk result (λ n. n ≤ length into.new) }
    ensures bytes { D.tells → IfOk result (λ n.
        take n into.new ≡ take (length into.new) (drop at (part file (D.seen disk.old)))) }
    ensures only_reads { OnlyReads D.Disk disk.old disk.new }
    ensures failed { OnErr result (Rose (D.faults disk.old) (D.faults disk.new)) }
{
    let mut filled = 0;
    while filled < into.len() {
        let n = read_more(disk, file, at, into, filled)?;
        if n == 0 {
            break;
        }
        filled += n;
    }
    Ok(filled)
}

// Reads on behind the bytes that were read from a place on.
fn read_more<D: Disk>(
    disk: &mut D,
    file: Which,
    at: u64,
    into: &mut [u8],
    filled: usize,
) -> Result<usize, Failed>
    requires room { filled < length into.old }
    requires place { at + length into.old < 2 ^ 64 }
    ensures bound { IfOk result (λ n. filled + n ≤ length into.new) }
    ensures bytes { D.tells → IfOk result (λ n. take (filled + n) into.new
        ≡ take filled into.old ++ take n (drop (at + filled) (part file (D.seen disk.old)))) }
    ensures end { D.tells → IfOk result (λ n. n ≡ 0 → length (part file (D.seen disk.old)) ≤ at + filled) }
    ensures only_reads { OnlyReads D.Disk disk.old disk.new }
    ensures failed { OnErr result (Rose (D.faults disk.old) (D.faults disk.new)) }
{
    disk.read_at(file, at + filled as u64, &mut into[filled..])
}
