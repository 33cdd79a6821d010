ghost use Rattle.std.specs.Prelude.{◌≡◌, ◌≢◌, ◌≤◌, ◌<◌, ◌^◌, ℕ, Option, List, ◌++◌, length, IfOk, OnErr, IfSome};
ghost use Rattle.std.specs.Prelude.{IsErrOf};
ghost use Rattle.std.specs.Io.{ReadsAtMost};
ghost use Rattle.skk_outside.specs.Faults.{Rose};
ghost use Rattle.skk_outside.specs.Shelves.{StandsAt, EndsBy, ReadsFrom};

use crate::outside::Failed;
use crate::source::{ReadFault, empty_piece};
use skk_text::{Bytes, Text};
use std::alloc::Global;

/// Named files, each of which is read from any place.
pub trait Shelf {
    /// How many of its calls failed, up to 2^64 - 1. It never falls.
    ghost faults: { Self → ℕ };

    /// The bytes of each named file, where the shelf tells them.
    ghost file: { Self → List ℕ → Option (List ℕ) };

    /// Reads bytes of a named file from a place on into the head of `into`, and answers how many: 0
    /// only where the file ends at that place or before it, or where `into` has no room. A file that
    /// is absent or can't be read is a fault.
    fn read(&mut self, name: &Text, from: u64, into: &mut [u8]) -> Result<usize, Failed>
        ensures bound { ReadsAtMost result into.new }
        ensures bytes { ReadsFrom (file self.old name.now) from result into.new }
        ensures kept { file self.new ≡ file self.old }
        ensures failed { OnErr result (Rose (faults self.old) (faults self.new)) }
        ensures counted { faults self.old ≤ faults self.new };
}

/// Reads a whole named file, `PIECE` bytes at a time, if it has at most `limit` bytes. Of a longer
/// one no more than `limit + PIECE` bytes are read.
pub fn read_named_file<H: Shelf>(
    alloc: Global,
    shelf: &mut H,
    name: &Text,
    limit: usize,
) -> Result<Bytes, ReadFault>
    requires { limit < 2 ^ 62 }
    ensures whole { IfOk result (λ bytes. IfSome (H.file shelf.old name.now) (λ file. bytes ≡ file)) }
    ensures fits { IfOk result (λ bytes. length bytes ≤ limit) }
    ensures too_long { IsErrOf result ReadFault.TooLong
        → IfSome (H.file shelf.old name.now) (λ file. limit < length file) }
    ensures failed { IsErrOf result ReadFault.Failed → Rose (H.faults shelf.old) (H.faults shelf.new) }
    ensures counted { H.faults shelf.old ≤ H.faults shelf.new }
    ensures kept { H.file shelf.new ≡ H.file shelf.old }
{
    let mut piece = empty_piece(alloc)?;
    let mut bytes = Vec::new(alloc);
    for _ in 0..=limit {
        if read_next_piece(shelf, name, &mut piece, &mut bytes)? == 0 {
            return Ok(Bytes::of(bytes));
        }
        if bytes.len() > limit {
            return Err(ReadFault::TooLong);
        }
    }
    unreachable!()
}

// Reads the bytes of a file that come behind those read so far, and adds them at the end of these: 0
// only at the end of the file.
fn read_next_piece<H: Shelf>(
    shelf: &mut H,
    name: &Text,
    piece: &mut [u8],
    bytes: &mut Vec<u8>,
) -> Result<usize, ReadFault>
    requires { 0 < length piece.old }
    ensures ok { IfOk result (λ n. (added : List ℕ) × (length added ≡ n) × (n ≤ length piece.old)
        × (bytes.new.items ≡ bytes.old.items ++ added)
        × StandsAt (H.file shelf.old name.now) (length bytes.old.items) added) }
    ensures end { IfOk result (λ n. n ≡ 0 → EndsBy (H.file shelf.old name.now) (length bytes.old.items)) }
    ensures kept { H.file shelf.new ≡ H.file shelf.old }
    ensures not_too_long { result ≢ Err ReadFault.TooLong }
    ensures failed { IsErrOf result ReadFault.Failed → Rose (H.faults shelf.old) (H.faults shelf.new) }
    ensures counted { H.faults shelf.old ≤ H.faults shelf.new }
{
    let n = shelf.read(name, bytes.len() as u64, piece)?;
    bytes.extend_from_slice(&piece[..n])?;
    Ok(n)
}
