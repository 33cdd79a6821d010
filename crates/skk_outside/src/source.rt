ghost use Rattle.std.specs.Prelude.{◌≡◌, ◌≢◌, ◌≤◌, ◌<◌, ◌+◌, ◌^◌, ℕ, Option, List, [], ◌++◌, length, IfOk, OnOk, OnErr};
ghost use Rattle.std.specs.Prelude.{IfSome, IsErrOf, vec_len};
ghost use Rattle.std.specs.Io.{ReadsAtMost};
ghost use Rattle.std.specs.Io.KnownBytes.{ReadConsumes, IsAtEnd, Consumes};
ghost use Rattle.skk_outside.specs.Faults.{Rose};
ghost use Rattle.skk_outside.specs.Taken.{TakesAtMost};

use crate::outside::{Failed, Outside};
use skk_text::Bytes;
use std::alloc::{AllocError, Global};
use thiserror::Error;

/// Where bytes come from.
pub trait Source: Outside {
    /// Reads the next bytes into the head of `into`, and answers how many: 0 only at the end of the
    /// input, or where `into` has no room. A read that fails takes none, and may be tried again.
    fn read(&mut self, into: &mut [u8]) -> Result<usize, Failed>
        ensures bound { ReadsAtMost result into.new }
        ensures bytes { ReadConsumes (Self.left self.old) (Self.left self.new) result into.new }
        ensures written { Self.written self.new ≡ Self.written self.old }
        ensures failed { OnErr result (Rose (Self.faults self.old) (Self.faults self.new)) }
        ensures counted { Self.faults self.old ≤ Self.faults self.new };
}

/// How many bytes `read_to_end` reads at once.
pub const PIECE: usize = 65536;

/// Why a source, or a file, was not read to its end.
#[derive(Clone, Copy, Debug, PartialEq, Eq, Error)]
pub enum ReadFault {
    /// It has more bytes than the limit.
    #[error("too long")]
    TooLong,
    /// A read failed.
    #[error("a read failed")]
    Failed,
    /// Out of memory.
    #[error("out of memory")]
    Memory,
}

impl From<Failed> for ReadFault {
    ghost use Rattle.std.specs.Prelude.{◌≡◌};
    ghost use Rattle.skk_outside.specs.declared.source.ReadFault.TheVariants as faults;

    ghost from_gives = { λ _ fault. fault ≡ faults.Failed };

    fn from(_failed: Failed) -> ReadFault {
        ReadFault::Failed
    }
}

impl From<AllocError> for ReadFault {
    ghost use Rattle.std.specs.Prelude.{◌≡◌};
    ghost use Rattle.skk_outside.specs.declared.source.ReadFault.TheVariants as faults;

    ghost from_gives = { λ _ fault. fault ≡ faults.Memory };

    fn from(_error: AllocError) -> ReadFault {
        ReadFault::Memory
    }
}

/// Reads all that a source has, `PIECE` bytes at a time, if that is at most `limit` bytes. What was
/// read before a fault is gone from the source: no more than `limit + PIECE` bytes.
pub fn read_to_end<S: Source>(
    alloc: Global,
    source: &mut S,
    limit: usize,
) -> Result<Bytes, ReadFault>
    requires { limit < 2 ^ 62 }
    ensures whole { IfOk result (λ bytes. IfSome (S.left source.old) (λ left. bytes ≡ left)) }
    ensures fits { IfOk result (λ bytes. length bytes ≤ limit) }
    ensures ended { OnOk result (IsAtEnd (S.left source.new)) }
    ensures too_long { IsErrOf result ReadFault.TooLong → IfSome (S.left source.old) (λ left. limit < length left) }
    ensures failed { IsErrOf result ReadFault.Failed → Rose (S.faults source.old) (S.faults source.new) }
    ensures counted { S.faults source.old ≤ S.faults source.new }
    ensures taken { TakesAtMost (S.left source.old) (S.left source.new) (limit + PIECE) }
{
    let mut piece = empty_piece(alloc)?;
    let mut bytes = Vec::new(alloc);
    for _ in 0..=limit {
        if read_piece(source, &mut piece, &mut bytes)? == 0 {
            return Ok(Bytes::of(bytes));
        }
        if bytes.len() > limit {
            return Err(ReadFault::TooLong);
        }
    }
    unreachable!()
}

// Room for one piece.
pub(crate) fn empty_piece(alloc: Global) -> Result<Vec<u8>, AllocError>
    ensures { IfOk result (λ piece. vec_len piece ≡ PIECE) }
{
    vec![in alloc; 0; PIECE]
}

// Reads the next bytes and adds them at the end of `bytes`: 0 only at the end of the input.
fn read_piece<S: Source>(
    source: &mut S,
    piece: &mut [u8],
    bytes: &mut Vec<u8>,
) -> Result<usize, ReadFault>
    requires { 0 < length piece.old }
    ensures ok { IfOk result (λ n. (taken : List ℕ) × (length taken ≡ n) × (n ≤ length piece.old)
        × (bytes.new.items ≡ bytes.old.items ++ taken) × Consumes (S.left source.old) (S.left source.new) taken) }
    ensures end { IfOk result (λ n. n ≡ 0 → IsAtEnd (S.left source.new)) }
    ensures err { OnErr result (TakesAtMost (S.left source.old) (S.left source.new) (length piece.old)) }
    ensures not_too_long { result ≢ Err ReadFault.TooLong }
    ensures failed { IsErrOf result ReadFault.Failed → Rose (S.faults source.old) (S.faults source.new) }
    ensures counted { S.faults source.old ≤ S.faults source.new }
{
    let n = source.read(piece)?;
    bytes.extend_from_slice(&piece[..n])?;
    Ok(n)
}
