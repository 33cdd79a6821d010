use crate::which::Which;
use skk_text::Bytes;

/// A call on a disk in memory: a write, a cut or a sync that was made, or a write or a cut that failed, of which
/// a stop may leave any part.
#[derive(Debug, Drop)]
pub enum MadeCall {
    /// A write of bytes at a place.
    Write { file: Which, at: u64, bytes: Bytes },
    /// A write of so many bytes at a place that failed. They are not kept, since a stop may leave any bytes in
    /// their range.
    TornWrite { file: Which, at: u64, count: u64 },
    /// A cut to a length.
    Cut { file: Which, len: u64 },
    /// A cut to a length that failed.
    TornCut { file: Which, len: u64 },
    /// A sync.
    Sync { file: Which },
}
