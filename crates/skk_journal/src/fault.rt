use crate::found::Records;
use skk_outside::Failed;
use thiserror::Error;

/// Why a learned dictionary was not opened. But for `Disk` nothing of its files was changed. `file` is the number of
/// the file that is refused: 0 is the first one, 1 the second one.
#[derive(Debug, Drop, Error)]
pub enum OpenFault {
    /// A call of the disk failed.
    #[error("the disk failed")]
    Disk,
    /// It is no learned file; `first` is its first byte.
    #[error("the first byte of file {file} is {first}")]
    NotJournal {
        file: u8,
        first: u8,
    },
    /// At this place, the least such one, there is neither a good record nor a closed gate; or, at 9, no whole
    /// generation. The version of the file is given, the newest one at 9, and the records before that place.
    #[error("no record at {at} of file {file}")]
    BadRecord {
        file: u8,
        at: u64,
        version: u8,
        before: Records,
    },
    /// Out of memory.
    #[error("out of memory")]
    Memory,
}

impl From<Failed> for OpenFault {
    ghost use Rattle.std.specs.Prelude.{◌≡◌};
    ghost use Rattle.skk_journal.specs.declared.fault.OpenFault.TheVariants as faults;

    ghost from_gives = { λ _ fault. fault ≡ faults.Disk };

    fn from(_failed: Failed) -> OpenFault {
        OpenFault::Disk
    }
}

/// Why a record was not added, or several that were to be added together.
#[derive(Clone, Copy, Debug, PartialEq, Eq, Error)]
pub enum AppendFault {
    /// What was to be added would end behind the limit. The disk was not called.
    #[error("{end} bytes and {need} more pass {limit}")]
    Full { end: u64, need: u64, limit: u64 },
    /// A call of the disk failed.
    #[error("the disk failed")]
    Disk,
}

impl From<Failed> for AppendFault {
    ghost use Rattle.std.specs.Prelude.{◌≡◌};
    ghost use Rattle.skk_journal.specs.declared.fault.AppendFault.TheVariants as faults;

    ghost from_gives = { λ _ fault. fault ≡ faults.Disk };

    fn from(_failed: Failed) -> AppendFault {
        AppendFault::Disk
    }
}
