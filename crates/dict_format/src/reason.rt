use skk_text::Memory;
use std::alloc::{AllocError, AllocFailed};
use thiserror::Error;

/// Why a line of a dictionary file spells no row. The first that fits is told, in this order.
#[derive(Clone, Copy, Debug, PartialEq, Eq)]
pub enum LineReason {
    /// The line has more than 65,535 bytes.
    LongLine,
    /// The line holds no space.
    NoSpace,
    /// The reading is empty, begins with `;`, or holds a control character.
    BadReading,
    /// The reading has more than 254 bytes, or more than 255 in the okuri-ari part.
    LongReading,
    /// A reading of the okuri-ari part does not end in a letter from `a` to `z` behind something else.
    OkuriKey,
    /// What stands behind the spaces does not begin and end with a slash.
    NoSlash,
    /// A block is not closed.
    Block,
    /// A word has more than 4,095 bytes, with its note where it is a candidate's.
    LongCandidate,
    /// No candidate, no block and no hidden word is left.
    Empty,
    /// An earlier line of the file gave the row of this reading. A line by itself has never this reason.
    Twice,
}

/// Why a line is not read.
#[derive(Clone, Copy, Debug, PartialEq, Eq, Error)]
pub enum LineFault {
    /// The line spells no row.
    #[error("{0:?}")]
    Reason(LineReason),
    /// Out of memory.
    #[error("out of memory")]
    Memory,
}

impl From<LineReason> for LineFault {
    ghost use Rattle.std.specs.Prelude.{◌≡◌};
    ghost use Rattle.dict_format.specs.declared.reason.LineFault.TheVariants as faults;

    ghost from_gives = { λ reason fault. fault ≡ faults.Reason reason };

    fn from(reason: LineReason) -> LineFault {
        LineFault::Reason(reason)
    }
}

impl From<Memory> for LineFault {
    ghost use Rattle.std.specs.Prelude.{◌≡◌};
    ghost use Rattle.dict_format.specs.declared.reason.LineFault.TheVariants as faults;

    ghost from_gives = { λ _ fault. fault ≡ faults.Memory };

    fn from(_memory: Memory) -> LineFault {
        LineFault::Memory
    }
}

impl From<AllocError> for LineFault {
    ghost use Rattle.std.specs.Prelude.{◌≡◌};
    ghost use Rattle.dict_format.specs.declared.reason.LineFault.TheVariants as faults;

    ghost from_gives = { λ _ fault. fault ≡ faults.Memory };

    fn from(_error: AllocError) -> LineFault {
        LineFault::Memory
    }
}

impl<T: Drop> From<AllocFailed<T>> for LineFault {
    ghost use Rattle.std.specs.Prelude.{◌≡◌};
    ghost use Rattle.dict_format.specs.declared.reason.LineFault.TheVariants as faults;

    ghost from_gives = { λ _ fault. fault ≡ faults.Memory };

    fn from(_error: AllocFailed<T>) -> LineFault {
        LineFault::Memory
    }
}
