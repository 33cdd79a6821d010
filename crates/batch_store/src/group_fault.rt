use learn_index::Replies;
use skk_outside::Failed;
use skk_text::Memory;
use thiserror::Error;

/// Why no call of a group was served. The state stays as it was.
#[derive(Clone, Copy, Debug, PartialEq, Eq, Error)]
pub enum GroupFault {
    /// Out of memory. The disk was not called.
    #[error("out of memory")]
    Memory,
    /// No learned file has room for all changes of the group within the limit: with the rows that stand and nothing
    /// else it would end at a byte, and they need more than the limit leaves there. All are bytes.
    #[error("{need} bytes behind {end} pass {limit}")]
    Full { end: u64, need: u64, limit: u64 },
    /// A call of the disk failed. A stop may leave the whole group, until the next one repairs that.
    #[error("a call of the disk failed")]
    Disk,
}

/// What a group of calls is answered: the reply to each, in order, or why none was served.
pub type GroupAnswer = Result<Replies, GroupFault>;

impl From<Memory> for GroupFault {
    ghost use Rattle.std.specs.Prelude.{◌≡◌};
    ghost use Rattle.batch_store.specs.declared.group_fault.GroupFault.TheVariants as faults;

    ghost from_gives = { λ _ fault. fault ≡ faults.Memory };

    fn from(_memory: Memory) -> GroupFault {
        GroupFault::Memory
    }
}

impl From<Failed> for GroupFault {
    ghost use Rattle.std.specs.Prelude.{◌≡◌};
    ghost use Rattle.batch_store.specs.declared.group_fault.GroupFault.TheVariants as faults;

    ghost from_gives = { λ _ fault. fault ≡ faults.Disk };

    fn from(_failed: Failed) -> GroupFault {
        GroupFault::Disk
    }
}
