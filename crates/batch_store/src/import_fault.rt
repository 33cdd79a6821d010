use crate::group_fault::GroupFault;
use skk_text::Memory;
use thiserror::Error;

/// Why an import ended before its end. What was learnt before that stays.
#[derive(Clone, Copy, Debug, PartialEq, Eq, Error)]
pub enum ImportFault {
    /// The book has no stamp left for each candidate, and a group's more. Nothing was learnt.
    #[error("the stamps of the book end")]
    StampsEnd,
    /// A group of learnings was refused, the first one that was.
    #[error("{0}")]
    Refused(GroupFault),
}

impl From<Memory> for ImportFault {
    ghost use Rattle.std.specs.Prelude.{◌≡◌};
    ghost use Rattle.batch_store.specs.declared.group_fault.GroupFault.TheVariants as faults;
    ghost use Rattle.batch_store.specs.declared.import_fault.ImportFault.TheVariants.{Refused};

    ghost from_gives = { λ _ fault. fault ≡ Refused faults.Memory };

    fn from(_memory: Memory) -> ImportFault {
        ImportFault::Refused(GroupFault::Memory)
    }
}

impl From<GroupFault> for ImportFault {
    ghost use Rattle.std.specs.Prelude.{◌≡◌};
    ghost use Rattle.batch_store.specs.declared.import_fault.ImportFault.TheVariants.{Refused};

    ghost from_gives = { λ group fault. fault ≡ Refused group };

    fn from(fault: GroupFault) -> ImportFault {
        ImportFault::Refused(fault)
    }
}
