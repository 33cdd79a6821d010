use skk_calls::Caller;
use std::alloc::Global;

/// Something that is done with a caller, whoever that is, and with something of the outside.
pub trait Work<O> {
    ghost use Rattle.skk_calls.specs.Interactions.{Dialog};

    /// What it leaves beside.
    type Left;

    /// What it needs.
    ghost fits: { Self → Type 0 };

    /// What it leaves: of the outside, of what the caller has said, and beside.
    ghost leaves: { Self → O → O → Dialog → Dialog → Self.Left → Type 0 };

    /// Does it.
    fn work<C: Caller>(self, alloc: Global, caller: &mut C, outside: &mut O) -> Self::Left
        requires { fits self }
        ensures { leaves self outside.old outside.new (C.said caller.old) (C.said caller.new) result };
}
