use crate::caller::{Caller, Kept};
use skk_text::Memory;
use std::alloc::Global;

/// Where callers are admitted.
pub trait Office {
    ghost use Rattle.std.specs.Prelude.{◌≡◌, ◌<◌, ◌+◌, ℕ, [], IfOk, OnOk, OnErr};

    /// Counts the callers that were admitted.
    type Roll;

    /// A caller that was admitted.
    type Pass: Caller;

    /// What is left of it.
    type Slip: Kept;

    /// The roll is this office's.
    ghost owns: { Self → Self.Roll → Type 0 };

    /// How many callers the roll has counted.
    ghost drawn: { Self.Roll → ℕ };

    /// How many callers the roll has counted.
    fn drawn(&self, roll: &Self::Roll) -> u32
        ensures { result ≡ drawn roll.now };

    /// Admits a caller, whose number is the roll's count so far. After `Memory` the count is as before.
    fn admit(&self, alloc: Global, roll: &mut Self::Roll) -> Result<Self::Pass, Memory>
        requires owns { owns self.now roll.old }
        requires room { drawn roll.old < 4294967295 }
        ensures number { IfOk result (λ pass. Self.Pass.number pass ≡ drawn roll.old) }
        ensures said { IfOk result (λ pass. Self.Pass.said pass ≡ []) }
        ensures drawn { OnOk result (drawn roll.new ≡ drawn roll.old + 1) }
        ensures err { OnErr result (drawn roll.new ≡ drawn roll.old) }
        ensures owned { owns self.now roll.new };

    /// Ends the use of a pass.
    fn rest(&self, pass: Self::Pass) -> Self::Slip
        ensures number { Self.Slip.number result ≡ Self.Pass.number pass }
        ensures said { Self.Slip.said result ≡ Self.Pass.said pass };
}
