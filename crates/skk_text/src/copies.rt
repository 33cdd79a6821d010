ghost use Rattle.std.specs.Prelude.{◌≡◌, IfOk};
ghost use Rattle.std.specs.Option.{option_copied};

use crate::memory::Memory;
use std::alloc::Global;

/// Values of which equal ones are made.
pub trait Copies: Drop {
    /// An equal value. Takes time in what the value holds.
    fn copy(&self, alloc: Global) -> Result<Self, Memory>
        ensures { IfOk result (λ copy. copy ≡ self.now) };
}

/// A copy of what may not be there. Takes time in what it holds.
pub fn copy_of<T: Copies>(alloc: Global, item: Option<&T>) -> Result<Option<T>, Memory>
    ensures { IfOk result (λ copy. copy ≡ option_copied item.entry) }
{
    match item {
        Some(item) => Ok(Some(item.copy(alloc)?)),
        None => Ok(None),
    }
}
