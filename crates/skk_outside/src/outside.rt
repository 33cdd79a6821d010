ghost use Rattle.std.specs.Prelude.{ℕ, Bool, false, List, Option, None};

use thiserror::Error;

/// A call on something outside the program failed. The count of faults of that thing rose.
#[derive(Clone, Copy, Debug, PartialEq, Eq, Error)]
#[error("the outside failed")]
pub struct Failed;

/// Something outside the program, whose calls may fail.
pub trait Outside {
    /// How many of its calls failed, up to 2^64 - 1. It never falls.
    ghost faults: { Self → ℕ };

    /// The bytes that are still to come from it, where it is a source and tells them.
    ghost left: { Self → Option (List ℕ) } = { λ _. None };

    /// The bytes that were written to it, where it is a sink and tells them.
    ghost written: { Self → Option (List ℕ) } = { λ _. None };

    /// It was closed, where it is a link.
    ghost closed: { Self → Bool } = { λ _. false };
}
