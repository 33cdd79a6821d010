use desk_history::{DeskName, RollSeat};
use std::marker::{Model, PhantomData};

/// Counts the callers that a desk has admitted. Contracts see how many there are.
#[derive(Drop)]
pub struct Roll<N: DeskName> {
    pub(crate) seat: RollSeat,
    pub(crate) desk: PhantomData<N>,
}

impl<N: DeskName> Model for Roll<N> {
    ghost use Rattle.std.specs.Prelude.{◌≡◌, ℕ};

    ghost Value = { ℕ };

    ghost view = { λ roll. roll.seat.drawn };

    ghost invariant = { λ roll. roll.seat.table ≡ N.table };
}
