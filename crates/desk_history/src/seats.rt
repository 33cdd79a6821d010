use crate::view::View;
use atomic_table::Seat;
use std::marker::Model;

/// The pen of a history, which knows it whole. There is one: whoever has it enters calls.
#[derive(Drop)]
pub struct Pen {
    pub(crate) seat: Seat<(), View>,
}

impl Model for Pen {
    ghost use Rattle.std.specs.Prelude.{◌≡◌, []};
    ghost use Rattle.desk_history.specs.Seats.{PenState};

    ghost Value = { PenState };

    ghost view = { λ pen. record {
      table = pen.seat.table_id;
      seen = pen.seat.me.0.seen;
      ended = pen.seat.me.0.accounts;
      roll = pen.seat.me.0.roll;
    } };

    ghost invariant = { λ pen. (pen.seat.id ≡ 0) × (pen.seat.me.1 ≡ []) };
}

/// What a caller knows of a history: its own number and calls, and a beginning of the history, up to its last call.
/// Nobody else has its number.
#[derive(Drop)]
pub struct CallerSeat {
    pub(crate) seat: Seat<(), View>,
    pub(crate) number: u32,
}

impl Model for CallerSeat {
    ghost use Rattle.std.specs.Prelude.{◌≡◌, []};
    ghost use Rattle.desk_history.specs.Seats.{CallerState, seen_by, calls_of};
    ghost use Rattle.desk_history.specs.Views.{account, caller_view};

    ghost Value = { CallerState };

    ghost view = { λ seat. record {
      table = seat.seat.table_id;
      number = seat.number;
      seen = seen_by seat.seat.me.0.accounts;
      mine = calls_of seat.seat.me.0.accounts;
    } };

    ghost invariant = { λ seat. seat.seat.me ≡ (
      caller_view
          (account seat.number (seen_by seat.seat.me.0.accounts) (calls_of seat.seat.me.0.accounts)),
      [],
    ) };
}

impl CallerSeat {
    ghost use Rattle.std.specs.Prelude.{◌≡◌};

    /// The caller's number.
    pub fn number(&self) -> u32
        ensures { result ≡ self.now.number }
    {
        self.number
    }
}

/// Counts the numbers that were drawn for callers. There is one to a history.
#[derive(Drop)]
pub struct RollSeat {
    pub(crate) seat: Seat<(), View>,
    pub(crate) drawn: u32,
}

impl Model for RollSeat {
    ghost use Rattle.std.specs.Prelude.{◌≡◌, []};
    ghost use Rattle.desk_history.specs.Seats.{RollState};
    ghost use Rattle.desk_history.specs.Views.{roll_view};

    ghost Value = { RollState };

    ghost view = { λ roll. record { table = roll.seat.table_id; drawn = roll.drawn } };

    ghost invariant = { λ roll. roll.seat.me ≡ (roll_view roll.drawn, []) };
}

impl RollSeat {
    ghost use Rattle.std.specs.Prelude.{◌≡◌};

    /// How many numbers were drawn.
    pub fn drawn(&self) -> u32
        ensures { result ≡ self.now.drawn }
    {
        self.drawn
    }
}
