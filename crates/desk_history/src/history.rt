ghost use Rattle.std.specs.Prelude.{◌≡◌, ◌<◌, ◌≤◌, ◌+◌, ℕ, [], ◌∷◌, ◌++◌, None, Some, IfOk};
ghost use mathlib.Core.List.{IsPrefix};
ghost use Rattle.skk_calls.specs.Histories.{dialog};
ghost use Rattle.desk_history.specs.Keeping.{IsFirstTrue, NoneBeyond};
ghost use Rattle.desk_history.specs.Seats.{calls_of, first_number};
ghost use Rattle.desk_history.specs.Steps.{behind_first, with_call};
ghost use Rattle.desk_history.specs.Views.{account};

use crate::rule::OneHistory;
use crate::seats::{CallerSeat, Pen, RollSeat};
use crate::steps::{
    CallEntered, CallerComes, CallerLeaves, HandsOver, NamedEntry, PenLooks, RollDraws, RollLeaves,
    RollReturns,
};
use crate::view::View;
use atomic_table::{Seat, Table};
use skk_calls::{Answer, Call};
use skk_text::Memory;
use std::alloc::Global;
use std::marker::{Brand, Model};

/// A history of calls that many callers share. Contracts see which table it is.
#[derive(Drop)]
pub struct History {
    table: Table<(), View, (), OneHistory, Global>,
}

impl Model for History {
    ghost use Rattle.std.specs.Prelude.{◌≡◌};
    ghost use Rattle.atomic_table.specs.Seated.{TableId};

    ghost Value = { TableId };

    ghost view = { λ history. history.table.shared.table_id };

    ghost invariant = { λ history. history.table.shared.table_id.words ≡ 1 };
}

impl History {
    /// An empty history with its pen, which no caller has ended at, and its roll, of which no number was drawn. Takes
    /// two blocks of memory, of one word and of none, and constant time.
    pub fn new(alloc: Global) -> Result<(History, Pen, RollSeat), Memory>
        ensures pen { IfOk result (λ made. made.1 ≡ record { table = made.0; seen = []; ended = []; roll = None }) }
        ensures roll { IfOk result (λ made. made.2 ≡ record { table = made.0; drawn = 0 }) }
    {
        let (table, mut seat) = Table::of_words(alloc, &[0], &())?;
        let roll = table.shared.split_seat::<RollLeaves>(&mut seat);
        Ok((
            History { table },
            Pen { seat },
            RollSeat {
                seat: roll,
                drawn: 0,
            },
        ))
    }

    /// Draws the next number, for a caller that has seen nothing and made no call. It never answers `Memory`, which
    /// stands there for offices that want some. Takes no memory, and constant time.
    pub fn draw(&self, roll: &mut RollSeat) -> Result<CallerSeat, Memory>
        requires table { roll.old.table ≡ self.now }
        requires room { roll.old.drawn < 4294967295 }
        ensures seat { result ≡ Ok (record { table = self.now; number = roll.old.drawn; seen = []; mine = [] }) }
        ensures roll { roll.new ≡ record roll.old { drawn = roll.old.drawn + 1 } }
    {
        let number = roll.drawn;
        let seat = self.table.shared.split_seat::<RollDraws>(&mut roll.seat);
        roll.drawn += 1;
        Ok(CallerSeat { seat, number })
    }

    /// Enters a caller's call and its answer at the end of the history, which the caller has then seen whole. What it
    /// had seen begins what was there, and the calls of its number there are just its own. Takes no memory, and
    /// constant time.
    pub fn enter(&self, pen: &mut Pen, seat: &mut CallerSeat, call: &Call, answer: &Answer)
        requires pen { pen.old.table ≡ self.now }
        requires seat { seat.old.table ≡ self.now }
        ensures pen { pen.new ≡ record pen.old {
          seen = pen.old.seen ++ record { number = seat.old.number; call = call.now; answer = answer.now } ∷ [];
        } }
        ensures seat { seat.new ≡ record seat.old {
          seen = pen.new.seen;
          mine = seat.old.mine ++ (call.now, answer.now) ∷ [];
        } }
        ensures earlier { IsPrefix seat.old.seen pen.old.seen }
        ensures own { dialog pen.old.seen seat.old.number ≡ seat.old.mine }
    {
        let number = seat.number;
        let coming = CallerSeat {
            seat: self.table.shared.split_seat::<HandsOver>(&mut seat.seat),
            number,
        };
        self.take_in(pen, coming);
        self.look(pen);
        self.enter_first::<Brand>(pen, number, call, answer);
        *seat = self.lead_out(pen, number);
    }

    /// Ends a caller, whose account the pen keeps. What it had seen begins the history, and the calls of its number
    /// there are just its own. Takes no memory, and constant time.
    pub fn end(&self, pen: &mut Pen, seat: CallerSeat)
        requires pen { pen.old.table ≡ self.now }
        requires seat { seat.table ≡ self.now }
        ensures pen { pen.new ≡ record pen.old {
          ended = record { number = seat.number; seen = seat.seen; mine = seat.mine } ∷ pen.old.ended;
        } }
        ensures earlier { IsPrefix seat.seen pen.old.seen }
        ensures own { dialog pen.old.seen seat.number ≡ seat.mine }
    {
        self.take_in(pen, seat);
        self.look(pen);
    }

    /// Gives the roll back to the pen. No entry has a number that was not drawn. Takes no memory, and constant time.
    pub fn end_roll(&self, pen: &mut Pen, roll: RollSeat)
        requires pen { pen.old.table ≡ self.now }
        requires roll { roll.table ≡ self.now }
        ensures pen { pen.new ≡ record pen.old { roll = Some roll.drawn } }
        ensures strangers { (number : ℕ) → roll.drawn ≤ number → dialog pen.old.seen number ≡ [] }
    {
        self.take_back(pen, roll);
        self.look(pen);
    }

    // A caller comes: its account stands first at the pen.
    fn take_in(&self, pen: &mut Pen, seat: CallerSeat)
        requires pen { pen.old.table ≡ self.now }
        requires seat { seat.table ≡ self.now }
        ensures { pen.new ≡ record pen.old { ended = account seat.number seat.seen seat.mine ∷ pen.old.ended } }
    {
        let CallerSeat { seat, number: _ } = seat;
        self.table
            .shared
            .join_seat::<CallerComes>(&mut pen.seat, seat);
    }

    // What the rule says of the pen.
    fn look(&self, pen: &mut Pen)
        requires { pen.old.table ≡ self.now }
        ensures same { pen.new ≡ pen.old }
        ensures first { IsFirstTrue pen.old.seen pen.old.ended }
        ensures strangers { NoneBeyond pen.old.seen pen.old.roll }
    {
        self.table.shared.load::<PenLooks>(&mut pen.seat, 0);
    }

    // The one step that makes an entry: a call of the caller of a number, whose account stands first. `N` names it for
    // the proof.
    fn enter_first<N: NamedEntry>(&self, pen: &mut Pen, number: u32, call: &Call, answer: &Answer)
        requires named { N.entry ≡ record { number = number; call = call.now; answer = answer.now } }
        requires pen { pen.old.table ≡ self.now }
        requires first { first_number pen.old.ended ≡ Some number }
        ensures { pen.new ≡ record pen.old {
          seen = pen.old.seen ++ record { number = number; call = call.now; answer = answer.now } ∷ [];
          ended = with_call (record { number = number; call = call.now; answer = answer.now }) pen.old.ended;
        } }
    {
        let _ = number;
        let _ = call;
        let _ = answer;
        self.table
            .shared
            .fetch_add::<CallEntered<N>>(&mut pen.seat, 0, 1);
    }

    // The caller of a number leaves, whose account stands first, and has seen the whole history.
    fn lead_out(&self, pen: &mut Pen, number: u32) -> CallerSeat
        requires pen { pen.old.table ≡ self.now }
        requires first { first_number pen.old.ended ≡ Some number }
        ensures pen { pen.new ≡ record pen.old { ended = behind_first pen.old.ended } }
        ensures seat { result ≡ record {
          table = self.now;
          number = number;
          seen = pen.old.seen;
          mine = calls_of pen.old.ended;
        } }
    {
        let seat = self.table.shared.split_seat::<CallerLeaves>(&mut pen.seat);
        CallerSeat { seat, number }
    }

    // The roll returns to the pen.
    fn take_back(&self, pen: &mut Pen, roll: RollSeat)
        requires pen { pen.old.table ≡ self.now }
        requires roll { roll.table ≡ self.now }
        ensures { pen.new ≡ record pen.old { roll = Some roll.drawn } }
    {
        let RollSeat { seat, drawn: _ } = roll;
        self.table
            .shared
            .join_seat::<RollReturns>(&mut pen.seat, seat);
    }
}
