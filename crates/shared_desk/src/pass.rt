ghost use Rattle.std.specs.Prelude.{◌≡◌, ◌++◌, ◌∷◌, [], true};
ghost use Rattle.skk_calls.specs.Dictionary.{is_fit, may_answer};
ghost use Rattle.shared_desk.specs.Told.{Extends};

use crate::desk::Desk;
use desk_history::{CallerSeat, DeskName};
use learn_index::file_rows;
use learned_store::LearnedName;
use skk_calls::{Answer, Call, Caller, Kept};
use skk_disk::Disk;
use skk_text::Sequence;
use std::alloc::Global;
use std::marker::{Model, PhantomData};
use std::sync::Wait;

/// A caller of a desk. Contracts see its number, the history as far as it has seen it, and its own calls.
#[derive(Drop)]
pub struct Pass<'a, D: Disk, N: DeskName + LearnedName, R: Wait + Copy> {
    pub(crate) desk: &'a Desk<D, N, R>,
    pub(crate) seat: CallerSeat,
}

impl<'a, D: Disk, N: DeskName + LearnedName, R: Wait + Copy> Model for Pass<'a, D, N, R> {
    ghost use Rattle.std.specs.Prelude.{◌≡◌};
    ghost use Rattle.desk_history.specs.Seats.{CallerState};

    ghost Value = { CallerState };

    ghost view = { λ pass. pass.seat };

    ghost invariant = { λ pass. pass.seat.table ≡ N.table };
}

impl<D: Disk, N: DeskName + LearnedName, R: Wait + Copy> Caller for Pass<'_, D, N, R> {
    ghost number = { λ pass. pass.number };

    ghost said = { λ pass. pass.mine };

    fn number(&self) -> u32 {
        self.seat.number()
    }

    /// Waits for the desk's lock, at first without sleeping, and holds it for this call alone. Where no answer to a
    /// look-up is kept, the lock is let go while the system files are searched. Takes no more memory than the store.
    fn call(&mut self, alloc: Global, call: &Call) -> Answer
        requires { is_fit call.now ≡ true }
        ensures said { self.new.mine ≡ self.old.mine ++ (call.now, result) ∷ [] }
        ensures number { self.new.number ≡ self.old.number }
        ensures may { may_answer call.now result ≡ true }
        ensures told { Extends N.opening self.old call.now result self.new }
    {
        let mut locked = self.desk.lock();
        if !locked.needs_rows(call) {
            return locked.call(alloc, &self.desk.history, &mut self.seat, None, call);
        }
        drop(locked);
        let found = file_rows(alloc, &self.desk.system, call);
        let mut locked = self.desk.lock();
        locked.call(alloc, &self.desk.history, &mut self.seat, Some(found), call)
    }
}

/// What is left of a pass that calls no more. Contracts see what they saw of the pass.
#[derive(Drop)]
pub struct Slip<N: DeskName> {
    pub(crate) seat: CallerSeat,
    pub(crate) desk: PhantomData<N>,
}

impl<N: DeskName> Model for Slip<N> {
    ghost use Rattle.std.specs.Prelude.{◌≡◌};
    ghost use Rattle.desk_history.specs.Seats.{CallerState};

    ghost Value = { CallerState };

    ghost view = { λ slip. slip.seat };

    ghost invariant = { λ slip. slip.seat.table ≡ N.table };
}

impl<N: DeskName> Kept for Slip<N> {
    ghost number = { λ slip. slip.number };

    ghost said = { λ slip. slip.mine };
}

/// Slips in order.
pub type Slips<N> = Sequence<Slip<N>>;
