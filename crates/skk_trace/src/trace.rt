ghost use Rattle.std.specs.Prelude.{◌≡◌, [], ◌∷◌, ◌++◌, IfOk};

use crate::counting::{Adds, Counting, StepNotes};
use crate::shows::Shows;
use atomic_table::{Seat, Table};
use std::alloc::{AllocError, Global};
use std::collections::LinkedList;
use std::marker::{Brand, Model};

/// What was shown, in order. Contracts see it as a list, of which the program keeps the number of
/// entries alone, modulo 2^64.
#[derive(Drop)]
pub struct Trace<E> {
    table: Table<(), LinkedList<E>, (), Counting, Global>,
    seat: Seat<(), LinkedList<E>>,
}

impl<E> Model for Trace<E> {
    ghost use Rattle.std.specs.Prelude.{◌≡◌, List};

    ghost Value = { List E };

    ghost view = { λ trace. trace.seat.me.0 };

    ghost invariant = { λ trace. (trace.seat.table_id ≡ trace.table.shared.table_id)
        × (trace.table.shared.table_id.words ≡ 1) };
}

impl<E> Trace<E> {
    /// A trace that begins with what `first` shows. `AllocError` says that it is out of memory, and
    /// nothing is left of the trace then. Takes two blocks of memory, of one word and of none, and
    /// constant time.
    pub fn new<X: Shows<E>>(alloc: Global, first: &X) -> Result<Trace<E>, AllocError>
        ensures { IfOk result (λ trace. trace ≡ X.shows first.now ∷ []) }
    {
        let mut trace = Trace::empty(alloc)?;
        trace.note(first);
        Ok(trace)
    }

    /// Adds what `x` shows at the end. Takes no memory, can't fail, and is one step of constant time.
    pub fn note<X: Shows<E>>(&mut self, x: &X)
        ensures { self.new ≡ self.old ++ X.shows x.now ∷ [] }
    {
        self.add::<X, Brand>(x);
    }

    fn empty(alloc: Global) -> Result<Trace<E>, AllocError>
        ensures { IfOk result (λ trace. trace ≡ []) }
    {
        let (table, seat) = Table::of_words(alloc, &[0], &())?;
        Ok(Trace { table, seat })
    }

    // The step of a note, whose entry `N` names for the proof.
    fn add<X: Shows<E>, N: StepNotes<E>>(&mut self, x: &X)
        requires { N.entries ≡ X.shows x.now ∷ [] }
        ensures { self.new ≡ self.old ++ X.shows x.now ∷ [] }
    {
        let _ = x;
        let table = &self.table;
        table.shared.fetch_add::<Adds<N>>(&mut self.seat, 0, 1);
    }
}
