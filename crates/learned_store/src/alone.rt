ghost use Rattle.std.specs.Prelude.{◌≡◌, ◌≤◌, ◌∷◌, [], ℕ, None, true, IfOk, IfErr};
ghost use Rattle.skk_disk.specs.Image.{Image};
ghost use Rattle.skk_disk.specs.Moments.{SameImages};
ghost use Rattle.skk_calls.specs.Chronicles.{history_of};
ghost use Rattle.skk_calls.specs.Openings.{are_of_one};
ghost use Rattle.skk_calls.specs.Tallies.{tally_of};
ghost use Rattle.learned_store.specs.Stores.{opening_now, Keeps, Recovers};
ghost use Rattle.learned_store.specs.Stands.{Stands, StandsOver, RecoverAmong, left_behind, opening_note};

use crate::closed::Closed;
use crate::learned_name::LearnedName;
use crate::noting::{NoDesk, Noting};
use crate::store::Store;
use skk_calls::{Answer, Call, Caller};
use skk_disk::Disk;
use std::alloc::Global;
use std::marker::Model;

/// The one caller of a store, whose number is 0, with no lock. What it says is the whole history.
#[derive(Drop)]
pub struct Alone<D: Disk, N: LearnedName> {
    noting: Noting<D, N>,
}

impl<D: Disk, N: LearnedName> Model for Alone<D, N> {
    ghost use Rattle.std.specs.Prelude.{◌≡◌, true};
    ghost use Rattle.skk_calls.specs.Openings.{are_of_one};
    ghost use Rattle.learned_store.specs.Stands.{NotedStore};

    ghost Value = { NotedStore D };

    ghost view = { λ a. a.noting };

    ghost invariant = { λ a. are_of_one a.noting.notes ≡ true };
}

impl<D: Disk, N: LearnedName> Alone<D, N> {
    /// The caller of a store in which nothing is in doubt, which has made no call. Takes constant memory.
    pub fn new(alloc: Global, store: Store<D>) -> Result<Alone<D, N>, NoDesk<D>>
        requires calm { Keeps D.Disk store.journal store.state None }
        requires named { N.opening ≡ opening_now D.Disk store }
        requires past { SameImages N.past (D.left_since store.journal.disk) }
        ensures store { IfOk result (λ alone. alone.store ≡ store) }
        ensures notes { IfOk result (λ alone. alone.notes ≡ opening_note N.opening ∷ []) }
        ensures back { IfErr result (λ none. none.store ≡ store) }
    {
        let noting = Noting::new(alloc, store)?;
        Ok(Alone { noting })
    }

    /// Ends the history, and gives the disk back as it is. Takes no memory.
    pub fn close(self) -> Closed<D>
        ensures disk { result.disk ≡ self.store.journal.disk }
        ensures chronicle { result.chronicle ≡ self.notes }
        ensures tally { result.tally ≡ tally_of N.opening.state (history_of self.notes) }
        ensures stands { Stands D.Disk N.opening N.past self.notes self.store }
        ensures now { RecoverAmong self.store.state (left_behind N.opening.state self.notes)
            (D.left_since self.store.journal.disk (D.time self.store.journal.disk)) }
        ensures since { (start : ℕ) →
            ((time : ℕ) (image : Image) → start ≤ time → time ≤ N.opening.time → N.past time image
            → Recovers N.opening.state image) →
            StandsOver N.opening.state self.notes start (D.time self.store.journal.disk)
            (D.left_since self.store.journal.disk) }
        ensures one { are_of_one self.notes ≡ true }
    {
        self.noting.close()
    }
}

impl<D: Disk, N: LearnedName> Caller for Alone<D, N> {
    ghost use Rattle.skk_calls.specs.Openings.{said_in};

    ghost number = { λ _. 0 };

    ghost said = { λ alone. said_in alone.notes 0 };

    fn number(&self) -> u32 {
        0
    }

    fn call(&mut self, alloc: Global, call: &Call) -> Answer {
        self.noting.serve(alloc, 0, call)
    }
}
