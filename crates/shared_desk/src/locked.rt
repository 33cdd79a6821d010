ghost use Rattle.std.specs.Prelude.{◌≡◌, true, IfSome};
ghost use Rattle.skk_calls.specs.Dictionary.{is_fit, may_answer};
ghost use Rattle.learn_index.specs.FileRows.{AreFileRows};
ghost use Rattle.shared_desk.specs.Told.{Extends};

use desk_history::{CallerSeat, DeskName, History, Pen};
use learn_index::FileRows;
use learned_store::{LearnedName, Noting};
use skk_calls::{Answer, Call};
use skk_disk::Disk;
use std::alloc::Global;
use std::marker::Model;

// What lies under the lock of a desk: the store with its history, and the pen of the callers' history. Its type keeps
// that they are one history, of the desk that `N` names.
#[derive(Drop)]
pub(crate) struct Locked<D: Disk, N: DeskName + LearnedName> {
    pub(crate) noting: Noting<D, N>,
    pub(crate) pen: Pen,
}

impl<D: Disk, N: DeskName + LearnedName> Model for Locked<D, N> {
    ghost use Rattle.std.specs.Prelude.{◌≡◌, [], None};
    ghost use Rattle.skk_calls.specs.Chronicles.{history_of};
    ghost use Rattle.learned_store.specs.Stands.{NotedStore};

    ghost Value = { NotedStore D };

    ghost view = { λ l. l.noting };

    ghost invariant = { λ l. l.pen ≡ record {
      table = N.table;
      seen = history_of l.noting.notes;
      ended = [];
      roll = None;
    } };
}

impl<D: Disk, N: DeskName + LearnedName> Locked<D, N> {
    // Whether a call is a look-up whose rows in the files are to be found before it is answered, since no answer to it
    // is kept. Takes no memory.
    pub(crate) fn needs_rows(&self, call: &Call) -> bool {
        matches!(call, Call::Lookup { .. }) && !self.noting.store().kept(call)
    }

    // Answers a caller's call as the store does, and enters it. Takes no more memory than the store.
    pub(crate) fn call(
        &mut self,
        alloc: Global,
        history: &History,
        seat: &mut CallerSeat,
        found: Option<FileRows>,
        call: &Call,
    ) -> Answer
        requires fit { is_fit call.now ≡ true }
        requires found { IfSome found (AreFileRows N.opening.files call.now) }
        requires history { history.now ≡ N.table }
        requires seat { seat.old.table ≡ N.table }
        ensures table { seat.new.table ≡ N.table }
        ensures told { Extends N.opening seat.old call.now result seat.new }
        ensures may { may_answer call.now result ≡ true }
    {
        let answer = self.noting.serve_over(alloc, seat.number(), found, call);
        // The store that is read tells that its history is legal.
        let _store = self.noting.store();
        history.enter(&mut self.pen, seat, call, &answer);
        answer
    }
}
