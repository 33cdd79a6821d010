ghost use Rattle.std.specs.Prelude.{◌≡◌, ◌⊎◌, ◌≤◌, ◌+◌, ◌∷◌, [], ◌++◌, ℕ, None, true, IfOk, IfErr, IfSome};
ghost use Rattle.skk_disk.specs.Image.{Image};
ghost use Rattle.skk_disk.specs.Moments.{SameImages};
ghost use Rattle.skk_disk.specs.Runs.{Advances};
ghost use Rattle.skk_calls.specs.declared.answer.Refusal.TheVariants as refusals;
ghost use Rattle.skk_calls.specs.declared.chronicle.Noted.TheVariants.{Entered};
ghost use Rattle.skk_calls.specs.Chronicles.{history_of};
ghost use Rattle.skk_calls.specs.Dictionary.{is_fit, may_answer};
ghost use Rattle.skk_calls.specs.Histories.{need, tells_change, tight};
ghost use Rattle.skk_calls.specs.Tallies.{tally_of};
ghost use Rattle.skk_journal.specs.Journal.{is_in_doubt};
ghost use Rattle.learn_index.specs.FileRows.{AreFileRows};
ghost use Rattle.learned_store.specs.Stores.{opening_now, Keeps, Recovers};
ghost use Rattle.learned_store.specs.Stands.{Stands, StandsOver, RecoverAmong, NotesCall, left_behind, opening_note};

use crate::closed::Closed;
use crate::learned_name::LearnedName;
use crate::store::Store;
use dict_laws::counting_comes_to_the_tally;
use learn_index::FileRows;
use skk_calls::{Answer, Call, Chronicle, Noted, Tally};
use skk_disk::Disk;
use skk_trace::{Shows, Trace};
use std::alloc::Global;
use std::marker::{Model, PhantomData};

/// A store of which no history could be begun: it is out of memory.
#[derive(Drop)]
pub struct NoDesk<D> {
    pub store: Store<D>,
}

/// A store and the history of what it answers. `N` names what it was opened with. Its type keeps what the history and
/// the disk stand for: each answer is legal at its place, and had room in the learned file, as far as it tells of that;
/// and at each moment since the opening what a stop might have left is opened as a state that a part of the history may
/// leave, which has each entry that was made by then.
#[derive(Drop)]
pub struct Noting<D: Disk, N: LearnedName> {
    store: Store<D>,
    trace: Trace<Noted>,
    tally: Tally,
    opening: PhantomData<N>,
}

impl<D: Disk, N: LearnedName> Model for Noting<D, N> {
    ghost use Rattle.learned_store.specs.Stands.{NotedStore, Stands, Counts};

    ghost Value = { NotedStore D };

    ghost view = { λ n. record { store = n.store; notes = n.trace } };

    ghost invariant = { λ n. Stands D.Disk N.opening N.past n.trace n.store
        × Counts N.opening n.trace n.tally };
}

impl<D: Disk, N: LearnedName> Noting<D, N> {
    /// Begins the history of a store in which nothing is in doubt. Takes constant memory.
    pub fn new(alloc: Global, store: Store<D>) -> Result<Noting<D, N>, NoDesk<D>>
        requires calm { Keeps D.Disk store.journal store.state None }
        requires named { N.opening ≡ opening_now D.Disk store }
        requires past { SameImages N.past (D.left_since store.journal.disk) }
        ensures store { IfOk result (λ noting. noting.store ≡ store) }
        ensures notes { IfOk result (λ noting. noting.notes ≡ opening_note N.opening ∷ []) }
        ensures back { IfErr result (λ none. none.store ≡ store) }
    {
        counting_comes_to_the_tally();
        let Ok(trace) = Trace::new(alloc, &OpeningNote { store: &store }) else {
            return Err(NoDesk { store });
        };
        Ok(Noting {
            store,
            trace,
            tally: Tally::none(),
            opening: PhantomData,
        })
    }

    /// Answers a call of the caller with this number as the store does, and enters it into the history. Takes no more
    /// memory than the store.
    pub fn serve(&mut self, alloc: Global, number: u32, call: &Call) -> Answer
        requires { is_fit call.now ≡ true }
        ensures notes { self.new.notes ≡ self.old.notes ++ Entered number call.now result
            (D.time self.new.store.journal.disk) (D.faults self.new.store.journal.disk) ∷ [] }
        ensures may { may_answer call.now result ≡ true }
        ensures fits { tells_change result ≡ true →
            tight self.old.store.state + need self.old.store.state call.now ≤ self.old.store.limit }
        ensures room { result ≡ Answer.Refused refusals.Disk → (is_in_doubt self.old.store.journal.doubt ≡ true)
            ⊎ (tight self.old.store.state + need self.old.store.state call.now ≤ self.old.store.limit) }
        ensures advances { Advances D.Disk self.old.store.journal.disk self.new.store.journal.disk }
    {
        self.serve_over(alloc, number, None, call)
    }

    /// Answers a call of a caller as `serve` does, also where the files' rows for it were found before.
    pub fn serve_over(
        &mut self,
        alloc: Global,
        number: u32,
        found: Option<FileRows>,
        call: &Call,
    ) -> Answer
        requires fit { is_fit call.now ≡ true }
        requires found { IfSome found (AreFileRows N.opening.files call.now) }
        ensures { NotesCall D.Disk self.old self.new number call.now result }
    {
        counting_comes_to_the_tally();
        let answer = self.store.serve_over(alloc, found, call);
        self.tally.count(&answer);
        self.trace.note(&AnswerNote {
            store: &self.store,
            number,
            call,
            answer: &answer,
        });
        answer
    }

    /// The store. Takes no memory.
    pub fn store(&self) -> &Store<D>
        ensures value { result.now ≡ self.now.store }
        ensures stands { Stands D.Disk N.opening N.past self.now.notes self.now.store }
    {
        &self.store
    }

    /// Ends the history, and gives the disk back as it is. Takes no memory.
    pub fn close(self) -> Closed<D>
        ensures disk { result.disk ≡ self.store.journal.disk }
        ensures chronicle { result.chronicle ≡ self.notes }
        ensures tally { result.tally ≡ tally_of N.opening.state (history_of self.notes) }
        ensures stands { Stands D.Disk N.opening N.past self.notes self.store }
        ensures now { RecoverAmong self.store.state (left_behind N.opening.state self.notes)
            (D.left_since self.store.journal.disk (D.time self.store.journal.disk)) }
        ensures since { (start : ℕ) →
            ((time : ℕ) (image : Image) → start ≤ time → time ≤ N.opening.time → N.past time image
            → Recovers N.opening.state image) →
            StandsOver N.opening.state self.notes start (D.time self.store.journal.disk)
            (D.left_since self.store.journal.disk) }
    {
        let tally = &self.tally;
        let tally = Tally::new(
            tally.learned(),
            tally.restored(),
            self.store.rows(),
            tally.memory(),
            tally.disk(),
            tally.full(),
        );
        Closed {
            disk: self.store.close(),
            tally,
            chronicle: Chronicle::of(self.trace),
        }
    }
}

// What a store was opened with.
#[derive(Drop)]
struct OpeningNote<'a, D> {
    store: &'a Store<D>,
}

impl<D: Disk> Shows<Noted> for OpeningNote<'_, D> {
    ghost use Rattle.learned_store.specs.Stands.{opening_note};
    ghost use Rattle.learned_store.specs.Stores.{opening_now};

    ghost shows = { λ opening. opening_note (opening_now D.Disk opening.store.now) };
}

// That a store, which is as it is since, answered a caller.
#[derive(Drop)]
struct AnswerNote<'a, D> {
    store: &'a Store<D>,
    number: u32,
    call: &'a Call,
    answer: &'a Answer,
}

impl<D: Disk> Shows<Noted> for AnswerNote<'_, D> {
    ghost use Rattle.skk_calls.specs.declared.chronicle.Noted.TheVariants.{Entered};

    ghost shows = { λ served. Entered served.number served.call.now served.answer.now
        (D.time served.store.now.journal.disk) (D.faults served.store.now.journal.disk) };
}
