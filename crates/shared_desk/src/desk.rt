ghost use Rattle.std.specs.Prelude.{◌≡◌, ◌<◌, ◌≤◌, ◌+◌, ℕ, [], None, Ok, All, IfOk, IfErr, OnOk, OnErr};
ghost use Rattle.skk_disk.specs.Image.{Image};
ghost use Rattle.skk_disk.specs.Moments.{SameImages};
ghost use Rattle.skk_calls.specs.Chronicles.{history_of};
ghost use Rattle.skk_calls.specs.Histories.{dialog, state_after};
ghost use Rattle.skk_calls.specs.Tallies.{tally_of};
ghost use Rattle.learned_store.specs.Stands.{Stands, StandsOver, RecoverAmong, left_behind};
ghost use Rattle.learned_store.specs.Stores.{OpenStore, opening_now, Keeps, Recovers};
ghost use Rattle.shared_desk.specs.Told.{Stood};

use crate::locked::Locked;
use crate::pass::{Pass, Slip, Slips};
use crate::roll::Roll;
use desk_history::{DeskName, History, Pen, RollSeat};
use dict_layers::System;
use learned_store::{Closed, LearnedName, NoDesk, Noting, Store};
use skk_calls::Office;
use skk_disk::Disk;
use skk_text::Memory;
use std::alloc::Global;
use std::hint::spin_loop;
use std::marker::PhantomData;
use std::sync::{Mutex, MutexGuard, Wait};

/// A learned dictionary behind a lock, which the callers that it admits share, and the system files beside it, which
/// never change. `N` names its history and what the store was opened with.
#[derive(Drop)]
pub struct Desk<D: Disk, N: DeskName + LearnedName, R: Wait + Copy> {
    pub(crate) history: History,
    pub(crate) system: System,
    pub(crate) locked: Mutex<Locked<D, N>>,
    pub(crate) rt: R,
    pub ghost named: { history ≡ N.table },
    pub ghost files: { system ≡ N.opening.files },
}

impl<D: Disk, N: DeskName + LearnedName, R: Wait + Copy> Desk<D, N, R> {
    /// A desk over a store in which nothing is in doubt, with a history that is empty, and the roll of its callers.
    /// Takes constant memory; where that is wanting the store is handed back.
    pub fn open(
        rt: R,
        alloc: Global,
        store: Store<D>,
        history: History,
        pen: Pen,
        roll: RollSeat,
    ) -> Result<(Desk<D, N, R>, Roll<N>), NoDesk<D>>
        requires calm { Keeps D.Disk store.journal store.state None }
        requires named { N.opening ≡ opening_now D.Disk store }
        requires past { SameImages N.past (D.left_since store.journal.disk) }
        requires history { history ≡ N.table }
        requires pen { pen ≡ record { table = history; seen = []; ended = []; roll = None } }
        requires roll { roll ≡ record { table = history; drawn = 0 } }
        ensures roll { IfOk result (λ opened. opened.1 ≡ 0) }
        ensures back { IfErr result (λ none. none.store ≡ store) }
    {
        let Ok(system) = store.system().share() else {
            return Err(NoDesk { store });
        };
        let noting = Noting::new(alloc, store)?;
        let desk = Desk {
            history,
            system,
            locked: Mutex::new(Locked { noting, pen }),
            rt,
        };
        Ok((
            desk,
            Roll {
                seat: roll,
                desk: PhantomData,
            },
        ))
    }

    /// Ends the use of a desk, and gives back its disk as it is, with the one history of all its callers. Takes no
    /// memory, and time in the number of slips.
    pub fn close(self, roll: Roll<N>, slips: Slips<N>) -> Closed<D>
        // What each caller that ended has seen and said, and that no other number was given.
        ensures slips { All (Stood (history_of result.chronicle)) slips }
        ensures strangers { (number : ℕ) → roll ≤ number → dialog (history_of result.chronicle) number ≡ [] }
        ensures tally { result.tally ≡ tally_of N.opening.state (history_of result.chronicle) }

        // What the history and the disk stand for.
        ensures stands { (store : OpenStore _) × (result.disk ≡ store.journal.disk)
            × Stands D.Disk N.opening N.past result.chronicle store }
        ensures now { RecoverAmong (state_after N.opening.state (history_of result.chronicle))
            (left_behind N.opening.state result.chronicle) (D.left_since result.disk (D.time result.disk)) }
        ensures since { (start : ℕ) →
            ((time : ℕ) (image : Image) → start ≤ time → time ≤ N.opening.time → N.past time image
            → Recovers N.opening.state image) →
            StandsOver N.opening.state result.chronicle start (D.time result.disk) (D.left_since result.disk) }
    {
        let Desk {
            history,
            system: _,
            locked,
            rt: _,
        } = self;
        let Locked { noting, mut pen } = locked.into_inner();
        end_callers(&history, &mut pen, slips);
        history.end_roll(&mut pen, roll.seat);
        noting.close()
    }
}

// How often a caller looks whether the lock is free before it sleeps until it is, and how many turns it waits between
// two looks. A call holds the lock for some microseconds, a thread that slept takes longer to go on, and one that looks
// all the time slows the one that holds the lock.
const LOOKS: u32 = 100;

const TURNS: u32 = 16;

impl<D: Disk, N: DeskName + LearnedName, R: Wait + Copy> Desk<D, N, R> {
    // Takes the lock, when it is free.
    pub(crate) fn lock(&self) -> MutexGuard<'_, Locked<D, N>> {
        for _ in 0..LOOKS {
            if let Some(locked) = self.locked.try_lock() {
                return locked;
            }
            pause();
        }
        self.locked.lock(&self.rt)
    }
}

// Waits for some turns without sleeping.
fn pause() {
    for _ in 0..TURNS {
        spin_loop();
    }
}

// Ends the callers of these slips.
fn end_callers<N: DeskName>(history: &History, pen: &mut Pen, slips: Slips<N>)
    requires history { history.now ≡ N.table }
    requires pen { pen.old.table ≡ N.table }
    ensures pen { (pen.new.table ≡ N.table) × (pen.new.seen ≡ pen.old.seen) × (pen.new.roll ≡ pen.old.roll) }
    ensures slips { All (Stood pen.old.seen) slips }
{
    for slip in slips.into_vec() {
        history.end(pen, slip.seat);
    }
}

impl<'a, D: Disk, N: DeskName + LearnedName, R: Wait + Copy> Office for &'a Desk<D, N, R> {
    type Roll = Roll<N>;

    type Pass = Pass<'a, D, N, R>;

    type Slip = Slip<N>;

    ghost owns = { λ _ _. Unit {0} };

    ghost drawn = { λ roll. roll };

    fn drawn(&self, roll: &Roll<N>) -> u32 {
        roll.seat.drawn()
    }

    /// Admits a caller that has seen nothing and made no call. It always does: no memory is wanting. Takes no memory.
    fn admit(&self, _alloc: Global, roll: &mut Roll<N>) -> Result<Pass<'a, D, N, R>, Memory>
        requires room { roll.old < 4294967295 }
        ensures number { IfOk result (λ pass. pass.number ≡ roll.old) }
        ensures said { IfOk result (λ pass. pass.mine ≡ []) }
        ensures drawn { OnOk result (roll.new ≡ roll.old + 1) }
        ensures err { OnErr result (roll.new ≡ roll.old) }
        ensures owned { Unit {0} }
        ensures pass { result ≡ Ok (record { table = N.table; number = roll.old; seen = []; mine = [] }) }
    {
        let seat = self.history.draw(&mut roll.seat)?;
        Ok(Pass { desk: *self, seat })
    }

    /// The slip has the number of the pass, and what it has seen and said.
    fn rest(&self, pass: Pass<'a, D, N, R>) -> Slip<N>
        ensures number { result.number ≡ pass.entry.number }
        ensures said { result.mine ≡ pass.entry.mine }
        ensures slip { result ≡ pass.entry }
    {
        Slip {
            seat: pass.seat,
            desk: PhantomData,
        }
    }
}
