ghost use Rattle.std.specs.Prelude.{◌≡◌, [], None};
ghost use Rattle.skk_disk.specs.Moments.{SameImages};
ghost use Rattle.learned_store.specs.Stores.{opening_now, Keeps};

use crate::shift::{Shift, work};
use crate::worker::Notes;
use desk_history::{DeskName, History, Pen, RollSeat};
use dict_format::read_file;
use dict_layers::System;
use learned_store::{Closed, LearnedName, Store};
use shared_desk::{Desk, Slips};
use skk_calls::Books;
use skk_disk::Disk;
use std::alloc::Global;
use std::marker::Brand;
use std::process::Abort;
use std::sync::Wait;
use std::thread::Threads;

// The system's file.
const DICTIONARY: &str = ";; okuri-ari entries.\n;; okuri-nasi entries.\nかんじ /漢字/幹事;宴会の/感じ/\n";

// A limit that nothing here comes to.
const FAR_LIMIT: u64 = 1 << 30;

// What was left of a desk that two workers shared.
#[derive(Drop)]
pub(crate) struct SharedDesk<D> {
    pub(crate) closed: Closed<D>,
    pub(crate) one: Notes,
    pub(crate) two: Notes,
}

// Opens the learned file of a disk over the system's file.
pub(crate) fn opened<D: Disk + Drop>(rt: &impl Abort, alloc: Global, disk: D) -> Store<D>
    ensures { Keeps D.Disk result.journal result.state None }
{
    let system = system(rt, alloc);
    match Store::open(alloc, disk, system, FAR_LIMIT) {
        Ok(store) => store,
        Err(unopened) => panic!(rt; "{}", unopened.why),
    }
}

fn system(rt: &impl Abort, alloc: Global) -> System {
    let mut books = Books::new(alloc);
    books
        .push(
            read_file(alloc, DICTIONARY.as_bytes())
                .expect(rt, "a file")
                .book,
        )
        .expect(rt, "memory");
    System::of_books(alloc, books).expect(rt, "memory")
}

// Has two workers share a desk over the learned file of a disk.
pub(crate) fn share<D: Disk + Drop + Send, R: Threads + Wait + Abort + Copy + Drop + Send + Sync>(
    rt: R,
    alloc: Global,
    disk: D,
    shift: Shift,
) -> SharedDesk<D> {
    let store = opened(&rt, alloc, disk);
    let made = History::new(alloc).expect(&rt, "memory");
    share_named::<Brand, D, R>(rt, alloc, store, made, shift)
}

// Has two workers share a desk, for which `N` names the history and the opening to the proof.
fn share_named<
    N: DeskName + LearnedName + Send + Sync,
    D: Disk + Drop + Send,
    R: Threads + Wait + Abort + Copy + Drop + Send + Sync,
>(
    rt: R,
    alloc: Global,
    store: Store<D>,
    made: (History, Pen, RollSeat),
    shift: Shift,
) -> SharedDesk<D>
    requires calm { Keeps D.Disk store.journal store.state None }
    requires named { N.opening ≡ opening_now D.Disk store }
    requires past { SameImages N.past (D.left_since store.journal.disk) }
    requires history { made.0 ≡ N.table }
    requires pen { made.1 ≡ record { table = made.0; seen = []; ended = []; roll = None } }
    requires roll { made.2 ≡ record { table = made.0; drawn = 0 } }
{
    let (history, pen, roll) = made;
    let Ok((desk, mut roll)) = Desk::<D, N, R>::open(rt, alloc, store, history, pen, roll) else {
        panic!(rt; "no desk is opened");
    };
    let office = &desk;
    let worked = work(&rt, alloc, &office, &mut roll, shift);
    let mut slips = Slips::new(alloc);
    slips.push(worked.0).expect(&rt, "memory");
    slips.push(worked.1).expect(&rt, "memory");
    SharedDesk {
        closed: desk.close(roll, slips),
        one: worked.2,
        two: worked.3,
    }
}
