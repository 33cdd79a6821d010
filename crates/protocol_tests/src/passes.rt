ghost use Rattle.std.specs.Prelude.{◌≡◌, ◌<◌, ◌+◌, [], None};
ghost use Rattle.skk_disk.specs.Moments.{SameImages};
ghost use Rattle.learned_store.specs.Stores.{opening_now, Keeps};

use crate::callers::opened;
use crate::connections::served;
use crate::expected::expect;
use crate::tables::{bytes_of, pieces_of};
use crate::ways::Coming;
use desk_history::{DeskName, History, Pen, RollSeat};
use learned_store::{LearnedName, Store};
use shared_desk::{Desk, Slips};
use skk_calls::Office;
use skk_disk::{Disk, MemDisk};
use std::alloc::Global;
use std::marker::Brand;
use std::process::Abort;
use std::sync::Wait;

// What is told of a connection that a pass answers, over a desk with a new learned file, behind which another one comes
// without a byte.
pub(crate) fn told_on_desk<R: Wait + Abort + Copy + Drop + Send + Sync>(
    rt: R,
    alloc: Global,
    coming: Coming,
) -> Vec<u8> {
    let disk = MemDisk::new(alloc, Vec::new(alloc));
    let other = Coming {
        pieces: Vec::new(alloc),
        fail: 0,
    };
    let (told, none) = told_in_turn(rt, alloc, disk, coming, other);
    expect(&rt, &none, b";Closed 0", "no byte");
    told
}

// What is told of two connections, one after another, over a desk that their passes share.
fn told_in_turn<D: Disk + Drop + Send, R: Wait + Abort + Copy + Drop + Send + Sync>(
    rt: R,
    alloc: Global,
    disk: D,
    one: Coming,
    two: Coming,
) -> (Vec<u8>, Vec<u8>) {
    let store = opened(&rt, alloc, disk);
    let made = History::new(alloc).expect(&rt, "memory");
    told_over::<Brand, D, R>(rt, alloc, store, made, one, two)
}

// The same over a store that was just opened, for which `N` names the history and the opening to the proof.
fn told_over<
    N: DeskName + LearnedName + Send + Sync,
    D: Disk + Drop + Send,
    R: Wait + Abort + Copy + Drop + Send + Sync,
>(
    rt: R,
    alloc: Global,
    store: Store<D>,
    made: (History, Pen, RollSeat),
    one: Coming,
    two: Coming,
) -> (Vec<u8>, Vec<u8>)
    requires calm { Keeps D.Disk store.journal store.state None }
    requires named { N.opening ≡ opening_now D.Disk store }
    requires past { SameImages N.past (D.left_since store.journal.disk) }
    requires history { made.0 ≡ N.table }
    requires pen { made.1 ≡ record { table = made.0; seen = []; ended = []; roll = None } }
    requires roll { made.2 ≡ record { table = made.0; drawn = 0 } }
{
    let (history, pen, roll) = made;
    let Ok((desk, mut roll)) = Desk::<D, N, R>::open(rt, alloc, store, history, pen, roll) else {
        panic!(rt; "no desk is opened");
    };
    let office = &desk;
    let (first, slip) = told_on_pass(&rt, alloc, &office, &mut roll, one);
    let (second, other) = told_on_pass(&rt, alloc, &office, &mut roll, two);
    let mut slips = Slips::new(alloc);
    slips.push(slip).expect(&rt, "memory");
    slips.push(other).expect(&rt, "memory");
    let closed = desk.close(roll, slips);
    drop(closed);
    (first, second)
}

// What is told of a connection that a pass answers, which is then rested.
fn told_on_pass<W: Office, R: Abort>(
    rt: &R,
    alloc: Global,
    office: &W,
    roll: &mut W::Roll,
    coming: Coming,
) -> (Vec<u8>, W::Slip)
    requires owns { W.owns office.now roll.old }
    requires room { W.drawn roll.old < 4294967295 }
    ensures drawn { W.drawn roll.new ≡ W.drawn roll.old + 1 }
    ensures owned { W.owns office.now roll.new }
{
    let mut pass = office.admit(alloc, roll).expect(rt, "memory");
    let told = served(rt, alloc, &mut pass, coming);
    (told, office.rest(pass))
}

// A typist learns a word in the shared book, and then a client finds it.
fn share_a_word<R: Wait + Abort + Copy + Drop + Send + Sync>(rt: R, alloc: Global) {
    let disk = MemDisk::new(alloc, Vec::new(alloc));
    let one = coming(&rt, alloc, "T1 0~^Kanji   <cj>~");
    let two = coming(&rt, alloc, "1かんじ ");
    let (first, second) = told_in_turn(rt, alloc, disk, one, two);
    let learnt = bytes_of(&rt, alloc, "かな\t\t~かな\t感じ\t~;Closed 2");
    let found = bytes_of(&rt, alloc, "1/感じ/漢字/幹事;宴会の/~;Closed 1");
    expect(&rt, &first, &learnt, "a typist");
    expect(&rt, &second, &found, "a client");
}

fn coming<R: Abort>(rt: &R, alloc: Global, field: &str) -> Coming {
    Coming {
        pieces: pieces_of(rt, alloc, field),
        fail: 0,
    }
}

#[test]
fn a_client_finds_what_a_typist_learnt(rt: HostRuntime) {
    share_a_word(rt, rt.alloc());
}
