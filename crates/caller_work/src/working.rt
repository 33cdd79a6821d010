ghost use Rattle.std.specs.Prelude.{◌≡◌, [], None, true, IfOk, IfErr, OnErr};
ghost use Rattle.skk_calls.specs.Openings.{are_of_one, said_in};
ghost use Rattle.skk_disk.specs.Moments.{SameImages};
ghost use Rattle.learned_store.specs.Stores.{opening_now, Keeps};
ghost use Rattle.caller_work.specs.Disks.{disk_now, Closes};

use crate::work::Work;
use crate::worked::Worked;
use learned_store::{Alone, LearnedName, Store};
use skk_calls::Caller;
use skk_disk::Disk;
use std::alloc::Global;
use std::marker::Brand;

/// Works with the one caller of a store that was just opened, and closes the store. Where there is no memory to begin,
/// gives back the disk.
pub fn with_caller<D: Disk, O, W: Work<O> + Drop>(
    alloc: Global,
    store: Store<D>,
    work: W,
    outside: &mut O,
) -> Result<Worked<D, W::Left>, D>
    requires fits { W.fits work }
    requires calm { Keeps D.Disk store.journal store.state None }
    ensures leaves { IfOk result (λ worked.
        W.leaves work outside.old outside.new [] (said_in worked.closed.chronicle 0) worked.left) }
    ensures one { IfOk result (λ worked. are_of_one worked.closed.chronicle ≡ true) }
    ensures closes { IfOk result (λ worked. Closes (opening_now D.Disk store) worked.closed
        (disk_now D.Disk store.journal.disk) (disk_now D.Disk worked.closed.disk)) }
    ensures back { IfErr result (λ disk. disk ≡ store.journal.disk) }
    ensures quiet { OnErr result (outside.new ≡ outside.old) }
{
    with_name::<Brand, D, O, W>(alloc, store, work, outside)
}

// The same, where `N` names the opening to the proof.
fn with_name<N: LearnedName, D: Disk, O, W: Work<O> + Drop>(
    alloc: Global,
    store: Store<D>,
    work: W,
    outside: &mut O,
) -> Result<Worked<D, W::Left>, D>
    requires fits { W.fits work }
    requires calm { Keeps D.Disk store.journal store.state None }
    requires named { N.opening ≡ opening_now D.Disk store }
    requires past { SameImages N.past (D.left_since store.journal.disk) }
    ensures leaves { IfOk result (λ worked.
        W.leaves work outside.old outside.new [] (said_in worked.closed.chronicle 0) worked.left) }
    ensures one { IfOk result (λ worked. are_of_one worked.closed.chronicle ≡ true) }
    ensures closes { IfOk result (λ worked. Closes N.opening worked.closed
        (disk_now D.Disk store.journal.disk) (disk_now D.Disk worked.closed.disk)) }
    ensures back { IfErr result (λ disk. disk ≡ store.journal.disk) }
    ensures quiet { OnErr result (outside.new ≡ outside.old) }
{
    match Alone::<D, N>::new(alloc, store) {
        Ok(mut caller) => {
            let left = work.work(alloc, &mut caller, outside);
            let closed = caller.close();
            Ok(Worked { left, closed })
        }
        Err(none) => Err(none.store.close()),
    }
}
