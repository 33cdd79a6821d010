ghost use Rattle.std.specs.Prelude.{◌≡◌, ◌≤◌, [], None, true, All, IfOk, IfErr, length};
ghost use Rattle.std.specs.List.{list_all};
ghost use Rattle.std.specs.Map.{values_of};
ghost use Rattle.key_scripts.specs.Script.{opens_well};
ghost use Rattle.skk_disk.specs.Moments.{SameImages};
ghost use Rattle.learned_store.specs.Stores.{opening_now, Keeps};
ghost use Rattle.script_typing.specs.MapLaws.{Ascend};
ghost use Rattle.caller_work.specs.Disks.{disk_now, RunsOver};
ghost use Rattle.skk_top.specs.TypedTasks.{TypesTasks};

use desk_history::{DeskName, History, Pen, RollSeat};
use key_scripts::Line;
use learned_store::{Closed, LearnedName, Store};
use romaji_rules::Rules;
use script_typing::{Host, Typed, type_tasks};
use shared_desk::{Desk, Slips};
use skk_disk::Disk;
use skk_outside::Gate;
use skk_text::{Memory, Sequence};
use std::collections::BTreeMap;
use std::marker::Brand;
use std::sync::Wait;
use std::thread::Threads;

/// What is left of tasks that were typed by callers of one dictionary, which was closed then.
#[derive(Drop)]
pub struct TypedTasks<D> {
    /// What was typed; nothing where memory was out for the work as a whole.
    pub typed: Result<Typed, Memory>,
    /// What the calls came to, their history, and the disk.
    pub closed: Closed<D>,
}

/// Types the lines of each session over a store that was just opened, by a caller of its own, in a thread of its own
/// where one can be started, and closes the store. Where there is no memory to begin, gives back the disk.
pub fn type_by_callers<
    D: Disk + Drop + Send,
    R: Threads + Wait + Copy + Send + Sync,
    G: Gate + Sync,
>(
    host: &Host<'_, R, G>,
    rules: &Rules,
    tasks: BTreeMap<u8, Sequence<Line>>,
    store: Store<D>,
) -> Result<TypedTasks<D>, D>
    requires calm { Keeps D.Disk store.journal store.state None }
    requires ascend { Ascend tasks.entries }
    requires few { length tasks.entries ≤ 256 }
    requires opens { All (λ lines. list_all opens_well lines ≡ true) (values_of tasks.entries) }
    ensures types { IfOk result (λ left. TypesTasks (opening_now D.Disk store) rules.now tasks.entries left
        (disk_now D.Disk left.closed.disk)) }
    ensures runs { IfOk result (λ left. RunsOver store.state left.closed.chronicle
        (disk_now D.Disk store.journal.disk) (disk_now D.Disk left.closed.disk)) }
    ensures back { IfErr result (λ disk. disk ≡ store.journal.disk) }
{
    match History::new(host.alloc) {
        Ok(made) => type_over::<Brand, D, R, G>(host, rules, tasks, made, store),
        Err(Memory) => Err(store.close()),
    }
}

// Types tasks over a store that was just opened, by callers for whom `N` names the history, which was just made, and
// the opening to the proof.
fn type_over<
    N: DeskName + LearnedName + Send + Sync,
    D: Disk + Drop + Send,
    R: Threads + Wait + Copy + Send + Sync,
    G: Gate + Sync,
>(
    host: &Host<'_, R, G>,
    rules: &Rules,
    tasks: BTreeMap<u8, Sequence<Line>>,
    made: (History, Pen, RollSeat),
    store: Store<D>,
) -> Result<TypedTasks<D>, D>
    requires calm { Keeps D.Disk store.journal store.state None }
    requires named { N.opening ≡ opening_now D.Disk store }
    requires past { SameImages N.past (D.left_since store.journal.disk) }
    requires history { made.0 ≡ N.table }
    requires pen { made.1 ≡ record { table = made.0; seen = []; ended = []; roll = None } }
    requires roll { made.2 ≡ record { table = made.0; drawn = 0 } }
    requires ascend { Ascend tasks.entries }
    requires few { length tasks.entries ≤ 256 }
    requires opens { All (λ lines. list_all opens_well lines ≡ true) (values_of tasks.entries) }
    ensures types { IfOk result (λ left. TypesTasks N.opening rules.now tasks.entries left
        (disk_now D.Disk left.closed.disk)) }
    ensures runs { IfOk result (λ left. RunsOver N.opening.state left.closed.chronicle
        (disk_now D.Disk store.journal.disk) (disk_now D.Disk left.closed.disk)) }
    ensures back { IfErr result (λ disk. disk ≡ store.journal.disk) }
{
    let (history, pen, roll) = made;
    match Desk::<D, N, R>::open(host.rt, host.alloc, store, history, pen, roll) {
        Ok((desk, mut roll)) => {
            let office = &desk;
            let (typed, slips) = type_tasks(host, rules, tasks, &office, &mut roll);
            let closed = desk.close(roll, Slips::of(slips));
            Ok(TypedTasks { typed, closed })
        }
        Err(none) => Err(none.store.close()),
    }
}
