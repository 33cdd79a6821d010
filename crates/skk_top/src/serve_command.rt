ghost use Rattle.std.specs.Prelude.{◌≡◌, ◌⊎◌, ◌≤◌, [], None};
ghost use Rattle.learned_store.specs.Stores.{opening_now, Keeps};
ghost use Rattle.skk_disk.specs.Moments.{SameImages};
ghost use Rattle.skk_outside.specs.Moved.{moved_shelf, moved_sink};
ghost use Rattle.command_line.specs.Command.{limit_of};
ghost use Rattle.command_line.specs.Ranges.{LiesFrom};
ghost use Rattle.caller_work.specs.Disks.{disk_now, RunsOver};
ghost use Rattle.skk_top.specs.Disks.{moved_disk, StandsSince, RefusesLearned};
ghost use Rattle.skk_top.specs.ServeCommand.{LeavesServed, EndsUnasked, ServesOpened, ServesConnections};
ghost use Rattle.skk_top.specs.ServeCommand.{moved_listener};

use crate::opening::{Table, end_unopened, open_learned, read_table};
use crate::serving::{Outcome, Service, Serving, serve_port};
use command_line::ServeOptions;
use desk_history::{DeskName, History, Pen, RollSeat};
use learned_store::{LearnedName, Store};
use run_endings::{Run, RunFault, end_wanting};
use script_typing::Host;
use shared_desk::{Desk, Slips};
use skk_disk::Disk;
use skk_outside::{Gate, Listener, Shelf, Sink};
use skk_text::Memory;
use std::marker::Brand;
use std::sync::Wait;
use std::thread::Threads;

/// The command `serve`: reads the rules, then the dictionaries, opens the learned file and then the port, and serves
/// its connections, each by a caller of its own. Where one of them is not had the run ends, and prints nothing.
pub fn run_serve<
    H: Shelf,
    D: Disk + Drop + Send,
    O: Sink,
    P: Listener<Link: Send + Drop>,
    R: Threads + Wait + Copy + Send + Sync,
    G: Gate + Sync,
>(
    host: &Host<'_, R, G>,
    options: &ServeOptions,
    shelf: &mut H,
    disk: D,
    out: &mut O,
    net: &mut P,
) -> Run<D>
    requires port { LiesFrom 1 65535 options.now.port }
    requires connections { LiesFrom 1 1000000 options.now.connections }
    ensures leaves { LeavesServed options.now result (moved_shelf H.Shelf shelf.old shelf.new)
        (moved_sink O.Outside out.old out.new) (moved_listener P.Listener P.Link.Outside net.old net.new)
        (moved_disk D.Disk disk result.disk) }
    ensures stands { StandsSince result.chronicle (moved_disk D.Disk disk result.disk) }
    ensures shelf_counted { H.faults shelf.old ≤ H.faults shelf.new }
    ensures disk_counted { D.faults disk ≤ D.faults result.disk }
    ensures out_counted { O.faults out.old ≤ O.faults out.new }
    ensures net_counted { P.faults net.old ≤ P.faults net.new }
{
    match read_table(host.alloc, &options.rules, &options.dictionaries, shelf) {
        Ok(table) => serve_learned(host, options, table, disk, out, net),
        Err(fault) => end_unopened(fault, disk),
    }
}

// Opens the learned file, and serves the port.
fn serve_learned<
    D: Disk + Drop + Send,
    O: Sink,
    P: Listener<Link: Send + Drop>,
    R: Threads + Wait + Copy + Send + Sync,
    G: Gate + Sync,
>(
    host: &Host<'_, R, G>,
    options: &ServeOptions,
    table: Table,
    disk: D,
    out: &mut O,
    net: &mut P,
) -> Run<D>
    requires port { LiesFrom 1 65535 options.now.port }
    requires connections { LiesFrom 1 1000000 options.now.connections }
    ensures leaves { EndsUnasked
        (RefusesLearned (moved_disk D.Disk disk result.disk)) result (moved_sink O.Outside out.old out.new)
        (moved_listener P.Listener P.Link.Outside net.old net.new)
        ⊎ ServesOpened (record { port = options.now.port; connections = options.now.connections })
        (limit_of options.now.limit) table.system table.rules result (moved_sink O.Outside out.old out.new)
        (moved_listener P.Listener P.Link.Outside net.old net.new) (moved_disk D.Disk disk result.disk) }
    ensures stands { StandsSince result.chronicle (moved_disk D.Disk disk result.disk) }
    ensures disk_counted { D.faults disk ≤ D.faults result.disk }
    ensures out_counted { O.faults out.old ≤ O.faults out.new }
    ensures net_counted { P.faults net.old ≤ P.faults net.new }
{
    let Table { rules, system } = table;
    let serving = Serving {
        service: Service {
            port: options.port as u16,
            connections: options.connections as u32,
        },
        rules: &rules,
    };
    match open_learned(host.alloc, disk, system, options.limit()) {
        Ok(store) => serve_store(host, &serving, store, out, net),
        Err(run) => run,
    }
}

// Serves the port over a store that was just opened.
fn serve_store<
    D: Disk + Drop + Send,
    O: Sink,
    P: Listener<Link: Send + Drop>,
    R: Threads + Wait + Copy + Send + Sync,
    G: Gate + Sync,
>(host: &Host<'_, R, G>, serving: &Serving<'_>, store: Store<D>, out: &mut O, net: &mut P) -> Run<D>
    requires connections { LiesFrom 1 1000000 serving.now.service.connections }
    requires calm { Keeps D.Disk store.journal store.state None }
    ensures leaves { EndsUnasked (λ fault. fault ≡ RunFault.Memory) result
        (moved_sink O.Outside out.old out.new) (moved_listener P.Listener P.Link.Outside net.old net.new)
        ⊎ ServesConnections serving.now.service (opening_now D.Disk store) serving.now.rules.now result
        (moved_sink O.Outside out.old out.new) (moved_listener P.Listener P.Link.Outside net.old net.new)
        (disk_now D.Disk result.disk) }
    ensures runs { RunsOver store.state result.chronicle
        (disk_now D.Disk store.journal.disk) (disk_now D.Disk result.disk) }
    ensures out_counted { O.faults out.old ≤ O.faults out.new }
    ensures net_counted { P.faults net.old ≤ P.faults net.new }
{
    match History::new(host.alloc) {
        Ok(made) => serve_over::<Brand, D, O, P, R, G>(host, serving, made, store, out, net),
        Err(Memory) => Run::without_calls(Err(RunFault::Memory), store.close()),
    }
}

// Serves the port over a store that was just opened, by callers for whom `N` names the history and the opening to the
// proof. A run of which a call was refused, or a connection ended for want of memory, ends so where nothing else ended
// it before.
fn serve_over<
    N: DeskName + LearnedName + Send + Sync,
    D: Disk + Drop + Send,
    O: Sink,
    P: Listener<Link: Send + Drop>,
    R: Threads + Wait + Copy + Send + Sync,
    G: Gate + Sync,
>(
    host: &Host<'_, R, G>,
    serving: &Serving<'_>,
    made: (History, Pen, RollSeat),
    store: Store<D>,
    out: &mut O,
    net: &mut P,
) -> Run<D>
    requires connections { LiesFrom 1 1000000 serving.now.service.connections }
    requires calm { Keeps D.Disk store.journal store.state None }
    requires named { N.opening ≡ opening_now D.Disk store }
    requires past { SameImages N.past (D.left_since store.journal.disk) }
    requires history { made.0 ≡ N.table }
    requires pen { made.1 ≡ record { table = made.0; seen = []; ended = []; roll = None } }
    requires roll { made.2 ≡ record { table = made.0; drawn = 0 } }
    ensures leaves { EndsUnasked (λ fault. fault ≡ RunFault.Memory) result
        (moved_sink O.Outside out.old out.new) (moved_listener P.Listener P.Link.Outside net.old net.new)
        ⊎ ServesConnections serving.now.service N.opening serving.now.rules.now result
        (moved_sink O.Outside out.old out.new) (moved_listener P.Listener P.Link.Outside net.old net.new)
        (disk_now D.Disk result.disk) }
    ensures runs { RunsOver N.opening.state result.chronicle
        (disk_now D.Disk store.journal.disk) (disk_now D.Disk result.disk) }
    ensures out_counted { O.faults out.old ≤ O.faults out.new }
    ensures net_counted { P.faults net.old ≤ P.faults net.new }
{
    let (history, pen, roll) = made;
    match Desk::<D, N, R>::open(host.rt, host.alloc, store, history, pen, roll) {
        Ok((desk, mut roll)) => {
            let office = &desk;
            let outcome = serve_port(host, serving, &office, &mut roll, out, net);
            let wanted = outcome.wants_memory();
            let Outcome {
                ended,
                slips,
                ends: _,
            } = outcome;
            let closed = desk.close(roll, Slips::of(slips));
            Run {
                ended: end_wanting(ended, &closed.tally, wanted),
                chronicle: closed.chronicle,
                disk: closed.disk,
            }
        }
        Err(none) => Run::without_calls(Err(RunFault::Memory), none.store.close()),
    }
}
