ghost use Rattle.std.specs.Prelude.{◌≡◌, ◌≤◌, ◌+◌, IfErr, IsErrOf};
ghost use Rattle.skk_outside.specs.Moved.{moved_shelf, moved_source, moved_sink};
ghost use Rattle.skk_outside.specs.Taken.{TakesAtMost};
ghost use Rattle.skk_outside.specs.declared.source.TheConstants.{PIECE};
ghost use Rattle.key_scripts.specs.Script.{script_limit};
ghost use Rattle.command_line.specs.Ranges.{IsWaitingInRange};
ghost use Rattle.command_line.specs.declared.command.Command.TheVariants.{Waiting};
ghost use Rattle.run_endings.specs.Finishes.{run_of};
ghost use Rattle.run_endings.specs.Status.{Tells, run_status, run_message};
ghost use Rattle.skk_top.specs.AskCommand.{reply_of};
ghost use Rattle.skk_top.specs.Causes.{HasRunCause, files_of};
ghost use Rattle.skk_top.specs.Commands.{LeavesWaiting};
ghost use Rattle.skk_top.specs.Disks.{moved_disk, StandsSince};
ghost use Rattle.skk_top.specs.Failures.{HasWaitingFailed};
ghost use Rattle.skk_top.specs.ServeCommand.{moved_listener};

use crate::ask_command::run_ask;
use crate::caller_each::run_by_each;
use crate::load_each::run_load_by_each;
use crate::serve_command::run_serve;
use command_line::WaitingCommand;
use run_endings::{Finish, Run, RunFault, end_run};
use script_typing::Host;
use skk_disk::Disk;
use skk_outside::{Gate, Listener, Shelf, Sink, Source};
use std::alloc::Global;
use std::sync::Wait;
use std::thread::Threads;

/// All that the program does for a command that may wait: it starts threads, and waits for them. What is said of
/// `run_alone` is said of it too.
pub fn run<
    H: Shelf,
    D: Disk + Drop + Send,
    I: Source,
    O: Sink,
    E: Sink,
    N: Listener<Link: Send + Drop>,
    G: Gate + Sync,
    R: Threads + Wait + Copy + Send + Sync,
>(
    rt: R,
    alloc: Global,
    command: &WaitingCommand,
    shelf: &mut H,
    disk: D,
    input: &mut I,
    out: &mut O,
    err: &mut E,
    net: &mut N,
    gate: &G,
) -> Finish<D>
    requires { IsWaitingInRange command.now }
    // The status is made of how the run ended, and so is what is told on standard error.
    ensures status { result.status ≡ run_status result.ended }
    ensures told { Tells (run_message result.ended) (moved_sink E.Outside err.old err.new) }

    // What the command leaves.
    ensures leaves { LeavesWaiting command.now (run_of result) (moved_shelf H.Shelf shelf.old shelf.new)
        (moved_source I.Outside input.old input.new) (moved_sink O.Outside out.old out.new)
        (moved_listener N.Listener N.Link.Outside net.old net.new) (moved_disk D.Disk disk result.disk) }
    ensures taken { TakesAtMost (I.left input.old) (I.left input.new) (script_limit + PIECE) }

    // A call on the outside failed where the run ended so.
    ensures outside { IsErrOf result.ended RunFault.Outside → HasWaitingFailed command.now
        (moved_shelf H.Shelf shelf.old shelf.new) (moved_source I.Outside input.old input.new)
        (moved_sink O.Outside out.old out.new) (moved_listener N.Listener N.Link.Outside net.old net.new)
        (moved_disk D.Disk disk result.disk) }

    // Any fault that the run ended with had its cause: where no cause is there, the run is done or out of memory.
    ensures caused { IfErr result.ended (HasRunCause (files_of (moved_shelf H.Shelf shelf.old shelf.new)
        (moved_source I.Outside input.old input.new)
        (reply_of (moved_listener N.Listener N.Link.Outside net.old net.new)) (Waiting command.now))
        (moved_disk D.Disk disk result.disk)
        (HasWaitingFailed command.now (moved_shelf H.Shelf shelf.old shelf.new)
        (moved_source I.Outside input.old input.new) (moved_sink O.Outside out.old out.new)
        (moved_listener N.Listener N.Link.Outside net.old net.new) (moved_disk D.Disk disk result.disk))
        result.chronicle) }

    // No count of faults falls.
    ensures shelf_counted { H.faults shelf.old ≤ H.faults shelf.new }
    ensures disk_counted { D.faults disk ≤ D.faults result.disk }
    ensures input_counted { I.faults input.old ≤ I.faults input.new }
    ensures out_counted { O.faults out.old ≤ O.faults out.new }
    ensures err_counted { E.faults err.old ≤ E.faults err.new }
    ensures net_counted { N.faults net.old ≤ N.faults net.new }

    // What a stop at any moment of the run leaves of the disk.
    ensures stands { StandsSince result.chronicle (moved_disk D.Disk disk result.disk) }
{
    let host = Host { rt, alloc, gate };
    let run = run_command(&host, command, shelf, disk, input, out, net);
    end_run(run, err)
}

// Runs the command.
#[tactic(auto, using(crate::proofs::Runs::untouched))]
fn run_command<
    H: Shelf,
    D: Disk + Drop + Send,
    I: Source,
    O: Sink,
    N: Listener<Link: Send + Drop>,
    G: Gate + Sync,
    R: Threads + Wait + Copy + Send + Sync,
>(
    host: &Host<'_, R, G>,
    command: &WaitingCommand,
    shelf: &mut H,
    disk: D,
    input: &mut I,
    out: &mut O,
    net: &mut N,
) -> Run<D>
    requires { IsWaitingInRange command.now }
    ensures leaves { LeavesWaiting command.now result (moved_shelf H.Shelf shelf.old shelf.new)
        (moved_source I.Outside input.old input.new) (moved_sink O.Outside out.old out.new)
        (moved_listener N.Listener N.Link.Outside net.old net.new) (moved_disk D.Disk disk result.disk) }
    ensures taken { TakesAtMost (I.left input.old) (I.left input.new) (script_limit + PIECE) }
    ensures shelf_counted { H.faults shelf.old ≤ H.faults shelf.new }
    ensures disk_counted { D.faults disk ≤ D.faults result.disk }
    ensures input_counted { I.faults input.old ≤ I.faults input.new }
    ensures out_counted { O.faults out.old ≤ O.faults out.new }
    ensures net_counted { N.faults net.old ≤ N.faults net.new }
    ensures stands { StandsSince result.chronicle (moved_disk D.Disk disk result.disk) }
{
    match command {
        WaitingCommand::TypeScript(options) => {
            run_by_each(host, options, shelf, disk, input, out)
        }
        WaitingCommand::Serve(options) => { run_serve(host, options, shelf, disk, out, net) }
        WaitingCommand::Load(options) => { run_load_by_each(host, *options, disk, out) }
        WaitingCommand::Ask(options) => run_ask(host.alloc, options, disk, out, net),
    }
}
