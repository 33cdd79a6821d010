ghost use Rattle.std.specs.Prelude.{◌≡◌, ◌≤◌, ◌+◌, None, IfErr, IsErrOf};
ghost use Rattle.skk_outside.specs.Moved.{moved_shelf, moved_source, moved_sink};
ghost use Rattle.skk_outside.specs.Taken.{TakesAtMost};
ghost use Rattle.skk_outside.specs.declared.source.TheConstants.{PIECE};
ghost use Rattle.key_scripts.specs.Script.{script_limit};
ghost use Rattle.command_line.specs.Ranges.{IsAloneInRange};
ghost use Rattle.command_line.specs.declared.command.Command.TheVariants.{Alone};
ghost use Rattle.run_endings.specs.Finishes.{run_of};
ghost use Rattle.run_endings.specs.Status.{Tells, run_status, run_message};
ghost use Rattle.skk_top.specs.Causes.{HasRunCause, files_of};
ghost use Rattle.skk_top.specs.Commands.{LeavesAlone, StandsAlone};
ghost use Rattle.skk_top.specs.Disks.{moved_disk};
ghost use Rattle.skk_top.specs.Failures.{HasFailed};

use crate::check_command::run_check;
use crate::dump_command::run_dump;
use crate::expr_command::run_expr;
use crate::import_command::run_import;
use crate::load_command::run_load_by_one;
use crate::one_caller::run_by_one;
use crate::share_command::run_share;
use command_line::AloneCommand;
use run_endings::{Finish, Run, RunFault, end_run};
use skk_disk::Disk;
use skk_outside::{Shelf, Sink, Source};
use std::alloc::Global;

/// All that the program does for a command that waits for nobody.
///
/// A write on `err` that fails changes no status. Of the input at most one piece more is read than a
/// script may have, and of a file than a rule file or a dictionary may have.
pub fn run_alone<H: Shelf, D: Disk, I: Source, O: Sink, E: Sink>(
    alloc: Global,
    command: &AloneCommand,
    shelf: &mut H,
    disk: D,
    input: &mut I,
    out: &mut O,
    err: &mut E,
) -> Finish<D>
    requires { IsAloneInRange command.now }
    // The status is made of how the run ended, and so is what is told on standard error.
    ensures status { result.status ≡ run_status result.ended }
    ensures told { Tells (run_message result.ended) (moved_sink E.Outside err.old err.new) }

    // What the command leaves.
    ensures leaves { LeavesAlone command.now (run_of result) (moved_shelf H.Shelf shelf.old shelf.new)
        (moved_source I.Outside input.old input.new) (moved_sink O.Outside out.old out.new)
        (moved_disk D.Disk disk result.disk) }
    ensures taken { TakesAtMost (I.left input.old) (I.left input.new) (script_limit + PIECE) }

    // A call on the outside failed where the run ended so.
    ensures outside { IsErrOf result.ended RunFault.Outside → HasFailed
        (moved_shelf H.Shelf shelf.old shelf.new) (moved_source I.Outside input.old input.new)
        (moved_sink O.Outside out.old out.new) (moved_disk D.Disk disk result.disk) }

    // Any fault that the run ended with had its cause: where no cause is there, the run is done or out of memory.
    ensures caused { IfErr result.ended (HasRunCause (files_of (moved_shelf H.Shelf shelf.old shelf.new)
        (moved_source I.Outside input.old input.new) None (Alone command.now)) (moved_disk D.Disk disk result.disk)
        (HasFailed (moved_shelf H.Shelf shelf.old shelf.new) (moved_source I.Outside input.old input.new)
        (moved_sink O.Outside out.old out.new) (moved_disk D.Disk disk result.disk)) result.chronicle) }

    // No count of faults falls.
    ensures shelf_counted { H.faults shelf.old ≤ H.faults shelf.new }
    ensures disk_counted { D.faults disk ≤ D.faults result.disk }
    ensures input_counted { I.faults input.old ≤ I.faults input.new }
    ensures out_counted { O.faults out.old ≤ O.faults out.new }
    ensures err_counted { E.faults err.old ≤ E.faults err.new }

    // What a stop at any moment of the run leaves of the disk.
    ensures stands { StandsAlone command.now (moved_shelf H.Shelf shelf.old shelf.new) result.chronicle
        (moved_disk D.Disk disk result.disk) }
{
    end_run(run_command(alloc, command, shelf, disk, input, out), err)
}

// Runs the command.
#[tactic(auto, using(crate::proofs::Runs::untouched))]
fn run_command<H: Shelf, D: Disk, I: Source, O: Sink>(
    alloc: Global,
    command: &AloneCommand,
    shelf: &mut H,
    disk: D,
    input: &mut I,
    out: &mut O,
) -> Run<D>
    requires { IsAloneInRange command.now }
    ensures leaves { LeavesAlone command.now result (moved_shelf H.Shelf shelf.old shelf.new)
        (moved_source I.Outside input.old input.new) (moved_sink O.Outside out.old out.new)
        (moved_disk D.Disk disk result.disk) }
    ensures taken { TakesAtMost (I.left input.old) (I.left input.new) (script_limit + PIECE) }
    ensures shelf_counted { H.faults shelf.old ≤ H.faults shelf.new }
    ensures disk_counted { D.faults disk ≤ D.faults result.disk }
    ensures input_counted { I.faults input.old ≤ I.faults input.new }
    ensures out_counted { O.faults out.old ≤ O.faults out.new }
    ensures stands { StandsAlone command.now (moved_shelf H.Shelf shelf.old shelf.new) result.chronicle
        (moved_disk D.Disk disk result.disk) }
{
    match command {
        AloneCommand::TypeScript(options) => run_by_one(alloc, options, shelf, disk, input, out),
        AloneCommand::Check(name) => run_check(alloc, name, shelf, disk, out),
        AloneCommand::Dump(options) => run_dump(alloc, options, disk, out),
        AloneCommand::Share(options) => run_share(alloc, options, disk, out),
        AloneCommand::Load(options) => run_load_by_one(alloc, *options, disk, out),
        AloneCommand::Expr(options) => run_expr(alloc, options, shelf, disk, out),
        AloneCommand::Import(options) => run_import(alloc, options, shelf, disk, out),
    }
}
