ghost use Rattle.std.specs.Prelude.{◌≡◌, ◌≤◌, ◌+◌, None};
ghost use Rattle.skk_outside.specs.Moved.{moved_shelf, moved_sink, moved_source};
ghost use Rattle.skk_outside.specs.Taken.{TakesAtMost};
ghost use Rattle.skk_outside.specs.declared.source.TheConstants.{PIECE};
ghost use Rattle.key_scripts.specs.Script.{script_limit};
ghost use Rattle.learned_store.specs.Stores.{opening_now, Keeps};
ghost use Rattle.caller_work.specs.Disks.{disk_now, RunsOver};
ghost use Rattle.skk_top.specs.Disks.{moved_disk, StandsSince};
ghost use Rattle.skk_top.specs.TypeCommand.{LeavesBegun, LeavesTyped, TypesLines};

use crate::manner::Manner;
use crate::type_command::{ScriptToType, begin};
use crate::typing::type_script;
use caller_work::{Work, with_caller};
use command_line::TypeOptions;
use key_scripts::Script;
use romaji_rules::Rules;
use run_endings::{Run, RunFault, end_by};
use skk_calls::Caller;
use skk_disk::Disk;
use skk_outside::{Shelf, Sink, Source};
use std::alloc::Global;

/// All calls of a script are made by one caller.
pub struct OneCaller;

impl<D: Disk> Manner<D> for OneCaller {
    ghost leaves = { TypesLines };
}

/// The command `type` where one caller makes all calls: begins as `begin` does, and types the script.
pub fn run_by_one<H: Shelf, D: Disk, I: Source, O: Sink>(
    alloc: Global,
    options: &TypeOptions,
    shelf: &mut H,
    disk: D,
    input: &mut I,
    out: &mut O,
) -> Run<D>
    ensures leaves { LeavesTyped TypesLines options.now result (moved_shelf H.Shelf shelf.old shelf.new)
        (moved_source I.Outside input.old input.new) (moved_sink O.Outside out.old out.new)
        (moved_disk D.Disk disk result.disk) }
    ensures stands { StandsSince result.chronicle (moved_disk D.Disk disk result.disk) }
    ensures taken { TakesAtMost (I.left input.old) (I.left input.new) (script_limit + PIECE) }
    ensures shelf_counted { H.faults shelf.old ≤ H.faults shelf.new }
    ensures disk_counted { D.faults disk ≤ D.faults result.disk }
    ensures input_counted { I.faults input.old ≤ I.faults input.new }
    ensures out_counted { O.faults out.old ≤ O.faults out.new }
{
    match begin::<OneCaller, H, D, I>(alloc, options, shelf, disk, input) {
        Ok(begun) => type_by_one(alloc, begun, out),
        Err(run) => run,
    }
}

// Types a script by one caller. A run of which a call was refused ends so where nothing else ended it before.
fn type_by_one<D: Disk, O: Sink>(alloc: Global, begun: ScriptToType<D>, out: &mut O) -> Run<D>
    requires calm { Keeps D.Disk begun.store.journal begun.store.state None }
    ensures leaves { LeavesBegun TypesLines (opening_now D.Disk begun.store) begun.rules begun.script result
        (moved_sink O.Outside out.old out.new) (disk_now D.Disk result.disk) }
    ensures counted { O.faults out.old ≤ O.faults out.new }
    ensures runs { RunsOver begun.store.state result.chronicle
        (disk_now D.Disk begun.store.journal.disk) (disk_now D.Disk result.disk) }
{
    let ScriptToType {
        rules,
        script,
        store,
    } = begun;
    let typing = ScriptTyping {
        rules: &rules,
        script: &script,
    };
    match with_caller(alloc, store, typing, out) {
        Ok(worked) => Run {
            ended: end_by(worked.left, &worked.closed.tally),
            chronicle: worked.closed.chronicle,
            disk: worked.closed.disk,
        },
        Err(disk) => Run::without_calls(Err(RunFault::Memory), disk),
    }
}

// The typing of a script, which prints to the outside.
#[derive(Drop)]
struct ScriptTyping<'a> {
    rules: &'a Rules,
    script: &'a Script,
}

impl<'a, O: Sink> Work<O> for ScriptTyping<'a> {
    ghost use Rattle.std.specs.Prelude.{⊤};
    ghost use Rattle.skk_outside.specs.Moved.{moved_sink};
    ghost use Rattle.skk_top.specs.Typing.{TypesOut};

    type Left = Result<(), RunFault>;

    ghost fits = { λ work. ⊤ };

    ghost leaves = { λ work out out' said said' ended. TypesOut work.rules.now work.script.now ended said said'
        (moved_sink O.Outside out out') };

    fn work<C: Caller>(self, alloc: Global, caller: &mut C, out: &mut O) -> Result<(), RunFault> {
        type_script(alloc, self.rules, self.script.lines(), caller, out)
    }
}
