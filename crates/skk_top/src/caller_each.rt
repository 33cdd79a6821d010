ghost use Rattle.std.specs.Prelude.{◌≡◌, ◌≤◌, ◌+◌, None, Err, true, All, IfOk, OnErr, length};
ghost use Rattle.std.specs.Io.KnownBytes.{Keeps as keeps_bytes};
ghost use Rattle.std.specs.List.{list_all};
ghost use Rattle.std.specs.Map.{values_of};
ghost use Rattle.key_scripts.specs.Script.{opens_well, script_limit};
ghost use Rattle.skk_outside.specs.Moved.{moved_shelf, moved_sink, moved_source};
ghost use Rattle.skk_outside.specs.Taken.{TakesAtMost};
ghost use Rattle.skk_outside.specs.declared.source.TheConstants.{PIECE};
ghost use Rattle.learned_store.specs.Stores.{opening_now, Keeps};
ghost use Rattle.script_typing.specs.MapLaws.{Ascend};
ghost use Rattle.caller_work.specs.Disks.{disk_now, RunsOver};
ghost use Rattle.skk_top.specs.Disks.{moved_disk, StandsSince};
ghost use Rattle.skk_top.specs.TypeCommand.{LeavesBegun, LeavesTyped};
ghost use Rattle.skk_top.specs.WeaveCommand.{AreCutOf, LeavesPages, WeavesLines};

use crate::manner::Manner;
use crate::type_command::{ScriptToType, begin};
use crate::typed_tasks::type_by_callers;
use crate::weaving::print_woven;
use command_line::TypeOptions;
use key_scripts::Script;
use run_endings::{Run, RunFault, end_by};
use script_typing::{
    Cut, Host, Typed, callers_have_asked, callers_have_ended, cut_script, pages_are_woven,
    typists_apart_type_alone,
};
use skk_disk::Disk;
use skk_outside::{Gate, Shelf, Sink, Source};
use skk_text::Memory;
use std::alloc::Global;
use std::sync::Wait;
use std::thread::Threads;

/// The calls of each session are made by a caller of its own.
pub struct CallerEach;

impl<D: Disk> Manner<D> for CallerEach {
    ghost leaves = { WeavesLines };
}

/// The command `type` where each session has a caller of its own: begins as `begin` does, and types the script.
pub fn run_by_each<
    H: Shelf,
    D: Disk + Drop + Send,
    I: Source,
    O: Sink,
    R: Threads + Wait + Copy + Send + Sync,
    G: Gate + Sync,
>(
    host: &Host<'_, R, G>,
    options: &TypeOptions,
    shelf: &mut H,
    disk: D,
    input: &mut I,
    out: &mut O,
) -> Run<D>
    ensures leaves { LeavesTyped WeavesLines options.now result (moved_shelf H.Shelf shelf.old shelf.new)
        (moved_source I.Outside input.old input.new) (moved_sink O.Outside out.old out.new)
        (moved_disk D.Disk disk result.disk) }
    ensures stands { StandsSince result.chronicle (moved_disk D.Disk disk result.disk) }
    ensures taken { TakesAtMost (I.left input.old) (I.left input.new) (script_limit + PIECE) }
    ensures shelf_counted { H.faults shelf.old ≤ H.faults shelf.new }
    ensures disk_counted { D.faults disk ≤ D.faults result.disk }
    ensures input_counted { I.faults input.old ≤ I.faults input.new }
    ensures out_counted { O.faults out.old ≤ O.faults out.new }
{
    match begin::<CallerEach, H, D, I>(host.alloc, options, shelf, disk, input) {
        Ok(begun) => type_by_each(host, begun, out),
        Err(run) => run,
    }
}

// Types a script by a caller for each session, in a thread of its own where one can be started. A run of which a call
// was refused ends so where nothing else ended it before.
fn type_by_each<
    D: Disk + Drop + Send,
    O: Sink,
    R: Threads + Wait + Copy + Send + Sync,
    G: Gate + Sync,
>(host: &Host<'_, R, G>, begun: ScriptToType<D>, out: &mut O) -> Run<D>
    requires calm { Keeps D.Disk begun.store.journal begun.store.state None }
    ensures leaves { LeavesBegun WeavesLines (opening_now D.Disk begun.store) begun.rules begun.script result
        (moved_sink O.Outside out.old out.new) (disk_now D.Disk result.disk) }
    ensures counted { O.faults out.old ≤ O.faults out.new }
    ensures runs { RunsOver begun.store.state result.chronicle
        (disk_now D.Disk begun.store.journal.disk) (disk_now D.Disk result.disk) }
{
    callers_have_asked();
    callers_have_ended();
    pages_are_woven();
    typists_apart_type_alone();
    let ScriptToType {
        rules,
        script,
        store,
    } = begun;
    let Ok(cut) = cut_apart(host.alloc, script) else {
        return Run::without_calls(Err(RunFault::Memory), store.close());
    };
    match type_by_callers(host, &rules, cut.tasks, store) {
        Ok(left) => {
            let ended = print_typed(host.alloc, cut.order.as_slice(), left.typed, out);
            Run {
                ended: end_by(ended, &left.closed.tally),
                chronicle: left.closed.chronicle,
                disk: left.closed.disk,
            }
        }
        Err(disk) => Run::without_calls(Err(RunFault::Memory), disk),
    }
}

// Cuts a script among its sessions.
fn cut_apart(alloc: Global, script: Script) -> Result<Cut, Memory>
    ensures cut { IfOk result (λ cut. AreCutOf script cut.tasks.entries cut.order.items) }
    ensures ascend { IfOk result (λ cut. Ascend cut.tasks.entries) }
    ensures few { IfOk result (λ cut. length cut.tasks.entries ≤ 256) }
    ensures opens { IfOk result (λ cut. All (λ lines. list_all opens_well lines ≡ true)
        (values_of cut.tasks.entries)) }
{
    cut_script(alloc, script)
}

// Prints what was typed, where memory was not out behind that.
fn print_typed<O: Sink>(
    alloc: Global,
    order: &[u8],
    typed: Result<Typed, Memory>,
    out: &mut O,
) -> Result<(), RunFault>
    ensures some { IfOk typed (λ left. LeavesPages order.now left result (moved_sink O.Outside out.old out.new)) }
    ensures none { OnErr typed ((result ≡ Err RunFault.Memory) × keeps_bytes (O.written out.old) (O.written out.new)) }
    ensures counted { O.faults out.old ≤ O.faults out.new }
{
    print_woven(alloc, order, typed?, out)
}
