ghost use Rattle.std.specs.Prelude.{◌≡◌, ◌≤◌, ◌⊎◌, None, Err, All, IfOk, OnErr, true, false};
ghost use Rattle.std.specs.Prelude.{encode_utf8_all, length};
ghost use Rattle.std.specs.Io.KnownBytes.{Keeps as keeps_bytes};
ghost use Rattle.std.specs.List.{list_all};
ghost use Rattle.std.specs.Map.{values_of};
ghost use Rattle.key_scripts.specs.Script.{opens_well};
ghost use Rattle.romaji_rules.specs.Standard.{standard};
ghost use Rattle.skk_outside.specs.Moved.{moved_sink};
ghost use Rattle.learned_store.specs.Stores.{opening_now, Keeps};
ghost use Rattle.script_typing.specs.MapLaws.{Ascend};
ghost use Rattle.script_typing.specs.Woven.{tasks_of};
ghost use Rattle.command_line.specs.Ranges.{IsLoadInRange};
ghost use Rattle.caller_work.specs.Disks.{disk_now, RunsOver};
ghost use Rattle.skk_top.specs.Disks.{moved_disk, StandsSince};
ghost use Rattle.run_endings.specs.Finishes.{EndsUnbegun};
ghost use Rattle.skk_top.specs.LoadCommand.{load_lines, summed, LeavesLoaded, LoadsTasks};
ghost use Rattle.run_endings.specs.Page.{LeavesPrinted};

use crate::load_command::{Load, draw_load};
use crate::load_opening::open_load;
use crate::summary::print_summary;
use crate::typed_tasks::type_by_callers;
use command_line::LoadOptions;
use key_scripts::Line;
use learned_store::Store;
use romaji_rules::Rules;
use run_endings::{Run, RunFault, end_by};
use script_typing::{
    Host, Typed, callers_have_asked, callers_have_ended, cut_lines,
    sessions_of_their_own_are_apart, typists_apart_play_alone,
};
use skk_calls::Tally;
use skk_disk::Disk;
use skk_outside::{Gate, Sink};
use skk_text::{Memory, Sequence};
use std::alloc::Global;
use std::collections::BTreeMap;
use std::sync::Wait;
use std::thread::Threads;

/// What is played where each session has a caller of its own: the rules by which the keys of a load are read, and the
/// lines of each session.
#[derive(Drop)]
struct SharedTasks {
    rules: Rules,
    tasks: BTreeMap<u8, Sequence<Line>>,
}

/// The command `load` where each session has a caller of its own: opens the learned file, draws the lines, plays them,
/// and prints a summary.
pub fn run_load_by_each<
    D: Disk + Drop + Send,
    O: Sink,
    R: Threads + Wait + Copy + Send + Sync,
    G: Gate + Sync,
>(host: &Host<'_, R, G>, options: LoadOptions, disk: D, out: &mut O) -> Run<D>
    requires range { IsLoadInRange options }
    ensures leaves { LeavesLoaded (LoadsTasks options) result (moved_sink O.Outside out.old out.new)
        (moved_disk D.Disk disk result.disk) }
    ensures stands { StandsSince result.chronicle (moved_disk D.Disk disk result.disk) }
    ensures disk_counted { D.faults disk ≤ D.faults result.disk }
    ensures out_counted { O.faults out.old ≤ O.faults out.new }
{
    match open_load(host.alloc, disk) {
        Ok(store) => load_by_each(host, options, store, out),
        Err(run) => run,
    }
}

// Draws the lines of a load, and plays them by a caller for each session over a store that was just opened.
fn load_by_each<
    D: Disk + Drop + Send,
    O: Sink,
    R: Threads + Wait + Copy + Send + Sync,
    G: Gate + Sync,
>(host: &Host<'_, R, G>, options: LoadOptions, store: Store<D>, out: &mut O) -> Run<D>
    requires sessions { options.sessions ≤ 64 }
    requires lines { options.lines ≤ 20000 }
    requires calm { Keeps D.Disk store.journal store.state None }
    ensures leaves { EndsUnbegun (λ fault. fault ≡ RunFault.Memory) result (moved_sink O.Outside out.old out.new)
        ⊎ LoadsTasks options (opening_now D.Disk store) result (moved_sink O.Outside out.old out.new)
        (disk_now D.Disk result.disk) }
    ensures counted { O.faults out.old ≤ O.faults out.new }
    ensures runs { RunsOver store.state result.chronicle
        (disk_now D.Disk store.journal.disk) (disk_now D.Disk result.disk) }
{
    callers_have_asked();
    callers_have_ended();
    sessions_of_their_own_are_apart();
    typists_apart_play_alone();
    let Ok(shared) = share_load(host.alloc, options) else {
        return Run::without_calls(Err(RunFault::Memory), store.close());
    };
    let SharedTasks { rules, tasks } = shared;
    match type_by_callers(host, &rules, tasks, store) {
        Ok(left) => {
            let ended = sum_up_typed(host.alloc, &options, left.typed, &left.closed.tally, out);
            Run {
                ended: end_by(ended, &left.closed.tally),
                chronicle: left.closed.chronicle,
                disk: left.closed.disk,
            }
        }
        Err(disk) => Run::without_calls(Err(RunFault::Memory), disk),
    }
}

// Draws the lines of a load and cuts them among their sessions.
fn share_load(alloc: Global, options: LoadOptions) -> Result<SharedTasks, Memory>
    requires { options.sessions ≤ 64 }
    ensures rules { IfOk result (λ shared. shared.rules ≡ standard) }
    ensures tasks { IfOk result (λ shared. shared.tasks.entries ≡ tasks_of (load_lines options)) }
    ensures ascend { IfOk result (λ shared. Ascend shared.tasks.entries) }
    ensures few { IfOk result (λ shared. length shared.tasks.entries ≤ 256) }
    ensures opens { IfOk result (λ shared. All (λ lines. list_all opens_well lines ≡ true)
        (values_of shared.tasks.entries)) }
{
    let Load { rules, lines } = draw_load(alloc, options)?;
    let tasks = cut_lines(alloc, lines.into_vec())?.tasks;
    Ok(SharedTasks { rules, tasks })
}

// Prints the summary of a load that was played by workers, where memory was not out behind that or for one of them.
fn sum_up_typed<O: Sink>(
    alloc: Global,
    options: &LoadOptions,
    typed: Result<Typed, Memory>,
    tally: &Tally,
    out: &mut O,
) -> Result<(), RunFault>
    requires sessions { options.now.sessions ≤ 64 }
    requires lines { options.now.lines ≤ 20000 }
    ensures whole { IfOk typed (λ left. left.whole ≡ true → LeavesPrinted
        (encode_utf8_all (summed options.now tally.now left.sessions.entries)) result
        (moved_sink O.Outside out.old out.new)) }
    ensures cut { IfOk typed (λ left. left.whole ≡ false
        → (result ≡ Err RunFault.Memory) × keeps_bytes (O.written out.old) (O.written out.new)) }
    ensures none { OnErr typed ((result ≡ Err RunFault.Memory) × keeps_bytes (O.written out.old) (O.written out.new)) }
    ensures counted { O.faults out.old ≤ O.faults out.new }
{
    let typed = typed?;
    if !typed.whole {
        return Err(RunFault::Memory);
    }
    print_summary(alloc, options, tally, &typed.sessions, out)
}
