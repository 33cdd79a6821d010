ghost use Rattle.std.specs.Prelude.{◌≡◌, ◌≤◌, ◌+◌, None, IfOk, IfErr, IfSome, OnOk};
ghost use Rattle.std.specs.Io.KnownBytes.{IsAtEnd, Keeps as keeps_bytes};
ghost use Rattle.skk_outside.specs.Moved.{MovedSink, moved_shelf, moved_source};
ghost use Rattle.skk_outside.specs.Taken.{TakesAtMost};
ghost use Rattle.skk_outside.specs.declared.source.TheConstants.{PIECE};
ghost use Rattle.learned_store.specs.Stores.{opening_now, Keeps};
ghost use Rattle.caller_work.specs.Disks.{disk_now, RunsOver};
ghost use Rattle.skk_top.specs.Disks.{moved_disk, StandsSince};
ghost use Rattle.key_scripts.specs.Script.{IsScript, script_limit};
ghost use Rattle.skk_top.specs.TypeCommand.{RefusesScript, LeavesBegun, LeavesScript, LeavesLearned, LeavesTyped};
ghost use Rattle.run_endings.specs.declared.finish.Run.{Run as run_value};

use crate::manner::Manner;
use crate::opening::{Table, end_unopened, open_learned, read_table};
use command_line::TypeOptions;
use key_scripts::Script;
use learned_store::Store;
use romaji_rules::Rules;
use run_endings::{Run, RunFault, RunFile};
use skk_disk::Disk;
use skk_outside::{Shelf, Source, read_to_end};
use skk_text::one_list_of_keys;
use std::alloc::Global;

/// The most bytes of a script.
const SCRIPT_LIMIT: usize = 4_194_304;

/// A script that was read and is to be typed.
#[derive(Drop)]
pub struct ScriptToType<D: Disk> {
    /// The rules by which it is typed.
    pub rules: Rules,
    /// The script.
    pub script: Script,
    /// The store over which it is typed, which was just opened.
    pub store: Store<D>,
}

/// The command `type` up to the typing: reads the rules, then the dictionaries, opens the learned file, and then reads
/// a script and checks it whole. Where one of them is not had the run ends, and prints nothing. The clauses tell what
/// the run leaves whose lines are typed then.
pub fn begin<M: Manner<D>, H: Shelf, D: Disk, I: Source>(
    alloc: Global,
    options: &TypeOptions,
    shelf: &mut H,
    disk: D,
    input: &mut I,
) -> Result<ScriptToType<D>, Run<D>>
    ensures leaves { IfOk result (λ begun. (run : run_value _) (out : MovedSink)
        → LeavesBegun M.leaves (opening_now D.Disk begun.store) begun.rules begun.script run out
        (disk_now D.Disk run.disk)
        → LeavesTyped M.leaves options.now run (moved_shelf H.Shelf shelf.old shelf.new)
        (moved_source I.Outside input.old input.new) out (moved_disk D.Disk disk run.disk)) }
    ensures ends { IfErr result (λ run. (out : MovedSink) → keeps_bytes out.written out.written'
        → LeavesTyped M.leaves options.now run (moved_shelf H.Shelf shelf.old shelf.new)
        (moved_source I.Outside input.old input.new) out (moved_disk D.Disk disk run.disk)) }
    ensures stands { IfOk result (λ begun. (run : run_value _) → RunsOver begun.store.state run.chronicle
        (disk_now D.Disk begun.store.journal.disk) (disk_now D.Disk run.disk)
        → StandsSince run.chronicle (moved_disk D.Disk disk run.disk)) }
    ensures ended_stands { IfErr result (λ run. StandsSince run.chronicle (moved_disk D.Disk disk run.disk)) }
    ensures calm { IfOk result (λ begun. Keeps D.Disk begun.store.journal begun.store.state None) }
    ensures taken { TakesAtMost (I.left input.old) (I.left input.new) (script_limit + PIECE) }
    ensures shelf_counted { H.faults shelf.old ≤ H.faults shelf.new }
    ensures disk_counted { IfOk result (λ begun. D.faults disk ≤ D.faults begun.store.journal.disk) }
    ensures ended_counted { IfErr result (λ run. D.faults disk ≤ D.faults run.disk) }
    ensures input_counted { I.faults input.old ≤ I.faults input.new }
{
    match read_table(alloc, &options.rules, &options.dictionaries, shelf) {
        Ok(table) => begin_learned::<M, D, I>(alloc, options.limit(), table, disk, input),
        Err(fault) => Err(end_unopened(fault, disk)),
    }
}

// Opens the learned file, reads a script, and checks it whole.
fn begin_learned<M: Manner<D>, D: Disk, I: Source>(
    alloc: Global,
    limit: u64,
    table: Table,
    disk: D,
    input: &mut I,
) -> Result<ScriptToType<D>, Run<D>>
    ensures leaves { IfOk result (λ begun. (run : run_value _) (out : MovedSink)
        → LeavesBegun M.leaves (opening_now D.Disk begun.store) begun.rules begun.script run out
        (disk_now D.Disk run.disk)
        → LeavesLearned M.leaves limit table.system table.rules run
        (moved_source I.Outside input.old input.new) out (moved_disk D.Disk disk run.disk)) }
    ensures ends { IfErr result (λ run. (out : MovedSink) → keeps_bytes out.written out.written'
        → LeavesLearned M.leaves limit table.system table.rules run
        (moved_source I.Outside input.old input.new) out (moved_disk D.Disk disk run.disk)) }
    ensures stands { IfOk result (λ begun. (run : run_value _) → RunsOver begun.store.state run.chronicle
        (disk_now D.Disk begun.store.journal.disk) (disk_now D.Disk run.disk)
        → StandsSince run.chronicle (moved_disk D.Disk disk run.disk)) }
    ensures ended_stands { IfErr result (λ run. StandsSince run.chronicle (moved_disk D.Disk disk run.disk)) }
    ensures calm { IfOk result (λ begun. Keeps D.Disk begun.store.journal begun.store.state None) }
    ensures taken { TakesAtMost (I.left input.old) (I.left input.new) (script_limit + PIECE) }
    ensures disk_counted { IfOk result (λ begun. D.faults disk ≤ D.faults begun.store.journal.disk) }
    ensures ended_counted { IfErr result (λ run. D.faults disk ≤ D.faults run.disk) }
    ensures input_counted { I.faults input.old ≤ I.faults input.new }
{
    let Table { rules, system } = table;
    match open_learned(alloc, disk, system, limit) {
        Ok(store) => begin_script::<M, D, I>(alloc, rules, store, input),
        Err(run) => Err(run),
    }
}

// Reads a script, and checks it whole, over a store that was just opened.
fn begin_script<M: Manner<D>, D: Disk, I: Source>(
    alloc: Global,
    rules: Rules,
    store: Store<D>,
    input: &mut I,
) -> Result<ScriptToType<D>, Run<D>>
    ensures leaves { IfOk result (λ begun. (run : run_value _) (out : MovedSink)
        → LeavesBegun M.leaves (opening_now D.Disk store) rules begun.script run out (disk_now D.Disk run.disk)
        → LeavesScript M.leaves (opening_now D.Disk store) rules run (moved_source I.Outside input.old input.new) out
        (disk_now D.Disk run.disk)) }
    ensures ends { IfErr result (λ run. (out : MovedSink) → keeps_bytes out.written out.written'
        → LeavesScript M.leaves (opening_now D.Disk store) rules run (moved_source I.Outside input.old input.new) out
        (disk_now D.Disk run.disk)) }
    ensures runs { IfErr result (λ run. RunsOver store.state run.chronicle
        (disk_now D.Disk store.journal.disk) (disk_now D.Disk run.disk)) }
    ensures rules { IfOk result (λ begun. begun.rules ≡ rules) }
    ensures store { IfOk result (λ begun. begun.store ≡ store) }
    ensures taken { TakesAtMost (I.left input.old) (I.left input.new) (script_limit + PIECE) }
    ensures input_counted { I.faults input.old ≤ I.faults input.new }
{
    match read_script(alloc, input) {
        Ok(script) => Ok(ScriptToType {
            rules,
            script,
            store,
        }),
        Err(fault) => Err(Run::without_calls(Err(fault), store.close())),
    }
}

// Reads a script, and checks it whole.
fn read_script<I: Source>(alloc: Global, input: &mut I) -> Result<Script, RunFault>
    ensures script { IfOk result (λ lines. IfSome (I.left input.old) (λ bytes. IsScript bytes lines)) }
    ensures at_end { OnOk result (IsAtEnd (I.left input.new)) }
    ensures refused { IfErr result (RefusesScript (moved_source I.Outside input.old input.new)) }
    ensures taken { TakesAtMost (I.left input.old) (I.left input.new) (script_limit + PIECE) }
    ensures counted { I.faults input.old ≤ I.faults input.new }
{
    one_list_of_keys();
    match read_to_end(alloc, input, SCRIPT_LIMIT) {
        Ok(bytes) => Ok(Script::read(alloc, bytes.as_slice())?),
        Err(fault) => Err(RunFile::Script.fault_of_read(fault)),
    }
}
