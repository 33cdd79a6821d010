ghost use Rattle.std.specs.Prelude.{◌≡◌, ◌≤◌, ◌⊎◌, [], None, Err, IfOk, OnErr, OnOk};
ghost use Rattle.std.specs.Prelude.{encode_utf8_all};
ghost use Rattle.std.specs.Io.KnownBytes.{Keeps as keeps_bytes};
ghost use Rattle.skk_outside.specs.Moved.{moved_sink};
ghost use Rattle.romaji_rules.specs.Standard.{standard};
ghost use Rattle.learned_store.specs.Stores.{opening_now, Keeps};
ghost use Rattle.command_line.specs.Ranges.{IsLoadInRange};
ghost use Rattle.caller_work.specs.Disks.{disk_now, RunsOver};
ghost use Rattle.skk_top.specs.Disks.{moved_disk, StandsSince};
ghost use Rattle.run_endings.specs.Finishes.{EndsUnbegun};
ghost use Rattle.skk_top.specs.LoadCommand.{load_lines, summed, LeavesLoaded, LoadsLines};
ghost use Rattle.run_endings.specs.Page.{LeavesPrinted};

use crate::load_opening::open_load;
use crate::summary::print_summary;
use caller_work::{Work, with_caller};
use command_line::LoadOptions;
use key_scripts::Line;
use learned_store::Store;
use load_input::draw_lines;
use romaji_rules::Rules;
use run_endings::{Run, RunFault, end_by};
use script_typing::play_lines;
use session_machine::Session;
use skk_calls::{Caller, Tally};
use skk_disk::Disk;
use skk_outside::Sink;
use skk_text::{Memory, Sequence};
use std::alloc::Global;
use std::collections::BTreeMap;

/// What is played: the lines of a load, and the rules by which their keys are read.
#[derive(Drop)]
pub struct Load {
    pub rules: Rules,
    pub lines: Sequence<Line>,
}

/// The command `load` where one caller makes all calls: opens the learned file, draws the lines, plays them, and prints
/// a summary.
pub fn run_load_by_one<D: Disk, O: Sink>(
    alloc: Global,
    options: LoadOptions,
    disk: D,
    out: &mut O,
) -> Run<D>
    requires { IsLoadInRange options }
    ensures leaves { LeavesLoaded (LoadsLines options) result (moved_sink O.Outside out.old out.new)
        (moved_disk D.Disk disk result.disk) }
    ensures stands { StandsSince result.chronicle (moved_disk D.Disk disk result.disk) }
    ensures disk_counted { D.faults disk ≤ D.faults result.disk }
    ensures out_counted { O.faults out.old ≤ O.faults out.new }
{
    match open_load(alloc, disk) {
        Ok(store) => load_by_one(alloc, options, store, out),
        Err(run) => run,
    }
}

// Draws the lines of a load, and plays them by one caller over a store that was just opened.
fn load_by_one<D: Disk, O: Sink>(
    alloc: Global,
    options: LoadOptions,
    store: Store<D>,
    out: &mut O,
) -> Run<D>
    requires sessions { options.sessions ≤ 64 }
    requires lines { options.lines ≤ 20000 }
    requires calm { Keeps D.Disk store.journal store.state None }
    ensures leaves { EndsUnbegun (λ fault. fault ≡ RunFault.Memory) result (moved_sink O.Outside out.old out.new)
        ⊎ LoadsLines options (opening_now D.Disk store) result (moved_sink O.Outside out.old out.new)
        (disk_now D.Disk result.disk) }
    ensures counted { O.faults out.old ≤ O.faults out.new }
    ensures runs { RunsOver store.state result.chronicle
        (disk_now D.Disk store.journal.disk) (disk_now D.Disk result.disk) }
{
    let Ok(load) = draw_load(alloc, options) else {
        return Run::without_calls(Err(RunFault::Memory), store.close());
    };
    let playing = Playing {
        rules: &load.rules,
        lines: load.lines.as_slice(),
    };
    match with_caller(alloc, store, playing, &mut ()) {
        Ok(worked) => {
            let PlayedLines { ended, sessions } = worked.left;
            let tally = worked.closed.tally;
            let summed = sum_up(alloc, &options, ended, &tally, &sessions, out);
            Run {
                ended: end_by(summed, &tally),
                chronicle: worked.closed.chronicle,
                disk: worked.closed.disk,
            }
        }
        Err(disk) => Run::without_calls(Err(RunFault::Memory), disk),
    }
}

// Lines that are to be played by some rules.
#[derive(Drop)]
struct Playing<'a> {
    rules: &'a Rules,
    lines: &'a [Line],
}

// What is left of lines that were played: how that ended, and their sessions.
#[derive(Drop)]
struct PlayedLines {
    ended: Result<(), Memory>,
    sessions: BTreeMap<u8, Session>,
}

impl<'a> Work<()> for Playing<'a> {
    ghost use Rattle.std.specs.Prelude.{◌≡◌, [], true};
    ghost use Rattle.std.specs.List.{list_all};
    ghost use Rattle.key_scripts.specs.Script.{opens_well};
    ghost use Rattle.script_typing.specs.Lines.{PlaysLines};

    type Left = PlayedLines;

    ghost fits = { λ work. list_all opens_well work.lines.now ≡ true };

    ghost leaves = { λ work old new said said' left. PlaysLines work.rules.now work.lines.now left.ended []
        left.sessions.entries said said' };

    fn work<C: Caller>(self, alloc: Global, caller: &mut C, _outside: &mut ()) -> PlayedLines {
        let mut sessions = BTreeMap::new(alloc);
        let ended = play_lines(alloc, self.rules, self.lines, &mut sessions, caller);
        PlayedLines { ended, sessions }
    }
}

/// Draws the lines of a load.
pub fn draw_load(alloc: Global, options: LoadOptions) -> Result<Load, Memory>
    requires { options.sessions ≤ 64 }
    ensures rules { IfOk result (λ load. load.rules ≡ standard) }
    ensures lines { IfOk result (λ load. load.lines ≡ load_lines options) }
{
    let rules = Rules::standard(alloc)?;
    let lines = draw_lines(alloc, options.seed, options.sessions as u8, options.lines)?;
    Ok(Load { rules, lines })
}

// Prints the summary of a load that was played, where memory was not out behind that.
fn sum_up<O: Sink>(
    alloc: Global,
    options: &LoadOptions,
    played: Result<(), Memory>,
    tally: &Tally,
    sessions: &BTreeMap<u8, Session>,
    out: &mut O,
) -> Result<(), RunFault>
    requires sessions { options.now.sessions ≤ 64 }
    requires lines { options.now.lines ≤ 20000 }
    ensures some { OnOk played (LeavesPrinted
        (encode_utf8_all (summed options.now tally.now sessions.now.entries)) result
        (moved_sink O.Outside out.old out.new)) }
    ensures none { OnErr played ((result ≡ Err RunFault.Memory) × keeps_bytes (O.written out.old) (O.written out.new)) }
    ensures counted { O.faults out.old ≤ O.faults out.new }
{
    played?;
    print_summary(alloc, options, tally, sessions, out)
}
