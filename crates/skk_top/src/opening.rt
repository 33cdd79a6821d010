ghost use Rattle.std.specs.Prelude.{◌≡◌, ◌≤◌, [], None, Err, List, IfOk, IfErr, IsErrAnd};
ghost use Rattle.skk_outside.specs.Moved.{moved_shelf};
ghost use Rattle.skk_calls.specs.declared.chronicle.Noted.{Noted};
ghost use Rattle.learned_store.specs.Stores.{opening_now, Keeps};
ghost use Rattle.skk_top.specs.Dictionaries.{AreRowsOf};
ghost use Rattle.caller_work.specs.Disks.{disk_now, RunsOver};
ghost use Rattle.skk_top.specs.Disks.{moved_disk, IsOpening, RefusesLearned, StandsSince};
ghost use Rattle.skk_top.specs.ImportCommand.{StandsBehind, StandsSinceInPieces};
ghost use Rattle.skk_top.specs.NamedFiles.{rules_named, dictionaries_named, RefusesNamed};
ghost use Rattle.skk_top.specs.RunRules.{AreRules};
ghost use Rattle.run_endings.specs.declared.finish.Run.{Run as run_value};

use crate::dictionary::open_dictionaries;
use crate::rule_file::read_rules;
use arrayvec::ArrayVec;
use command_line::{DICTIONARIES, Word};
use dict_layers::System;
use learned_store::{Store, files_are_recovered_in_one_way};
use romaji_rules::Rules;
use run_endings::{Run, RunFault};
use skk_disk::Disk;
use skk_outside::Shelf;
use std::alloc::Global;

/// What the files that a run names have.
#[derive(Drop)]
pub struct Table {
    /// The rules by which is typed.
    pub rules: Rules,
    /// The rows of the dictionaries.
    pub system: System,
}

/// Reads the rules, the standard table where no file of them is named, and then the dictionaries, and keeps their rows
/// as system files.
pub fn read_table<H: Shelf>(
    alloc: Global,
    rules: &Option<Word>,
    dictionaries: &ArrayVec<Word, DICTIONARIES>,
    shelf: &mut H,
) -> Result<Table, RunFault>
    ensures rules { IfOk result
        (λ table. AreRules (rules_named rules.now (moved_shelf H.Shelf shelf.old shelf.new)) table.rules) }
    ensures rows { IfOk result (λ table. AreRowsOf table.system
        (dictionaries_named dictionaries.now.items (moved_shelf H.Shelf shelf.old shelf.new))) }
    ensures refused { IfErr result
        (RefusesNamed rules.now dictionaries.now.items (moved_shelf H.Shelf shelf.old shelf.new)) }
    ensures counted { H.faults shelf.old ≤ H.faults shelf.new }
{
    let rules = read_rules(alloc, shelf, rules)?;
    let files = open_dictionaries(alloc, shelf, dictionaries.as_slice())?;
    let system = System::of_files(alloc, files)?;
    Ok(Table { rules, system })
}

/// Ends a run that has not touched its disk, and made no call.
pub fn end_unopened<D: Disk>(fault: RunFault, disk: D) -> Run<D>
    ensures run { result ≡ record { ended = Err fault; chronicle = []; disk = disk } }
    ensures stands { StandsSince result.chronicle (moved_disk D.Disk disk result.disk) }
{
    Run::without_calls(Err(fault), disk)
}

/// Opens the learned file of a run over system files. Where it is refused the run ends, and made no call. The clauses
/// tell what the run leaves of the disk that goes on over the store.
pub fn open_learned<D: Disk>(
    alloc: Global,
    disk: D,
    system: System,
    limit: u64,
) -> Result<Store<D>, Run<D>>
    ensures opened { IfOk result (λ store. (run : run_value _) → IsOpening
        (moved_disk D.Disk disk run.disk) system limit (opening_now D.Disk store)) }
    ensures stands { IfOk result (λ store. (run : run_value _) → RunsOver store.state run.chronicle
        (disk_now D.Disk store.journal.disk) (disk_now D.Disk run.disk)
        → StandsSince run.chronicle (moved_disk D.Disk disk run.disk)) }
    ensures stands_in_pieces { IfOk result (λ store. (run : run_value _) (lists : List (List Noted))
        → StandsBehind store.state lists (disk_now D.Disk store.journal.disk) (disk_now D.Disk run.disk)
        → StandsSinceInPieces lists (moved_disk D.Disk disk run.disk)) }
    ensures calm { IfOk result (λ store. Keeps D.Disk store.journal store.state None) }
    ensures counted { IfOk result (λ store. D.faults disk ≤ D.faults store.journal.disk) }
    ensures refused { IfErr result (λ run. IsErrAnd run.ended (RefusesLearned (moved_disk D.Disk disk run.disk))) }
    ensures uncalled { IfErr result (λ run. run.chronicle ≡ []) }
    ensures ended_stands { IfErr result (λ run. StandsSince run.chronicle (moved_disk D.Disk disk run.disk)) }
    ensures ended_counted { IfErr result (λ run. D.faults disk ≤ D.faults run.disk) }
{
    files_are_recovered_in_one_way();
    match Store::open(alloc, disk, system, limit) {
        Ok(store) => Ok(store),
        Err(unopened) => Err(Run::without_calls(Err(RunFault::from(unopened.why)), unopened.disk)),
    }
}
