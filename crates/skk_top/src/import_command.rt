ghost use Rattle.std.specs.Prelude.{◌≡◌, ◌≤◌, ◌⊎◌, ◌∷◌, [], None};
ghost use Rattle.skk_outside.specs.Moved.{Told, moved_shelf, moved_sink};
ghost use Rattle.learned_store.specs.Stores.{Keeps, opening_now};
ghost use Rattle.caller_work.specs.Disks.{RunsOver, disk_now};
ghost use Rattle.run_endings.specs.Finishes.{EndsUnbegun};
ghost use Rattle.skk_top.specs.Dictionaries.{AreRowsOf};
ghost use Rattle.skk_top.specs.Disks.{RefusesLearned, moved_disk};
ghost use Rattle.skk_top.specs.ImportCommand.{ImportsOpened, LearnsInGroups, LearnsRows, LeavesImported};
ghost use Rattle.skk_top.specs.ImportCommand.{StandsBehind, StandsImported, TellsImport, fault_of_import};

use crate::dictionary::read_dictionary;
use crate::opening::{end_unopened, open_learned};
use batch_store::{Batch, GroupFault, ImportFault, import};
use command_line::ImportOptions;
use dict_files::DictionaryFiles;
use dict_layers::System;
use learned_store::Store;
use run_endings::{Run, RunFault, print_numbered};
use skk_calls::Book;
use skk_disk::Disk;
use skk_outside::{Shelf, Sink};
use std::alloc::Global;

/// The command `import`: reads a dictionary, opens the learned file, and learns the candidates of the dictionary into a
/// book, in groups. The bad lines of the dictionary are passed over. Prints how many candidates were learnt where all
/// were, or the learned file was full.
pub fn run_import<H: Shelf, D: Disk, O: Sink>(
    alloc: Global,
    options: &ImportOptions,
    shelf: &mut H,
    disk: D,
    out: &mut O,
) -> Run<D>
    requires { options.now.book ≤ 65535 }
    ensures leaves { LeavesImported options.now result (moved_shelf H.Shelf shelf.old shelf.new)
        (moved_sink O.Outside out.old out.new) (moved_disk D.Disk disk result.disk) }
    ensures stands { StandsImported options.now (H.file shelf.old options.now.file) result.chronicle
        (moved_disk D.Disk disk result.disk) }
    ensures shelf_counted { H.faults shelf.old ≤ H.faults shelf.new }
    ensures disk_counted { D.faults disk ≤ D.faults result.disk }
    ensures out_counted { O.faults out.old ≤ O.faults out.new }
{
    match read_dictionary(alloc, shelf, &options.file, 1) {
        Ok(listed) => import_rows(alloc, options, &listed.book, disk, out),
        Err(fault) => end_unopened(fault, disk),
    }
}

// Opens the learned file, and learns the candidates of rows.
fn import_rows<D: Disk, O: Sink>(
    alloc: Global,
    options: &ImportOptions,
    book: &Book,
    disk: D,
    out: &mut O,
) -> Run<D>
    requires { options.now.book ≤ 65535 }
    ensures leaves { EndsUnbegun (RefusesLearned (moved_disk D.Disk disk result.disk)) result
        (moved_sink O.Outside out.old out.new)
        ⊎ ImportsOpened options.now book.now result (moved_sink O.Outside out.old out.new)
        (moved_disk D.Disk disk result.disk) }
    ensures stands { (file : Told) → AreRowsOf (book.now ∷ []) (file ∷ [])
        → StandsImported options.now file result.chronicle (moved_disk D.Disk disk result.disk) }
    ensures disk_counted { D.faults disk ≤ D.faults result.disk }
    ensures out_counted { O.faults out.old ≤ O.faults out.new }
{
    let Ok(system) = System::of_files(alloc, DictionaryFiles::new(alloc)) else {
        return end_unopened(RunFault::Memory, disk);
    };
    match open_learned(alloc, disk, system, options.limit()) {
        Ok(store) => import_over(alloc, options.book as u16, book, store, out),
        Err(run) => run,
    }
}

// Learns the candidates of rows over a store that was just opened.
fn import_over<D: Disk, O: Sink>(
    alloc: Global,
    number: u16,
    book: &Book,
    store: Store<D>,
    out: &mut O,
) -> Run<D>
    requires calm { Keeps D.Disk store.journal store.state None }
    ensures leaves { EndsUnbegun (λ fault. fault ≡ RunFault.Memory) result (moved_sink O.Outside out.old out.new)
        ⊎ LearnsRows number book.now (opening_now D.Disk store) result (moved_sink O.Outside out.old out.new)
        (disk_now D.Disk result.disk) }
    ensures stands { (result.chronicle ≡ []) × RunsOver store.state result.chronicle
        (disk_now D.Disk store.journal.disk) (disk_now D.Disk result.disk)
        ⊎ LearnsInGroups number book.now (opening_now D.Disk store) result.chronicle
        (λ lists. StandsBehind store.state lists
        (disk_now D.Disk store.journal.disk) (disk_now D.Disk result.disk)) }
    ensures disk_counted { D.faults store.journal.disk ≤ D.faults result.disk }
    ensures out_counted { O.faults out.old ≤ O.faults out.new }
{
    match Batch::of_parts(alloc, store.into_parts()) {
        Ok(mut batch) => {
            let done = import(alloc, &mut batch, number, book);
            let closed = batch.close();
            Run {
                ended: end_import(done, closed.tally.learned(), out),
                chronicle: closed.chronicle,
                disk: closed.disk,
            }
        }
        Err(parts) => Run::without_calls(Err(RunFault::Memory), parts.journal.close()),
    }
}

// Tells how many candidates were learnt, where all were or the learned file was full.
fn end_import<O: Sink>(
    done: Result<(), ImportFault>,
    learned: u64,
    out: &mut O,
) -> Result<(), RunFault>
    ensures tells { TellsImport done learned result (moved_sink O.Outside out.old out.new) }
    ensures counted { O.faults out.old ≤ O.faults out.new }
{
    match done {
        Ok(()) => print_numbered(out, b"imported ", learned),
        Err(ImportFault::Refused(GroupFault::Full { .. })) => {
            print_numbered(out, b"imported ", learned)?;
            Err(RunFault::JournalFull)
        }
        Err(fault) => Err(fault_of_import(fault)),
    }
}

// What it is for the run that an import ended before its end.
fn fault_of_import(fault: ImportFault) -> RunFault
    ensures { result ≡ fault_of_import fault }
{
    match fault {
        ImportFault::StampsEnd => RunFault::StampsEnd,
        ImportFault::Refused(GroupFault::Memory) => RunFault::Memory,
        ImportFault::Refused(GroupFault::Full { .. }) => RunFault::JournalFull,
        ImportFault::Refused(GroupFault::Disk) => RunFault::Outside,
    }
}
