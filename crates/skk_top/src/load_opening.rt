ghost use Rattle.std.specs.Prelude.{◌≡◌, ◌≤◌, None, IfOk, IfErr};
ghost use Rattle.std.specs.Io.KnownBytes.{Keeps as keeps_bytes};
ghost use Rattle.skk_outside.specs.Moved.{MovedSink};
ghost use Rattle.learned_store.specs.Stores.{opening_now, Keeps};
ghost use Rattle.caller_work.specs.Disks.{disk_now, RunsOver};
ghost use Rattle.skk_top.specs.Disks.{moved_disk, IsOpening, RefusesLearned, StandsSince};
ghost use Rattle.run_endings.specs.Finishes.{EndsUnbegun};
ghost use Rattle.skk_top.specs.LoadCommand.{load_files};
ghost use Rattle.run_endings.specs.declared.finish.Run.{Run as run_value};

use command_line::LIMIT;
use dict_layers::System;
use learned_store::{Store, files_are_recovered_in_one_way};
use load_input::load_dictionary;
use run_endings::{Run, RunFault};
use skk_calls::Books;
use skk_disk::Disk;
use skk_text::Memory;
use std::alloc::Global;

/// Opens the learned file of a load over its dictionary, with the greatest limit.
pub fn open_load<D: Disk>(alloc: Global, disk: D) -> Result<Store<D>, Run<D>>
    ensures opened { IfOk result (λ store. (run : run_value _) → IsOpening
        (moved_disk D.Disk disk run.disk) load_files 268435456 (opening_now D.Disk store)) }
    ensures ends { IfErr result (λ run. (out : MovedSink) → keeps_bytes out.written out.written'
        → EndsUnbegun (RefusesLearned (moved_disk D.Disk disk run.disk)) run out) }
    ensures stands { IfOk result (λ store. (run : run_value _) → RunsOver store.state run.chronicle
        (disk_now D.Disk store.journal.disk) (disk_now D.Disk run.disk)
        → StandsSince run.chronicle (moved_disk D.Disk disk run.disk)) }
    ensures ended_stands { IfErr result (λ run. StandsSince run.chronicle (moved_disk D.Disk disk run.disk)) }
    ensures calm { IfOk result (λ store. Keeps D.Disk store.journal store.state None) }
    ensures counted { IfOk result (λ store. D.faults disk ≤ D.faults store.journal.disk) }
    ensures ended_counted { IfErr result (λ run. D.faults disk ≤ D.faults run.disk) }
{
    files_are_recovered_in_one_way();
    let Ok(system) = load_system(alloc) else {
        return Err(Run::without_calls(Err(RunFault::Memory), disk));
    };
    match Store::open(alloc, disk, system, LIMIT) {
        Ok(store) => Ok(store),
        Err(unopened) => Err(Run::without_calls(Err(RunFault::from(unopened.why)), unopened.disk)),
    }
}

// The system files of a load.
fn load_system(alloc: Global) -> Result<System, Memory>
    ensures { IfOk result (λ system. system ≡ load_files) }
{
    let mut books = Books::new(alloc);
    books.push(load_dictionary(alloc)?)?;
    System::of_books(alloc, books)
}
