ghost use Rattle.std.specs.Prelude.{◌≡◌, ◌≤◌, [], encode_utf8_all};
ghost use Rattle.dict_format.specs.PrintedFiles.{printed_file};
ghost use Rattle.skk_calls.specs.States.{rows_of};
ghost use Rattle.skk_outside.specs.Moved.{moved_sink};
ghost use Rattle.skk_top.specs.Disks.{moved_disk, StandsSince};
ghost use Rattle.skk_top.specs.DumpCommand.{LeavesDumped};
ghost use Rattle.run_endings.specs.Page.{LeavesPrinted};

use command_line::{DumpOptions, LIMIT};
use dict_files::DictionaryFiles;
use dict_layers::System;
use learned_store::{Store, files_are_recovered_in_one_way};
use run_endings::{Run, RunFault, print_text};
use skk_disk::Disk;
use skk_outside::Sink;
use std::alloc::Global;

/// The command `dump`: opens the learned file, and prints a book of it as a dictionary file.
pub fn run_dump<D: Disk, O: Sink>(
    alloc: Global,
    options: &DumpOptions,
    disk: D,
    out: &mut O,
) -> Run<D>
    requires { options.now.book ≤ 65535 }
    ensures leaves { LeavesDumped options.now result (moved_sink O.Outside out.old out.new)
        (moved_disk D.Disk disk result.disk) }
    ensures uncalled { result.chronicle ≡ [] }
    ensures stands { StandsSince result.chronicle (moved_disk D.Disk disk result.disk) }
    ensures disk_counted { D.faults disk ≤ D.faults result.disk }
    ensures out_counted { O.faults out.old ≤ O.faults out.new }
{
    files_are_recovered_in_one_way();
    let Ok(system) = System::of_files(alloc, DictionaryFiles::new(alloc)) else {
        return Run::without_calls(Err(RunFault::Memory), disk);
    };
    match Store::open(alloc, disk, system, LIMIT) {
        Ok(store) => {
            let ended = print_book(alloc, &store, options.book as u16, out);
            Run::without_calls(ended, store.close())
        }
        Err(unopened) => Run::without_calls(Err(RunFault::from(unopened.why)), unopened.disk),
    }
}

// Prints a book of a store as a dictionary file.
fn print_book<D, O: Sink>(
    alloc: Global,
    store: &Store<D>,
    number: u16,
    out: &mut O,
) -> Result<(), RunFault>
    ensures { LeavesPrinted (encode_utf8_all (printed_file (rows_of store.now.state number))) result
        (moved_sink O.Outside out.old out.new) }
{
    let text = store.dump(alloc, number)?;
    print_text(out, &text)
}
