ghost use Rattle.std.specs.Prelude.{◌≡◌, ◌≤◌, ◌⊎◌, ◌++◌, None, OnOk};
ghost use Rattle.skk_outside.specs.Moved.{moved_sink};
ghost use Rattle.learned_store.specs.Stores.{opening_now, Keeps};
ghost use Rattle.command_line.specs.Words.{with_commas};
ghost use Rattle.caller_work.specs.Disks.{disk_now, RunsOver};
ghost use Rattle.run_endings.specs.Finishes.{EndsUnbegun};
ghost use Rattle.skk_top.specs.Disks.{moved_disk, StandsSince};
ghost use Rattle.skk_top.specs.ShareCommand.{LeavesShared, SharesList, SharesOut, list_line};

use crate::opening::{end_unopened, open_learned};
use caller_work::{Work, with_caller};
use command_line::ShareOptions;
use dict_files::DictionaryFiles;
use dict_layers::System;
use learned_store::Store;
use run_endings::{Run, RunFault, end_by, print_text};
use skk_calls::{Answer, BookList, Call, Caller};
use skk_disk::Disk;
use skk_outside::Sink;
use skk_text::{Memory, Text};
use std::alloc::Global;

/// The command `share`: opens the learned file, gives a typist a list of books in one call, and prints the list that
/// stands then.
pub fn run_share<D: Disk, O: Sink>(
    alloc: Global,
    options: &ShareOptions,
    disk: D,
    out: &mut O,
) -> Run<D>
    requires { options.now.typist ≤ 65535 }
    ensures leaves { LeavesShared options.now result (moved_sink O.Outside out.old out.new)
        (moved_disk D.Disk disk result.disk) }
    ensures stands { StandsSince result.chronicle (moved_disk D.Disk disk result.disk) }
    ensures disk_counted { D.faults disk ≤ D.faults result.disk }
    ensures out_counted { O.faults out.old ≤ O.faults out.new }
{
    let Ok(system) = System::of_files(alloc, DictionaryFiles::new(alloc)) else {
        return end_unopened(RunFault::Memory, disk);
    };
    match open_learned(alloc, disk, system, options.limit()) {
        Ok(store) => share_by_one(alloc, options, store, out),
        Err(run) => run,
    }
}

// Gives the list by one caller, over a store that was just opened. A run whose call was refused ends so.
fn share_by_one<D: Disk, O: Sink>(
    alloc: Global,
    options: &ShareOptions,
    store: Store<D>,
    out: &mut O,
) -> Run<D>
    requires typist { options.now.typist ≤ 65535 }
    requires calm { Keeps D.Disk store.journal store.state None }
    ensures leaves { EndsUnbegun (λ fault. fault ≡ RunFault.Memory) result (moved_sink O.Outside out.old out.new)
        ⊎ SharesList options.now (opening_now D.Disk store) result (moved_sink O.Outside out.old out.new)
        (disk_now D.Disk result.disk) }
    ensures counted { O.faults out.old ≤ O.faults out.new }
    ensures runs { RunsOver store.state result.chronicle
        (disk_now D.Disk store.journal.disk) (disk_now D.Disk result.disk) }
{
    let sharing = Sharing {
        typist: options.typist as u16,
        books: options.books.copied(),
    };
    match with_caller(alloc, store, sharing, out) {
        Ok(worked) => Run {
            ended: end_by(worked.left, &worked.closed.tally),
            chronicle: worked.closed.chronicle,
            disk: worked.closed.disk,
        },
        Err(disk) => Run::without_calls(Err(RunFault::Memory), disk),
    }
}

// The giving of a list of books to a typist, which prints to the outside.
#[derive(Drop)]
struct Sharing {
    typist: u16,
    books: BookList,
}

impl<O: Sink> Work<O> for Sharing {
    ghost use Rattle.std.specs.Prelude.{⊤};
    ghost use Rattle.skk_outside.specs.Moved.{moved_sink};
    ghost use Rattle.skk_top.specs.ShareCommand.{SharesOut};

    type Left = Result<(), RunFault>;

    ghost fits = { λ work. ⊤ };

    ghost leaves = { λ work out out' said said' ended. SharesOut work.typist work.books ended said said'
        (moved_sink O.Outside out out') };

    fn work<C: Caller>(self, alloc: Global, caller: &mut C, out: &mut O) -> Result<(), RunFault> {
        share(alloc, self, caller, out)
    }
}

// Makes the call, and prints the line of the list where it was not refused. The line is made before the call, so that a
// list that was given is told of also where memory is out then.
fn share<C: Caller, O: Sink>(
    alloc: Global,
    sharing: Sharing,
    caller: &mut C,
    out: &mut O,
) -> Result<(), RunFault>
    ensures { SharesOut sharing.typist sharing.books result (C.said caller.old) (C.said caller.new)
        (moved_sink O.Outside out.old out.new) }
{
    let mut line = Text::new(alloc);
    push_list(&mut line, sharing.typist, &sharing.books)?;
    let call = Call::Share {
        who: sharing.typist,
        books: sharing.books,
    };
    match caller.call(alloc, &call) {
        Answer::Done(_) => print_text(out, &line),
        Answer::Refused(_) => Ok(()),
    }
}

// Adds the line of a typist and the books of the typist's list.
fn push_list(page: &mut Text, typist: u16, books: &BookList) -> Result<(), Memory>
    ensures { OnOk result (page.new ≡ page.old ++ list_line typist books.now) }
{
    page.push_str("typist ")?;
    page.push_number(typist as u64)?;
    page.push_str(" books ")?;
    push_books(page, books)?;
    page.push('\n')
}

// Adds the numbers of books, with a comma between.
fn push_books(page: &mut Text, books: &BookList) -> Result<(), Memory>
    ensures { OnOk result (page.new ≡ page.old ++ with_commas books.now) }
{
    let count = books.len();
    page.push_number(books.at(0) as u64)?;
    for place in 1..count {
        page.push(',')?;
        page.push_number(books.at(place) as u64)?;
    }
    Ok(())
}
