ghost use Rattle.std.specs.Prelude.{◌≡◌, ◌≤◌, []};
ghost use Rattle.skk_outside.specs.Moved.{moved_shelf, moved_sink};
ghost use Rattle.skk_top.specs.CheckCommand.{LeavesChecked};

use crate::checking::print_listed;
use crate::dictionary::read_dictionary;
use command_line::Word;
use run_endings::Run;
use skk_outside::{Shelf, Sink};
use std::alloc::Global;

/// The command `check`: reads the file of this name as dictionary 1, and prints its bad lines and what it lists. The
/// disk is not touched.
pub fn run_check<H: Shelf, D, O: Sink>(
    alloc: Global,
    name: &Word,
    shelf: &mut H,
    disk: D,
    out: &mut O,
) -> Run<D>
    ensures leaves { LeavesChecked name.now result
        (moved_shelf H.Shelf shelf.old shelf.new) (moved_sink O.Outside out.old out.new) }
    ensures uncalled { result.chronicle ≡ [] }
    ensures disk { result.disk ≡ disk }
    ensures shelf_counted { H.faults shelf.old ≤ H.faults shelf.new }
    ensures out_counted { O.faults out.old ≤ O.faults out.new }
{
    match read_dictionary(alloc, shelf, name, 1) {
        Ok(listed) => Run::without_calls(print_listed(alloc, &listed, out), disk),
        Err(fault) => Run::without_calls(Err(fault), disk),
    }
}
