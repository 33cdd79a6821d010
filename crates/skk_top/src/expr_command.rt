ghost use Rattle.std.specs.Prelude.{◌≡◌, ◌≤◌, ◌∷◌, [], true, map, IfOk, IfErr};
ghost use Rattle.std.specs.List.{list_all};
ghost use Rattle.skk_outside.specs.Moved.{moved_shelf, moved_sink};
ghost use Rattle.dict_expr.specs.Books.{says_something};
ghost use Rattle.skk_top.specs.Dictionaries.{RefusesDictionaries};
ghost use Rattle.skk_top.specs.ExprCommand.{ComeTo, LeavesExpr, LeavesRows, fault_of_text, names_of};
ghost use Rattle.skk_top.specs.ExprCommand.{signs_of, with_sign};

use crate::dictionary::read_dictionary;
use command_line::{ExprOptions, Sign};
use dict_expr::{ExprFault, expr_text, minus, plus, rows_of_files_say_something};
use run_endings::{Run, RunFault, print_text};
use skk_calls::Book;
use skk_outside::{Shelf, Sink};
use skk_text::Memory;
use std::alloc::Global;

/// The command `expr`: reads the files of these names as dictionaries 1, 2 and on, and prints what they come to as a
/// dictionary file, each behind the first added or taken away by its sign. Their bad lines are passed over. The disk is
/// not touched.
pub fn run_expr<H: Shelf, D, O: Sink>(
    alloc: Global,
    options: &ExprOptions,
    shelf: &mut H,
    disk: D,
    out: &mut O,
) -> Run<D>
    ensures leaves { LeavesExpr options.now result
        (moved_shelf H.Shelf shelf.old shelf.new) (moved_sink O.Outside out.old out.new) }
    ensures uncalled { result.chronicle ≡ [] }
    ensures disk { result.disk ≡ disk }
    ensures shelf_counted { H.faults shelf.old ≤ H.faults shelf.new }
    ensures out_counted { O.faults out.old ≤ O.faults out.new }
{
    match put_together(alloc, options, shelf) {
        Ok(book) => print_rows(alloc, &book, disk, out),
        Err(fault) => Run::without_calls(Err(fault), disk),
    }
}

// What the dictionaries come to. Each is read when it is added or taken away, so that no more than one of them is there
// beside what those before it come to.
fn put_together<H: Shelf>(
    alloc: Global,
    options: &ExprOptions,
    shelf: &mut H,
) -> Result<Book, RunFault>
    ensures rows { IfOk result (ComeTo (signs_of options.now) (map (H.file shelf.old) (names_of options.now))) }
    ensures says_something { IfOk result (λ rows. list_all says_something rows ≡ true) }
    ensures refused { IfErr result (RefusesDictionaries (map (H.file shelf.old) (names_of options.now))
        (H.faults shelf.old) (H.faults shelf.new)) }
    ensures counted { H.faults shelf.old ≤ H.faults shelf.new }
{
    rows_of_files_say_something();
    let first = read_dictionary(alloc, shelf, &options.first, 1)?;
    let mut book = first.book;
    let terms = options.terms.as_slice();
    for (place, term) in terms.iter().enumerate() {
        let other = read_dictionary(alloc, shelf, &term.name, place + 2)?;
        book = with_sign(alloc, term.sign, &book, &other.book)?;
    }
    Ok(book)
}

// Rows with those of a dictionary, or without them, by its sign.
fn with_sign(alloc: Global, sign: Sign, book: &Book, other: &Book) -> Result<Book, Memory>
    ensures rows { IfOk result (λ rows. rows ≡ with_sign sign book.now other.now) }
    ensures says_something { list_all says_something book.now ≡ true → list_all says_something other.now ≡ true
        → IfOk result (λ rows. list_all says_something rows ≡ true) }
{
    match sign {
        Sign::Plus => plus(alloc, book, other),
        Sign::Minus => minus(alloc, book, other),
    }
}

// Prints rows as a dictionary file, unless the line of one is too long to be read again.
fn print_rows<D, O: Sink>(alloc: Global, book: &Book, disk: D, out: &mut O) -> Run<D>
    requires { list_all says_something book.now ≡ true }
    ensures leaves { LeavesRows book.now result (moved_sink O.Outside out.old out.new) }
    ensures uncalled { result.chronicle ≡ [] }
    ensures disk { result.disk ≡ disk }
    ensures counted { O.faults out.old ≤ O.faults out.new }
{
    match expr_text(alloc, book) {
        Ok(text) => Run::without_calls(print_text(out, &text), disk),
        Err(fault) => Run::without_calls(Err(fault_of_text(fault)), disk),
    }
}

// What it is for the run that rows have no text.
fn fault_of_text(fault: ExprFault) -> RunFault
    ensures { result ≡ fault_of_text fault }
{
    match fault {
        ExprFault::RowTooBig { bytes } => RunFault::RowTooBig { bytes },
        ExprFault::Memory => RunFault::Memory,
    }
}
