ghost use Rattle.std.specs.Prelude.{◌≡◌, ◌≤◌, ◌==◌, true, find, length, map};
ghost use Rattle.std.specs.Option.{option_copied, option_map};
ghost use Rattle.ordered_lists.specs.KeyOrders.{number_keys};
ghost use Rattle.ordered_lists.specs.Orders.{IsPlace};
ghost use Rattle.skk_calls.specs.States.{books_ascend};
ghost use Rattle.learn_index.specs.Kept.{numbered};

use crate::book::LearnedBook;
use ordered_lists::item_of;

/// The place before which every book has a lesser number, and from which none has.
/// Takes a logarithm in the number of books.
pub fn place_of(books: &[LearnedBook], number: u16) -> usize
    requires { books_ascend (map numbered books.now) ≡ true }
    ensures bound { result ≤ length books.now }
    ensures point { IsPlace (λ book. book.number) number_keys number books.now result }
{
    ordered_lists::place_of(books, &number)
}

/// The book of a number. Takes a logarithm in the number of books.
pub fn book_of(books: &[LearnedBook], number: u16) -> Option<&LearnedBook>
    requires { books_ascend (map numbered books.now) ≡ true }
    ensures { option_map numbered (option_copied result)
        ≡ find (λ book. book.number == number) (map numbered books.now) }
{
    item_of(books, &number)
}
