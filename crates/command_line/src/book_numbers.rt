ghost use Rattle.std.specs.Prelude.{◌≡◌, ◌⊎◌, ◌∷◌, ◌++◌, ℕ, [], Some, None, MatchOption, length};
ghost use Rattle.std.specs.Str.{chars};
ghost use Rattle.command_line.specs.Words.{books_listed, numbers_in, number_within, with_front, AreNoneOrBeyond};

use crate::number::number_within;
use crate::word::cut;
use arrayvec::ArrayVec;
use skk_calls::{BOOK_LIMIT, BookList};

/// The books that a text lists: their numbers from 0 to 65,535 in decimal, without a sign and without leading zeros,
/// between commas. Nothing where they are no list of books.
pub fn books_listed(text: &str) -> Option<BookList>
    ensures { result ≡ books_listed (chars text.now) }
{
    let numbers = numbers_behind(ArrayVec::new(), text)?;
    BookList::new(numbers.as_slice()).ok()
}

// Numbers, and behind them those that a text lists. Nothing where it lists none, or they are more than a list may have.
fn numbers_behind(
    numbers: ArrayVec<u16, BOOK_LIMIT>,
    text: &str,
) -> Option<ArrayVec<u16, BOOK_LIMIT>>
    ensures { MatchOption result (AreNoneOrBeyond (with_front numbers.items (numbers_in (chars text.now))))
        (λ all. with_front numbers.items (numbers_in (chars text.now)) ≡ Some all.items) }
{
    match cut(text, ',') {
        None => with_number(numbers, text),
        Some((first, rest)) => numbers_behind(with_number(numbers, first)?, rest),
    }
}

// Numbers, and behind them the one that a text writes. Nothing where it writes none, or there are too many.
fn with_number(numbers: ArrayVec<u16, BOOK_LIMIT>, text: &str) -> Option<ArrayVec<u16, BOOK_LIMIT>>
    ensures { MatchOption result
        ((number_within 0 65535 (chars text.now) ≡ None) ⊎ (length numbers.items ≡ 8))
        (λ all. (number : ℕ) × (number_within 0 65535 (chars text.now) ≡ Some number)
        × (all.items ≡ numbers.items ++ number ∷ [])) }
{
    let number = number_within(text, 0, 65_535)?;
    let mut numbers = numbers;
    numbers.try_push(number as u16).ok()?;
    Some(numbers)
}
