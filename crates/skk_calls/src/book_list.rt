ghost use Rattle.std.specs.Prelude.{◌≡◌, true};
ghost use Rattle.skk_calls.specs.BookLists.{is_book_list, twice_at};

use arrayvec::ArrayVec;
use skk_text::{Copies, Memory, Sequence};
use std::alloc::Global;
use std::marker::Model;
use thiserror::Error;

/// The most books of a list.
pub const BOOK_LIMIT: usize = 8;

/// The number of the book that a typist reads who has no list.
pub const SHARED_BOOK: u16 = 0;

/// The books that a typist reads behind the one of the typist's own number, in order: 1 to 8 different numbers.
#[derive(Debug, Drop)]
pub struct BookList {
    books: ArrayVec<u16, 8>,
}

impl Model for BookList {
    ghost use Rattle.std.specs.Prelude.{◌≡◌, true, List, ℕ};
    ghost use Rattle.skk_calls.specs.BookLists.{is_book_list};

    ghost Value = { List ℕ };

    ghost view = { λ l. l.books.items };

    ghost invariant = { λ l. is_book_list l.books.items ≡ true };
}

/// Why numbers are no list of books. The first cause is told.
#[derive(Clone, Copy, Debug, PartialEq, Eq, Error)]
pub enum BookListFault {
    /// There are so many numbers: none, or more than 8.
    #[error("{count} books")]
    Count { count: usize },
    /// The number at this place stands before it too. No number before it does.
    #[error("the book at place {at} comes twice")]
    Twice { at: usize },
}

impl BookList {
    ghost use Rattle.std.specs.Prelude.{◌≡◌, ◌↔◌, ◌<◌, ℕ, Some, length, slice_index_or, true, false, IfOk, IsErrOf};
    ghost use Rattle.skk_calls.specs.BookLists.{has_count, is_book_list, same_numbers, shared_alone, twice_at};

    /// The list of these numbers, unless they are none. Takes no memory, and time in the square of their number, which
    /// is small.
    pub fn new(books: &[u16]) -> Result<BookList, BookListFault>
        ensures ok { IfOk result (λ list. list ≡ books.now) }
        ensures count { (count : ℕ) → IsErrOf result (BookListFault.Count count)
            ↔ ((has_count books.now ≡ false) × (count ≡ length books.now)) }
        ensures twice { (at : ℕ) → IsErrOf result (BookListFault.Twice at)
            ↔ ((has_count books.now ≡ true) × (twice_at books.now ≡ Some at)) }
    {
        let count = books.len();
        if count == 0 || count > BOOK_LIMIT {
            return Err(BookListFault::Count { count });
        }
        if let Some(at) = first_twice(books) {
            return Err(BookListFault::Twice { at });
        }
        Ok(listed(books))
    }

    /// The list of the shared book alone, which is that of a typist without another. Takes no memory.
    pub fn of_shared() -> BookList
        ensures { result ≡ shared_alone }
    {
        listed(&[SHARED_BOOK])
    }

    /// The same list once more. Takes no memory.
    pub fn copied(&self) -> BookList
        ensures { result ≡ self.now }
    {
        listed(self.as_slice())
    }

    /// How many books there are.
    pub fn len(&self) -> usize
        ensures value { result ≡ length self.now }
        ensures valid { is_book_list self.now ≡ true }
    {
        self.books.len()
    }

    /// The number of the book at a place.
    pub fn at(&self, place: usize) -> u16
        requires { place < length self.now }
        ensures { result ≡ slice_index_or self.now place result }
    {
        self.books[place]
    }

    /// The numbers of the books.
    pub fn as_slice(&self) -> &[u16]
        ensures value { result.now ≡ self.now }
        ensures valid { is_book_list self.now ≡ true }
    {
        self.books.as_slice()
    }

    /// Whether another list has the same books in the same order.
    pub fn is_same(&self, other: &BookList) -> bool
        ensures { result ≡ same_numbers self.now other.now }
    {
        self.as_slice() == other.as_slice()
    }
}

impl Copies for BookList {
    fn copy(&self, _alloc: Global) -> Result<BookList, Memory> {
        Ok(self.copied())
    }
}

// The place of the first number that stands before it too.
fn first_twice(books: &[u16]) -> Option<usize>
    ensures { result ≡ twice_at books.now }
{
    for at in 0..books.len() {
        if books[..at].contains(&books[at]) {
            return Some(at);
        }
    }
    None
}

// A list of numbers.
fn listed(books: &[u16]) -> BookList
    requires { is_book_list books.now ≡ true }
    ensures { result ≡ books.now }
{
    let mut list = ArrayVec::new();
    match list.try_extend_from_slice(books) {
        Ok(()) => BookList { books: list },
        Err(_) => unreachable!(),
    }
}

/// A typist with the list of books that the typist reads.
#[derive(Debug, Drop)]
pub struct TypistList {
    pub typist: u16,
    pub books: BookList,
}

/// The lists of typists, in order.
pub type TypistLists = Sequence<TypistList>;
