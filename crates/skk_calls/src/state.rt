use crate::book::NumberedBooks;
use crate::book_list::TypistLists;
use std::marker::Model;

/// The state of a dictionary: its books, ascending by their numbers, and the lists of books of typists, ascending by
/// these.
#[derive(Debug, Drop)]
pub struct State {
    books: NumberedBooks,
    lists: TypistLists,
}

impl Model for State {
    ghost use Rattle.skk_calls.specs.States.{State};

    ghost Value = { State };

    ghost view = { λ s. record { books = s.books; lists = s.lists } };
}

impl State {
    ghost use Rattle.std.specs.Prelude.{◌≡◌};

    /// The state of these books and lists. Takes no memory and constant time.
    pub fn new(books: NumberedBooks, lists: TypistLists) -> State
        ensures { result ≡ record { books = books; lists = lists } }
    {
        State { books, lists }
    }

    /// The books.
    pub fn books(&self) -> &NumberedBooks
        ensures { result.now ≡ self.now.books }
    {
        &self.books
    }

    /// The lists.
    pub fn lists(&self) -> &TypistLists
        ensures { result.now ≡ self.now.lists }
    {
        &self.lists
    }
}
