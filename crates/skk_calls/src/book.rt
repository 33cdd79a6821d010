use crate::row::Rows;
use skk_text::Sequence;
use std::marker::Model;

/// The rows of a book or a dictionary file. No key has two of them.
#[derive(Debug, Drop)]
pub struct Book {
    rows: Rows,
}

impl Model for Book {
    ghost use Rattle.std.specs.Prelude.{◌≡◌, true, List};
    ghost use Rattle.skk_calls.specs.Rows.{Row, keys_differ};

    ghost Value = { List Row };

    ghost view = { λ b. b.rows };

    ghost invariant = { λ b. keys_differ b.rows ≡ true };
}

impl Book {
    ghost use Rattle.std.specs.Prelude.{◌≡◌, true};
    ghost use Rattle.skk_calls.specs.Rows.{keys_differ};

    /// The book of these rows. Takes no memory and constant time.
    pub fn new(rows: Rows) -> Book
        requires { keys_differ rows ≡ true }
        ensures { result ≡ rows }
    {
        Book { rows }
    }

    /// The rows.
    pub fn rows(&self) -> &Rows
        ensures value { result.now ≡ self.now }
        ensures valid { keys_differ self.now ≡ true }
    {
        &self.rows
    }
}

/// Books in order.
pub type Books = Sequence<Book>;

/// A book of a state: its number, its count of changes and its rows.
#[derive(Debug, Drop)]
pub struct NumberedBook {
    pub number: u16,
    pub count: u64,
    pub rows: Rows,
}

/// The books of a state, in order.
pub type NumberedBooks = Sequence<NumberedBook>;
