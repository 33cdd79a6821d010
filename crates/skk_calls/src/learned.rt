use crate::row::Row;
use crate::row_key::RowKey;
use std::marker::Model;

/// What was learnt, and how it is taken back: the book, the key, the stamp that the row got, and the row before, where
/// there was one. That row is of the same key, can be written on a line, and has an earlier stamp.
#[derive(Debug, Drop)]
pub struct Learned {
    book: u16,
    key: RowKey,
    stamp: u64,
    before: Option<Row>,
}

impl Model for Learned {
    ghost use Rattle.std.specs.Prelude.{◌≡◌, true};
    ghost use Rattle.skk_calls.specs.Rows.{Learned};
    ghost use Rattle.skk_calls.specs.Learning.{is_valid_learned};

    ghost Value = { Learned };

    ghost view = { λ l. record { book = l.book; key = l.key; stamp = l.stamp; before = l.before } };

    ghost invariant = { λ l.
        is_valid_learned (record { book = l.book; key = l.key; stamp = l.stamp; before = l.before }) ≡ true };
}

impl Learned {
    ghost use Rattle.std.specs.Prelude.{◌≡◌, true};
    ghost use Rattle.std.specs.Option.{option_copied};
    ghost use Rattle.skk_calls.specs.Learning.{is_valid_learned};

    /// What was learnt, with these fields. Takes no memory and constant time.
    pub fn new(book: u16, key: RowKey, stamp: u64, before: Option<Row>) -> Learned
        requires { is_valid_learned (record { book = book; key = key; stamp = stamp; before = before }) ≡ true }
        ensures { result ≡ record { book = book; key = key; stamp = stamp; before = before } }
    {
        Learned {
            book,
            key,
            stamp,
            before,
        }
    }

    /// The book.
    pub fn book(&self) -> u16
        ensures value { result ≡ self.now.book }
        ensures valid { is_valid_learned self.now ≡ true }
    {
        self.book
    }

    /// The key.
    pub fn key(&self) -> &RowKey
        ensures value { result.now ≡ self.now.key }
        ensures valid { is_valid_learned self.now ≡ true }
    {
        &self.key
    }

    /// The stamp that the row got.
    pub fn stamp(&self) -> u64
        ensures value { result ≡ self.now.stamp }
        ensures valid { is_valid_learned self.now ≡ true }
    {
        self.stamp
    }

    /// The row before, where there was one.
    pub fn before(&self) -> Option<&Row>
        ensures value { option_copied result ≡ self.now.before }
        ensures valid { is_valid_learned self.now ≡ true }
    {
        self.before.as_ref()
    }
}
