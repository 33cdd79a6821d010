ghost use Rattle.std.specs.Prelude.{◌≡◌};
ghost use Rattle.std.specs.Option.{ForSome};
ghost use Rattle.learn_index.specs.Ages.{oldest_first};

use crate::aged_row::AgedRow;
use crate::by_stamp::{exchanged, rows_by_stamp, without_aged};
use crate::kept_row::KeptRow;
use crate::kept_rows::{put_row, take_row};
use ordered_lists::Keyed;
use skk_calls::RowKey;
use skk_text::Memory;
use std::alloc::Global;
use std::cmp::Ordering;

/// In which orders a book has its rows.
#[derive(Clone, Copy)]
pub(crate) enum RowOrders {
    ByKey,
    ByKeyAndStamp,
}

/// A book in memory: its number, its count of changes, and its rows ascending by their keys. One whose count is 0 has
/// no rows: it only keeps room for its first change. Beside its rows it may have them in order by their stamps, the
/// newest last.
#[derive(Drop)]
pub struct LearnedBook {
    pub number: u16,
    pub count: u64,
    pub rows: Vec<KeptRow>,
    by_stamp: Option<Vec<AgedRow>>,
    ghost in_order: { ForSome by_stamp (λ stamps. stamps.items ≡ oldest_first rows.items) },
}

impl LearnedBook {
    ghost use Rattle.std.specs.Prelude.{◌+◌, ◌<◌, ◌≤◌, true, [], Some, OnOk};
    ghost use Rattle.std.specs.Vec.{vec_len, vec_capacity};
    ghost use Rattle.skk_calls.specs.States.{with_row, without_row, rows_ascend};
    ghost use Rattle.learn_index.specs.Kept.{room_of};

    /// The book of a number before its first change. Takes no memory.
    pub(crate) fn new(alloc: Global, number: u16) -> LearnedBook
        ensures number { result.number ≡ number }
        ensures count { result.count ≡ 0 }
        ensures rows { result.rows.items ≡ [] }
    {
        LearnedBook {
            number,
            count: 0,
            rows: Vec::new(alloc),
            by_stamp: Some(Vec::new(alloc)),
        }
    }

    /// The rows in order by their stamps, the oldest first, where they are so.
    pub(crate) fn by_stamp(&self) -> Option<&[AgedRow]>
        ensures { ForSome result (λ stamps. stamps.now ≡ oldest_first self.now.rows.items) }
    {
        match &self.by_stamp {
            Some(stamps) => Some(stamps),
            None => None,
        }
    }

    /// Makes room for so many rows more in these orders, and keeps no other. Takes time in the number of rows where the
    /// room grows, with one logarithm in it where they are to be in order by their stamps and are not.
    pub(crate) fn make_room(
        &mut self,
        alloc: Global,
        changes: usize,
        orders: RowOrders,
    ) -> Result<(), Memory>
        requires { rows_ascend self.old.rows.items ≡ true }
        ensures rows { self.new.rows.items ≡ self.old.rows.items }
        ensures number { self.new.number ≡ self.old.number }
        ensures count { self.new.count ≡ self.old.count }
        ensures room { OnOk result (changes ≤ room_of self.new) }
    {
        self.rows.reserve(changes)?;
        match orders {
            RowOrders::ByKey => self.by_stamp = None,
            RowOrders::ByKeyAndStamp => {
                self.order_by_stamp(alloc)?;
                self.reserve_stamps(changes)?;
            }
        }
        Ok(())
    }

    // Puts the rows in order by their stamps, where they are not yet.
    fn order_by_stamp(&mut self, alloc: Global) -> Result<(), Memory>
        requires { rows_ascend self.old.rows.items ≡ true }
        ensures rows { self.new.rows ≡ self.old.rows }
        ensures number { self.new.number ≡ self.old.number }
        ensures count { self.new.count ≡ self.old.count }
    {
        if self.by_stamp.is_none() {
            self.by_stamp = rows_by_stamp(alloc, &self.rows)?;
        }
        Ok(())
    }

    // Makes room for so many rows more in the order by stamp, where the rows are in it.
    fn reserve_stamps(&mut self, changes: usize) -> Result<(), Memory>
        ensures rows { self.new.rows ≡ self.old.rows }
        ensures number { self.new.number ≡ self.old.number }
        ensures count { self.new.count ≡ self.old.count }
        ensures room { OnOk result (ForSome self.new.by_stamp (λ stamps.
            vec_len stamps + changes ≤ vec_capacity stamps)) }
    {
        let Some(mut stamps) = self.by_stamp.take() else {
            return Ok(());
        };
        let reserved = stamps.reserve(changes);
        self.by_stamp = Some(stamps);
        Ok(reserved?)
    }

    /// Gives the key of a row this row, and the book this count. Takes a logarithm in the number of rows to find its
    /// places, or constant time where these are behind them all, moves the rows behind them, and takes no memory.
    pub(crate) fn set_row(&mut self, count: u64, row: KeptRow)
        requires ascend { rows_ascend self.old.rows.items ≡ true }
        requires room { 0 < room_of self.old }
        ensures rows { self.new.rows.items ≡ with_row row.key (Some row) self.old.rows.items }
        ensures number { self.new.number ≡ self.old.number }
        ensures count { self.new.count ≡ count }
        ensures room { room_of self.old ≤ room_of self.new + 1 }
    {
        self.count = count;
        let shared = row.share();
        let before = put_row(&mut self.rows, row);
        if let Some(stamps) = self.by_stamp.take() {
            self.by_stamp = exchanged(stamps, before, shared);
        }
    }

    /// Takes the row of a key out, moves the rows behind it, and gives the book this count.
    pub(crate) fn remove_row(&mut self, count: u64, key: &RowKey)
        requires { rows_ascend self.old.rows.items ≡ true }
        ensures rows { self.new.rows.items ≡ without_row key.now self.old.rows.items }
        ensures number { self.new.number ≡ self.old.number }
        ensures count { self.new.count ≡ count }
        ensures room { room_of self.old ≤ room_of self.new }
    {
        self.count = count;
        let before = take_row(&mut self.rows, key);
        if let Some(stamps) = self.by_stamp.take() {
            self.by_stamp = Some(without_aged(stamps, before));
        }
    }

    /// Gives the book this count.
    pub(crate) fn set_count(&mut self, count: u64)
        ensures rows { self.new.rows.items ≡ self.old.rows.items }
        ensures number { self.new.number ≡ self.old.number }
        ensures count { self.new.count ≡ count }
    {
        self.count = count;
    }
}

/// Books stand in order by their numbers.
impl Keyed<u16> for LearnedBook {
    ghost use Rattle.std.specs.Prelude.{ℕ};
    ghost use Rattle.ordered_lists.specs.KeyOrders.{number_keys};

    ghost Key = { ℕ };

    ghost keys = { number_keys };

    ghost key = { λ book. book.number };

    ghost sought_key = { λ number. number };

    fn compare(&self, number: &u16) -> Ordering {
        self.number.cmp(number)
    }
}
