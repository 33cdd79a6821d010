ghost use Rattle.std.specs.Prelude.{◌≡◌, IfOk};

use ordered_lists::Keyed;
use skk_calls::{Row, RowKey, Rows};
use skk_text::{Copies, Memory, Text};
use std::alloc::Global;
use std::cmp::Ordering;
use std::marker::Model;
use std::sync::Arc;

/// A row behind a pointer, so that a book that is in order moves few bytes where a row comes between others. The
/// pointer is shared, so that the book can have its rows in a second order without a copy of any.
#[derive(Debug, Drop)]
pub struct KeptRow {
    row: Arc<Row>,
}

impl Model for KeptRow {
    ghost use Rattle.skk_calls.specs.Rows.{Row};

    ghost Value = { Row };

    ghost view = { λ k. k.row.value };
}

impl KeptRow {
    ghost use Rattle.std.specs.Prelude.{◌≡◌, true, IfOk, IfSome};
    ghost use Rattle.skk_calls.specs.Rows.{is_row};

    /// Keeps a row.
    pub fn new(alloc: Global, row: Row) -> Result<KeptRow, Memory>
        ensures { IfOk result (λ kept. kept ≡ row) }
    {
        let row = Arc::new(alloc, row)?;
        Ok(KeptRow { row })
    }

    /// The same row once more, unless the count of those who have it is at its end. Takes no memory.
    pub fn share(&self) -> Option<KeptRow>
        ensures { IfSome result (λ kept. kept ≡ self.now) }
    {
        let row = Arc::try_clone(&self.row).ok()?;
        Some(KeptRow { row })
    }

    /// The row.
    pub fn row(&self) -> &Row
        ensures value { result.now ≡ self.now }
        ensures valid { is_row self.now ≡ true }
    {
        let row = &*self.row;
        let _valid = row.stamp();
        row
    }
}

impl Keyed<RowKey> for KeptRow {
    ghost use Rattle.skk_calls.specs.OrderLaws.{row_keys};
    ghost use Rattle.skk_calls.specs.Rows.{RowKey};

    ghost Key = { RowKey };

    ghost keys = { row_keys };

    ghost key = { λ row. row.key };

    ghost sought_key = { λ key. key };

    fn compare(&self, key: &RowKey) -> Ordering {
        self.row().key().order(key)
    }
}

/// A reading stands for its key without okurigana.
impl Keyed<Text> for KeptRow {
    ghost use Rattle.skk_calls.specs.OrderLaws.{row_keys};
    ghost use Rattle.skk_calls.specs.Orders.{plain_key};
    ghost use Rattle.skk_calls.specs.Rows.{RowKey};

    ghost Key = { RowKey };

    ghost keys = { row_keys };

    ghost key = { λ row. row.key };

    ghost sought_key = { plain_key };

    fn compare(&self, reading: &Text) -> Ordering {
        self.row().compare(reading)
    }
}

/// Copies of rows.
pub fn copied_rows(alloc: Global, rows: &[KeptRow]) -> Result<Rows, Memory>
    ensures { IfOk result (λ copies. copies ≡ rows.now) }
{
    let mut copies = Rows::new(alloc);
    for kept in rows {
        copies.push(kept.row().copy(alloc)?)?;
    }
    Ok(copies)
}
