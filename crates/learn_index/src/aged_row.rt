use crate::kept_row::KeptRow;
use ordered_lists::Keyed;
use skk_calls::Row;
use std::cmp::Ordering;
use std::marker::Model;

/// A row of a book as the order by stamp has it: the pointer that the book shares with it, and the row's stamp beside
/// that, so that rows of different stamps are put in order without a look at them.
#[derive(Debug, Drop)]
pub struct AgedRow {
    stamp: u64,
    row: KeptRow,
}

impl Model for AgedRow {
    ghost use Rattle.std.specs.Prelude.{◌≡◌};
    ghost use Rattle.skk_calls.specs.Rows.{Row};

    ghost Value = { Row };

    ghost view = { λ a. a.row };

    ghost invariant = { λ a. a.stamp ≡ a.row.stamp };
}

impl AgedRow {
    ghost use Rattle.std.specs.Prelude.{◌≡◌, true};
    ghost use Rattle.skk_calls.specs.Rows.{is_row};

    /// The row with its stamp. Takes no memory.
    pub fn new(row: KeptRow) -> AgedRow
        ensures { result ≡ row }
    {
        let stamp = row.row().stamp();
        AgedRow { stamp, row }
    }

    /// The row.
    pub fn row(&self) -> &Row
        ensures value { result.now ≡ self.now }
        ensures valid { is_row self.now ≡ true }
    {
        self.row.row()
    }
}

/// Rows stand in order by their stamps, those of one stamp by their keys, the greatest first.
impl Keyed<AgedRow> for AgedRow {
    ghost use Rattle.learn_index.specs.Ages.{Age, age, age_keys};

    ghost Key = { Age };

    ghost keys = { age_keys };

    ghost key = { λ row. age row };

    ghost sought_key = { λ row. age row };

    fn compare(&self, other: &AgedRow) -> Ordering {
        match self.stamp.cmp(&other.stamp) {
            Ordering::Equal => other.row().key().order(self.row().key()),
            order => order,
        }
    }
}
