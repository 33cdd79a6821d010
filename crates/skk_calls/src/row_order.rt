use crate::part::Part;
use crate::row::Row;
use crate::row_key::{RowKey, text_order};
use ordered_lists::Keyed;
use skk_text::Text;
use std::cmp::Ordering;

impl Keyed<Row> for Row {
    ghost use Rattle.skk_calls.specs.OrderLaws.{row_keys};
    ghost use Rattle.skk_calls.specs.Rows.{RowKey};

    ghost Key = { RowKey };

    ghost keys = { row_keys };

    ghost key = { λ row. row.key };

    ghost sought_key = { λ row. row.key };

    fn compare(&self, other: &Row) -> Ordering {
        self.key().order(other.key())
    }
}

impl Keyed<RowKey> for Row {
    ghost use Rattle.skk_calls.specs.OrderLaws.{row_keys};
    ghost use Rattle.skk_calls.specs.Rows.{RowKey};

    ghost Key = { RowKey };

    ghost keys = { row_keys };

    ghost key = { λ row. row.key };

    ghost sought_key = { λ key. key };

    fn compare(&self, key: &RowKey) -> Ordering {
        self.key().order(key)
    }
}

/// A reading stands for its key without okurigana.
impl Keyed<Text> for Row {
    ghost use Rattle.skk_calls.specs.OrderLaws.{row_keys};
    ghost use Rattle.skk_calls.specs.Orders.{plain_key};
    ghost use Rattle.skk_calls.specs.Rows.{RowKey};

    ghost Key = { RowKey };

    ghost keys = { row_keys };

    ghost key = { λ row. row.key };

    ghost sought_key = { plain_key };

    fn compare(&self, reading: &Text) -> Ordering {
        match self.key().part() {
            Part::Nasi => text_order(self.key().reading(), reading),
            Part::Ari => Ordering::Greater,
        }
    }
}
