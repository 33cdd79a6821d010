ghost use Rattle.std.specs.Prelude.{◌≡◌, ◌+◌, ◌≤◌, ◌<◌, true, length, Some};
ghost use Rattle.std.specs.Vec.{vec_len, vec_capacity};
ghost use Rattle.ordered_lists.specs.Orders.{ascend, IsPlace};
ghost use Rattle.skk_calls.specs.States.{with_row, without_row, row_in, rows_ascend};
ghost use Rattle.learn_index.specs.Kept.{free_in};

use crate::kept_row::KeptRow;
use ordered_lists::{Keyed, has_key_at, place_of};
use skk_calls::RowKey;
use std::mem::replace;

/// Gives the key of a row this row among rows that ascend, and answers the one that the key had. Takes a logarithm in
/// the number of rows to find its place, or constant time where that is behind them all, moves the rows behind it where
/// the key had none, and takes no memory.
pub fn put_row(rows: &mut Vec<KeptRow>, row: KeptRow) -> Option<KeptRow>
    requires ascend { rows_ascend rows.old.items ≡ true }
    requires room { vec_len rows.old < vec_capacity rows.old }
    ensures rows { rows.new.items ≡ with_row row.key (Some row) rows.old.items }
    ensures before { result ≡ row_in row.key rows.old.items }
    ensures room { free_in rows.old ≤ free_in rows.new + 1 }
{
    let key = row.row().key();
    let place = place_among(rows, key);
    if has_key_at(rows, place, key) {
        Some(replace(&mut rows[place], row))
    } else {
        let _fits = rows.insert(place, row);
        None
    }
}

/// Takes the row of a key out of rows that ascend, and moves those behind it.
pub fn take_row(rows: &mut Vec<KeptRow>, key: &RowKey) -> Option<KeptRow>
    requires { rows_ascend rows.old.items ≡ true }
    ensures rows { rows.new.items ≡ without_row key.now rows.old.items }
    ensures before { result ≡ row_in key.now rows.old.items }
    ensures room { free_in rows.old ≤ free_in rows.new }
{
    let place = place_of(rows, key);
    if has_key_at(rows, place, key) {
        Some(rows.remove(place))
    } else {
        None
    }
}

/// The place of a key among items that ascend. The last item is looked at first, since items that come in order all
/// stand behind it.
pub fn place_among<T: Keyed<S>, S>(items: &[T], sought: &S) -> usize
    requires { ascend T.key T.keys items.now ≡ true }
    ensures bound { result ≤ length items.now }
    ensures place { IsPlace T.key T.keys (T.sought_key sought.now) items.now result }
{
    match items.last() {
        Some(last) if last.compare(sought).is_lt() => items.len(),
        _ => place_of(items, sought),
    }
}
