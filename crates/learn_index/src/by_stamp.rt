ghost use Rattle.std.specs.Prelude.{◌≡◌, ◌+◌, ◌<◌, ◌≤◌, true, not, IfOk};
ghost use Rattle.std.specs.Option.{ForSome, IsSomeAnd};
ghost use Rattle.std.specs.List.{list_all};
ghost use Rattle.std.specs.Vec.{vec_len, vec_capacity};
ghost use Rattle.ordered_lists.specs.Orders.{ascend, before as is_before, insert_by};
ghost use Rattle.skk_calls.specs.States.{rows_ascend};
ghost use Rattle.learn_index.specs.Ages.{age, age_keys, left_of, oldest_first, same_age};
ghost use Rattle.learn_index.specs.Kept.{free_in};

use crate::aged_row::AgedRow;
use crate::kept_row::KeptRow;
use crate::kept_rows::place_among;
use ordered_lists::{Keyed, has_key_at, place_of};
use skk_text::Memory;
use std::alloc::Global;

/// Rows in order by their stamps, shared with those that come in order by their keys: none where a row can't be shared
/// once more. Takes time in their number, with one logarithm in it.
pub fn rows_by_stamp(alloc: Global, rows: &[KeptRow]) -> Result<Option<Vec<AgedRow>>, Memory>
    requires { rows_ascend rows.now ≡ true }
    ensures { IfOk result (λ aged. ForSome aged (λ stamps. stamps.items ≡ oldest_first rows.now)) }
{
    let Some(mut aged) = aged_rows(alloc, rows)? else {
        return Ok(None);
    };
    sort_oldest(&mut aged);
    Ok(Some(aged))
}

// Rows with their stamps, in the order in which they come.
fn aged_rows(alloc: Global, rows: &[KeptRow]) -> Result<Option<Vec<AgedRow>>, Memory>
    ensures { IfOk result (λ aged. ForSome aged (λ those. those.items ≡ rows.now)) }
{
    let mut aged = Vec::with_capacity(alloc, rows.len())?;
    for kept in rows {
        let Some(row) = kept.share() else {
            return Ok(None);
        };
        aged.push(AgedRow::new(row))?;
    }
    Ok(Some(aged))
}

// Puts rows in order by their stamps.
fn sort_oldest(rows: &mut Vec<AgedRow>)
    requires { rows_ascend rows.old.items ≡ true }
    ensures { rows.new.items ≡ oldest_first rows.old.items }
{
    rows.sort_unstable_by(|row, other| row.compare(other));
}

/// Rows in order by their stamps once one came in the place of another, where there was one: none where it is not
/// shared. Takes no memory.
pub fn exchanged(
    stamps: Vec<AgedRow>,
    before: Option<KeptRow>,
    row: Option<KeptRow>,
) -> Option<Vec<AgedRow>>
    requires ascend { ascend age age_keys stamps.items ≡ true }
    requires room { vec_len stamps < vec_capacity stamps }
    requires new { ForSome row (λ r.
        list_all (λ other. not (same_age (age other) (age r))) (left_of before stamps.items) ≡ true) }
    ensures items { ForSome result (λ after. IsSomeAnd row (λ r.
        after.items ≡ insert_by (is_before age age_keys) r (left_of before stamps.items))) }
    ensures room { ForSome result (λ after. free_in stamps ≤ free_in after + 1) }
{
    match row {
        Some(row) => Some(with_aged(without_aged(stamps, before), row)),
        None => None,
    }
}

// Rows in order by their stamps with one more. Takes constant time where it is the newest of them, else a logarithm in
// their number, and moves the newer ones.
fn with_aged(mut stamps: Vec<AgedRow>, row: KeptRow) -> Vec<AgedRow>
    requires ascend { ascend age age_keys stamps.items ≡ true }
    requires room { vec_len stamps < vec_capacity stamps }
    requires new { list_all (λ other. not (same_age (age other) (age row))) stamps.items ≡ true }
    ensures items { result.items ≡ insert_by (is_before age age_keys) row stamps.items }
    ensures room { free_in stamps ≤ free_in result + 1 }
{
    let row = AgedRow::new(row);
    let place = place_among(&stamps, &row);
    let _fits = stamps.insert(place, row);
    stamps
}

/// Rows in order by their stamps without one, where there is one that goes. Takes a logarithm in their number, and
/// moves the newer ones.
pub fn without_aged(mut stamps: Vec<AgedRow>, row: Option<KeptRow>) -> Vec<AgedRow>
    requires { ascend age age_keys stamps.items ≡ true }
    ensures items { result.items ≡ left_of row stamps.items }
    ensures room { free_in stamps ≤ free_in result }
{
    let Some(row) = row else {
        return stamps;
    };
    let row = AgedRow::new(row);
    let place = place_of(&stamps, &row);
    if has_key_at(&stamps, place, &row) {
        let _row = stamps.remove(place);
    }
    stamps
}
