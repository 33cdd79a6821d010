ghost use Rattle.std.specs.Prelude.{◌≡◌, true, map, IfOk};
ghost use Rattle.std.specs.List.{list_all};
ghost use Rattle.std.specs.Option.{option_copied};
ghost use Rattle.skk_text.specs.Pairs.{all_pairs};
ghost use Rattle.skk_calls.specs.Orders.{key_less, row_less};
ghost use Rattle.skk_calls.specs.Rows.{keys_differ};
ghost use Rattle.dict_expr.specs.Books.{in_order};
ghost use Rattle.dict_expr.specs.Pairs.{are_of_one_part, paired, seen};
ghost use Rattle.dict_expr.specs.Walking.{first_of, rows_from};

use skk_calls::{Book, Row, RowKey};
use skk_text::Memory;
use std::alloc::Global;

/// The rows of a book in the order of their keys. Takes time in their number, with one logarithm in it.
pub fn in_order(alloc: Global, book: &Book) -> Result<Vec<&Row>, Memory>
    ensures order { IfOk result (λ rows. map (λ row. row.now) rows.items ≡ in_order book.now) }
    ensures ascend { IfOk result (λ rows. all_pairs row_less (map (λ row. row.now) rows.items) ≡ true) }
    ensures differ { IfOk result (λ rows. keys_differ book.now ≡ true) }
{
    let mut rows = refs_of(alloc, book.rows().as_slice())?;
    rows.sort_unstable_by(|row, other| row.key().order(other.key()));
    Ok(rows)
}

// The rows where they stand.
fn refs_of(alloc: Global, rows: &[Row]) -> Result<Vec<&Row>, Memory>
    ensures { IfOk result (λ refs. map (λ row. row.now) refs.items ≡ rows.now) }
{
    let mut refs = Vec::new(alloc);
    for row in rows {
        refs.push(row)?;
    }
    Ok(refs)
}

/// Rows in the order of their keys, each with the row of its key among others in that order. Takes time in the number
/// of both: it walks along the two lists.
pub fn pairs<'a>(
    alloc: Global,
    rows: &[&'a Row],
    others: &[&'a Row],
) -> Result<Vec<(&'a Row, Option<&'a Row>)>, Memory>
    requires rows { all_pairs row_less (map (λ row. row.now) rows.now) ≡ true }
    requires others { all_pairs row_less (map (λ row. row.now) others.now) ≡ true }
    ensures seen { IfOk result (λ pairs. seen pairs.items
        ≡ map (paired (map (λ other. other.now) others.now)) (map (λ row. row.now) rows.now)) }
    ensures one_part { IfOk result (λ pairs. list_all are_of_one_part (seen pairs.items) ≡ true) }
{
    let mut pairs = Vec::new(alloc);
    let mut rest = others;
    for row in rows {
        rest = rows_from(rest, row.key());
        pairs.push((*row, first_of(rest, row.key())))?;
    }
    Ok(pairs)
}

// The rows from the first on whose key is not less.
fn rows_from<'a, 'b>(rows: &'a [&'b Row], key: &RowKey) -> &'a [&'b Row]
    ensures { map (λ row. row.now) result.now ≡ rows_from key.now (map (λ row. row.now) rows.now) }
{
    for (place, row) in rows.iter().enumerate() {
        if !is_below(row, key) {
            return &rows[place..];
        }
    }
    &[]
}

// Whether a row's key is less.
fn is_below(row: &Row, key: &RowKey) -> bool
    ensures { result ≡ key_less row.now.key key.now }
{
    row.key().order(key).is_lt()
}

// The first row where it has this key.
fn first_of<'a>(rows: &[&'a Row], key: &RowKey) -> Option<&'a Row>
    ensures { option_copied result ≡ first_of key.now (map (λ row. row.now) rows.now) }
{
    let row = rows.first()?;
    if row.key().is_same(key) {
        Some(*row)
    } else {
        None
    }
}
