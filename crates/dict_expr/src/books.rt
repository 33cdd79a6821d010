ghost use Rattle.std.specs.Prelude.{◌≡◌, ◌++◌, true, map, IfOk, OnOk};
ghost use Rattle.std.specs.List.{filter_map, list_all};
ghost use Rattle.std.specs.Option.{option_copied};
ghost use Rattle.skk_calls.specs.Rows.{RowKey, keys_differ};
ghost use Rattle.skk_calls.specs.States.{row_in};
ghost use Rattle.dict_expr.specs.Books.{difference, says_something, sum};
ghost use Rattle.dict_expr.specs.Pairs.{are_of_one_part, joined_pair, lonely, remaining_pair, seen};
ghost use Rattle.dict_expr.specs.Rows.{minus_row, plus_row};

use crate::lists::push_some;
use crate::pairs::{in_order, pairs};
use crate::rows::{joined, remaining, without_stamp};
use skk_calls::{Book, Row, Rows};
use skk_text::Memory;
use std::alloc::Global;

/// The sum of two dictionaries: for each key the row of the one that has it, and where both have it the first's with
/// the second's. Takes time in what both hold, and with one logarithm in the numbers of their rows.
pub fn plus(alloc: Global, a: &Book, b: &Book) -> Result<Book, Memory>
    ensures rows { IfOk result (λ book. book ≡ sum a.now b.now) }
    ensures by_key { IfOk result (λ book. (key : RowKey)
        → row_in key book ≡ plus_row (row_in key a.now) (row_in key b.now)) }
    ensures says_something { list_all says_something a.now ≡ true → list_all says_something b.now ≡ true
        → IfOk result (λ book. list_all says_something book ≡ true) }
{
    let rows = sum_rows(alloc, a, b)?;
    Ok(Book::new(rows))
}

/// The difference of two dictionaries: for each key the row of the first, without what the second has for it, unless
/// nothing is left. Takes time in what both hold, and with one logarithm in the numbers of their rows.
pub fn minus(alloc: Global, a: &Book, b: &Book) -> Result<Book, Memory>
    ensures rows { IfOk result (λ book. book ≡ difference a.now b.now) }
    ensures by_key { IfOk result (λ book. (key : RowKey)
        → row_in key book ≡ minus_row (row_in key a.now) (row_in key b.now)) }
    ensures says_something { list_all says_something a.now ≡ true
        → IfOk result (λ book. list_all says_something book ≡ true) }
{
    let rows = difference_rows(alloc, a, b)?;
    Ok(Book::new(rows))
}

// The rows of a sum.
fn sum_rows(alloc: Global, a: &Book, b: &Book) -> Result<Rows, Memory>
    ensures rows { IfOk result (λ rows. rows ≡ sum a.now b.now) }
    ensures first { IfOk result (λ rows. keys_differ a.now ≡ true) }
    ensures second { IfOk result (λ rows. keys_differ b.now ≡ true) }
{
    let first = in_order(alloc, a)?;
    let second = in_order(alloc, b)?;
    let mut rows = Rows::new(alloc);
    let in_first = pairs(alloc, &first, &second)?;
    add_joined(alloc, &mut rows, &in_first)?;
    let in_second = pairs(alloc, &second, &first)?;
    add_lonely(alloc, &mut rows, &in_second)?;
    Ok(rows)
}

// The rows of a difference.
fn difference_rows(alloc: Global, a: &Book, b: &Book) -> Result<Rows, Memory>
    ensures rows { IfOk result (λ rows. rows ≡ difference a.now b.now) }
    ensures first { IfOk result (λ rows. keys_differ a.now ≡ true) }
{
    let first = in_order(alloc, a)?;
    let second = in_order(alloc, b)?;
    let in_first = pairs(alloc, &first, &second)?;
    let rows = remaining_rows(alloc, &in_first)?;
    Ok(rows)
}

// Adds rows, each with the other of its key.
fn add_joined(alloc: Global, rows: &mut Rows, pairs: &[(&Row, Option<&Row>)]) -> Result<(), Memory>
    requires { list_all are_of_one_part (seen pairs.now) ≡ true }
    ensures { OnOk result (rows.new ≡ rows.old ++ map joined_pair (seen pairs.now)) }
{
    for (row, other) in pairs {
        rows.push(joined(alloc, row, *other)?)?;
    }
    Ok(())
}

// Adds copies of the rows without another of their key.
#[tactic(auto, using(crate::proofs::Steps::given))]
fn add_lonely(alloc: Global, rows: &mut Rows, pairs: &[(&Row, Option<&Row>)]) -> Result<(), Memory>
    ensures { OnOk result (rows.new ≡ rows.old ++ filter_map lonely (seen pairs.now)) }
{
    for (row, other) in pairs {
        if other.is_none() {
            rows.push(without_stamp(alloc, row)?)?;
        }
    }
    Ok(())
}

// What is left of rows, each without the other of its key.
#[tactic(auto, using(crate::proofs::Steps::given))]
fn remaining_rows(alloc: Global, pairs: &[(&Row, Option<&Row>)]) -> Result<Rows, Memory>
    ensures { IfOk result (λ rows. rows ≡ filter_map remaining_pair (seen pairs.now)) }
{
    let mut rows = Rows::new(alloc);
    for (row, other) in pairs {
        push_some(&mut rows, remaining(alloc, row, *other)?)?;
    }
    Ok(rows)
}
