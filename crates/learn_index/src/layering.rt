ghost use Rattle.std.specs.Prelude.{◌≡◌, ◌++◌, ◌==◌, List, map, not, IfOk, OnOk};
ghost use Rattle.std.specs.List.{filter, filter_map};
ghost use Rattle.std.specs.Option.{option_copied, option_to_list};
ghost use Rattle.skk_calls.specs.Found.{found, merged};
ghost use Rattle.skk_calls.specs.Rows.{Row as RowValue};
ghost use Rattle.skk_calls.specs.States.{books_read, row_at, row_in, shared_books};

use crate::index::Index;
use dict_layers::{RowList, merge, merge_onto};
use skk_calls::{FoundCands, FoundItems, FoundRow, FoundRows, Okuri, Row, RowKey, Rows};
use skk_text::{Memory, Sequence};
use std::alloc::Global;

/// The candidates of a key for a typist: of the row in each book that the typist reads, the typist's own first, and of
/// the rows that were found in system files, the last of which is moved. Takes a logarithm for each book.
pub fn found_cands(
    index: &Index,
    alloc: Global,
    rows: FoundRows,
    who: u16,
    key: &RowKey,
    okuri: Option<&Okuri>,
) -> Result<FoundCands, Memory>
    ensures { IfOk result (λ cands. (files : List (List RowValue)) → rows ≡ filter_map (row_in key.now) files
        → cands ≡ found files index.now.state who key.now (option_copied okuri.entry)) }
{
    let (above, last) = split_last(rows);
    let above = whole_rows(alloc, above)?;
    let upper = upper_layers(index, alloc, above.as_slice(), who, key)?;
    merge_with(alloc, &upper, last, okuri)
}

// Rows without the last of them, and that.
fn split_last(rows: FoundRows) -> (Vec<FoundRow>, Option<FoundRow>)
    ensures { rows ≡ result.0.items ++ option_to_list result.1 }
{
    let mut above = rows.into_vec();
    let last = above.pop();
    (above, last)
}

// Rows that were found, each as a row.
fn whole_rows(alloc: Global, found: Vec<FoundRow>) -> Result<Rows, Memory>
    ensures { IfOk result (λ rows. rows ≡ found.items) }
{
    let mut rows = Rows::new(alloc);
    for row in found {
        rows.push(row.into_row(alloc)?)?;
    }
    Ok(rows)
}

// The candidates of layers and of one more below them, where there is one, which is moved.
fn merge_with(
    alloc: Global,
    upper: &RowList,
    last: Option<FoundRow>,
    okuri: Option<&Okuri>,
) -> Result<FoundCands, Memory>
    ensures { IfOk result (λ cands. cands
        ≡ merged (map (λ row. row.now) upper.now ++ option_to_list last) (option_copied okuri.entry)) }
{
    match last {
        Some(last) => merge_onto(alloc, upper, last, okuri),
        None => Ok(FoundCands::new(FoundItems::Distinct(merge(alloc, upper, okuri)?))),
    }
}

// The rows of a key for a typist: in each book that the typist reads, the typist's own first, and these below them.
fn upper_layers<'a>(
    index: &'a Index,
    alloc: Global,
    below: &'a [Row],
    who: u16,
    key: &RowKey,
) -> Result<RowList<'a>, Memory>
    ensures { IfOk result (λ rows. map (λ row. row.now) rows
        ≡ filter_map (λ number. row_at index.now.state number key.now) (books_read index.now.state who)
        ++ below.now) }
{
    let mut rows = Sequence::new(alloc);
    add_row(&mut rows, index.row(who, key))?;
    add_listed_rows(&mut rows, index, who, key)?;
    add_rows(&mut rows, below)?;
    Ok(rows)
}

// Adds the rows of a key in the books of a typist's list, in its order, but for the typist's own.
fn add_listed_rows<'a>(
    rows: &mut RowList<'a>,
    index: &'a Index,
    who: u16,
    key: &RowKey,
) -> Result<(), Memory>
    ensures { OnOk result (map (λ row. row.now) rows.new ≡ map (λ row. row.now) rows.old
        ++ filter_map (λ number. row_at index.now.state number key.now)
        (filter (λ number. not (number == who)) (shared_books index.now.state who))) }
{
    let list = index.shared(who);
    for number in list.as_slice() {
        if *number != who {
            add_row(rows, index.row(*number, key))?;
        }
    }
    Ok(())
}

// Adds a row, where there is one.
fn add_row<'a>(rows: &mut RowList<'a>, row: Option<&'a Row>) -> Result<(), Memory>
    ensures { OnOk result
        (map (λ row. row.now) rows.new ≡ map (λ row. row.now) rows.old ++ option_to_list (option_copied row.entry)) }
{
    if let Some(row) = row {
        rows.push(row)?;
    }
    Ok(())
}

// Adds rows.
fn add_rows<'a>(rows: &mut RowList<'a>, more: &'a [Row]) -> Result<(), Memory>
    ensures { OnOk result (map (λ row. row.now) rows.new ≡ map (λ row. row.now) rows.old ++ more.now) }
{
    for row in more {
        rows.push(row)?;
    }
    Ok(())
}
