ghost use Rattle.std.specs.Prelude.{◌≡◌, length, map, IfOk};
ghost use Rattle.std.specs.List.{filter};
ghost use Rattle.dict_format.specs.PrintedFiles.{AreOfBook, in_printing_order};
ghost use Rattle.batch_store.specs.Learnings.{most_cands};
ghost use Rattle.batch_store.specs.Levels.{has_rank, levels_below};

use dict_format::rows_in_order;
use skk_calls::{Book, Part, Row};
use skk_text::Memory;
use std::alloc::Global;

// The rows that have a candidate of a rank, for each rank from 0 on, in the order in which they are printed. Takes time
// and memory in the number of all candidates, beside what it takes to put the rows in order.
pub(crate) fn levels_of(alloc: Global, book: &Book) -> Result<Vec<Vec<&Row>>, Memory>
    ensures levels { IfOk result (λ levels. map (λ level. map (λ row. row.now) level.items) levels.items
        ≡ levels_below (in_printing_order book.now) (most_cands (in_printing_order book.now))) }
    ensures of_book { IfOk result (λ levels. AreOfBook book.now) }
{
    let rows = rows_as_printed(alloc, book)?;
    let most = most_cands(&rows);
    let mut levels: Vec<Vec<&Row>> = Vec::with_capacity(alloc, most)?;
    for rank in 0..most {
        // Who has a candidate of a rank has one of the rank before it.
        let level = match levels.last() {
            Some(level) => with_rank(alloc, level, rank)?,
            None => with_rank(alloc, &rows, rank)?,
        };
        levels.push(level)?;
    }
    Ok(levels)
}

// The rows in the order in which they are printed.
fn rows_as_printed(alloc: Global, book: &Book) -> Result<Vec<&Row>, Memory>
    ensures order { IfOk result (λ rows. map (λ row. row.now) rows.items ≡ in_printing_order book.now) }
    ensures of_book { IfOk result (λ rows. AreOfBook book.now) }
{
    let mut rows = rows_in_order(alloc, Part::Ari, book)?;
    for row in rows_in_order(alloc, Part::Nasi, book)? {
        rows.push(row)?;
    }
    Ok(rows)
}

// The most candidates that one of these rows has.
fn most_cands(rows: &[&Row]) -> usize
    ensures { result ≡ most_cands (map (λ row. row.now) rows.now) }
{
    let mut most = 0;
    for row in rows {
        most = most.max(row.cands().len());
    }
    most
}

// Those of these rows that have a candidate of a rank.
fn with_rank<'a>(alloc: Global, rows: &[&'a Row], rank: usize) -> Result<Vec<&'a Row>, Memory>
    ensures { IfOk result (λ kept.
        map (λ row. row.now) kept.items ≡ filter (has_rank rank) (map (λ row. row.now) rows.now)) }
{
    let mut kept = Vec::new(alloc);
    for row in rows {
        if rank < row.cands().len() {
            kept.push(*row)?;
        }
    }
    Ok(kept)
}
