ghost use Rattle.std.specs.Prelude.{◌≡◌, ◌==◌, ◌<◌, ◌&&◌, ◌∷◌, ◌++◌, true, [], length, map, nat_eq, reverse, take};
ghost use Rattle.std.specs.Prelude.{encode_utf8_all, not, slice_index_or, if◌then◌else◌, IfOk, OnOk};
ghost use Rattle.std.specs.List.{filter, list_all, starts_with};
ghost use Rattle.std.specs.Option.{ForSome, IsSomeAnd};
ghost use Rattle.std.specs.Ordering.{is_lt};
ghost use Rattle.skk_text.specs.Pairs.{all_pairs};
ghost use Rattle.ordered_lists.specs.OrderLaws.{apart};
ghost use Rattle.skk_calls.specs.declared.part.Part.TheVariants.{Nasi};
ghost use Rattle.skk_calls.specs.Completions.{completes, completion_limit, completions, newest_readings, reading_of};
ghost use Rattle.skk_calls.specs.Dictionary.{is_plain_reading};
ghost use Rattle.skk_calls.specs.Orders.{is_newer, key_less, plain_key, sort_by};
ghost use Rattle.skk_calls.specs.Rows.{same_part};
ghost use Rattle.skk_calls.specs.States.{books_read, rows_ascend, rows_of};
ghost use Rattle.learn_index.specs.Ages.{oldest_first};

use crate::aged_row::AgedRow;
use crate::index::Index;
use crate::kept_row::KeptRow;
use dict_complete::{COMPLETION_LIMIT, TextLists, begins_with, complete};
use dict_files::walks_go_over_completions;
use dict_layers::System;
use ordered_lists::{order_bytes, place_of};
use skk_calls::{Part, Row};
use skk_text::{Copies, Memory, Text, Texts};
use std::alloc::Global;
use std::cmp::Ordering;

/// The readings that complete a prefix for a typist: of each book that the typist reads, the typist's own first, and of
/// the system files.
pub fn completions(
    index: &Index,
    alloc: Global,
    system: &System,
    who: u16,
    prefix: &Text,
) -> Result<Texts, Memory>
    ensures value { IfOk result (λ readings. readings ≡ completions system.now index.now.state who prefix.now) }
    ensures valid { IfOk result (λ readings. list_all is_plain_reading readings ≡ true) }
{
    walks_go_over_completions();
    // What is counted tells that each file has rows of which no two have one key.
    let _files = system.file_count();
    // What is counted tells that the state is valid.
    let _count = index.count(who);
    let lists = readings_of_books(index, alloc, who, prefix)?;
    complete(alloc, &lists, system, prefix)
}

// The newest readings of each book that a typist reads, the typist's own first, then those of the list without it.
fn readings_of_books(
    index: &Index,
    alloc: Global,
    who: u16,
    prefix: &Text,
) -> Result<TextLists, Memory>
    ensures { IfOk result (λ lists. lists
        ≡ map (λ number. take completion_limit (newest_readings prefix.now (rows_of index.now.state number)))
        (books_read index.now.state who)) }
{
    let mut lists = TextLists::new(alloc);
    lists.push(book_readings(index, alloc, who, prefix)?)?;
    let list = index.shared(who);
    for number in list.as_slice() {
        if *number != who {
            lists.push(book_readings(index, alloc, *number, prefix)?)?;
        }
    }
    Ok(lists)
}

// The newest readings of the book of a number.
fn book_readings(index: &Index, alloc: Global, number: u16, prefix: &Text) -> Result<Texts, Memory>
    ensures { IfOk result (λ readings. readings
        ≡ take completion_limit (newest_readings prefix.now (rows_of index.now.state number))) }
{
    newest_readings(
        alloc,
        index.rows_of(number),
        index.rows_by_stamp(number),
        prefix,
    )
}

// The readings of the rows of a book that complete a prefix, copied: the newest, up to as many as a completion gives.
// Takes a logarithm in the number of rows, and what `newest_rows` takes.
fn newest_readings(
    alloc: Global,
    rows: &[KeptRow],
    by_stamp: Option<&[AgedRow]>,
    prefix: &Text,
) -> Result<Texts, Memory>
    requires ascend { rows_ascend rows.now ≡ true }
    requires stamps { ForSome by_stamp (λ stamps. stamps.now ≡ oldest_first rows.now) }
    ensures { IfOk result (λ readings. readings ≡ take completion_limit (newest_readings prefix.now rows.now)) }
{
    let newest = newest_rows(alloc, rows, by_stamp, prefix)?;
    first_readings(alloc, &newest)
}

// The rows that complete a prefix, the newest first: at least as many as a completion gives, where there are as many.
// They are found from the newest row on, as long as that takes no more than to sort those that begin with the prefix,
// and else by sorting these: so this takes no more than about twice what the cheaper of both ways takes.
fn newest_rows<'a>(
    alloc: Global,
    rows: &'a [KeptRow],
    by_stamp: Option<&'a [AgedRow]>,
    prefix: &Text,
) -> Result<Vec<&'a Row>, Memory>
    requires ascend { rows_ascend rows.now ≡ true }
    requires stamps { ForSome by_stamp (λ stamps. stamps.now ≡ oldest_first rows.now) }
    ensures { IfOk result (λ newest. take completion_limit (map reading_of (map (λ row. row.now) newest.items))
        ≡ take completion_limit (newest_readings prefix.now rows.now)) }
{
    let from = rows_from(rows, prefix);
    match walk(alloc, by_stamp, steps_over(from, prefix), prefix)? {
        Some(newest) => Ok(newest),
        None => sorted_rows(alloc, from, prefix),
    }
}

// The steps of a walk over rows by their stamps that take about as long as to sort one of those that begin with a
// prefix.
const STEPS_A_ROW: usize = 8;

// How many steps a walk may take in place of sorting those of these rows that begin with a prefix: none where these are
// no more than a completion gives, since it would go over all. Takes a logarithm in the number of rows. What is found
// is the same, whatever it answers.
fn steps_over(rows: &[KeptRow], prefix: &Text) -> usize {
    let begun = rows.partition_point(|kept| begins(kept.row(), prefix));
    if begun > COMPLETION_LIMIT {
        begun.saturating_mul(STEPS_A_ROW)
    } else {
        0
    }
}

// The newest rows that complete a prefix, as many as a completion gives: where there is an order by stamp, and so many
// steps are enough to find them.
fn walk<'a>(
    alloc: Global,
    by_stamp: Option<&'a [AgedRow]>,
    steps: usize,
    prefix: &Text,
) -> Result<Option<Vec<&'a Row>>, Memory>
    ensures { IfOk result (λ found. ForSome found (λ newest. IsSomeAnd by_stamp.entry (λ stamps.
        take completion_limit (map (λ row. row.now) newest.items)
        ≡ take completion_limit (filter (completes prefix.now) (reverse stamps.now))))) }
{
    match by_stamp {
        Some(stamps) => last_completing(alloc, stamps, steps, prefix),
        None => Ok(None),
    }
}

// The last rows that complete a prefix, from the last on, as many as a completion gives: where so many steps are enough
// to find them.
fn last_completing<'a>(
    alloc: Global,
    stamps: &'a [AgedRow],
    steps: usize,
    prefix: &Text,
) -> Result<Option<Vec<&'a Row>>, Memory>
    ensures { IfOk result (λ found. ForSome found (λ newest.
        take completion_limit (map (λ row. row.now) newest.items)
        ≡ take completion_limit (filter (completes prefix.now) (reverse stamps.now)))) }
{
    let mut newest = Vec::new(alloc);
    for step in 0..steps.min(stamps.len()) {
        add_completing(&mut newest, from_end(stamps, step), prefix)?;
        if newest.len() >= COMPLETION_LIMIT {
            return Ok(Some(newest));
        }
    }
    Ok(None)
}

// The row that stands so many places before the last.
fn from_end(stamps: &[AgedRow], step: usize) -> &Row
    requires { step < length stamps.now }
    ensures { result.now ≡ slice_index_or (reverse stamps.now) step result.now }
{
    let place = stamps.len() - 1 - step;
    stamps[place].row()
}

// Adds a row, if it completes a prefix.
fn add_completing<'a>(newest: &mut Vec<&'a Row>, row: &'a Row, prefix: &Text) -> Result<(), Memory>
    ensures { OnOk result (map (λ r. r.now) newest.new.items
        ≡ map (λ r. r.now) newest.old.items ++ (if completes prefix.now row.now then row.now ∷ [] else [])) }
{
    if begins(row, prefix) && completes(row, prefix) {
        newest.push(row)?;
    }
    Ok(())
}

// The rows that complete a prefix, the newest first.
fn sorted_rows<'a>(
    alloc: Global,
    rows: &'a [KeptRow],
    prefix: &Text,
) -> Result<Vec<&'a Row>, Memory>
    requires ascend { rows_ascend rows.now ≡ true }
    requires high { list_all (λ row. not (key_less row.key (plain_key prefix.now))) rows.now ≡ true }
    ensures { IfOk result (λ newest.
        map (λ row. row.now) newest.items ≡ sort_by is_newer (filter (completes prefix.now) rows.now)) }
{
    let mut completing = completing_rows(alloc, rows, prefix)?;
    sort_newest(&mut completing);
    Ok(completing)
}

// The rows that complete a prefix, in the order of their keys, of those that are not less: they stand together, where
// the readings begin with it.
fn completing_rows<'a>(
    alloc: Global,
    rows: &'a [KeptRow],
    prefix: &Text,
) -> Result<Vec<&'a Row>, Memory>
    requires ascend { rows_ascend rows.now ≡ true }
    requires high { list_all (λ row. not (key_less row.key (plain_key prefix.now))) rows.now ≡ true }
    ensures { IfOk result (λ found. map (λ row. row.now) found.items ≡ filter (completes prefix.now) rows.now) }
{
    let mut completing = Vec::new(alloc);
    for kept in rows {
        let row = kept.row();
        if !begins(row, prefix) {
            break;
        }
        if completes(row, prefix) {
            completing.push(row)?;
        }
    }
    Ok(completing)
}

// The rows from the first on whose key is not less than that of a prefix: each that completes it is among them.
fn rows_from<'a>(rows: &'a [KeptRow], prefix: &Text) -> &'a [KeptRow]
    requires { rows_ascend rows.now ≡ true }
    ensures ascend { rows_ascend result.now ≡ true }
    ensures high { list_all (λ row. not (key_less row.key (plain_key prefix.now))) result.now ≡ true }
    ensures completing { filter (completes prefix.now) result.now ≡ filter (completes prefix.now) rows.now }
{
    &rows[place_of(rows, prefix)..]
}

// Whether a row has no okurigana, and a reading that begins with a prefix.
fn begins(row: &Row, prefix: &Text) -> bool
    ensures { result ≡ (same_part row.now.key.part Nasi && starts_with nat_eq row.now.key.reading prefix.now) }
{
    row.key().part() == Part::Nasi && begins_with(row.key().reading(), prefix)
}

// Whether a row that has no okurigana, and a reading that begins with a prefix, completes it.
fn completes(row: &Row, prefix: &Text) -> bool
    requires { (same_part row.now.key.part Nasi && starts_with nat_eq row.now.key.reading prefix.now) ≡ true }
    ensures { result ≡ completes prefix.now row.now }
{
    !row.cands().is_empty() && row.key().reading().as_str() != prefix.as_str()
}

// Puts rows in order, the newest first.
fn sort_newest(rows: &mut Vec<&Row>)
    requires { all_pairs (apart is_newer) (map (λ row. row.now) rows.old.items) ≡ true }
    ensures { map (λ row. row.now) rows.new.items ≡ sort_by is_newer (map (λ row. row.now) rows.old.items) }
{
    rows.sort_unstable_by(|row, other| order_by_age(row, other));
}

// Which of two rows is newer.
fn order_by_age(row: &Row, other: &Row) -> Ordering
    ensures { is_lt result ≡ is_newer row.now other.now }
{
    match other.stamp().cmp(&row.stamp()) {
        Ordering::Equal => order_bytes(reading_of(row), reading_of(other)),
        order => order,
    }
}

// The bytes of the reading of a row.
fn reading_of(row: &Row) -> &[u8]
    ensures { result.now ≡ encode_utf8_all row.now.key.reading }
{
    row.key().reading().as_str().as_bytes()
}

// Copies of the readings of rows, up to as many as a completion gives.
fn first_readings(alloc: Global, rows: &[&Row]) -> Result<Texts, Memory>
    ensures { IfOk result
        (λ readings. readings ≡ take completion_limit (map reading_of (map (λ row. row.now) rows.now))) }
{
    let mut readings = Texts::new(alloc);
    for row in &rows[..rows.len().min(COMPLETION_LIMIT)] {
        readings.push(row.key().reading().copy(alloc)?)?;
    }
    Ok(readings)
}
