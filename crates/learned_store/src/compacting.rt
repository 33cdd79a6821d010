ghost use Rattle.std.specs.Prelude.{◌≡◌, ◌++◌, ◌∷◌, [], map, true, IfOk, OnOk};
ghost use Rattle.std.specs.Int.{w32};
ghost use Rattle.std.specs.List.{flat_map, list_all};
ghost use Rattle.std.specs.Str.{all_scalars};
ghost use Rattle.exact_readers.specs.Numbers.{number_bytes};
ghost use Rattle.skk_calls.specs.Canonical.{canonical, is_good};
ghost use Rattle.skk_calls.specs.States.{is_book};
ghost use Rattle.skk_journal.specs.Records.{IsSized, framed, record_bytes};
ghost use Rattle.learn_index.specs.Kept.{changed, has_changed, kept, numbered};
ghost use Rattle.learned_store.specs.declared.form.PayloadForm.TheVariants.{Put, SetCount};
ghost use Rattle.learned_store.specs.Payloads.{payload_of};
ghost use Rattle.learned_store.specs.Compacted.{compacted, row_forms};
ghost use Rattle.learned_store.specs.Compacting.{book_records, form_record, list_record};

use crate::sizes::tight_end;
use crate::writing::{count_record, list_payload, put_record};
use learn_index::{Index, KeptRow, LearnedBook};
use skk_calls::{Row, TypistList};
use skk_text::{Bytes, Memory};
use std::alloc::Global;

// The byte of an open gate.
const OPEN: u8 = 1;

/// The records that a compaction writes of the state of an index, each behind an open gate. All memory is taken here,
/// at once for as many bytes as they need. Takes time in what the rows hold, and in the lists.
pub fn live_records(alloc: Global, index: &Index) -> Result<Bytes, Memory>
    ensures { IfOk result (λ records. records ≡ framed (map payload_of (compacted index.now.state))) }
{
    let mut records = Vec::with_capacity(alloc, tight_end(index) as usize)?;
    push_books(alloc, &mut records, index.books())?;
    push_lists(alloc, &mut records, index.lists())?;
    Ok(Bytes::of(records))
}

// Adds the records of books.
fn push_books(alloc: Global, records: &mut Vec<u8>, books: &[LearnedBook]) -> Result<(), Memory>
    requires { list_all is_book (changed (kept books.now [])).books ≡ true }
    ensures { OnOk result (records.new.items ≡ records.old.items ++ flat_map book_records (map numbered books.now)) }
{
    for book in books {
        push_book(alloc, records, book)?;
    }
    Ok(())
}

// Adds the records of lists.
fn push_lists(alloc: Global, records: &mut Vec<u8>, lists: &[TypistList]) -> Result<(), Memory>
    ensures { OnOk result (records.new.items ≡ records.old.items ++ flat_map list_record lists.now) }
{
    for list in lists {
        push_list(alloc, records, list)?;
    }
    Ok(())
}

// Adds the record of a list.
fn push_list(alloc: Global, records: &mut Vec<u8>, list: &TypistList) -> Result<(), Memory>
    ensures { OnOk result (records.new.items ≡ records.old.items ++ list_record list.now) }
{
    // What is counted tells that they are a list.
    let _count = list.books.len();
    let payload = list_payload(alloc, list.typist, &list.books)?;
    push_record(records, payload.as_slice())?;
    Ok(())
}

// Adds the records of a book, none where it has not changed.
fn push_book(alloc: Global, records: &mut Vec<u8>, book: &LearnedBook) -> Result<(), Memory>
    requires { has_changed (numbered book.now) ≡ true → is_book (numbered book.now) ≡ true }
    ensures { OnOk result (records.new.items ≡ records.old.items ++ book_records (numbered book.now)) }
{
    if book.count == 0 {
        Ok(())
    } else {
        push_rows(alloc, records, book.number, book.count, &book.rows)?;
        Ok(())
    }
}

// Adds the records of a book of a number and a count with these rows.
fn push_rows(
    alloc: Global,
    records: &mut Vec<u8>,
    number: u16,
    count: u64,
    rows: &[KeptRow],
) -> Result<(), Memory>
    requires { list_all is_good rows.now ≡ true }
    ensures { OnOk result
        (records.new.items ≡ records.old.items ++ flat_map form_record (row_forms number count rows.now)) }
{
    if rows.is_empty() {
        push_count(alloc, records, number, count)?;
        Ok(())
    } else {
        push_puts(alloc, records, number, count, rows)?;
        Ok(())
    }
}

// Adds the records that put rows into a book, which then has a count.
fn push_puts(
    alloc: Global,
    records: &mut Vec<u8>,
    book: u16,
    count: u64,
    rows: &[KeptRow],
) -> Result<(), Memory>
    requires { list_all is_good rows.now ≡ true }
    ensures { OnOk result
        (records.new.items ≡ records.old.items ++ flat_map form_record (map (Put book count) rows.now)) }
{
    for row in rows {
        push_put(alloc, records, book, count, row.row())?;
    }
    Ok(())
}

/// Adds the record that puts a row into a book, which then has a count, behind an open gate. Takes time in its bytes.
pub fn push_put(
    alloc: Global,
    records: &mut Vec<u8>,
    book: u16,
    count: u64,
    row: &Row,
) -> Result<(), Memory>
    requires { is_good row.now ≡ true }
    ensures records { OnOk result (records.new.items ≡ records.old.items ++ form_record (Put book count row.now)) }
    ensures characters { OnOk result (all_scalars (canonical row.now) ≡ true) }
{
    let payload = put_record(alloc, book, count, row)?;
    push_record(records, payload.as_slice())?;
    Ok(())
}

// Adds the record that gives a book a count.
fn push_count(alloc: Global, records: &mut Vec<u8>, book: u16, count: u64) -> Result<(), Memory>
    ensures { OnOk result (records.new.items ≡ records.old.items ++ form_record (SetCount book count)) }
{
    let payload = count_record(alloc, book, count)?;
    push_record(records, payload.as_slice())?;
    Ok(())
}

// Adds the record of a payload, behind an open gate.
fn push_record(records: &mut Vec<u8>, payload: &[u8]) -> Result<(), Memory>
    requires { IsSized payload.now }
    ensures { OnOk result (records.new.items ≡ records.old.items ++ record_bytes payload.now) }
{
    push_frame(records, payload.len() as u32)?;
    records.extend_from_slice(payload)?;
    Ok(())
}

// Adds an open gate, and the size of a payload.
#[tactic(auto, unfolding(exact_readers::specs::Numbers::number_bytes))]
fn push_frame(records: &mut Vec<u8>, size: u32) -> Result<(), Memory>
    ensures { OnOk result (records.new.items ≡ records.old.items ++ 1 ∷ number_bytes w32 size) }
{
    records.push(OPEN)?;
    records.extend_from_slice(&size.to_le_bytes())?;
    Ok(())
}
