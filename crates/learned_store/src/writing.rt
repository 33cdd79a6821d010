ghost use Rattle.std.specs.Prelude.{◌≡◌, ◌&&◌, ◌++◌, true, IfOk, OnOk};
ghost use Rattle.std.specs.List.{flat_map, list_all};
ghost use Rattle.std.specs.Option.{option_copied, option_map};
ghost use Rattle.std.specs.Str.{all_scalars};
ghost use Rattle.skk_calls.specs.Canonical.{canonical, item};
ghost use Rattle.learned_store.specs.declared.form.PayloadForm.TheVariants.{Note, SetList};
ghost use Rattle.learned_store.specs.Payloads.{put_bytes, drop_bytes, count_bytes, note_bytes, list_bytes, part_byte};
ghost use Rattle.learned_store.specs.Payloads.{book_number, is_held, row_told};
ghost use Rattle.learned_store.specs.Written.{IsWritten, IsRecordOf, noted_in};

use crate::form::{DROP, NOTE, PUT, SET_COUNT, SET_LIST};
use dict_format::{print_item, print_line};
use learn_index::{Index, KeptRow, Plan};
use skk_calls::{BookList, Call, Cand, Part, Row, RowKey};
use skk_text::{Bytes, Memory};
use std::alloc::Global;

// The payload of a record, and the version of a learned file that first has such a record.
#[derive(Debug, Drop)]
pub(crate) struct Record {
    pub(crate) payload: Bytes,
    pub(crate) version: u8,
}

// The record of a call that was planned at the state of an index, none where nothing changes.
pub(crate) fn planned_record(
    alloc: Global,
    index: &Index,
    call: &Call,
    plan: &Plan,
) -> Result<Option<Record>, Memory>
    ensures { IfOk result (IsRecordOf index.now.state call.now plan.now) }
{
    match plan {
        Plan::Still(_) => Ok(None),
        Plan::Move {
            book,
            count,
            key,
            row,
            ..
        } => {
            let record = match noted_in(index, call) {
                Some((key, cand)) => note_record(alloc, *book, *count, key, cand)?,
                None => row_record(alloc, *book, *count, key, row.as_ref())?,
            };
            Ok(Some(record))
        }
        Plan::Lists { who, list, .. } => Ok(Some(list_record(alloc, *who, list)?)),
    }
}

// The key and the candidate of an annotation whose row is there.
fn noted_in<'a>(index: &Index, call: &'a Call) -> Option<(&'a RowKey, &'a Cand)>
    ensures { option_map (λ noted. (noted.0.now, noted.1.now)) result ≡ noted_in index.now.state call.now }
{
    match call {
        Call::Annotate { book, key, cand } => match index.row(*book, key) {
            Some(_) => Some((key, cand)),
            None => None,
        },
        _ => None,
    }
}

// The record that says of a book, which then has a count, that a key has this row or none. Takes time in its bytes.
fn row_record(
    alloc: Global,
    book: u16,
    count: u64,
    key: &RowKey,
    row: Option<&KeptRow>,
) -> Result<Record, Memory>
    ensures { IfOk result (IsWritten (row_told book count key.now (option_copied row.entry))) }
{
    let payload = match row {
        Some(row) => put_record(alloc, book, count, row.row())?,
        None => drop_record(alloc, book, count, key)?,
    };
    Ok(Record {
        payload,
        version: 1,
    })
}

// The record that gives a candidate of a row its note, after which the book has a count. Takes time in its bytes.
fn note_record(
    alloc: Global,
    book: u16,
    count: u64,
    key: &RowKey,
    cand: &Cand,
) -> Result<Record, Memory>
    ensures { IfOk result (IsWritten (Note book count key.now cand.now)) }
{
    let payload = note_payload(alloc, book, count, key, cand)?;
    Ok(Record {
        payload,
        version: 2,
    })
}

// The bytes that give a candidate of a row its note, after which the book has a count.
#[tactic(auto, unfolding(exact_readers::specs::Numbers::number_bytes))]
fn note_payload(
    alloc: Global,
    book: u16,
    count: u64,
    key: &RowKey,
    cand: &Cand,
) -> Result<Bytes, Memory>
    ensures payload { IfOk result (λ bytes. bytes ≡ note_bytes book count key.now cand.now) }
    ensures characters { OnOk result ((all_scalars key.now.reading && all_scalars (item cand.now)) ≡ true) }
{
    let item = print_item(alloc, cand)?;
    let reading = key.reading().as_str();
    let mut record = Vec::new(alloc);
    record.push(NOTE)?;
    record.extend_from_slice(&book.to_le_bytes())?;
    record.extend_from_slice(&count.to_le_bytes())?;
    record.push(part_byte(key.part()))?;
    record.push(reading.len() as u8)?;
    record.extend_from_slice(reading.as_bytes())?;
    record.extend_from_slice(item.as_str().as_bytes())?;
    Ok(Bytes::of(record))
}

// The record that gives a typist a list of books.
fn list_record(alloc: Global, typist: u16, books: &BookList) -> Result<Record, Memory>
    ensures { IfOk result (IsWritten (SetList typist books.now)) }
{
    let payload = list_payload(alloc, typist, books)?;
    Ok(Record {
        payload,
        version: 3,
    })
}

// The bytes that give a typist a list of books.
#[tactic(auto, unfolding(exact_readers::specs::Numbers::number_bytes))]
pub(crate) fn list_payload(alloc: Global, typist: u16, books: &BookList) -> Result<Bytes, Memory>
    ensures payload { IfOk result (λ bytes. bytes ≡ list_bytes typist books.now) }
    ensures held { OnOk result (list_all is_held books.now ≡ true) }
{
    let mut record = Vec::new(alloc);
    record.push(SET_LIST)?;
    record.extend_from_slice(&typist.to_le_bytes())?;
    record.push(books.len() as u8)?;
    push_numbers(&mut record, books.as_slice())?;
    Ok(Bytes::of(record))
}

// Adds the numbers of books.
#[tactic(auto, unfolding(exact_readers::specs::Numbers::number_bytes))]
fn push_numbers(bytes: &mut Vec<u8>, books: &[u16]) -> Result<(), Memory>
    ensures bytes { OnOk result (bytes.new.items ≡ bytes.old.items ++ flat_map book_number books.now) }
    ensures held { OnOk result (list_all is_held books.now ≡ true) }
{
    for book in books {
        bytes.extend_from_slice(&book.to_le_bytes())?;
    }
    Ok(())
}

/// The payload of the record that puts a row into a book, which then has a count. Takes time in its bytes.
#[tactic(auto, unfolding(exact_readers::specs::Numbers::number_bytes))]
pub fn put_record(alloc: Global, book: u16, count: u64, row: &Row) -> Result<Bytes, Memory>
    ensures payload { IfOk result (λ bytes. bytes ≡ put_bytes book count row.now) }
    ensures characters { OnOk result (all_scalars (canonical row.now) ≡ true) }
{
    let line = print_line(alloc, row)?;
    let mut record = Vec::new(alloc);
    record.push(PUT)?;
    record.extend_from_slice(&book.to_le_bytes())?;
    record.extend_from_slice(&count.to_le_bytes())?;
    record.extend_from_slice(&row.stamp().to_le_bytes())?;
    record.push(part_byte(row.key().part()))?;
    record.extend_from_slice(line.as_str().as_bytes())?;
    Ok(Bytes::of(record))
}

// The bytes that take the row of a key out of a book, which then has a count.
#[tactic(auto, unfolding(exact_readers::specs::Numbers::number_bytes))]
fn drop_record(alloc: Global, book: u16, count: u64, key: &RowKey) -> Result<Bytes, Memory>
    ensures payload { IfOk result (λ bytes. bytes ≡ drop_bytes book count key.now) }
    ensures characters { OnOk result (all_scalars key.now.reading ≡ true) }
{
    let mut record = Vec::new(alloc);
    record.push(DROP)?;
    record.extend_from_slice(&book.to_le_bytes())?;
    record.extend_from_slice(&count.to_le_bytes())?;
    record.push(part_byte(key.part()))?;
    record.extend_from_slice(key.reading().as_str().as_bytes())?;
    Ok(Bytes::of(record))
}

// The bytes that give a book a count.
#[tactic(auto, unfolding(exact_readers::specs::Numbers::number_bytes))]
pub(crate) fn count_record(alloc: Global, book: u16, count: u64) -> Result<Bytes, Memory>
    ensures { IfOk result (λ bytes. bytes ≡ count_bytes book count) }
{
    let mut record = Vec::new(alloc);
    record.push(SET_COUNT)?;
    record.extend_from_slice(&book.to_le_bytes())?;
    record.extend_from_slice(&count.to_le_bytes())?;
    Ok(Bytes::of(record))
}

// The byte of a part.
pub(crate) fn part_byte(part: Part) -> u8
    ensures { result ≡ part_byte part }
{
    match part {
        Part::Nasi => 0,
        Part::Ari => 1,
    }
}
