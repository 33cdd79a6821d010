ghost use Rattle.std.specs.Prelude.{◌≡◌, ◌&&◌, ◌++◌, true, nat_le, Some, IfOk, IfSome};
ghost use Rattle.std.specs.Int.{w64};
ghost use Rattle.std.specs.Option.{option_map};
ghost use Rattle.exact_readers.specs.Formats.{then_at};
ghost use Rattle.skk_text.specs.Lists.{is_empty};
ghost use Rattle.skk_calls.specs.Canonical.{canonical};
ghost use Rattle.skk_calls.specs.Rows.{same_text};
ghost use Rattle.learned_store.specs.declared.form.PayloadForm.{PayloadForm};
ghost use Rattle.learned_store.specs.declared.form.PayloadForm.TheVariants.{Put, Drop, Note};
ghost use Rattle.learned_store.specs.Payloads.{payload_of, is_sound};
ghost use Rattle.learned_store.specs.Reading.{put_with, fields, form_of, counted_form, form_behind, row_of};
ghost use Rattle.learned_store.specs.Reading.{stamped_row, is_stamp, parted_of, part_of, text_of, key_of, valid_key};
ghost use Rattle.learned_store.specs.Reading.{line_row, one_line, item_cand, noted_of, only_cand, single_cand};

use crate::form::{DROP, NOTE, PUT, PayloadForm, SET_COUNT, SET_LIST};
use crate::list_payload::list_of;
use crate::plain_row::plain_row;
use dict_format::{good_rows_are_read_again, lines_spell_one_row, print_line, row_of_line};
use exact_readers::{read_u16, read_u64};
use skk_calls::{Cand, Cands, Part, Row, RowKey};
use skk_text::{Copies, Memory, Text};
use std::alloc::Global;
use std::str;

// What every payload that speaks of a book begins with: the byte of its kind, the number of the book, and a count; and
// the rest behind them.
#[derive(Clone, Copy, Debug)]
struct PayloadFields<'a> {
    kind: u8,
    book: u16,
    count: u64,
    rest: &'a [u8],
}

// What a payload begins with that puts a row into a book: the number of the book, a count, and the row's stamp; and
// the bytes of the row's part and line behind them.
#[derive(Clone, Copy, Debug)]
pub(crate) struct PutFields<'a> {
    pub(crate) book: u16,
    pub(crate) count: u64,
    pub(crate) stamp: u64,
    pub(crate) row: &'a [u8],
}

// What a payload says, whatever the state. Takes time in its length.
pub(crate) fn read_form(alloc: Global, payload: &[u8]) -> Result<Option<PayloadForm>, Memory>
    ensures some { IfOk result (λ form. IfSome form (λ f. (is_sound f ≡ true) × (payload.now ≡ payload_of f))) }
    ensures only { IfOk result (λ form. (f : PayloadForm) → is_sound f ≡ true → payload.now ≡ payload_of f
        → form ≡ Some f) }
{
    good_rows_are_read_again();
    lines_spell_one_row();
    let form = any_form(alloc, payload)?;
    Ok(form)
}

// What is read of a payload.
fn any_form(alloc: Global, payload: &[u8]) -> Result<Option<PayloadForm>, Memory>
    ensures { IfOk result (λ form. form ≡ form_of payload.now) }
{
    match payload {
        [SET_LIST, bytes @ ..] => list_of(alloc, bytes),
        _ => counted_form(alloc, payload),
    }
}

// What is read of a payload that speaks of a book.
fn counted_form(alloc: Global, payload: &[u8]) -> Result<Option<PayloadForm>, Memory>
    ensures { IfOk result (λ form. form ≡ counted_form payload.now) }
{
    match fields_of(payload) {
        Some(fields) => form_behind(alloc, &fields),
        None => Ok(None),
    }
}

// What is read behind the fields of a payload.
fn form_behind(alloc: Global, fields: &PayloadFields<'_>) -> Result<Option<PayloadForm>, Memory>
    ensures { IfOk result (λ form. form
        ≡ form_behind fields.now.kind fields.now.book fields.now.count fields.now.rest.now) }
{
    match fields.kind {
        PUT => put_of(alloc, fields.book, fields.count, fields.rest),
        DROP => drop_of(alloc, fields.book, fields.count, fields.rest),
        SET_COUNT if fields.rest.is_empty() => Ok(Some(PayloadForm::SetCount {
            book: fields.book,
            count: fields.count,
        })),
        NOTE if fields.count >= 1 => note_of(alloc, fields.book, fields.count, fields.rest),
        _ => Ok(None),
    }
}

// That a row is put into a book, where one is read.
fn put_of(alloc: Global, book: u16, count: u64, rest: &[u8]) -> Result<Option<PayloadForm>, Memory>
    ensures { IfOk result (λ form. form ≡ option_map (Put book count) (row_of count rest.now)) }
{
    let row = read_row(alloc, count, rest)?;
    Ok(row.map(|row| PayloadForm::Put { book, count, row }))
}

// That the row of a key is taken out of a book, where a key is read.
fn drop_of(alloc: Global, book: u16, count: u64, rest: &[u8]) -> Result<Option<PayloadForm>, Memory>
    ensures { IfOk result (λ form. form ≡ option_map (Drop book count) (key_of rest.now)) }
{
    let key = read_key(alloc, rest)?;
    Ok(key.map(|key| PayloadForm::Drop { book, count, key }))
}

// That a candidate of a row in a book has a note, where a key and a candidate are read.
fn note_of(alloc: Global, book: u16, count: u64, rest: &[u8]) -> Result<Option<PayloadForm>, Memory>
    ensures { IfOk result (λ form. form
        ≡ option_map (λ noted. Note book count noted.0 noted.1) (noted_of rest.now)) }
{
    let noted = read_noted(alloc, rest)?;
    Ok(noted.map(|(key, cand)| PayloadForm::Note {
        book,
        count,
        key,
        cand,
    }))
}

// The fields of a payload that puts a row of a stamp that its count allows into a book. The row is not read.
pub(crate) fn put_fields(payload: &[u8]) -> Option<PutFields<'_>>
    ensures is { IfSome result (λ fields.
        payload.now ≡ put_with fields.book fields.count fields.stamp fields.row.now) }
    ensures stamp { IfSome result (λ fields. (nat_le 1 fields.stamp && nat_le fields.stamp fields.count) ≡ true) }
{
    let fields = fields_of(payload)?;
    if fields.kind != PUT {
        return None;
    }
    let (stamp, row) = read_u64(fields.rest)?;
    if !is_stamp(fields.count, stamp) {
        return None;
    }
    Some(PutFields {
        book: fields.book,
        count: fields.count,
        stamp,
        row,
    })
}

// The fields of a payload, where it is long enough for them.
fn fields_of(payload: &[u8]) -> Option<PayloadFields<'_>>
    ensures { option_map (λ read. ((read.kind, (read.book, read.count)), read.rest.now)) result
        ≡ fields.step payload.now }
{
    let (kind, rest) = payload.split_first()?;
    let (book, rest) = read_u16(rest)?;
    let (count, rest) = read_u64(rest)?;
    Some(PayloadFields {
        kind: *kind,
        book,
        count,
        rest,
    })
}

// The row of a book of this count, of the bytes of its stamp, its part and its line.
fn read_row(alloc: Global, count: u64, bytes: &[u8]) -> Result<Option<Row>, Memory>
    ensures { IfOk result (λ row. row ≡ row_of count bytes.now) }
{
    match read_u64(bytes) {
        Some((stamp, rest)) => stamped_row(alloc, count, stamp, rest),
        None => Ok(None),
    }
}

// The row of a book of this count, of a stamp and of the bytes behind that.
fn stamped_row(alloc: Global, count: u64, stamp: u64, bytes: &[u8]) -> Result<Option<Row>, Memory>
    ensures { IfOk result (λ row. row ≡ stamped_row count (stamp, bytes.now)) }
{
    if is_stamp(count, stamp) {
        text_row(alloc, stamp, bytes)
    } else {
        Ok(None)
    }
}

// The row of a stamp, of the bytes of its part and its line.
fn text_row(alloc: Global, stamp: u64, bytes: &[u8]) -> Result<Option<Row>, Memory>
    ensures { IfOk result (λ row. row ≡ then_at (parted_of bytes.now) (line_row stamp)) }
{
    match parted_text(alloc, bytes)? {
        Some((part, line)) => row_of(alloc, part, &line, stamp),
        None => Ok(None),
    }
}

// Whether a row of a book of this count may have this stamp.
fn is_stamp(count: u64, stamp: u64) -> bool
    ensures { result ≡ is_stamp count stamp }
{
    1 <= stamp && stamp <= count
}

// The key of its part and its reading.
pub(crate) fn read_key(alloc: Global, bytes: &[u8]) -> Result<Option<RowKey>, Memory>
    ensures { IfOk result (λ key. key ≡ key_of bytes.now) }
{
    match parted_text(alloc, bytes)? {
        Some((part, reading)) => Ok(key_of(part, reading)),
        None => Ok(None),
    }
}

// The key of a part and a reading.
fn key_of(part: Part, reading: Text) -> Option<RowKey>
    ensures { result ≡ valid_key (part, reading) }
{
    match RowKey::new(part, reading) {
        Ok(key) => Some(key),
        Err(_) => None,
    }
}

// The key and the candidate of their bytes: those of a part, of a reading with its length before it, and of an item.
fn read_noted(alloc: Global, bytes: &[u8]) -> Result<Option<(RowKey, Cand)>, Memory>
    ensures { IfOk result (λ noted. noted ≡ noted_of bytes.now) }
{
    let [part, size, behind @ ..] = bytes else {
        return Ok(None);
    };
    let Some(part) = part_of(*part) else {
        return Ok(None);
    };
    match behind.split_at_checked(*size as usize) {
        Some((reading, item)) => item_cand(alloc, part, reading, item),
        None => Ok(None),
    }
}

// The key and the candidate of a part, of the bytes of a reading, and of those of an item.
fn item_cand(
    alloc: Global,
    part: Part,
    reading: &[u8],
    item: &[u8],
) -> Result<Option<(RowKey, Cand)>, Memory>
    ensures { IfOk result (λ noted. noted ≡ item_cand part reading.now item.now) }
{
    let Some(reading) = text_of(alloc, reading)? else {
        return Ok(None);
    };
    let Some(item) = text_of(alloc, item)? else {
        return Ok(None);
    };
    let line = one_line(alloc, &reading, &item)?;
    match row_of(alloc, part, &line, 1)? {
        Some(row) => only_cand(alloc, &reading, row),
        None => Ok(None),
    }
}

// The line of a row that has one candidate alone, by its reading and the item of the candidate.
fn one_line(alloc: Global, reading: &Text, item: &Text) -> Result<Text, Memory>
    ensures { IfOk result (λ line. line ≡ one_line reading.now item.now) }
{
    let mut line = Text::new(alloc);
    line.push_str(reading.as_str())?;
    line.push_str(" /")?;
    line.push_str(item.as_str())?;
    line.push('/')?;
    Ok(line)
}

// The key of a row with its candidate, where the row has this reading and one candidate alone.
fn only_cand(alloc: Global, reading: &Text, row: Row) -> Result<Option<(RowKey, Cand)>, Memory>
    ensures { IfOk result (λ noted. noted ≡ only_cand reading.now row) }
{
    if !has_cands_only(reading, &row) {
        return Ok(None);
    }
    let key = row.key().copy(alloc)?;
    Ok(single_cand(row.into_cands()).map(|cand| (key, cand)))
}

// Whether a row has a reading, and nothing but candidates.
fn has_cands_only(reading: &Text, row: &Row) -> bool
    ensures { result ≡ (same_text row.now.key.reading reading.now
        && (is_empty row.now.blocks && is_empty row.now.hides)) }
{
    row.key().reading().as_str() == reading.as_str()
        && (row.blocks().is_empty() && row.hides().is_empty())
}

// The candidate of candidates that are one alone.
fn single_cand(cands: Cands) -> Option<Cand>
    ensures { result ≡ single_cand cands }
{
    let mut cands = cands.into_vec();
    if cands.len() == 1 { cands.pop() } else { None }
}

// The row of a stamp, of its part and its line.
fn row_of(alloc: Global, part: Part, line: &Text, stamp: u64) -> Result<Option<Row>, Memory>
    ensures { IfOk result (λ row. row ≡ line_row stamp (part, line.now)) }
{
    good_rows_are_read_again();
    lines_spell_one_row();
    match plain_row(alloc, part, line, stamp)? {
        Some(row) => Ok(Some(row)),
        None => any_row_of(alloc, part, line, stamp),
    }
}

// The row of a stamp, of its part and its line, whatever stands there.
fn any_row_of(alloc: Global, part: Part, line: &Text, stamp: u64) -> Result<Option<Row>, Memory>
    ensures { IfOk result (λ row. row ≡ line_row stamp (part, line.now)) }
{
    let Some(row) = row_of_line(alloc, part, line.as_str())? else {
        return Ok(None);
    };
    let is_own = is_line_of(alloc, &row, line)?;
    if is_own {
        Ok(Some(stamped(alloc, row, stamp)?))
    } else {
        Ok(None)
    }
}

// Whether the line of a row is this one.
pub(crate) fn is_line_of(alloc: Global, row: &Row, line: &Text) -> Result<bool, Memory>
    ensures { IfOk result (λ is. is ≡ same_text (canonical row.now) line.now) }
{
    let printed = print_line(alloc, row)?;
    Ok(printed.as_str() == line.as_str())
}

// A row with this stamp: its candidates are moved, and the rest, which mostly is small, is copied.
fn stamped(alloc: Global, row: Row, stamp: u64) -> Result<Row, Memory>
    ensures { IfOk result (λ stamped. stamped ≡ record row { stamp = stamp }) }
{
    let key = row.key().copy(alloc)?;
    let blocks = row.blocks().copy(alloc)?;
    let hides = row.hides().copy(alloc)?;
    let cands = fitted(alloc, row.into_cands())?;
    Ok(Row::new(key, cands, blocks, hides, stamp))
}

// Candidates in no more memory than they need.
fn fitted(alloc: Global, cands: Cands) -> Result<Cands, Memory>
    ensures { IfOk result (λ fitted. fitted ≡ cands) }
{
    let mut items = cands.into_vec();
    let mut fitted = Vec::with_capacity(alloc, items.len())?;
    fitted.append(&mut items)?;
    Ok(Cands::of(fitted))
}

// A part and a text in it.
fn parted_text(alloc: Global, bytes: &[u8]) -> Result<Option<(Part, Text)>, Memory>
    ensures { IfOk result (λ parted. parted ≡ parted_of bytes.now) }
{
    let Some((part, text)) = bytes.split_first() else {
        return Ok(None);
    };
    let Some(part) = part_of(*part) else {
        return Ok(None);
    };
    match text_of(alloc, text)? {
        Some(text) => Ok(Some((part, text))),
        None => Ok(None),
    }
}

// The part of a byte.
fn part_of(byte: u8) -> Option<Part>
    ensures { result ≡ part_of byte }
{
    match byte {
        0 => Some(Part::Nasi),
        1 => Some(Part::Ari),
        _ => None,
    }
}

// The text of bytes.
fn text_of(alloc: Global, bytes: &[u8]) -> Result<Option<Text>, Memory>
    ensures { IfOk result (λ text. text ≡ text_of bytes.now) }
{
    match str::from_utf8(bytes) {
        Ok(text) => Ok(Some(Text::from_str(alloc, text)?)),
        Err(_) => Ok(None),
    }
}
