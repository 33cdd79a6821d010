ghost use Rattle.std.specs.Prelude.{◌≡◌, map, true, nat_lt, IfOk, IsErrOf, Ok, Err};
ghost use Rattle.skk_text.specs.Lists.{is_empty};
ghost use Rattle.skk_text.specs.Results.{AnswersUnless};
ghost use Rattle.skk_text.specs.Text.{byte_len};
ghost use Rattle.skk_calls.specs.Canonical.{line_limit};
ghost use Rattle.std.specs.List.{list_any};
ghost use Rattle.std.specs.Str.{chars};
ghost use Rattle.skk_calls.specs.Rows.{Row, is_row, is_row_key};
ghost use Rattle.dict_format.specs.declared.reason.LineReason.{LineReason};
ghost use Rattle.dict_format.specs.declared.reason.LineReason.TheVariants as reasons;
ghost use Rattle.std.specs.Option.{option_map};
ghost use Rattle.exact_readers.specs.Cuts.{cut};
ghost use Rattle.exact_readers.specs.Formats.{taken, all};
ghost use Rattle.exact_readers.specs.Lacking.{lacks};
ghost use Rattle.dict_format.specs.Lines.{slashed_text, SpellsRow};
ghost use Rattle.dict_format.specs.EntryRows.{row_of_line};
ghost use Rattle.dict_format.specs.Reading.{and_then, is_space, or_reason, texts_at, key_at};
ghost use Rattle.dict_format.specs.Reading.{row_reading, line_reading, key_reading, some_row_of};
ghost use Rattle.dict_format.specs.Reasons.{is_control, is_bad_reading, IsReason};
ghost use Rattle.dict_format.specs.RowOfItems.{row_of_items, says_something};
ghost use Rattle.dict_format.specs.Views.{item_said, texts_seen, Gives};

use crate::items::{Item, items_of};
use crate::reason::{LineFault, LineReason};
use crate::row::row_of;
use crate::words::plain;
use exact_readers::{behind_spaces, cut_at, past_char};
use skk_calls::{LINE_LIMIT, Part, Row, RowKey, begins_well};
use skk_text::{Memory, Text};
use std::alloc::Global;

/// Reads a line of a part of a dictionary: the row that it spells, of stamp 0, or the first reason that fits it.
/// Takes time in the length of the line.
pub fn read_line(alloc: Global, part: Part, line: &Text) -> Result<Row, LineFault>
    ensures ok { IfOk result (SpellsRow part line.now) }
    ensures only { (row : Row) → SpellsRow part line.now row → AnswersUnless LineFault.Memory result (Ok row) }
    ensures reason { (first : LineReason) → IsErrOf result (LineFault.Reason first) → IsReason part line.now first }
    ensures only_reason { (first : LineReason) → IsReason part line.now first
        → AnswersUnless LineFault.Memory result (Err (LineFault.Reason first)) }
{
    read(alloc, part, line.as_str())
}

/// Reads the key of a line alone: that of the row that the line spells, or else the first reason that fits the line,
/// where that is one of the line or of its reading. Takes time in the length of the line.
pub fn read_key(alloc: Global, part: Part, line: &str) -> Result<RowKey, LineFault>
    ensures row { (row : Row) → SpellsRow part (chars line.now) row
        → AnswersUnless LineFault.Memory result (Ok row.key) }
    ensures reason { (first : LineReason) → IsErrOf result (LineFault.Reason first)
        → IsReason part (chars line.now) first }
{
    key_before_space(alloc, part, line)
}

// Reads what stands before the first space of a line that is not too long.
#[tactic(auto, unfolding(crate::specs::Reading::key_reading))]
fn key_before_space(alloc: Global, part: Part, line: &str) -> Result<RowKey, LineFault>
    ensures { Gives (λ key. key) result (key_reading part (chars line.now)) }
{
    if is_long(line) {
        return Err(LineFault::Reason(LineReason::LongLine));
    }
    reading_key(alloc, part, line)
}

// The key of what stands before the first space of a line.
fn reading_key(alloc: Global, part: Part, line: &str) -> Result<RowKey, LineFault>
    ensures { Gives (λ key. key) result
        (and_then (or_reason reasons.NoSpace (cut is_space (chars line.now))) (λ parts. key_at part parts.0)) }
{
    match cut_at(line, ' ') {
        Some((reading, _)) => key_of(alloc, part, reading),
        None => Err(LineFault::Reason(LineReason::NoSpace)),
    }
}

/// The row that a line of a part spells, of stamp 0, if it spells one. Takes time in the length of the line.
pub fn row_of_line(alloc: Global, part: Part, line: &str) -> Result<Option<Row>, Memory>
    ensures { IfOk result (λ row. row ≡ row_of_line part (chars line.now)) }
{
    match read(alloc, part, line) {
        Ok(row) => Ok(Some(row)),
        Err(LineFault::Reason(_)) => Ok(None),
        Err(LineFault::Memory) => Err(Memory),
    }
}

/// Reads a line, as its characters are read from left to right.
#[tactic(auto, unfolding(crate::specs::Reading::line_reading))]
pub fn read(alloc: Global, part: Part, line: &str) -> Result<Row, LineFault>
    ensures { Gives (λ row. row) result (line_reading part (chars line.now)) }
{
    if is_long(line) {
        return Err(LineFault::Reason(LineReason::LongLine));
    }
    read_cut(alloc, part, line)
}

// Whether a line is too long.
#[tactic(auto, using(crate::proofs::Hints::bytes))]
fn is_long(line: &str) -> bool
    ensures { result ≡ nat_lt line_limit (byte_len (chars line.now)) }
{
    line.len() > LINE_LIMIT
}

// Reads a line that is not too long, cut at its first space.
fn read_cut(alloc: Global, part: Part, line: &str) -> Result<Row, LineFault>
    ensures { Gives (λ row. row) result
        (and_then (or_reason reasons.NoSpace (cut is_space (chars line.now))) (row_reading part)) }
{
    match cut_at(line, ' ') {
        Some((reading, rest)) => read_parts(alloc, part, reading, rest),
        None => Err(LineFault::Reason(LineReason::NoSpace)),
    }
}

// Reads what stands before and behind the first space of a line.
#[tactic(auto, unfolding(crate::specs::Reading::row_reading))]
fn read_parts(alloc: Global, part: Part, reading: &str, rest: &str) -> Result<Row, LineFault>
    requires { lacks 0x20 (chars reading.now) ≡ true }
    ensures { Gives (λ row. row) result (row_reading part (chars reading.now, chars rest.now)) }
{
    let key = key_of(alloc, part, reading)?;
    let texts = texts_between(alloc, behind_spaces(rest))?;
    let items = items_of(alloc, part, &texts)?;
    some_row(alloc, key, items)
}

// The row that items make of a key, which says something.
#[tactic(auto, unfolding(crate::specs::Reading::some_row_of))]
fn some_row(alloc: Global, key: RowKey, items: Vec<Item>) -> Result<Row, LineFault>
    requires { is_row (row_of_items key (map item_said items.items)) ≡ true }
    ensures { Gives (λ row. row) result (some_row_of key (map item_said items.items)) }
{
    let row = row_of(alloc, key, items)?;
    if says_something(&row) {
        Ok(row)
    } else {
        Err(LineFault::Reason(LineReason::Empty))
    }
}

// Whether a row has a candidate, a block or a hidden word.
fn says_something(row: &Row) -> bool
    ensures { result ≡ says_something row.now }
{
    !row.cands().is_empty() || !row.blocks().is_empty() || !row.hides().is_empty()
}

// The key of a reading, which holds no space.
#[tactic(auto, unfolding(crate::specs::Reading::key_at))]
fn key_of(alloc: Global, part: Part, reading: &str) -> Result<RowKey, LineFault>
    requires { lacks 0x20 (chars reading.now) ≡ true }
    ensures gives { Gives (λ key. key) result (key_at part (chars reading.now)) }
    ensures valid { IfOk result (λ key. (is_row_key key ≡ true) × (key.part ≡ part)) }
{
    if is_bad_reading(reading) {
        return Err(LineFault::Reason(LineReason::BadReading));
    }
    let text = plain(alloc, reading)?;
    if text.byte_len() > part.reading_limit() {
        return Err(LineFault::Reason(LineReason::LongReading));
    }
    match RowKey::new(part, text) {
        Ok(key) => Ok(key),
        Err(_) => Err(LineFault::Reason(LineReason::OkuriKey)),
    }
}

// Whether a reading is empty, begins with `;`, or holds a control character.
fn is_bad_reading(reading: &str) -> bool
    ensures { result ≡ is_bad_reading (chars reading.now) }
{
    !begins_well(reading) || holds_control(reading)
}

// Whether a text holds a control character.
fn holds_control(text: &str) -> bool
    ensures { result ≡ list_any is_control (chars text.now) }
{
    text.chars().any(|c| c < ' ' || c == '\u{7F}')
}

// The texts between the slashes of a body that begins and ends with one.
fn texts_between(alloc: Global, body: &str) -> Result<Vec<&str>, LineFault>
    ensures { Gives (λ texts. texts_seen texts.items) result
        (or_reason reasons.NoSlash (texts_at (chars body.now))) }
{
    match slashed_texts(alloc, body)? {
        Some(texts) => Ok(texts),
        None => Err(LineFault::Reason(LineReason::NoSlash)),
    }
}

/// The texts between the slashes of a body of at least two characters that begins and ends with one, and none of any
/// other. Takes time in its length.
#[tactic(auto, unfolding(crate::specs::Reading::texts_at))]
pub fn slashed_texts(alloc: Global, body: &str) -> Result<Option<Vec<&str>>, Memory>
    ensures { IfOk result (λ found. option_map (λ texts. texts_seen texts.items) found ≡ texts_at (chars body.now)) }
{
    let Some(behind) = past_char(body, '/') else {
        return Ok(None);
    };
    match whole_texts(alloc, behind)? {
        Some(texts) if !texts.is_empty() => Ok(Some(texts)),
        _ => Ok(None),
    }
}

// The texts that a whole text is, each ended by a slash.
#[tactic(auto, using(crate::proofs::LineTexts::whole_if))]
fn whole_texts(alloc: Global, text: &str) -> Result<Option<Vec<&str>>, Memory>
    ensures { IfOk result (λ found. option_map (λ texts. texts_seen texts.items) found
        ≡ all slashed_text (chars text.now)) }
{
    let (texts, rest) = all_texts(alloc, text)?;
    if is_empty(rest) {
        Ok(Some(texts))
    } else {
        Ok(None)
    }
}

// Whether a text has no character.
#[tactic(auto, using(crate::proofs::Strings::empty_text))]
fn is_empty(text: &str) -> bool
    ensures { result ≡ is_empty (chars text.now) }
{
    text.is_empty()
}

// How many texts there is room for at first, which few lines have more of.
const TEXTS: usize = 16;

// The texts that are ended by a slash, and what stands behind the last of them.
fn all_texts(alloc: Global, text: &str) -> Result<(Vec<&str>, &str), Memory>
    ensures { IfOk result (λ parts. taken slashed_text.step (chars text.now)
        ≡ (texts_seen parts.0.items, chars parts.1.now)) }
{
    let mut texts = Vec::with_capacity(alloc, TEXTS)?;
    let mut rest = text;
    while let Some((text, behind)) = cut_at(rest, '/') {
        texts.push(text)?;
        rest = behind;
    }
    Ok((texts, rest))
}
