ghost use Rattle.std.specs.Prelude.{◌≡◌, Some, IfOk, IfSome};
ghost use Rattle.std.specs.Str.{chars};
ghost use Rattle.dict_format.specs.EntryRows.{row_of_line};

use dict_format::{good_rows_are_read_again, lines_spell_one_row, row_of_line};
use exact_readers::{cut_at, past_char};
use skk_calls::{FoundRow, Part, PlainCands, RowKey};
use skk_text::{Memory, Text};
use std::alloc::Global;

/// The row that a line of a part spells, if it spells one. Where the line has a plain list of candidates, these lie in
/// a copy of that. Takes time in the length of the line, and where the list is plain for each of its items.
pub fn found_row_of_line(alloc: Global, part: Part, line: &str) -> Result<Option<FoundRow>, Memory>
    ensures { IfOk result (λ row. row ≡ row_of_line part (chars line.now)) }
{
    if let Some(row) = plain_row_of_line(alloc, part, line)? {
        return Ok(Some(row));
    }
    match row_of_line(alloc, part, line)? {
        Some(row) => Ok(Some(FoundRow::of_row(row))),
        None => Ok(None),
    }
}

// The row of a line that is a reading, a space, a slash and a plain list of candidates.
fn plain_row_of_line(alloc: Global, part: Part, line: &str) -> Result<Option<FoundRow>, Memory>
    ensures { IfOk result (λ found. IfSome found (λ row. row_of_line part (chars line.now) ≡ Some row)) }
{
    good_rows_are_read_again();
    lines_spell_one_row();
    let Some((reading, rest)) = cut_at(line, ' ') else {
        return Ok(None);
    };
    let Some(behind) = past_char(rest, '/') else {
        return Ok(None);
    };
    let Some(cands) = PlainCands::of(alloc, behind)? else {
        return Ok(None);
    };
    match RowKey::new(part, Text::from_str(alloc, reading)?) {
        Ok(key) => Ok(Some(FoundRow::of_cands(key, cands))),
        Err(_) => Ok(None),
    }
}
