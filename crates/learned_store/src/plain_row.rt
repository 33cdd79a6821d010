ghost use Rattle.std.specs.Prelude.{◌≡◌, true, IfOk, IfSome};
ghost use Rattle.learned_store.specs.Reading.{HasOneCand, is_line_row, parted_row};

use crate::payload::is_line_of;
use skk_calls::{Blocks, Cand, Cands, LINE_LIMIT, Part, Row, RowKey, needs_quotes};
use skk_text::{Memory, Text, Texts};
use std::alloc::Global;

// The row of a stamp, of its part and its line, where that has one candidate alone, a word that stands there as it is;
// none, where it has anything else. Most lines of a learned file are such, and need no list of their parts.
pub(crate) fn plain_row(
    alloc: Global,
    part: Part,
    line: &Text,
    stamp: u64,
) -> Result<Option<Row>, Memory>
    ensures { IfOk result (λ found. IfSome found (λ row.
        (is_line_row stamp row ≡ true) × ((part, line.now) ≡ parted_row row))) }
{
    if line.byte_len() > LINE_LIMIT {
        return Ok(None);
    }
    let Some(row) = row_of_word(alloc, part, line.as_str(), stamp)? else {
        return Ok(None);
    };
    if is_line_of(alloc, &row, line)? {
        Ok(Some(row))
    } else {
        Ok(None)
    }
}

// The row that a line seems to have, if it has one word between two slashes.
fn row_of_word(alloc: Global, part: Part, line: &str, stamp: u64) -> Result<Option<Row>, Memory>
    ensures { IfOk result (λ found. IfSome found (HasOneCand part stamp)) }
{
    let Some((reading, word)) = plain_parts(line) else {
        return Ok(None);
    };
    let word = Text::from_str(alloc, word)?;
    if needs_quotes(&word) {
        return Ok(None);
    }
    let reading = Text::from_str(alloc, reading)?;
    match (
        RowKey::new(part, reading),
        Cand::new(word, Text::new(alloc)),
    ) {
        (Ok(key), Ok(cand)) => Ok(Some(row_of_cand(alloc, part, key, cand, stamp)?)),
        _ => Ok(None),
    }
}

// What stands before the first space of a line, and what stands behind it between two slashes.
fn plain_parts(line: &str) -> Option<(&str, &str)> {
    let (reading, rest) = line.split_once(' ')?;
    let word = rest.strip_prefix('/')?.strip_suffix('/')?;
    Some((reading, word))
}

// The row of a key of a part, with one candidate.
fn row_of_cand(
    alloc: Global,
    part: Part,
    key: RowKey,
    cand: Cand,
    stamp: u64,
) -> Result<Row, Memory>
    requires { key.part ≡ part }
    ensures { IfOk result (HasOneCand part stamp) }
{
    // What is read of them tells that both are valid.
    let _valid = (key.part(), cand.word().is_empty());
    let mut cands = Vec::with_capacity(alloc, 1)?;
    cands.push(cand)?;
    let blocks = Blocks::new(alloc);
    let hides = Texts::new(alloc);
    Ok(Row::new(key, Cands::of(cands), blocks, hides, stamp))
}
