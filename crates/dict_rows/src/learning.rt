ghost use Rattle.std.specs.Prelude.{◌≡◌, ◌||◌, find, IfOk};
ghost use Rattle.std.specs.Option.{option_copied, IfSome};
ghost use Rattle.std.specs.Str.{chars};
ghost use Rattle.skk_text.specs.Lists.{is_empty};
ghost use Rattle.skk_calls.specs.Learning.{is_own_note, learnt, learnt_cands, learnt_note};
ghost use Rattle.skk_calls.specs.Rows.{same_text};

use crate::copying::{add_cands_without, is_same, texts_without};
use crate::learnt_blocks::learnt_blocks;
use crate::row_or_empty::{blocks_of, cands_of, hides_of};
use dict_laws::changed_rows_are_rows;
use skk_calls::{Cand, Cands, Okuri, Row, RowKey};
use skk_text::{Copies, Memory, Text};
use std::alloc::Global;

/// The row of a key after a candidate is learnt: its row before, if there is one, with the candidate at the front, and
/// with an okurigana also at the front of its block. Takes time in what the row holds.
pub fn learn_row(
    alloc: Global,
    row: Option<&Row>,
    key: &RowKey,
    okuri: Option<&Okuri>,
    cand: &Cand,
    stamp: u64,
) -> Result<Row, Memory>
    requires { IfSome (option_copied row) (λ before. before.key ≡ key.now) }
    ensures { IfOk result (λ after. after
        ≡ learnt (option_copied row.entry) key.now (option_copied okuri.entry) cand.now stamp) }
{
    changed_rows_are_rows();
    let word = cand.word();
    let cands = learnt_cands(alloc, cands_of(row), cand)?;
    let blocks = learnt_blocks(alloc, blocks_of(row), key.part(), okuri, cand)?;
    let hides = texts_without(alloc, hides_of(row), word)?;
    Ok(Row::new(key.copy(alloc)?, cands, blocks, hides, stamp))
}

// The candidates after one is learnt.
fn learnt_cands(alloc: Global, cands: &[Cand], cand: &Cand) -> Result<Cands, Memory>
    ensures { IfOk result (λ after. after ≡ learnt_cands cands.now cand.now) }
{
    let mut after = Cands::new(alloc);
    after.push(first_cand(cands, cand).copy(alloc)?)?;
    add_cands_without(alloc, &mut after, cands, cand.word())?;
    Ok(after)
}

// The candidate that stands first after one is learnt: the one with its word where that keeps its note, else this one.
fn first_cand<'a>(cands: &'a [Cand], cand: &'a Cand) -> &'a Cand
    ensures { result.now ≡ record { word = cand.now.word; note = learnt_note cands.now cand.now } }
{
    let Some(known) = cand_of(cands, cand.word()) else {
        return cand;
    };
    if keeps_note(known, cand) { known } else { cand }
}

// Whether a candidate keeps its note when one with its word is learnt: it is the user's own, or the learnt one has
// none.
fn keeps_note(known: &Cand, cand: &Cand) -> bool
    ensures { result ≡ (is_own_note known.now.note || is_empty cand.now.note) }
{
    is_own_note(known.note().as_str()) || cand.note().is_empty()
}

// Whether a note is the user's own.
fn is_own_note(note: &str) -> bool
    ensures { result ≡ is_own_note (chars note.now) }
{
    match note.chars().next() {
        Some(first) => first == '*',
        None => false,
    }
}

// The first candidate with a word.
fn cand_of<'a>(cands: &'a [Cand], word: &Text) -> Option<&'a Cand>
    ensures { option_copied result ≡ find (λ cand. same_text cand.word word.now) cands.now }
{
    cands.iter().find(|cand| is_same(cand.word(), word))
}
