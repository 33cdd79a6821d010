ghost use Rattle.std.specs.Prelude.{◌≡◌, true, IfOk, Some, None, if◌then◌else◌};
ghost use Rattle.std.specs.List.{list_any};
ghost use Rattle.std.specs.Option.{option_copied, IfSome};
ghost use Rattle.skk_calls.specs.Learning.{annotated, annotated_cands, annotation_changes, same_cand};
ghost use Rattle.skk_calls.specs.Rows.{RowKey as key_value, same_text};

use crate::copying::{has_text, is_same, texts_without};
use crate::row_or_empty::{blocks_of, cands_of, hides_of};
use dict_laws::changed_rows_are_rows;
use skk_calls::{Cand, Cands, Row, RowKey};
use skk_text::{Copies, Memory, copies_of};
use std::alloc::Global;

/// The row of a key after a candidate is annotated, or none where the annotation changes nothing. Takes time in what
/// the row holds.
pub fn annotate_row(
    alloc: Global,
    row: Option<&Row>,
    key: &RowKey,
    cand: &Cand,
    stamp: u64,
) -> Result<Option<Row>, Memory>
    requires { IfSome (option_copied row) (λ before. before.key ≡ key.now) }
    ensures { IfOk result (λ after. after ≡ (if annotation_changes (option_copied row.entry) key.now cand.now
        then Some (annotated (option_copied row.entry) key.now cand.now stamp) else None)) }
{
    if !changes(row, cand) {
        return Ok(None);
    }
    let after = annotated_row(alloc, row, key, cand, stamp)?;
    Ok(Some(after))
}

// Whether an annotation of a candidate changes something.
fn changes(row: Option<&Row>, cand: &Cand) -> bool
    ensures { (key : key_value) → result ≡ annotation_changes (option_copied row.entry) key cand.now }
{
    has_text(hides_of(row), cand.word()) || !has_cand(cands_of(row), cand)
}

// Whether a candidate stands among others.
fn has_cand(cands: &[Cand], cand: &Cand) -> bool
    ensures { result ≡ list_any (λ other. same_cand other cand.now) cands.now }
{
    cands.iter().any(|other| is_same_cand(other, cand))
}

// Whether two candidates have the same word and the same note.
fn is_same_cand(cand: &Cand, other: &Cand) -> bool
    ensures { result ≡ same_cand cand.now other.now }
{
    is_same(cand.word(), other.word()) && is_same(cand.note(), other.note())
}

/// The row of a key after a candidate is annotated, also where that changes nothing but the stamp. Takes time in what
/// the row holds.
pub fn annotated_row(
    alloc: Global,
    row: Option<&Row>,
    key: &RowKey,
    cand: &Cand,
    stamp: u64,
) -> Result<Row, Memory>
    requires { IfSome (option_copied row) (λ before. before.key ≡ key.now) }
    ensures { IfOk result (λ after. after ≡ annotated (option_copied row.entry) key.now cand.now stamp) }
{
    changed_rows_are_rows();
    // The accessor says what the type of the key keeps, which the new row has to keep.
    let _ = key.reading();
    let cands = annotated_cands(alloc, cands_of(row), cand)?;
    let blocks = copies_of(alloc, blocks_of(row))?;
    let hides = texts_without(alloc, hides_of(row), cand.word())?;
    Ok(Row::new(key.copy(alloc)?, cands, blocks, hides, stamp))
}

// Copies of candidates, with one in the place of the first with its word, or at the end where there is none.
fn annotated_cands(alloc: Global, cands: &[Cand], cand: &Cand) -> Result<Cands, Memory>
    ensures { IfOk result (λ after. after ≡ annotated_cands cands.now cand.now) }
{
    let mut after = Cands::new(alloc);
    let mut is_annotated = false;
    for other in cands {
        let annotates = !is_annotated && is_same(other.word(), cand.word());
        after.push(annotated_cand(alloc, other, annotates, cand)?)?;
        is_annotated = is_annotated || annotates;
    }
    if !is_annotated {
        after.push(cand.copy(alloc)?)?;
    }
    Ok(after)
}

// A copy of a candidate, which has the note of one with its word where it is to be annotated.
fn annotated_cand(alloc: Global, other: &Cand, annotates: bool, cand: &Cand) -> Result<Cand, Memory>
    requires { annotates ≡ true → same_text other.now.word cand.now.word ≡ true }
    ensures { IfOk result (λ copy. copy
        ≡ (if annotates then record { word = other.now.word; note = cand.now.note } else other.now)) }
{
    if annotates {
        cand.copy(alloc)
    } else {
        other.copy(alloc)
    }
}
