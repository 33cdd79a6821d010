ghost use Rattle.std.specs.Prelude.{◌≡◌, ◌++◌, true, map, IfOk, OnOk};
ghost use Rattle.std.specs.List.{filter_map};
ghost use Rattle.std.specs.Option.{option_copied, IfSome};
ghost use Rattle.skk_calls.specs.Found.{without_hidden};
ghost use Rattle.skk_calls.specs.Rows.{same_part, words_of};
ghost use Rattle.dict_format.specs.PrintedFiles.{without_stamp};
ghost use Rattle.dict_expr.specs.Rows.{joined, remaining, row_with, row_without, says_nothing, unless_nothing};

use crate::blocks::{blocks_with, blocks_without};
use crate::texts::{add_cands, texts_with, texts_without};
use skk_calls::{Cand, Cands, Row};
use skk_text::{Copies, Memory, copies_of};
use std::alloc::Global;

/// A row with what may stand for its key elsewhere. Takes time in what both hold.
pub fn joined(alloc: Global, row: &Row, other: Option<&Row>) -> Result<Row, Memory>
    requires { IfSome (option_copied other) (λ o. same_part o.key.part row.now.key.part ≡ true) }
    ensures { IfOk result (λ sum. sum ≡ joined row.now (option_copied other.entry)) }
{
    match other {
        Some(other) => row_with(alloc, row, other),
        None => without_stamp(alloc, row),
    }
}

/// What is left of a row without what may stand for its key elsewhere. Takes time in what both hold.
pub fn remaining(alloc: Global, row: &Row, other: Option<&Row>) -> Result<Option<Row>, Memory>
    ensures { IfOk result (λ left. left ≡ remaining row.now (option_copied other.entry)) }
{
    let Some(other) = other else {
        return Ok(Some(without_stamp(alloc, row)?));
    };
    let left = row_without(alloc, row, other)?;
    if says_nothing(&left) {
        return Ok(None);
    }
    Ok(Some(left))
}

/// A copy of a row, with stamp 0.
pub fn without_stamp(alloc: Global, row: &Row) -> Result<Row, Memory>
    ensures { IfOk result (λ copy. copy ≡ without_stamp row.now) }
{
    let cands = row.cands().copy(alloc)?;
    let blocks = row.blocks().copy(alloc)?;
    let hides = row.hides().copy(alloc)?;
    Ok(Row::new(row.key().copy(alloc)?, cands, blocks, hides, 0))
}

// A row with another of its part.
fn row_with(alloc: Global, row: &Row, other: &Row) -> Result<Row, Memory>
    requires { same_part other.now.key.part row.now.key.part ≡ true }
    ensures { IfOk result (λ sum. sum ≡ row_with row.now other.now) }
{
    let cands = cands_with(alloc, row.cands().as_slice(), other.cands().as_slice())?;
    let blocks = blocks_with(alloc, row.blocks().as_slice(), other.blocks().as_slice())?;
    let hides = texts_with(alloc, row.hides().as_slice(), other.hides().as_slice())?;
    Ok(Row::new(row.key().copy(alloc)?, cands, blocks, hides, 0))
}

// A row without another.
fn row_without(alloc: Global, row: &Row, other: &Row) -> Result<Row, Memory>
    ensures { IfOk result (λ left. left ≡ row_without row.now other.now) }
{
    let cands = cands_without(alloc, row.cands().as_slice(), other.cands().as_slice())?;
    let blocks = blocks_without(alloc, row.blocks().as_slice(), other.blocks().as_slice())?;
    let hides = texts_without(alloc, row.hides().as_slice(), other.hides().as_slice())?;
    Ok(Row::new(row.key().copy(alloc)?, cands, blocks, hides, 0))
}

// Copies of candidates, and behind them those of others whose words they lack.
fn cands_with(alloc: Global, cands: &[Cand], others: &[Cand]) -> Result<Cands, Memory>
    ensures { IfOk result (λ sum. sum ≡ cands.now ++ without_hidden (words_of cands.now) others.now) }
{
    let mut sum = copies_of(alloc, cands)?;
    add_cands(alloc, &mut sum, others, cands)?;
    Ok(sum)
}

// Copies of candidates without those of the words of others.
fn cands_without(alloc: Global, cands: &[Cand], others: &[Cand]) -> Result<Cands, Memory>
    ensures { IfOk result (λ left. left ≡ without_hidden (words_of others.now) cands.now) }
{
    let mut left = Cands::new(alloc);
    add_cands(alloc, &mut left, cands, others)?;
    Ok(left)
}

// Whether a row has no candidate, no block and no hidden word.
fn says_nothing(row: &Row) -> bool
    ensures { result ≡ says_nothing row.now }
{
    row.cands().is_empty() && row.blocks().is_empty() && row.hides().is_empty()
}
