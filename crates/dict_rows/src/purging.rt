ghost use Rattle.std.specs.Prelude.{◌≡◌, ◌||◌, true, not, IfOk, Some, None, if◌then◌else◌};
ghost use Rattle.std.specs.List.{list_any};
ghost use Rattle.std.specs.Option.{option_copied, IfSome};
ghost use Rattle.skk_text.specs.Lists.{is_empty};
ghost use Rattle.skk_calls.specs.Learning.{purged, purge_changes, block_without, blocks_without, hides_with};
ghost use Rattle.skk_calls.specs.Learning.{without_text};
ghost use Rattle.skk_calls.specs.Rows.{RowKey as key_value, has_text, is_word, words_of};

use crate::copying::{cands_without, has_text, is_same, texts_without};
use crate::row_or_empty::{blocks_of, cands_of, hides_of};
use dict_laws::changed_rows_are_rows;
use skk_calls::{Block, Blocks, Cand, Row, RowKey};
use skk_text::{Copies, Memory, Text, Texts, copies_of};
use std::alloc::Global;

/// The row of a key after a word is purged, or none where the purge changes nothing. Takes time in what the row holds.
pub fn purge_row(
    alloc: Global,
    row: Option<&Row>,
    key: &RowKey,
    word: &Text,
    stamp: u64,
) -> Result<Option<Row>, Memory>
    requires key { IfSome (option_copied row) (λ before. before.key ≡ key.now) }
    requires word { is_word word.now ≡ true }
    ensures { IfOk result (λ after. after ≡ (if purge_changes (option_copied row.entry) key.now word.now
        then Some (purged (option_copied row.entry) key.now word.now stamp) else None)) }
{
    if !changes(row, word) {
        return Ok(None);
    }
    let after = purged_row(alloc, row, key, word, stamp)?;
    Ok(Some(after))
}

// Whether a purge of a word changes something.
fn changes(row: Option<&Row>, word: &Text) -> bool
    ensures { (key : key_value) → result ≡ purge_changes (option_copied row.entry) key word.now }
{
    has_cand(cands_of(row), word)
        || has_block(blocks_of(row), word)
        || !has_text(hides_of(row), word)
}

// Whether a word is a candidate's.
fn has_cand(cands: &[Cand], word: &Text) -> bool
    ensures { result ≡ has_text (words_of cands.now) word.now }
{
    cands.iter().any(|cand| is_same(word, cand.word()))
}

// Whether a word is a block's.
fn has_block(blocks: &[Block], word: &Text) -> bool
    ensures { result ≡ list_any (λ block. has_text block.words word.now) blocks.now }
{
    blocks
        .iter()
        .any(|block| has_text(block.words().as_slice(), word))
}

// The row of a key after a word is purged.
fn purged_row(
    alloc: Global,
    row: Option<&Row>,
    key: &RowKey,
    word: &Text,
    stamp: u64,
) -> Result<Row, Memory>
    requires { IfSome (option_copied row) (λ before. before.key ≡ key.now) }
    ensures { IfOk result (λ after. after ≡ purged (option_copied row.entry) key.now word.now stamp) }
{
    changed_rows_are_rows();
    // The accessor says what the type of the key keeps, which the new row has to keep.
    let _ = key.reading();
    let cands = cands_without(alloc, cands_of(row), word)?;
    let blocks = blocks_without(alloc, blocks_of(row), word)?;
    let hides = hides_with(alloc, hides_of(row), word)?;
    Ok(Row::new(key.copy(alloc)?, cands, blocks, hides, stamp))
}

// Copies of blocks without a word, as far as words are left in them.
fn blocks_without(alloc: Global, blocks: &[Block], word: &Text) -> Result<Blocks, Memory>
    ensures { IfOk result (λ left. left ≡ blocks_without word.now blocks.now) }
{
    let mut left = Blocks::new(alloc);
    for block in blocks {
        if let Some(block) = block_without(alloc, block, word)? {
            left.push(block)?;
        }
    }
    Ok(left)
}

// A copy of a block without a word, unless no word is left.
fn block_without(alloc: Global, block: &Block, word: &Text) -> Result<Option<Block>, Memory>
    ensures { IfOk result (λ left. left
        ≡ (if is_empty (without_text word.now block.now.words) then None
        else Some (block_without word.now block.now))) }
{
    let words = texts_without(alloc, block.words().as_slice(), word)?;
    if words.is_empty() {
        return Ok(None);
    }
    Ok(Some(Block::new(block.okuri().copy(alloc)?, words)))
}

// Copies of the words that are hidden, with one that is hidden too.
fn hides_with(alloc: Global, hides: &[Text], word: &Text) -> Result<Texts, Memory>
    ensures { IfOk result (λ after. after ≡ hides_with word.now hides.now) }
{
    let mut after = copies_of(alloc, hides)?;
    if !has_text(hides, word) {
        after.push(word.copy(alloc)?)?;
    }
    Ok(after)
}
