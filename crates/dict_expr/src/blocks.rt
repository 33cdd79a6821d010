ghost use Rattle.std.specs.Prelude.{◌≡◌, ◌++◌, true, map, not, IfOk, OnOk};
ghost use Rattle.std.specs.List.{filter, list_all};
ghost use Rattle.std.specs.Option.{option_copied};
ghost use Rattle.skk_calls.specs.Found.{block_of};
ghost use Rattle.skk_calls.specs.Rows.{has_text, is_word, okuri_of, texts_differ};
ghost use Rattle.dict_expr.specs.Rows.{block_with, blocks_with, blocks_without, left_block};
ghost use Rattle.dict_expr.specs.Rows.{texts_with, texts_without, words_in};

use crate::lists::push_some;
use crate::texts::{texts_with, texts_without};
use skk_calls::{Block, Blocks, Okuri};
use skk_text::{Copies, Memory, Text};
use std::alloc::Global;
use word_sets::WordRefs;

/// Blocks, each with the words that others have for its okurigana, and behind them the others of which they have none.
/// Takes time in what both hold.
pub fn blocks_with(alloc: Global, blocks: &[Block], others: &[Block]) -> Result<Blocks, Memory>
    requires blocks { texts_differ (okuri_of blocks.now) ≡ true }
    requires others { texts_differ (okuri_of others.now) ≡ true }
    ensures { IfOk result (λ sum. sum ≡ blocks_with blocks.now others.now) }
{
    let mut sum = Blocks::new(alloc);
    add_blocks_with(alloc, &mut sum, blocks, others, &okuri_of(alloc, others)?)?;
    add_blocks_apart(alloc, &mut sum, others, &okuri_of(alloc, blocks)?)?;
    Ok(sum)
}

/// Blocks, each without the words that others have for its okurigana, as far as words are left in them. Takes time in
/// what both hold.
#[tactic(auto, using(crate::proofs::Steps::given))]
pub fn blocks_without(alloc: Global, blocks: &[Block], others: &[Block]) -> Result<Blocks, Memory>
    requires { texts_differ (okuri_of others.now) ≡ true }
    ensures { IfOk result (λ left. left ≡ blocks_without blocks.now others.now) }
{
    let known = okuri_of(alloc, others)?;
    let mut left = Blocks::new(alloc);
    for block in blocks {
        let other = block_at(others, &known, block.okuri());
        push_some(&mut left, block_without(alloc, block, other)?)?;
    }
    Ok(left)
}

// Adds blocks, each with the words that others have for its okurigana.
fn add_blocks_with(
    alloc: Global,
    sum: &mut Blocks,
    blocks: &[Block],
    others: &[Block],
    known: &WordRefs<'_>,
) -> Result<(), Memory>
    requires { known.now ≡ okuri_of others.now }
    ensures { OnOk result (sum.new ≡ sum.old ++ map (block_with others.now) blocks.now) }
{
    for block in blocks {
        let other = block_at(others, known, block.okuri());
        sum.push(block_with(alloc, block, other)?)?;
    }
    Ok(())
}

// Adds copies of the blocks whose okurigana are not known.
fn add_blocks_apart(
    alloc: Global,
    sum: &mut Blocks,
    blocks: &[Block],
    known: &WordRefs<'_>,
) -> Result<(), Memory>
    ensures { OnOk result (sum.new ≡ sum.old ++ filter (λ block. not (has_text known.now block.okuri)) blocks.now) }
{
    for block in blocks {
        if !known.contains(block.okuri().text()) {
            sum.push(block.copy(alloc)?)?;
        }
    }
    Ok(())
}

// The okurigana of blocks.
#[tactic(auto, using(crate::proofs::KnownTexts::all_known))]
fn okuri_of<'a>(alloc: Global, blocks: &'a [Block]) -> Result<WordRefs<'a>, Memory>
    requires { texts_differ (okuri_of blocks.now) ≡ true }
    ensures { IfOk result (λ known. known ≡ okuri_of blocks.now) }
{
    let mut known = WordRefs::new(alloc);
    for block in blocks {
        known.insert(block.okuri().text())?;
    }
    Ok(known)
}

// The block of an okurigana among blocks, of which these are the okurigana.
fn block_at<'a>(blocks: &'a [Block], known: &WordRefs<'_>, okuri: &Okuri) -> Option<&'a Block>
    requires { known.now ≡ okuri_of blocks.now }
    ensures { option_copied result ≡ block_of okuri.now blocks.now }
{
    match known.place(okuri.text()) {
        Some(place) => blocks.get(place),
        None => None,
    }
}

// The words of a block, none where there is no block.
fn words_in(block: Option<&Block>) -> &[Text]
    ensures value { result.now ≡ words_in (option_copied block.entry) }
    ensures words { list_all is_word result.now ≡ true }
    ensures differ { texts_differ result.now ≡ true }
{
    match block {
        Some(block) => block.words().as_slice(),
        None => &[],
    }
}

// A block, and behind its words those of another that it lacks.
fn block_with(alloc: Global, block: &Block, other: Option<&Block>) -> Result<Block, Memory>
    ensures { IfOk result (λ sum. sum ≡ record {
      okuri = block.now.okuri;
      words = texts_with block.now.words (words_in (option_copied other.entry));
    }) }
{
    let words = texts_with(alloc, block.words().as_slice(), words_in(other))?;
    Ok(Block::new(block.okuri().copy(alloc)?, words))
}

// A block without the words of another, unless none is left.
fn block_without(
    alloc: Global,
    block: &Block,
    other: Option<&Block>,
) -> Result<Option<Block>, Memory>
    ensures { IfOk result (λ left. left ≡ left_block (record {
      okuri = block.now.okuri;
      words = texts_without block.now.words (words_in (option_copied other.entry));
    })) }
{
    let words = texts_without(alloc, block.words().as_slice(), words_in(other))?;
    if words.is_empty() {
        return Ok(None);
    }
    Ok(Some(Block::new(block.okuri().copy(alloc)?, words)))
}
