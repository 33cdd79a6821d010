ghost use Rattle.std.specs.Prelude.{◌≡◌, ◌∷◌, true, if◌then◌else◌, IfOk};
ghost use Rattle.std.specs.List.{list_all};
ghost use Rattle.std.specs.Option.{option_copied};
ghost use Rattle.skk_calls.specs.Dictionary.{is_okuri_or_none};
ghost use Rattle.skk_calls.specs.Learning.{blocks_with_word, learnt_blocks, without_text};
ghost use Rattle.skk_calls.specs.Rows.{is_word, texts_differ};

use crate::copying::add_texts_without;
use skk_calls::{Block, Blocks, Cand, Okuri, Part};
use skk_text::{Copies, Memory, Text, Texts, copies_of};
use std::alloc::Global;

/// The blocks of a key of this part after a candidate is learnt.
/// Those of a key with okurigana change where one was chosen.
pub fn learnt_blocks(
    alloc: Global,
    blocks: &[Block],
    part: Part,
    okuri: Option<&Okuri>,
    cand: &Cand,
) -> Result<Blocks, Memory>
    ensures value { IfOk result (λ after. after
        ≡ learnt_blocks part (option_copied okuri.entry) cand.now.word blocks.now) }
    ensures valid { is_okuri_or_none (option_copied okuri.entry) ≡ true }
{
    let Some(okuri) = okuri else {
        return copies_of(alloc, blocks);
    };
    // The accessor says what the type of the okurigana keeps, which the clause `valid` tells.
    let _ = okuri.text();
    match part {
        Part::Nasi => copies_of(alloc, blocks),
        Part::Ari => blocks_with_word(alloc, blocks, okuri, cand),
    }
}

// The blocks with a candidate's word at the front of that of an okurigana,
// which is added at the end where there is none.
fn blocks_with_word(
    alloc: Global,
    blocks: &[Block],
    okuri: &Okuri,
    cand: &Cand,
) -> Result<Blocks, Memory>
    ensures { IfOk result (λ after. after ≡ blocks_with_word okuri.now cand.now.word blocks.now) }
{
    let mut after = Blocks::new(alloc);
    let mut is_learnt = false;
    for block in blocks {
        let learns = !is_learnt && block.is_for(okuri);
        after.push(copied_block(alloc, block, learns, cand)?)?;
        is_learnt = is_learnt || learns;
    }
    if !is_learnt {
        after.push(chosen_block(alloc, okuri, &[], cand)?)?;
    }
    Ok(after)
}

// A copy of a block, which has a candidate's word at its front where it is to learn it.
fn copied_block(alloc: Global, block: &Block, learns: bool, cand: &Cand) -> Result<Block, Memory>
    ensures { IfOk result (λ copy. copy ≡ (if learns
        then record { okuri = block.now.okuri; words = cand.now.word ∷ without_text cand.now.word block.now.words }
        else block.now)) }
{
    if learns {
        chosen_block(alloc, block.okuri(), block.words().as_slice(), cand)
    } else {
        block.copy(alloc)
    }
}

// The block of an okurigana with a candidate's word at the front of others.
fn chosen_block(alloc: Global, okuri: &Okuri, words: &[Text], cand: &Cand) -> Result<Block, Memory>
    requires words { list_all is_word words.now ≡ true }
    requires differ { texts_differ words.now ≡ true }
    ensures { IfOk result (λ block. block
        ≡ record { okuri = okuri.now; words = cand.now.word ∷ without_text cand.now.word words.now }) }
{
    // The accessor says what the type of the okurigana keeps, which the new block has to keep.
    let _ = okuri.text();
    let chosen = words_with_first(alloc, words, cand.word())?;
    Ok(Block::new(okuri.copy(alloc)?, chosen))
}

// Copies of words, with one at their front.
fn words_with_first(alloc: Global, words: &[Text], first: &Text) -> Result<Texts, Memory>
    ensures { IfOk result (λ copies. copies ≡ first.now ∷ without_text first.now words.now) }
{
    let mut copies = Texts::new(alloc);
    copies.push(first.copy(alloc)?)?;
    add_texts_without(alloc, &mut copies, words, first)?;
    Ok(copies)
}
