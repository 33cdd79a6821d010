ghost use Rattle.std.specs.Prelude.{◌≡◌, ◌++◌, ◌||◌, ℕ, List, true, Some, IfOk, OnOk};
ghost use Rattle.std.specs.List.{fold, list_all};
ghost use Rattle.std.specs.Option.{option_copied};
ghost use Rattle.skk_calls.specs.Found.{note_of, with_block_first, without_hidden};
ghost use Rattle.skk_calls.specs.Rows.{has_text, is_row, is_word, words_of};
ghost use Rattle.word_sets.specs.Firsts.{with_new};
ghost use Rattle.dict_layers.specs.Blocks.{with_notes};

use skk_calls::{Block, Cand, Cands, Row};
use skk_text::{Copies, Memory, Text};
use std::alloc::Global;
use word_sets::WordRefs;

// Adds copies of the candidates of a row, where the words of a block stand first, but for those whose words are passed.
// Takes time in the length of the row.
pub(crate) fn add_layer(
    alloc: Global,
    cands: &mut Cands,
    passed: &WordRefs<'_>,
    row: &Row,
    block: Option<&Block>,
) -> Result<(), Memory>
    ensures shown { OnOk result (cands.new
        ≡ cands.old ++ without_hidden passed.now (with_block_first row.now (option_copied block.entry))) }
    ensures valid { OnOk result (is_row row.now ≡ true) }
{
    match block {
        Some(block) => add_block_first(alloc, cands, passed, row, block),
        None => {
            let first = WordRefs::new(alloc);
            add_others(alloc, cands, passed, &first, row.cands().as_slice())
        }
    }
}

// Adds the words of a block with the notes that they have in a row, and copies of the row's other candidates, but for
// those whose words are passed.
pub(crate) fn add_block_first(
    alloc: Global,
    cands: &mut Cands,
    passed: &WordRefs<'_>,
    row: &Row,
    block: &Block,
) -> Result<(), Memory>
    ensures shown { OnOk result (cands.new
        ≡ cands.old ++ without_hidden passed.now (with_block_first row.now (Some block.now))) }
    ensures valid { OnOk result (is_row row.now ≡ true) }
{
    let noted = row.cands().as_slice();
    let mut known = WordRefs::new(alloc);
    pass_cands(&mut known, noted)?;
    let words = block.words().as_slice();
    add_words(alloc, cands, passed, noted, &known, words)?;
    let mut first = WordRefs::new(alloc);
    pass_words(&mut first, words)?;
    add_others(alloc, cands, passed, &first, noted)
}

// Adds words with the notes that they have among candidates, but for those that are passed.
fn add_words(
    alloc: Global,
    cands: &mut Cands,
    passed: &WordRefs<'_>,
    noted: &[Cand],
    known: &WordRefs<'_>,
    words: &[Text],
) -> Result<(), Memory>
    requires known { known.now ≡ words_of noted.now }
    requires valid { list_all is_word words.now ≡ true }
    ensures { OnOk result (cands.new
        ≡ cands.old ++ without_hidden passed.now (with_notes noted.now words.now)) }
{
    for word in words {
        if !passed.contains(word) {
            cands.push(with_note(alloc, noted, known, word)?)?;
        }
    }
    Ok(())
}

// A word with the note that it has among candidates, of which these are the words.
fn with_note(
    alloc: Global,
    cands: &[Cand],
    words: &WordRefs<'_>,
    word: &Text,
) -> Result<Cand, Memory>
    requires words { words.now ≡ words_of cands.now }
    requires valid { is_word word.now ≡ true }
    ensures { IfOk result (λ cand. cand ≡ record { word = word.now; note = note_of cands.now word.now }) }
{
    match words.place(word) {
        Some(place) => cands[place].copy(alloc),
        None => Ok(Cand::of_word(alloc, word.copy(alloc)?)),
    }
}

// Adds copies of candidates, but for those whose words are passed or stand first.
fn add_others(
    alloc: Global,
    cands: &mut Cands,
    passed: &WordRefs<'_>,
    first: &WordRefs<'_>,
    others: &[Cand],
) -> Result<(), Memory>
    ensures { OnOk result (cands.new
        ≡ cands.old ++ without_hidden passed.now (without_hidden first.now others.now)) }
{
    for cand in others {
        if !first.contains(cand.word()) && !passed.contains(cand.word()) {
            cands.push(cand.copy(alloc)?)?;
        }
    }
    Ok(())
}

// Passes the words of a row and of a block of it, and those that the row hides: no layer below gives one of them.
pub(crate) fn pass_layer<'a>(
    passed: &mut WordRefs<'a>,
    row: &'a Row,
    block: Option<&'a Block>,
) -> Result<(), Memory>
    ensures { OnOk result ((text : List ℕ) → has_text passed.new text
        ≡ (has_text passed.old text
        || (has_text (words_of (with_block_first row.now (option_copied block.entry))) text
        || has_text row.now.hides text))) }
{
    match block {
        Some(block) => pass_block(passed, row, block),
        None => pass_row(passed, row),
    }
}

// Passes the words of a block and those of a row, and those that the row hides.
fn pass_block<'a>(passed: &mut WordRefs<'a>, row: &'a Row, block: &'a Block) -> Result<(), Memory>
    ensures { OnOk result ((text : List ℕ) → has_text passed.new text
        ≡ (has_text passed.old text
        || (has_text (words_of (with_block_first row.now (Some block.now))) text || has_text row.now.hides text))) }
{
    pass_words(passed, block.words().as_slice())?;
    pass_row(passed, row)?;
    Ok(())
}

// Passes the words of a row and those that it hides.
fn pass_row<'a>(passed: &mut WordRefs<'a>, row: &'a Row) -> Result<(), Memory>
    ensures words { OnOk result ((text : List ℕ) → has_text passed.new text
        ≡ (has_text passed.old text || (has_text (words_of row.now.cands) text || has_text row.now.hides text))) }
    ensures valid { OnOk result (is_row row.now ≡ true) }
{
    pass_cands(passed, row.cands().as_slice())?;
    pass_words(passed, row.hides().as_slice())
}

// Passes the words of candidates.
fn pass_cands<'a>(passed: &mut WordRefs<'a>, cands: &'a [Cand]) -> Result<(), Memory>
    ensures { OnOk result (passed.new ≡ fold (with_new (λ text. text)) passed.old (words_of cands.now)) }
{
    for cand in cands {
        passed.insert(cand.word())?;
    }
    Ok(())
}

// Passes words.
fn pass_words<'a>(passed: &mut WordRefs<'a>, words: &'a [Text]) -> Result<(), Memory>
    ensures { OnOk result (passed.new ≡ fold (with_new (λ text. text)) passed.old words.now) }
{
    for word in words {
        passed.insert(word)?;
    }
    Ok(())
}
