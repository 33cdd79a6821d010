ghost use Rattle.std.specs.Prelude.{◌≡◌, ◌++◌, ◌∷◌, not, List, [], ℕ, map, true, IfOk, OnOk};
ghost use Rattle.std.specs.List.{filter, list_all, list_any};
ghost use Rattle.skk_text.specs.Lists.{is_empty};
ghost use Rattle.skk_calls.specs.Rows.{Cand, Block, is_block, is_row};
ghost use Rattle.word_sets.specs.Strings.{as_cand, characters};
ghost use Rattle.dict_format.specs.Items.{Item as said_item};
ghost use Rattle.dict_format.specs.RowOfItems.{row_of_items, words_once, has_word};
ghost use Rattle.dict_format.specs.Building.{cands_once, is_candidate, joined_words, valid_blocks, SaysItems};
ghost use Rattle.dict_format.specs.Views.{item_said};

use crate::few_cands::{are_few_cands, cands_of};
use crate::items::Item;
use skk_calls::{Block, Blocks, Okuri, Row, RowKey};
use skk_text::{Memory, Text, Texts};
use std::alloc::Global;
use word_sets::{WordMap, WordSet};

// What items say of a key, as far as they were gone through: candidates, each a word with its note, okurigana with
// their words, and words that are hidden.
#[derive(Drop)]
pub struct Parts {
    cands: WordMap<Text>,
    blocks: WordMap<WordSet>,
    hides: WordSet,
}

// The row that the items make of a key.
pub fn row_of(alloc: Global, key: RowKey, items: Vec<Item>) -> Result<Row, Memory>
    requires { is_row (row_of_items key (map item_said items.items)) ≡ true }
    ensures { IfOk result (λ row. row ≡ row_of_items key (map item_said items.items)) }
{
    if are_few_cands(&items) {
        row_of_cands(alloc, key, items)
    } else {
        row_of_parts(alloc, key, items)
    }
}

// The row that candidates alone make of a key.
fn row_of_cands(alloc: Global, key: RowKey, items: Vec<Item>) -> Result<Row, Memory>
    requires row { is_row (row_of_items key (map item_said items.items)) ≡ true }
    requires cands { list_all is_candidate (map item_said items.items) ≡ true }
    ensures { IfOk result (λ row. row ≡ row_of_items key (map item_said items.items)) }
{
    let cands = cands_of(alloc, items)?;
    let blocks = Blocks::new(alloc);
    let hides = Texts::new(alloc);
    Ok(Row::new(key, cands, blocks, hides, 0))
}

// The row that items of each kind make of a key.
fn row_of_parts(alloc: Global, key: RowKey, items: Vec<Item>) -> Result<Row, Memory>
    requires { is_row (row_of_items key (map item_said items.items)) ≡ true }
    ensures { IfOk result (λ row. row ≡ row_of_items key (map item_said items.items)) }
{
    let Parts {
        cands,
        blocks,
        hides,
    } = parts_of(alloc, items)?;
    let cands = cands.into_cands(alloc)?;
    let blocks = blocks_of(alloc, blocks)?;
    let hides = hides.into_texts(alloc)?;
    Ok(Row::new(key, cands, blocks, hides, 0))
}

// What the items say.
fn parts_of(alloc: Global, items: Vec<Item>) -> Result<Parts, Memory>
    ensures { IfOk result (λ parts. SaysItems parts (map item_said items.items)) }
{
    let mut parts = Parts {
        cands: WordMap::with_capacity(alloc, items.len())?,
        blocks: WordMap::new(alloc),
        hides: WordSet::new(alloc),
    };
    for item in items {
        add_item(alloc, &mut parts, item)?;
    }
    Ok(parts)
}

// Adds what an item says.
fn add_item(alloc: Global, parts: &mut Parts, item: Item) -> Result<(), Memory>
    ensures { OnOk result ((before : List said_item) → SaysItems parts.old before
        → SaysItems parts.new (before ++ item_said item ∷ [])) }
{
    match item {
        Item::Candidate { word, note } => add_cand(alloc, &mut parts.cands, word, note),
        Item::Block { okuri, words } => add_block(alloc, &mut parts.blocks, okuri, words),
        Item::Mark { words } => add_words(alloc, &mut parts.hides, words),
    }
}

// Adds a candidate, unless its word is empty or came before.
#[tactic(auto, using(crate::proofs::OnceMore::cands_once_more))]
fn add_cand(alloc: Global, cands: &mut WordMap<Text>, word: Text, note: Text) -> Result<(), Memory>
    ensures { OnOk result ((before : List Cand) → map as_cand cands.old ≡ cands_once before
        → map as_cand cands.new ≡ cands_once (before ++ as_cand (word, note) ∷ [])) }
{
    if !word.is_empty() {
        cands.insert(string_of(alloc, &word)?, note)?;
    }
    Ok(())
}

// Adds words, but for those that are empty or came before.
fn add_words(alloc: Global, known: &mut WordSet, words: Vec<Text>) -> Result<(), Memory>
    ensures { OnOk result ((before : List (List ℕ)) → known.old ≡ words_once before
        → known.new ≡ words_once (before ++ words.items)) }
{
    for word in words {
        add_word(alloc, known, word)?;
    }
    Ok(())
}

// Adds a word, unless it is empty or came before.
#[tactic(auto, using(crate::proofs::OnceMore::words_once_more))]
fn add_word(alloc: Global, known: &mut WordSet, word: Text) -> Result<(), Memory>
    ensures { OnOk result ((before : List (List ℕ)) → known.old ≡ words_once before
        → known.new ≡ words_once (before ++ word ∷ [])) }
{
    if !word.is_empty() {
        known.insert(string_of(alloc, &word)?)?;
    }
    Ok(())
}

// Adds the words of a block to those of its okurigana, where it has a word.
fn add_block(
    alloc: Global,
    blocks: &mut WordMap<WordSet>,
    okuri: Text,
    words: Vec<Text>,
) -> Result<(), Memory>
    ensures { OnOk result ((before : List Block) → blocks.old ≡ joined_words before → blocks.new
        ≡ joined_words (before ++ filter has_word (record { okuri = okuri; words = words.items } ∷ []))) }
{
    if !has_word(&words) {
        return Ok(());
    }
    match blocks.value_mut(okuri.as_str()) {
        Some(known) => {
            add_words(alloc, known, words)?;
            Ok(())
        }
        None => {
            let mut first = WordSet::new(alloc);
            add_words(alloc, &mut first, words)?;
            blocks.insert(string_of(alloc, &okuri)?, first)?;
            Ok(())
        }
    }
}

// The string of a word, by which words are looked for.
fn string_of(alloc: Global, word: &Text) -> Result<String, Memory>
    ensures { IfOk result (λ string. characters string ≡ word.now) }
{
    word.to_string(alloc)
}

// Whether there is a word that is not empty.
fn has_word(words: &[Text]) -> bool
    ensures { result ≡ list_any (λ word. not (is_empty word)) words.now }
{
    words.iter().any(
        |word| -> bool
            ensures { result ≡ not (is_empty word.now) }
        { !word.is_empty() },
    )
}

// The blocks of the okurigana that are valid, with their words.
fn blocks_of(alloc: Global, joined: WordMap<WordSet>) -> Result<Blocks, Memory>
    requires { list_all is_block (valid_blocks joined) ≡ true }
    ensures { IfOk result (λ blocks. blocks ≡ valid_blocks joined) }
{
    let mut blocks = Blocks::new(alloc);
    for (okuri, words) in joined {
        push_block(alloc, &mut blocks, okuri, words)?;
    }
    Ok(blocks)
}

// Adds the block of an okurigana, where that is valid.
fn push_block(
    alloc: Global,
    blocks: &mut Blocks,
    okuri: String,
    words: WordSet,
) -> Result<(), Memory>
    requires { list_all is_block (valid_blocks ((characters okuri, words) ∷ [])) ≡ true }
    ensures { OnOk result (blocks.new ≡ blocks.old ++ valid_blocks ((characters okuri, words) ∷ [])) }
{
    if let Ok(okuri) = Okuri::new(Text::of(okuri)) {
        let words = words.into_texts(alloc)?;
        blocks.push(Block::new(okuri, words))?;
    }
    Ok(())
}
