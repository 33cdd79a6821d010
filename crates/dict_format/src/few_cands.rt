ghost use Rattle.std.specs.Prelude.{◌≡◌, [], map, true, IfOk, OnOk};
ghost use Rattle.std.specs.List.{fold, list_all};
ghost use Rattle.skk_calls.specs.Rows.{has_text, is_cand, same_text, words_of};
ghost use Rattle.dict_format.specs.Building.{is_candidate, with_item};
ghost use Rattle.dict_format.specs.Views.{item_said};

use crate::items::Item;
use skk_calls::{Cand, Cands};
use skk_text::{Memory, Text};
use std::alloc::Global;

// The most candidates of which each is looked for among those before it: so few are compared sooner than one of them
// is hashed.
const FEW: usize = 16;

// Whether items are few, and candidates alone.
#[tactic(auto, using(crate::proofs::FewCands::cands_alone))]
pub fn are_few_cands(items: &[Item]) -> bool
    ensures { result ≡ true → list_all is_candidate (map item_said items.now) ≡ true }
{
    items.len() <= FEW && are_cands(items)
}

// Whether items are candidates alone.
fn are_cands(items: &[Item]) -> bool
    ensures { result ≡ list_all (λ item. is_candidate (item_said item)) items.now }
{
    items.iter().all(is_candidate)
}

// Whether an item is a candidate.
fn is_candidate(item: &Item) -> bool
    ensures { result ≡ is_candidate (item_said item.now) }
{
    matches!(item, Item::Candidate { .. })
}

// The candidates of items, the first of each word that is not empty.
pub fn cands_of(alloc: Global, items: Vec<Item>) -> Result<Cands, Memory>
    requires { list_all is_cand (fold with_item [] (map item_said items.items)) ≡ true }
    ensures { IfOk result (λ cands. cands ≡ fold with_item [] (map item_said items.items)) }
{
    let mut cands = Cands::of(Vec::with_capacity(alloc, items.len())?);
    for item in items {
        add_item(&mut cands, item)?;
    }
    Ok(cands)
}

// Adds the candidate that an item is, unless its word is empty or came before.
fn add_item(cands: &mut Cands, item: Item) -> Result<(), Memory>
    requires { list_all is_cand (with_item cands.old (item_said item)) ≡ true }
    ensures { OnOk result (cands.new ≡ with_item cands.old (item_said item)) }
{
    let Item::Candidate { word, note } = item else {
        return Ok(());
    };
    if !word.is_empty() && !has_cand(cands.as_slice(), &word) {
        cands.push(Cand::of_parts(word, note))?;
    }
    Ok(())
}

// Whether a word is a candidate's.
fn has_cand(cands: &[Cand], word: &Text) -> bool
    ensures { result ≡ has_text (words_of cands.now) word.now }
{
    cands.iter().any(|cand| is_of(cand, word))
}

// Whether a candidate has this word.
fn is_of(cand: &Cand, word: &Text) -> bool
    ensures { result ≡ same_text word.now cand.now.word }
{
    word.as_str() == cand.word().as_str()
}
