ghost use Rattle.std.specs.Prelude.{◌≡◌, ◌∷◌, ◌++◌, [], true, List, map, IfOk, OnOk};
ghost use Rattle.std.specs.Option.{option_copied};
ghost use Rattle.skk_calls.specs.Found.{merged, ordered, without_hidden};
ghost use Rattle.skk_calls.specs.Rows.{Row as RowValue, is_row};
ghost use Rattle.dict_layers.specs.Merging.{Merging};

use crate::layer::{add_block_first, add_layer, pass_layer};
use crate::ordering::block_for;
use skk_calls::{Cands, DistinctCands, FoundCands, FoundItems, FoundRow, Okuri, Row};
use skk_text::{Memory, Sequence};
use std::alloc::Global;
use word_sets::WordRefs;

/// Rows in order, which stand elsewhere.
pub type RowList<'a> = Sequence<&'a Row>;

/// The candidates of layers, the upper ones first: of each layer those of the okurigana first, without the words that
/// layers above it hide, and the first of each word. Takes time in the length of the layers. Candidates are copied
/// once, and words are looked for only where there are several layers or a block.
pub fn merge(
    alloc: Global,
    layers: &RowList,
    okuri: Option<&Okuri>,
) -> Result<DistinctCands, Memory>
    ensures { IfOk result (λ cands. cands ≡ merged (map (λ row. row.now) layers.now) (option_copied okuri.entry)) }
{
    let cands = merged_cands(alloc, layers.as_slice(), okuri)?;
    Ok(DistinctCands::new(cands))
}

/// What `merge` gives of these layers and of one more below them, which is moved. Takes time in the length of the
/// layers. Candidates of the last layer are moved, unless it has a block of the okurigana; all others are copied once.
/// Takes no memory where the last layer stands alone and no okurigana is asked for, nor where it has no such block, but
/// for candidates that lie in a text.
pub fn merge_onto(
    alloc: Global,
    upper: &RowList,
    last: FoundRow,
    okuri: Option<&Okuri>,
) -> Result<FoundCands, Memory>
    ensures { IfOk result (λ cands. cands
        ≡ merged (map (λ row. row.now) upper.now ++ last ∷ []) (option_copied okuri.entry)) }
{
    if upper.is_empty() && okuri.is_none() {
        return Ok(last.into_cands());
    }
    let cands = cands_onto(alloc, upper.as_slice(), last.into_row(alloc)?, okuri)?;
    let cands = DistinctCands::new(cands);
    Ok(FoundCands::new(FoundItems::Distinct(cands)))
}

// The candidates of layers.
fn merged_cands(alloc: Global, layers: &[&Row], okuri: Option<&Okuri>) -> Result<Cands, Memory>
    ensures { IfOk result (λ cands. cands ≡ merged (map (λ row. row.now) layers.now) (option_copied okuri.entry)) }
{
    let mut cands = Cands::new(alloc);
    let Some((last, upper)) = layers.split_last() else {
        return Ok(cands);
    };
    let mut passed = WordRefs::new(alloc);
    add_upper(alloc, &mut cands, &mut passed, upper, okuri)?;
    add_layer(alloc, &mut cands, &passed, last, block_for(last, okuri))?;
    Ok(cands)
}

// The candidates of layers and of one more below them, which stay where they lie if nothing comes before them.
fn cands_onto(
    alloc: Global,
    upper: &[&Row],
    last: Row,
    okuri: Option<&Okuri>,
) -> Result<Cands, Memory>
    ensures { IfOk result (λ cands. cands
        ≡ merged (map (λ row. row.now) upper.now ++ last ∷ []) (option_copied okuri.entry)) }
{
    if upper.is_empty() && block_for(&last, okuri).is_none() {
        return Ok(last.into_cands());
    }
    let mut cands = Cands::new(alloc);
    let mut passed = WordRefs::new(alloc);
    add_upper(alloc, &mut cands, &mut passed, upper, okuri)?;
    move_layer(alloc, &mut cands, &passed, last, okuri)?;
    Ok(cands)
}

// Adds the candidates of layers which have others below them, and passes what each gives or hides.
fn add_upper<'a>(
    alloc: Global,
    cands: &mut Cands,
    passed: &mut WordRefs<'a>,
    layers: &[&'a Row],
    okuri: Option<&Okuri>,
) -> Result<(), Memory>
    ensures { OnOk result ((all below : List RowValue)
        → Merging all (option_copied okuri.entry) cands.old passed.old (map (λ row. row.now) layers.now ++ below)
        → Merging all (option_copied okuri.entry) cands.new passed.new below) }
{
    for row in layers {
        let block = block_for(row, okuri);
        add_layer(alloc, cands, passed, row, block)?;
        pass_layer(passed, row, block)?;
    }
    Ok(())
}

// Adds what `add_layer` does of a row with the block of an okurigana. Candidates are moved, unless there is a block.
fn move_layer(
    alloc: Global,
    cands: &mut Cands,
    passed: &WordRefs<'_>,
    row: Row,
    okuri: Option<&Okuri>,
) -> Result<(), Memory>
    ensures shown { OnOk result (cands.new
        ≡ cands.old ++ without_hidden passed.now (ordered row (option_copied okuri.entry))) }
    ensures valid { OnOk result (is_row row ≡ true) }
{
    match block_for(&row, okuri) {
        Some(block) => add_block_first(alloc, cands, passed, &row, block),
        None => move_cands(cands, passed, row.into_cands()),
    }
}

// Moves candidates, but for those whose words are passed.
fn move_cands(cands: &mut Cands, passed: &WordRefs<'_>, others: Cands) -> Result<(), Memory>
    ensures { OnOk result (cands.new ≡ cands.old ++ without_hidden passed.now others) }
{
    for cand in others.into_vec() {
        if !passed.contains(cand.word()) {
            cands.push(cand)?;
        }
    }
    Ok(())
}
