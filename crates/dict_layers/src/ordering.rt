ghost use Rattle.std.specs.Prelude.{◌≡◌, IfOk};
ghost use Rattle.std.specs.Option.{option_copied};
ghost use Rattle.skk_calls.specs.Found.{ordered};
ghost use Rattle.dict_layers.specs.Blocks.{block_for};

use crate::layer::add_layer;
use skk_calls::{Block, Cands, Okuri, Row};
use skk_text::Memory;
use std::alloc::Global;
use word_sets::WordRefs;

/// The candidates of a row, where the words of the block of an okurigana stand first, each with its note. Takes time in
/// the length of the row.
pub fn cands_in_order(alloc: Global, row: &Row, okuri: Option<&Okuri>) -> Result<Cands, Memory>
    ensures { IfOk result (λ cands. cands ≡ ordered row.now (option_copied okuri.entry)) }
{
    let mut cands = Cands::new(alloc);
    let passed = WordRefs::new(alloc);
    add_layer(alloc, &mut cands, &passed, row, block_for(row, okuri))?;
    Ok(cands)
}

// The block of an okurigana.
pub(crate) fn block_for<'a>(row: &'a Row, okuri: Option<&Okuri>) -> Option<&'a Block>
    ensures { option_copied result ≡ block_for (option_copied okuri.entry) row.now.blocks }
{
    let okuri = okuri?;
    row.blocks()
        .as_slice()
        .iter()
        .find(|block| block.is_for(okuri))
}
