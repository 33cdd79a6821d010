ghost use Rattle.std.specs.Prelude.{◌≡◌, true};
ghost use Rattle.skk_text.specs.Results.{AnswersUnless};
ghost use Rattle.exact_readers.specs.Lacking.{lacks};
ghost use Rattle.dict_format.specs.ItemsAlone.{item_alone};

use crate::items::word_and_note;
use skk_calls::{Cand, WORD_LIMIT};
use skk_text::{Memory, Text};
use std::alloc::Global;
use thiserror::Error;

/// Why an item by itself is not read.
#[derive(Clone, Copy, Debug, PartialEq, Eq, Error)]
pub enum ItemFault {
    /// Its word and its note have more than 4,095 bytes together.
    #[error("too long")]
    Long,
    /// Out of memory.
    #[error("out of memory")]
    Memory,
}

impl From<Memory> for ItemFault {
    ghost use Rattle.std.specs.Prelude.{◌≡◌};
    ghost use Rattle.dict_format.specs.declared.single.ItemFault.TheVariants as faults;

    ghost from_gives = { λ _ fault. fault ≡ faults.Memory };

    fn from(_memory: Memory) -> ItemFault {
        ItemFault::Memory
    }
}

/// Reads what stood between two slashes: a candidate as in a line without okurigana, where a mark is plain text, or
/// none where its word is empty. One that is too long is refused whether its word is empty or not. Takes time in its
/// length.
#[tactic(auto, using(crate::proofs::RowsRead::note_valid), unfolding(crate::specs::ItemsAlone::item_alone))]
pub fn read_item(alloc: Global, item: &Text) -> Result<Option<Cand>, ItemFault>
    requires { lacks 0x2F item.now ≡ true }
    ensures { AnswersUnless ItemFault.Memory result (item_alone item.now) }
{
    let (word, note) = word_and_note(alloc, item.as_str())?;
    if word.as_str().len() + note.as_str().len() > WORD_LIMIT {
        return Err(ItemFault::Long);
    }
    if word.is_empty() {
        return Ok(None);
    }
    Ok(Some(Cand::of_parts(word, note)))
}
