ghost use Rattle.std.specs.Prelude.{[], OnOk};
ghost use Rattle.skk_calls.specs.declared.part.Part.{Part};
ghost use Rattle.dict_files.specs.FilePlaces.{IsPart};
ghost use Rattle.dict_files.specs.Scanning.{ArePart};

use crate::place::{Place, reading_at};
use ordered_lists::order_bytes;
use skk_text::Memory;

/// Puts the places of entries in order by their readings; those with one reading stay in order. Takes one pass where
/// the readings ascend or descend, else time in the number of entries with one logarithm in it.
pub fn sort_places(bytes: &[u8], places: &mut Vec<Place>) -> Result<(), Memory>
    ensures { OnOk result ((part : Part) → ArePart part bytes.now places.old.items []
        → IsPart part bytes.now places.new.items) }
{
    places.sort_by(|place, other| order_bytes(reading_at(bytes, place), reading_at(bytes, other)))?;
    Ok(())
}
