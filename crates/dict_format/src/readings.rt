ghost use Rattle.std.specs.Prelude.{◌≡◌, ◌||◌, false, not, IfOk, OnOk};
ghost use Rattle.skk_calls.specs.Rows.{RowKey, has_text, same_key};
ghost use Rattle.word_sets.specs.Firsts.{with_new};
ghost use Rattle.dict_format.specs.FileBuilding.{knows};

use skk_calls::{Part, RowKey};
use skk_text::{Copies, Memory, Text};
use std::alloc::Global;
use word_sets::WordSet;

/// The readings of keys, in each part.
#[derive(Drop)]
pub struct Readings {
    nasi: WordSet,
    ari: WordSet,
}

impl Readings {
    /// None.
    pub fn new(alloc: Global) -> Readings
        ensures { (key : RowKey) → knows result key ≡ false }
    {
        Readings {
            nasi: WordSet::new(alloc),
            ari: WordSet::new(alloc),
        }
    }

    /// Adds that of a key, and answers whether the key is a new one.
    pub fn add(&mut self, alloc: Global, key: &RowKey) -> Result<bool, Memory>
        ensures is_new { IfOk result (λ is_new. is_new ≡ not (knows self.old key.now)) }
        ensures known { OnOk result ((other : RowKey)
            → knows self.new other ≡ (knows self.old other || same_key key.now other)) }
    {
        match key.part() {
            Part::Nasi => {
                let is_new = add_reading(alloc, &mut self.nasi, key.reading())?;
                Ok(is_new)
            }
            Part::Ari => {
                let is_new = add_reading(alloc, &mut self.ari, key.reading())?;
                Ok(is_new)
            }
        }
    }
}

// Adds a reading to those that are known, and answers whether it is a new one.
fn add_reading(alloc: Global, known: &mut WordSet, reading: &Text) -> Result<bool, Memory>
    ensures is_new { IfOk result (λ is_new. is_new ≡ not (has_text known.old reading.now)) }
    ensures known { OnOk result (known.new ≡ with_new (λ text. text) known.old reading.now) }
{
    known.insert(reading.to_string(alloc)?)
}
