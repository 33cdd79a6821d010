use crate::distinct_cands::DistinctCands;
use crate::plain_cands::PlainCands;
use skk_text::{Copies, Memory};
use std::alloc::Global;
use std::marker::Model;

/// How candidates that were found lie.
#[derive(Debug, Drop)]
pub enum FoundItems {
    /// Each by itself.
    Distinct(DistinctCands),
    /// All in one text.
    Plain(PlainCands),
}

/// The candidates that were found. Their words differ.
#[derive(Debug, Drop)]
pub struct FoundCands {
    items: FoundItems,
}

impl Model for FoundCands {
    ghost use Rattle.std.specs.Prelude.{List};
    ghost use Rattle.skk_calls.specs.FoundCands.{cands_of};
    ghost use Rattle.skk_calls.specs.Rows.{Cand};

    ghost Value = { List Cand };

    ghost view = { λ f. cands_of f.items };
}

impl FoundCands {
    ghost use Rattle.std.specs.Prelude.{◌≡◌, IfOk};
    ghost use Rattle.skk_calls.specs.FoundCands.{cands_of};

    /// These candidates. Takes no memory.
    pub fn new(items: FoundItems) -> FoundCands
        ensures { result ≡ cands_of items }
    {
        FoundCands { items }
    }

    /// The candidates as they lie.
    pub fn items(&self) -> &FoundItems
        ensures { cands_of result.now ≡ self.now }
    {
        &self.items
    }

    /// The candidates each by itself. Takes memory only where they lie in a text.
    pub fn into_distinct(self, alloc: Global) -> Result<DistinctCands, Memory>
        ensures { IfOk result (λ cands. cands ≡ self) }
    {
        match self.items {
            FoundItems::Distinct(cands) => Ok(cands),
            FoundItems::Plain(cands) => cands.to_distinct(alloc),
        }
    }
}

impl Copies for FoundCands {
    fn copy(&self, alloc: Global) -> Result<FoundCands, Memory> {
        let items = match &self.items {
            FoundItems::Distinct(cands) => {
                FoundItems::Distinct(DistinctCands::new(cands.cands().copy(alloc)?))
            }
            FoundItems::Plain(cands) => FoundItems::Plain(cands.copy(alloc)?),
        };
        Ok(FoundCands { items })
    }
}
