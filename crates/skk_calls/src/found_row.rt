use crate::distinct_cands::DistinctCands;
use crate::found_cands::{FoundCands, FoundItems};
use crate::plain_cands::PlainCands;
use crate::row::{Blocks, Row};
use crate::row_key::RowKey;
use skk_text::{Memory, Sequence, Texts};
use std::alloc::Global;
use std::marker::Model;

// How a row that was found lies.
#[derive(Drop)]
enum RowItems {
    // As a row.
    Whole(Row),
    // Its key and its candidates, which are all that it has.
    Plain(RowKey, PlainCands),
}

/// A row that was found in a file. Where it has candidates alone, they may lie in one text as the file's line has them.
#[derive(Drop)]
pub struct FoundRow {
    items: RowItems,
}

impl Model for FoundRow {
    ghost use Rattle.std.specs.Prelude.{◌≡◌, true};
    ghost use Rattle.skk_calls.specs.FoundCands.{row_of};
    ghost use Rattle.skk_calls.specs.Rows.{Row, is_row};

    ghost Value = { Row };

    ghost view = { λ r. row_of r.items };

    ghost invariant = { λ r. is_row (row_of r.items) ≡ true };
}

impl FoundRow {
    ghost use Rattle.std.specs.Prelude.{◌≡◌, true, IfOk};
    ghost use Rattle.skk_calls.specs.FoundCands.{row_with};
    ghost use Rattle.skk_calls.specs.Rows.{is_row};

    /// This row. Takes no memory.
    pub fn of_row(row: Row) -> FoundRow
        ensures { result ≡ row }
    {
        // It is a row, as its type says.
        let _key = row.key();
        FoundRow {
            items: RowItems::Whole(row),
        }
    }

    /// The row of a key with these candidates and nothing else. Takes no memory.
    #[tactic(auto, using(crate::specs::PlainLaws::row_is_valid))]
    pub fn of_cands(key: RowKey, cands: PlainCands) -> FoundRow
        ensures { result ≡ row_with key cands }
    {
        // The key and the candidates are valid, as their types say.
        let _reading = key.reading();
        let _text = cands.text();
        FoundRow {
            items: RowItems::Plain(key, cands),
        }
    }

    /// The row. Takes memory only where its candidates lie in a text.
    pub fn into_row(self, alloc: Global) -> Result<Row, Memory>
        ensures { IfOk result (λ row. row ≡ self) }
    {
        match self.items {
            RowItems::Whole(row) => Ok(row),
            RowItems::Plain(key, cands) => {
                let cands = cands.to_distinct(alloc)?.into_cands();
                Ok(Row::new(key, cands, Blocks::new(alloc), Texts::new(alloc), 0))
            }
        }
    }

    /// Its candidates, as they lie. Takes no memory.
    pub fn into_cands(self) -> FoundCands
        ensures value { result ≡ self.cands }
        ensures valid { is_row self ≡ true }
    {
        match self.items {
            RowItems::Whole(row) => {
                let cands = DistinctCands::new(row.into_cands());
                FoundCands::new(FoundItems::Distinct(cands))
            }
            RowItems::Plain(_, cands) => FoundCands::new(FoundItems::Plain(cands)),
        }
    }
}

/// Rows that were found, in order.
pub type FoundRows = Sequence<FoundRow>;
