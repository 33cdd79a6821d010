ghost use Rattle.std.specs.Prelude.{◌≡◌, true};
ghost use Rattle.std.specs.Option.{option_copied};
ghost use Rattle.skk_calls.specs.Dictionary.{is_row_or_none};
ghost use Rattle.skk_calls.specs.Learning.{row_or_empty};
ghost use Rattle.skk_calls.specs.Rows.{RowKey as key_value};

use skk_calls::{Block, Cand, Row};
use skk_text::Text;

/// The candidates of a row, none where there is no row.
pub fn cands_of(row: Option<&Row>) -> &[Cand]
    ensures value { (key : key_value) → result.now ≡ (row_or_empty key (option_copied row.entry)).cands }
    ensures valid { is_row_or_none (option_copied row.entry) ≡ true }
{
    match row {
        Some(row) => row.cands().as_slice(),
        None => &[],
    }
}

/// The blocks of a row, none where there is no row.
pub fn blocks_of(row: Option<&Row>) -> &[Block]
    ensures value { (key : key_value) → result.now ≡ (row_or_empty key (option_copied row.entry)).blocks }
    ensures valid { is_row_or_none (option_copied row.entry) ≡ true }
{
    match row {
        Some(row) => row.blocks().as_slice(),
        None => &[],
    }
}

/// The words that a row hides, none where there is no row.
pub fn hides_of(row: Option<&Row>) -> &[Text]
    ensures value { (key : key_value) → result.now ≡ (row_or_empty key (option_copied row.entry)).hides }
    ensures valid { is_row_or_none (option_copied row.entry) ≡ true }
{
    match row {
        Some(row) => row.hides().as_slice(),
        None => &[],
    }
}
