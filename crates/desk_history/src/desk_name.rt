use skk_calls::OpeningName;
use std::marker::Brand;

/// Names one desk, for the proof alone: its history's table, and what its history stands over. A call at `Brand` picks
/// them.
pub trait DeskName: OpeningName {
    ghost use Rattle.atomic_table.specs.Seated.{TableId};

    /// The table of its history.
    ghost table: { TableId };
}

impl DeskName for Brand {
    ghost use Rattle.desk_history.specs.Seats.{no_table};

    ghost table = { no_table };
}
