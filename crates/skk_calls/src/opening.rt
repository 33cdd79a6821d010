use std::marker::Brand;

/// Names the opening that a caller is answered from, for the proof alone: a call at `Brand` picks it.
pub trait OpeningName {
    ghost use Rattle.skk_calls.specs.Histories.{Opening};

    ghost opening: { Opening };
}

impl OpeningName for Brand {
    ghost use Rattle.std.specs.Prelude.{[]};
    ghost use Rattle.skk_calls.specs.Openings.{fresh_opening};

    ghost opening = { fresh_opening [] };
}
