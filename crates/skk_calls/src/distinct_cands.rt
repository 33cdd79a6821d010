use crate::cand::Cands;
use std::marker::Model;

/// Candidates in order whose words differ.
#[derive(Debug, Drop)]
pub struct DistinctCands {
    cands: Cands,
}

impl Model for DistinctCands {
    ghost use Rattle.std.specs.Prelude.{◌≡◌, true, List};
    ghost use Rattle.skk_calls.specs.Rows.{Cand, texts_differ, words_of};

    ghost Value = { List Cand };

    ghost view = { λ d. d.cands };

    ghost invariant = { λ d. texts_differ (words_of d.cands) ≡ true };
}

impl DistinctCands {
    ghost use Rattle.std.specs.Prelude.{◌≡◌, true};
    ghost use Rattle.skk_calls.specs.Rows.{texts_differ, words_of};

    /// These candidates. Takes no memory and constant time.
    pub fn new(cands: Cands) -> DistinctCands
        requires { texts_differ (words_of cands) ≡ true }
        ensures { result ≡ cands }
    {
        DistinctCands { cands }
    }

    /// The candidates.
    pub fn cands(&self) -> &Cands
        ensures value { result.now ≡ self.now }
        ensures differ { texts_differ (words_of self.now) ≡ true }
    {
        &self.cands
    }

    /// The candidates, moved out. Takes no memory.
    pub fn into_cands(self) -> Cands
        ensures value { result ≡ self }
        ensures differ { texts_differ (words_of self) ≡ true }
    {
        self.cands
    }
}
