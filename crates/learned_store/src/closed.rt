use skk_calls::{Chronicle, Tally};

/// What is left of a dictionary that was closed: its disk, what its calls came to, and their history.
#[derive(Drop)]
pub struct Closed<D> {
    pub disk: D,
    pub tally: Tally,
    pub chronicle: Chronicle,
}
