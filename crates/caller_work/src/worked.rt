use learned_store::Closed;

/// What work leaves, and what is left of its dictionary.
#[derive(Drop)]
pub struct Worked<D, L> {
    /// What the work left beside.
    pub left: L,
    /// The disk of the dictionary, what the calls came to, and their history.
    pub closed: Closed<D>,
}
