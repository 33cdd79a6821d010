use crate::end::End;
use crate::served_end::ServedEnd;

/// What the serving of a listener's connections came to.
#[derive(Drop)]
pub struct Served<S> {
    /// How many links were accepted.
    pub count: u32,
    /// What is left of the callers, in the order of their connections. One less than the links where there was no
    /// memory for the last one's caller.
    pub passes: Vec<S>,
    /// How each connection ended, in their order.
    pub ends: Vec<End>,
    /// How the serving ended.
    pub end: ServedEnd,
}
