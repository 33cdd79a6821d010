use romaji_rules::Rules;
use std::snapshot::Snapshot;

/// How the serving of connections began, for the proof alone: the rules, the listener, and the number of the first
/// caller.
#[derive(Drop)]
pub(crate) struct Start<N> {
    pub(crate) rules: Snapshot<Rules>,
    pub(crate) net: Snapshot<N>,
    pub(crate) first: u32,
}
