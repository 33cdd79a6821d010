use romaji_rules::Rules;
use std::alloc::Global;

/// What every turn of a connection is handed: where its memory comes from, the rules, and the gate.
#[derive(Drop)]
pub(crate) struct ConnectionContext<'s, G> {
    pub(crate) alloc: Global,
    pub(crate) rules: &'s Rules,
    pub(crate) gate: &'s G,
}
