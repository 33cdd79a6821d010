use dict_layers::System;
use learn_index::Index;
use skk_journal::Journal;

/// What a store is made of.
#[derive(Drop)]
pub struct Parts<D> {
    /// The state that the records of the live file leave, in memory.
    pub index: Index,
    /// The system files.
    pub system: System,
    /// The two learned files of a disk.
    pub journal: Journal<D>,
    /// The most bytes that each learned file may have.
    pub limit: u64,
}
