//! Groups of learnings that stand on a disk together, all of a group or none, and the import of a dictionary by them.
//!
//! It stands on `skk_text`, `skk_outside`, `skk_trace`, `skk_calls`, `dict_laws`, `skk_disk`, `skk_journal`,
//! `dict_format`, `dict_layers`, `learn_index` and `learned_store`. A `Batch` is made of the parts of a store. `commit`
//! plans a group of learnings, adds the records of those that change something together, behind one gate, and only then
//! makes the changes: four calls of the disk for the whole group, and a stop at any moment leaves the state before it
//! or the one after all of it. Where the live file has no room the rows and lists of the state are written into the
//! other one first, as for a single change. Each call is entered into the history: with its reply where the group was
//! served, and where the disk failed, as refused if it would have changed something. `import` learns the candidates of
//! a dictionary in such groups, so that each row that was new shows them in the order of the file; a stop at any moment
//! of it leaves a state behind whole groups.
#![tactic(auto)]

mod batch;
mod committing;
mod entries;
mod group_fault;
mod group_records;
mod import_fault;
mod importing;
mod learnings;
mod levels;
mod writing;

pub use batch::Batch;
pub use group_fault::{GroupAnswer, GroupFault};
pub use import_fault::ImportFault;
pub use importing::import;
