//! The layers of a dictionary: the system files, and what the rows of a key come to.
//!
//! It stands on `skk_text`, `skk_calls`, `word_sets` and `dict_files`. A `System` keeps the files, as they lie or as
//! rows that were given, and finds in each the row of a key and the next reading of a walk. `cands_in_order` gives the
//! candidates of a row with those of an okurigana first, and `merge` those of several rows, the upper ones first,
//! without what an upper row hides and with the first of each word; `merge_onto` gives the same where the last row may
//! be moved. What they are proved to give is defined in `skk_calls`. A clause of `file_count` says that each file's
//! rows are rows of which no two have one key.
#![tactic(auto)]

mod layer;
mod merging;
mod ordering;
mod system;
mod system_file;

pub use merging::{RowList, merge, merge_onto};
pub use ordering::cands_in_order;
pub use system::System;
