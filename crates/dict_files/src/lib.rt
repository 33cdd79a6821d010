//! Dictionary files as the look-ups of a dictionary find them: the row of a key, and the readings that a walk goes
//! over.
//!
//! It stands on `skk_text`, `exact_readers`, `ordered_lists`, `skk_calls`, `word_sets` and `dict_format`. A
//! `DictionaryFile` keeps a file as it lies, its bytes and the places of its entries in order by their readings, with a
//! copy of one reading in sixteen, and reads a line when its row is asked for; a `RowFile` keeps rows that were given,
//! with their places in order.
//! Contracts see of both the rows of the file: those that its bytes list, or those that were given. A law says that a
//! walk goes over the readings that complete prefixes.
#![tactic(auto)]

mod dictionary_file;
mod laws;
mod line_rows;
mod marked_places;
mod part_places;
mod place;
mod plain_lines;
mod row_file;
mod scanning;
mod searching;
mod sorting;

pub use dictionary_file::{DictionaryFile, DictionaryFiles};
pub use laws::walks_go_over_completions;
pub use row_file::RowFile;
