//! All learned books in memory, and the lists of those that typists read: the dictionary of one thread.
//!
//! It stands on `skk_text`, `ordered_lists`, `skk_calls`, `dict_laws`, `dict_rows`, `dict_files`, `dict_layers` and
//! `dict_complete`. An `Index` stands for a state of `skk_calls`. It answers look-ups and completions over its books
//! and the system files; what the files have for a look-up, which no change of a book changes, may be found before, by
//! `file_rows`. A change is planned first, which takes all memory that the change needs and changes nothing, and then
//! applied, which takes none and can't fail: a layer above writes the change to a disk in between; where there is no
//! disk `serve` does both. Learnings in one book, no two of them under one key, can be planned together as a group, and
//! applied together. `put`, `drop_row`, `set_count` and `set_list` rebuild a state from what was written;
//! `order_by_stamp` then puts the rows of each book in order by their stamps, in which changes keep them and
//! completions go over them.
#![tactic(auto)]

mod aged_row;
mod book;
mod by_stamp;
mod completing;
mod grouping;
mod index;
mod kept_books;
mod kept_lists;
mod kept_row;
mod kept_rows;
mod layering;
mod plan;
mod planning;
mod rows_of_files;
mod serving;

pub use book::LearnedBook;
pub use grouping::{Group, Replies};
pub use index::Index;
pub use kept_row::KeptRow;
pub use plan::{Plan, Plans};
pub use rows_of_files::{FileRows, file_rows};
