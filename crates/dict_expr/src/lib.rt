//! Sums and differences of dictionaries: what a file of words comes to with another and without it.
//!
//! It stands on `skk_text`, `skk_calls`, `word_sets`, `dict_rows` and `dict_format`. The definitions in
//! `specs/Rows.antt` speak of one key: `plus_row` and `minus_row` say what its rows in two dictionaries come to. The
//! crate is proved to give these rows for each key: it puts the rows of both in order and walks along the two lists.
//! `expr_text` prints a result as a file, unless a line would be too long to be read again.
#![tactic(auto)]

mod blocks;
mod books;
mod expr_fault;
mod laws;
mod lists;
mod pairs;
mod printing;
mod rows;
mod texts;

pub use books::{minus, plus};
pub use expr_fault::ExprFault;
pub use laws::{
    no_word_is_left_of_another, nothing_is_added_by_itself, nothing_is_left_without_itself,
    rows_of_files_say_something,
};
pub use printing::expr_text;
