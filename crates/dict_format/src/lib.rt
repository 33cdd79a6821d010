//! The text of an SKK dictionary: a line is read to the row that it spells or refused by its first reason, a row is
//! printed on its one canonical line, which is read again as that row, and whole files are read and printed.
//!
//! It stands on `skk_text`, `exact_readers`, `skk_calls` and `word_sets`. Its definitions speak of whole lines: what
//! the texts between the slashes of a line spell, as formats that are made of smaller ones, the row that they make,
//! and what each reason says of a line; and of whole files: what each of their lines is, and the rows and bad lines
//! that they come to. `read_line` is proved to give that row, or the first reason that fits, and `read_file` those
//! rows and bad lines, unless memory is out; `slashed_texts` gives the texts between slashes, and `read_item` the
//! candidate that one of them is by itself; `read_key` gives the key of a line alone, and `print_line` and
//! `print_file` what is defined. Laws say that each line has the one or the other, that a file lists one thing alone,
//! that the canonical line of a good row is read again as that row, as the item of a candidate is as that candidate,
//! that the order of a file moves rows and no more, and that the file of good rows lists them again.
#![tactic(auto)]

mod characters;
mod few_cands;
mod file;
mod file_lines;
mod file_printing;
mod file_reading;
mod items;
mod laws;
mod line;
mod lines;
mod listing;
mod printing;
mod readings;
mod reason;
mod row;
mod single;
mod words;

pub use file::{BadLine, BadLines, FileFault, Listed};
pub use file_lines::{LineKind, kind_of};
pub use file_printing::{print_file, rows_in_order};
pub use file_reading::{FILE_LIMIT, read_file};
pub use laws::{
    bodies_have_one_list_of_texts, files_list_one_thing, good_rows_are_read_again,
    items_are_read_again, lines_spell_one_row, lines_spell_rows_or_have_reasons,
    printed_files_are_read_again, printing_order_moves_rows,
};
pub use line::{read_key, read_line, row_of_line, slashed_texts};
pub use lines::{FileLine, FileLines};
pub use printing::{print_item, print_line, push_item};
pub use reason::{LineFault, LineReason};
pub use single::{ItemFault, read_item};
