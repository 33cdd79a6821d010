//! The dictionary's language: rows, the calls on a dictionary with their answers, and the traits of those who make
//! and take them.
//!
//! It stands on `skk_text`, `ordered_lists`, `exact_readers` and `skk_trace`. Its types keep what the format of a
//! dictionary asks of readings, okurigana, words and notes, and its definitions say what the crates above are proved to
//! do: what is found for a key, which readings go on from a prefix, what learning, purging, annotating and taking back
//! make of a row and of a state, what a dictionary of one thread answers, and which histories of calls and answers are
//! legal. The crate `dict_laws` has the laws of these definitions.
#![tactic(auto)]

mod answer;
mod book;
mod book_list;
mod call;
mod caller;
mod cand;
mod chronicle;
mod dialog_trace;
mod distinct_cands;
mod entry;
mod found_cands;
mod found_row;
mod learned;
mod limits;
mod office;
mod okuri;
mod opening;
mod part;
mod plain_cands;
mod quoting;
mod row;
mod row_key;
mod row_order;
mod state;
mod tally;
mod walk;

pub use answer::{Answer, Answers, Refusal, Reply};
pub use book::{Book, Books, NumberedBook, NumberedBooks};
pub use book_list::{BOOK_LIMIT, BookList, BookListFault, SHARED_BOOK, TypistList, TypistLists};
pub use call::{Call, Calls};
pub use caller::{Caller, Kept};
pub use cand::{Cand, CandFault, Cands};
pub use chronicle::{Chronicle, Noted};
pub use dialog_trace::DialogTrace;
pub use distinct_cands::DistinctCands;
pub use entry::Entry;
pub use found_cands::{FoundCands, FoundItems};
pub use found_row::{FoundRow, FoundRows};
pub use learned::Learned;
pub use limits::{LINE_LIMIT, OKURI_LIMIT, OKURI_READING_LIMIT, READING_LIMIT, WORD_LIMIT};
pub use office::Office;
pub use okuri::{Okuri, OkuriFault, are_okuri_chars};
pub use opening::OpeningName;
pub use part::Part;
pub use plain_cands::PlainCands;
pub use quoting::needs_quotes;
pub use row::{Block, Blocks, Row, Rows};
pub use row_key::{
    RowKey, RowKeyFault, are_reading_chars, begins_well, is_reading_char, may_begin_reading,
};
pub use state::State;
pub use tally::Tally;
pub use walk::Walk;
