use crate::kept_row::KeptRow;
use skk_calls::{BookList, Reply, RowKey};
use skk_text::Sequence;

/// What a change will do, with all memory that it needs.
#[derive(Debug, Drop)]
pub enum Plan {
    /// Nothing changes, and this is the reply.
    Still(Reply),
    /// The book of this number gets this count, and the key this row in it, or none; and this is the reply.
    Move {
        book: u16,
        count: u64,
        key: RowKey,
        row: Option<KeptRow>,
        reply: Reply,
    },
    /// The typist gets this list of books; and this is the reply.
    Lists {
        who: u16,
        list: BookList,
        reply: Reply,
    },
}

/// Plans in order.
pub type Plans = Sequence<Plan>;
