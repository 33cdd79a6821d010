use crate::book_list::BookList;
use crate::cand::Cand;
use crate::learned::Learned;
use crate::okuri::Okuri;
use crate::row_key::RowKey;
use skk_text::{Sequence, Text};

/// A call on a dictionary.
#[derive(Debug, Drop)]
pub enum Call {
    /// The candidates of a key for a typist, with those of the okurigana first.
    Lookup {
        who: u16,
        key: RowKey,
        okuri: Option<Okuri>,
    },
    /// The readings that go on from a prefix, for a typist.
    Complete {
        who: u16,
        prefix: Text,
    },
    /// A candidate was chosen, with an okurigana or without.
    Learn {
        book: u16,
        key: RowKey,
        okuri: Option<Okuri>,
        cand: Cand,
    },
    /// A word is not to be found any more.
    Purge {
        book: u16,
        key: RowKey,
        word: Text,
    },
    /// A candidate has this note from now on.
    Annotate {
        book: u16,
        key: RowKey,
        cand: Cand,
    },
    /// A typist reads these books behind the typist's own from now on.
    Share {
        who: u16,
        books: BookList,
    },
    /// What was learnt is taken back, unless the row was changed since.
    Unlearn {
        learned: Learned,
    },
}

/// Calls in order.
pub type Calls = Sequence<Call>;
