ghost use Rattle.std.specs.Prelude.{◌≡◌};
ghost use Rattle.learned_store.specs.Payloads.{counted_by, first_version};

use skk_calls::{BookList, Cand, Row, RowKey};

// The first byte of a payload that puts a row into a book.
pub(crate) const PUT: u8 = 1;

// The first byte of a payload that takes a row out of a book.
pub(crate) const DROP: u8 = 2;

// The first byte of a payload that gives a book its count.
pub(crate) const SET_COUNT: u8 = 3;

// The first byte of a payload that gives a candidate of a row its note.
pub(crate) const NOTE: u8 = 4;

// The first byte of a payload that gives a typist a list of books.
pub(crate) const SET_LIST: u8 = 5;

/// The version of a learned file that is filled, the newest: that of the last form that was added.
pub const NEWEST: u8 = 3;

/// What a record says. Of the book of a number, which then has a count: that a row stands in it; that it has no row of
/// a key; nothing more; or that the candidate with a word in the row of a key has a note. Or of a typist: which list of
/// books the typist reads.
#[derive(Debug, Drop)]
pub enum PayloadForm {
    Put {
        book: u16,
        count: u64,
        row: Row,
    },
    Drop {
        book: u16,
        count: u64,
        key: RowKey,
    },
    SetCount {
        book: u16,
        count: u64,
    },
    Note {
        book: u16,
        count: u64,
        key: RowKey,
        cand: Cand,
    },
    SetList {
        typist: u16,
        books: BookList,
    },
}

impl PayloadForm {
    /// The number of the book that it speaks of, and the count that the book has then. The list of a typist speaks of
    /// no book.
    pub fn counted(&self) -> Option<(u16, u64)>
        ensures { result ≡ counted_by self.now }
    {
        match self {
            PayloadForm::Put { book, count, .. }
            | PayloadForm::Drop { book, count, .. }
            | PayloadForm::SetCount { book, count }
            | PayloadForm::Note { book, count, .. } => Some((*book, *count)),
            PayloadForm::SetList { .. } => None,
        }
    }

    /// The version of a learned file that first has such a record.
    pub fn first_version(&self) -> u8
        ensures { result ≡ first_version self.now }
    {
        match self {
            PayloadForm::Put { .. } | PayloadForm::Drop { .. } | PayloadForm::SetCount { .. } => 1,
            PayloadForm::Note { .. } => 2,
            PayloadForm::SetList { .. } => 3,
        }
    }
}
