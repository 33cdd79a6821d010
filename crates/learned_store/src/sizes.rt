ghost use Rattle.std.specs.Prelude.{◌≡◌, [], sum_by};
ghost use Rattle.skk_calls.specs.Histories.{list_need, put_need, rows_need, tight};
ghost use Rattle.skk_journal.specs.Records.{need};
ghost use Rattle.learn_index.specs.Kept.{changed, kept, numbered};
ghost use Rattle.learned_store.specs.Compacting.{book_need, capped};

use dict_rows::line_length;
use learn_index::{Index, KeptRow, LearnedBook};
use skk_calls::TypistList;

// The end of a learned file without records: its own gate, its mark, its generation, and the gate behind them.
const LEAST_END: u64 = 18;

// The bytes that the record of a row needs beside its line.
const PUT_NEED: u64 = 25;

// The bytes that the record of a book's count needs.
const COUNT_NEED: u64 = 16;

// The bytes that the record of a list needs beside the numbers of its books.
const LIST_NEED: u64 = 9;

// The bytes that the number of a book needs.
const NUMBER_NEED: u64 = 2;

// The bytes that a record needs beside its payload: those of its gate and of the payload's length.
const FRAME_NEED: u64 = 5;

// The bytes that the record of a payload needs.
#[tactic(auto, using(skk_journal::specs::RecordLaws::need_is))]
pub(crate) fn record_need(payload: &[u8]) -> u64
    ensures { result ≡ need payload.now }
{
    FRAME_NEED + payload.len() as u64
}

/// The end, in bytes, of a learned file that has just the records of a compaction of an index, or 2^64 - 1 where that
/// is more. Takes no memory, and time in what the rows hold, and in the lists.
pub fn tight_end(index: &Index) -> u64
    ensures { result ≡ capped (tight index.now.state) }
{
    books_end(index.books()).saturating_add(lists_need(index.lists()))
}

// The end of a learned file that has just the records of a compaction of these books, and no list.
fn books_end(books: &[LearnedBook]) -> u64
    ensures { result ≡ capped (tight (changed (kept books.now []))) }
{
    let mut end = LEAST_END;
    for book in books {
        end = end.saturating_add(book_need(book));
    }
    end
}

// The bytes that the records of lists need.
fn lists_need(lists: &[TypistList]) -> u64
    ensures { result ≡ capped (sum_by (λ list. list_need list.books) lists.now) }
{
    let mut bytes = 0u64;
    for list in lists {
        bytes = bytes.saturating_add(list_need(list));
    }
    bytes
}

// The bytes that the record of a list needs.
fn list_need(list: &TypistList) -> u64
    ensures { result ≡ list_need list.now.books }
{
    LIST_NEED + NUMBER_NEED * list.books.len() as u64
}

// The bytes that the records of a book need, none where it has not changed.
fn book_need(book: &LearnedBook) -> u64
    ensures { result ≡ capped (book_need (numbered book.now)) }
{
    if book.count == 0 {
        0
    } else {
        rows_need(&book.rows)
    }
}

// The bytes that the records of a book with these rows need.
fn rows_need(rows: &[KeptRow]) -> u64
    ensures { result ≡ capped (rows_need rows.now) }
{
    if rows.is_empty() {
        COUNT_NEED
    } else {
        puts_need(rows)
    }
}

// The bytes that the records of rows need.
fn puts_need(rows: &[KeptRow]) -> u64
    ensures { result ≡ capped (sum_by put_need rows.now) }
{
    let mut bytes = 0u64;
    for row in rows {
        bytes = bytes
            .saturating_add(PUT_NEED)
            .saturating_add(line_length(row.row()));
    }
    bytes
}
