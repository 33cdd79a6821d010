ghost use Rattle.std.specs.Prelude.{◌≡◌, ◌<◌, ◌≤◌, true, ℕ, List, IfOk};
ghost use Rattle.std.specs.Option.{option_copied};
ghost use Rattle.skk_calls.specs.declared.answer.Reply.TheVariants.{Learned as learned_reply};
ghost use Rattle.skk_calls.specs.declared.call.Call.TheVariants.{Learn, Purge, Annotate, Share, Unlearn};
ghost use Rattle.skk_calls.specs.Dictionary.{is_call, is_stamped, stamp_of};
ghost use Rattle.skk_calls.specs.Rows.{is_word};
ghost use Rattle.skk_calls.specs.States.{State, count_of, row_at, is_valid};
ghost use Rattle.learn_index.specs.declared.plan.Plan.TheVariants.{Move};
ghost use Rattle.learn_index.specs.Plans.{IsPlanned, row_plan};

use crate::index::Index;
use crate::kept_row::KeptRow;
use crate::plan::Plan;
use dict_rows::{annotate_row, learn_row, line_length, purge_row};
use skk_calls::{BookList, Cand, LINE_LIMIT, Learned, Okuri, Reply, Row, RowKey};
use skk_text::{Copies, Memory, Text, copy_of};
use std::alloc::Global;

/// A book, and its count.
#[derive(Clone, Copy)]
pub struct BookCount {
    pub book: u16,
    pub count: u64,
}

/// Plans that a candidate is learnt.
pub fn plan_learn(
    index: &Index,
    alloc: Global,
    book: u16,
    key: &RowKey,
    okuri: Option<&Okuri>,
    cand: &Cand,
) -> Result<Plan, Memory>
    ensures { IfOk result
        (λ plan. IsPlanned index.now.state (Learn book key.now (option_copied okuri.entry) cand.now) plan) }
{
    let count = index.count(book);
    plan_learn_at(index, alloc, BookCount { book, count }, key, okuri, cand)
}

/// Plans that a candidate is learnt once its book has this count, and while the key has the row that it has now.
pub fn plan_learn_at(
    index: &Index,
    alloc: Global,
    at: BookCount,
    key: &RowKey,
    okuri: Option<&Okuri>,
    cand: &Cand,
) -> Result<Plan, Memory>
    requires valid { is_valid index.now.state ≡ true }
    requires later { count_of index.now.state at.book ≤ at.count }
    ensures { IfOk result (λ plan. (later : State) → count_of later at.book ≡ at.count
        → row_at later at.book key.now ≡ row_at index.now.state at.book key.now
        → IsPlanned later (Learn at.book key.now (option_copied okuri.entry) cand.now) plan) }
{
    let Some(stamp) = at.count.checked_add(1) else {
        return Ok(Plan::Still(Reply::StampsEnd));
    };
    let row = learn_row(alloc, index.row(at.book, key), key, okuri, cand, stamp)?;
    let reply = learning_reply(index, alloc, at.book, key, stamp)?;
    plan_row(alloc, at.book, stamp, key, row, reply)
}

/// Plans that a word is purged.
pub fn plan_purge(
    index: &Index,
    alloc: Global,
    book: u16,
    key: &RowKey,
    word: &Text,
) -> Result<Plan, Memory>
    requires { is_word word.now ≡ true }
    ensures { IfOk result (λ plan. IsPlanned index.now.state (Purge book key.now word.now) plan) }
{
    let count = index.count(book);
    let before = index.row(book, key);
    let Some(row) = purge_row(alloc, before, key, word, count.saturating_add(1))? else {
        return Ok(Plan::Still(Reply::Unchanged));
    };
    let Some(stamp) = count.checked_add(1) else {
        return Ok(Plan::Still(Reply::StampsEnd));
    };
    plan_row(alloc, book, stamp, key, row, Reply::Purged)
}

/// Plans that a candidate is annotated.
pub fn plan_annotate(
    index: &Index,
    alloc: Global,
    book: u16,
    key: &RowKey,
    cand: &Cand,
) -> Result<Plan, Memory>
    ensures { IfOk result (λ plan. IsPlanned index.now.state (Annotate book key.now cand.now) plan) }
{
    let count = index.count(book);
    let before = index.row(book, key);
    let Some(row) = annotate_row(alloc, before, key, cand, count.saturating_add(1))? else {
        return Ok(Plan::Still(Reply::Unchanged));
    };
    let Some(stamp) = count.checked_add(1) else {
        return Ok(Plan::Still(Reply::StampsEnd));
    };
    plan_row(alloc, book, stamp, key, row, Reply::Annotated)
}

/// Plans that a typist gets a list of books. Takes no memory.
pub fn plan_share(index: &Index, who: u16, books: &BookList) -> Plan
    ensures { IsPlanned index.now.state (Share who books.now) result }
{
    if index.shared(who).is_same(books) {
        return Plan::Still(Reply::Unchanged);
    }
    Plan::Lists {
        who,
        list: books.copied(),
        reply: Reply::Shared,
    }
}

/// Plans that what was learnt is taken back.
pub fn plan_unlearn(index: &Index, alloc: Global, learned: &Learned) -> Result<Plan, Memory>
    ensures { IfOk result (λ plan. IsPlanned index.now.state (Unlearn learned.now) plan) }
{
    let book = learned.book();
    let key = learned.key();
    let row = index.row(book, key);
    if !is_stamped(learned.stamp(), row) {
        return Ok(Plan::Still(Reply::Overtaken(stamp_of(row))));
    }
    let before = copy_of(alloc, learned.before())?;
    let count = index.count(book);
    plan_move(alloc, book, count, key, before, Reply::Restored)
}

/// What the types of a learning's parts keep.
pub fn learning_is_call(key: &RowKey, okuri: Option<&Okuri>, cand: &Cand)
    ensures { (book : ℕ) → is_call (Learn book key.now (option_copied okuri.entry) cand.now) ≡ true }
{
    let _reading = key.reading();
    let _word = cand.word();
    if let Some(okuri) = okuri {
        let _text = okuri.text();
    }
}

/// What the type of a purge's key keeps.
pub fn purge_is_call(key: &RowKey)
    ensures { (book : ℕ) (word : List ℕ) → is_call (Purge book key.now word) ≡ true }
{
    let _reading = key.reading();
}

/// What the types of an annotation's parts keep.
pub fn annotation_is_call(key: &RowKey, cand: &Cand)
    ensures { (book : ℕ) → is_call (Annotate book key.now cand.now) ≡ true }
{
    let _reading = key.reading();
    let _word = cand.word();
}

/// What the type of a list of books keeps.
pub fn share_is_call(books: &BookList)
    ensures { (who : ℕ) → is_call (Share who books.now) ≡ true }
{
    let _count = books.len();
}

/// What the types of the parts of what was learnt keep.
pub fn unlearning_is_call(learned: &Learned)
    ensures { is_call (Unlearn learned.now) ≡ true }
{
    let _reading = learned.key().reading();
    if let Some(row) = learned.before() {
        let _stamp = row.stamp();
    }
}

// Plans that a key gets this row in a book, and the book this count, unless the row's line is too long.
fn plan_row(
    alloc: Global,
    book: u16,
    count: u64,
    key: &RowKey,
    row: Row,
    reply: Reply,
) -> Result<Plan, Memory>
    ensures { IfOk result (λ plan. plan ≡ row_plan book count key.now row reply) }
{
    let length = line_length(&row);
    if length > LINE_LIMIT as u64 {
        return Ok(Plan::Still(Reply::TooBig(length)));
    }
    plan_move(alloc, book, count, key, Some(row), reply)
}

// Plans that a key gets this row in a book, or none, and the book this count.
fn plan_move(
    alloc: Global,
    book: u16,
    count: u64,
    key: &RowKey,
    row: Option<Row>,
    reply: Reply,
) -> Result<Plan, Memory>
    ensures { IfOk result (λ plan. plan ≡ Move book count key.now row reply) }
{
    let row = keep(alloc, row)?;
    let key = key.copy(alloc)?;
    Ok(Plan::Move {
        book,
        count,
        key,
        row,
        reply,
    })
}

// Keeps a row, where there is one.
fn keep(alloc: Global, row: Option<Row>) -> Result<Option<KeptRow>, Memory>
    ensures { IfOk result (λ kept. kept ≡ row) }
{
    match row {
        Some(row) => Ok(Some(KeptRow::new(alloc, row)?)),
        None => Ok(None),
    }
}

// The reply that a candidate was learnt with this stamp.
fn learning_reply(
    index: &Index,
    alloc: Global,
    book: u16,
    key: &RowKey,
    stamp: u64,
) -> Result<Reply, Memory>
    requires valid { is_valid index.now.state ≡ true }
    requires later { count_of index.now.state book < stamp }
    ensures { IfOk result (λ reply. reply ≡ learned_reply
        (record { book = book; key = key.now; stamp = stamp; before = row_at index.now.state book key.now })) }
{
    let before = copy_of(alloc, index.row(book, key))?;
    let key = key.copy(alloc)?;
    Ok(Reply::Learned(Learned::new(book, key, stamp, before)))
}

// Whether a row is there and has this stamp.
fn is_stamped(stamp: u64, row: Option<&Row>) -> bool
    ensures { result ≡ is_stamped stamp (option_copied row.entry) }
{
    match row {
        Some(row) => row.stamp() == stamp,
        None => false,
    }
}

// The stamp of a row, 0 where there is none.
fn stamp_of(row: Option<&Row>) -> u64
    ensures { result ≡ stamp_of (option_copied row.entry) }
{
    match row {
        Some(row) => row.stamp(),
        None => 0,
    }
}
