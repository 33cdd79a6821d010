ghost use Rattle.std.specs.Prelude.{◌≡◌, ℕ, ◌+◌, ◌<◌, ◌≤◌, true, false, min, Some, None, List, IfOk, OnOk, OnErr};
ghost use Rattle.std.specs.Option.{option_copied, ForSome};
ghost use Rattle.skk_text.specs.Counts.{last_count};
ghost use Rattle.skk_calls.specs.declared.call.Call.{Call};
ghost use Rattle.skk_calls.specs.Dictionary.{answer, after, is_call, is_fit, may_reply};
ghost use Rattle.skk_calls.specs.Rows.{Row as row_value};
ghost use Rattle.skk_calls.specs.States.{empty_state, row_at, rows_ascend, rows_of, count_of, state_with};
ghost use Rattle.skk_calls.specs.States.{is_valid, fits_count, shared_books, state_listed};
ghost use Rattle.skk_calls.specs.Tallies.{count_rows};
ghost use Rattle.learn_index.specs.Ages.{oldest_first};
ghost use Rattle.learn_index.specs.FileRows.{AreFileRows};
ghost use Rattle.learn_index.specs.Index.{spare_of};
ghost use Rattle.learn_index.specs.Kept.{changed, keeps_book, kept};
ghost use Rattle.learn_index.specs.Plans.{is_question, IsPlanned, IsMade, HasRoom};
ghost use Rattle.learn_index.specs.Records.{state_counted, state_without};

use crate::aged_row::AgedRow;
use crate::book::{LearnedBook, RowOrders};
use crate::completing::completions;
use crate::kept_books::{book_of, place_of};
use crate::kept_lists::{list_of, put_list};
use crate::kept_row::{KeptRow, copied_rows};
use crate::layering::found_cands;
use crate::plan::Plan;
use crate::planning::{
    annotation_is_call, learning_is_call, plan_annotate, plan_learn, plan_purge, plan_share,
    plan_unlearn, purge_is_call, share_is_call, unlearning_is_call,
};
use crate::rows_of_files::{FileRows, file_rows};
use dict_laws::changes_keep_states_valid;
use dict_layers::System;
use ordered_lists::{has_key_at, item_of};
use skk_calls::{Book, BookList, Call, Reply, Row, RowKey, TypistList};
use skk_text::Memory;
use std::alloc::Global;
use std::marker::Model;

/// All learned books, and the lists of those that typists read. It stands for a state of a dictionary, and has room for
/// changes of its books and for lists.
#[derive(Drop)]
pub struct Index {
    books: Vec<LearnedBook>,
    rows: u128,
    lists: Vec<TypistList>,
}

impl Model for Index {
    ghost use Rattle.learn_index.specs.Index.{Index};

    ghost Value = { Index };

    ghost use Rattle.std.specs.Prelude.{map, ◌-◌};
    ghost use Rattle.std.specs.Vec.{vec_len, vec_capacity};
    ghost use Rattle.learn_index.specs.Kept.{kept, changed, spare, IsKept};

    ghost view = { λ i. record {
      state = changed (kept i.books.items i.lists.items);
      spare = map spare i.books.items;
      spare_lists = vec_capacity i.lists - vec_len i.lists;
    } };

    ghost invariant = { λ i. IsKept (kept i.books.items i.lists.items) i.rows };
}

impl Index {
    /// No books, and no lists. Takes no memory.
    pub fn new(alloc: Global) -> Index
        ensures { result.state ≡ empty_state }
    {
        Index {
            books: Vec::new(alloc),
            rows: 0,
            lists: Vec::new(alloc),
        }
    }

    /// What a look-up or a completion is answered over these system files. Costs what `file_rows` and `answer_over`
    /// cost together.
    pub fn answer(&self, alloc: Global, system: &System, call: &Call) -> Result<Reply, Memory>
        requires { is_question call.now ≡ true }
        ensures value { IfOk result (λ reply. reply ≡ answer system.now self.now.state call.now) }
        ensures may { IfOk result (λ reply. may_reply call.now reply ≡ true) }
    {
        self.answer_over(alloc, system, file_rows(alloc, system, call), call)
    }

    /// What a look-up or a completion is answered over these system files, of which these rows were found for it. A
    /// look-up takes a logarithm in the number of lists, for each book that the typist reads one in its rows, and time
    /// in the candidates that it gives; a completion takes these logarithms and one in the rows of a file, for each of
    /// these books at most time in its rows with a reading that begins with the prefix, with one logarithm in their
    /// number, less where its newest rows have as many as are given, and a step of a walk for each reading that it goes
    /// over in a file.
    pub fn answer_over(
        &self,
        alloc: Global,
        system: &System,
        found: FileRows,
        call: &Call,
    ) -> Result<Reply, Memory>
        requires question { is_question call.now ≡ true }
        requires found { AreFileRows system.now call.now found }
        ensures value { IfOk result (λ reply. reply ≡ answer system.now self.now.state call.now) }
        ensures may { IfOk result (λ reply. may_reply call.now reply ≡ true) }
    {
        match call {
            Call::Lookup { who, key, okuri } => {
                let cands = found_cands(self, alloc, found?, *who, key, okuri.as_ref())?;
                Ok(Reply::Found(cands))
            }
            Call::Complete { who, prefix } => {
                Ok(Reply::Readings(completions(self, alloc, system, *who, prefix)?))
            }
            _ => unreachable!(),
        }
    }

    /// Plans a change, and takes all memory that it needs. The state stays as it was. Takes a logarithm in the rows of
    /// the book, time in the row, and, where the book's room grows, time in the number of its rows; for a list of books
    /// a logarithm in the number of lists, and time in that where their room grows.
    pub fn plan(&mut self, alloc: Global, call: &Call) -> Result<Plan, Memory>
        requires change { is_question call.now ≡ false }
        requires fit { is_fit call.now ≡ true }
        ensures state { self.new.state ≡ self.old.state }
        ensures planned { IfOk result (λ plan. IsPlanned self.old.state call.now plan) }
        ensures valid { IfOk result (λ _. is_call call.now ≡ true) }
        ensures made { IfOk result (λ plan. IsMade self.new.state plan) }
        ensures room { IfOk result (λ plan. HasRoom self.new plan) }
    {
        let plan = self.plan_of(alloc, call)?;
        self.make_room_for(alloc, &plan)?;
        Ok(plan)
    }

    /// Does what was planned, on the state that it was planned on. Takes no memory, a logarithm in the rows of the
    /// book, where a row is new or goes, the time to move a pointer for each row behind it, and where it had or gets an
    /// older stamp, to move 16 bytes for each newer row; for a list of books a logarithm in the number of lists, and
    /// the moves of those behind it.
    pub fn apply(&mut self, plan: Plan) -> Reply
        requires made { IsMade self.old.state plan }
        requires room { HasRoom self.old plan }
        ensures reply { (files : List (List row_value)) (call : Call) → is_question call ≡ false
            → IsPlanned self.old.state call plan → result ≡ answer files self.old.state call }
        ensures state { (call : Call) → is_call call ≡ true → IsPlanned self.old.state call plan
            → self.new.state ≡ after self.old.state call }
        ensures spare { (number : ℕ) → spare_of self.old number ≤ spare_of self.new number + 1 }
    {
        changes_keep_states_valid();
        // A field that is read tells that the state is valid.
        let _valid = self.rows;
        match plan {
            Plan::Still(reply) => reply,
            Plan::Move {
                book,
                count,
                key,
                row,
                reply,
            } => {
                match row {
                    Some(row) => self.set_row(book, count, row),
                    None => self.remove_row(book, count, &key),
                }
                reply
            }
            Plan::Lists { who, list, reply } => {
                self.put_list(who, list);
                reply
            }
        }
    }

    /// Gives a key this row in a book, which gets this count. Finds its place at once where that is behind all rows of
    /// the book, whose order by stamp it leaves to `order_by_stamp`, or to the next `plan`.
    pub fn put(&mut self, alloc: Global, book: u16, count: u64, row: KeptRow) -> Result<(), Memory>
        requires count { count_of self.old.state book ≤ count }
        requires row { fits_count count row ≡ true }
        ensures ok { OnOk result (self.new.state ≡ state_with self.old.state book count row.key (Some row)) }
        ensures err { OnErr result (self.new.state ≡ self.old.state) }
    {
        // A field that is read tells that the state is valid.
        let _valid = self.rows;
        self.make_room(alloc, book, 1, RowOrders::ByKey)?;
        self.set_row(book, count, row);
        Ok(())
    }

    /// Takes the row of a key out of a book, which gets this count.
    pub fn drop_row(
        &mut self,
        alloc: Global,
        book: u16,
        count: u64,
        key: &RowKey,
    ) -> Result<(), Memory>
        requires { count_of self.old.state book ≤ count }
        ensures ok { OnOk result (self.new.state ≡ state_without self.old.state book count key.now) }
        ensures err { OnErr result (self.new.state ≡ self.old.state) }
    {
        // A field that is read tells that the state is valid.
        let _valid = self.rows;
        if count > 0 {
            self.make_book(alloc, book)?;
            self.remove_row(book, count, key);
        }
        Ok(())
    }

    /// Gives a book this count.
    pub fn set_count(&mut self, alloc: Global, book: u16, count: u64) -> Result<(), Memory>
        requires { count_of self.old.state book ≤ count }
        ensures ok { OnOk result (self.new.state ≡ state_counted self.old.state book count) }
        ensures err { OnErr result (self.new.state ≡ self.old.state) }
    {
        // A field that is read tells that the state is valid.
        let _valid = self.rows;
        if count > 0 {
            self.make_book(alloc, book)?;
            self.give_count(book, count);
        }
        Ok(())
    }

    /// Gives a typist this list of books: the list of the shared book alone takes the one that the typist had away.
    /// After `Memory` the state is as it was. Takes a logarithm in the number of lists, and moves those behind it.
    pub fn set_list(&mut self, who: u16, list: &BookList) -> Result<(), Memory>
        ensures ok { OnOk result (self.new.state ≡ state_listed self.old.state who list.now) }
        ensures err { OnErr result (self.new.state ≡ self.old.state) }
    {
        self.make_list_room()?;
        self.put_list(who, list.copied());
        Ok(())
    }

    /// The row of a key in a book. Takes a logarithm in the book's rows, and no memory.
    pub fn row(&self, book: u16, key: &RowKey) -> Option<&Row>
        ensures { option_copied result ≡ row_at self.now.state book key.now }
    {
        let kept = item_of(self.rows_of(book), key)?;
        Some(kept.row())
    }

    /// The count of a book, 0 where there is none. Takes no memory.
    pub fn count(&self, book: u16) -> u64
        ensures value { result ≡ count_of self.now.state book }
        ensures valid { is_valid self.now.state ≡ true }
    {
        match book_of(&self.books, book) {
            Some(book) => book.count,
            None => 0,
        }
    }

    /// The books that a typist reads behind the one of the typist's own number: the shared book alone where the typist
    /// has no list. Takes a logarithm in the number of lists, and no memory.
    pub fn shared(&self, who: u16) -> BookList
        ensures { result ≡ shared_books self.now.state who }
    {
        match list_of(&self.lists, who) {
            Some(list) => list.books.copied(),
            None => BookList::of_shared(),
        }
    }

    /// The lists of books of those typists who read others than the shared one, in order by the typists. Takes constant
    /// time and no memory.
    pub fn lists(&self) -> &[TypistList]
        ensures { result.now ≡ self.now.state.lists }
    {
        &self.lists
    }

    /// How many rows there are in all books, up to 2^64 - 1. Takes constant time and no memory.
    pub fn rows(&self) -> u64
        ensures { result ≡ min (count_rows self.now.state) last_count }
    {
        self.rows.min(u128::from(u64::MAX)) as u64
    }

    /// The rows of a book, ascending by their keys, copied.
    pub fn book(&self, alloc: Global, number: u16) -> Result<Book, Memory>
        ensures { IfOk result (λ book. book ≡ rows_of self.now.state number) }
    {
        Ok(Book::new(copied_rows(alloc, self.rows_of(number))?))
    }

    /// The books in memory, in order by their numbers: those that have changed are the state, and the others have no
    /// rows. Takes constant time and no memory.
    pub fn books(&self) -> &[LearnedBook]
        ensures state { changed (kept result.now self.now.state.lists) ≡ self.now.state }
        ensures valid { is_valid self.now.state ≡ true }
    {
        &self.books
    }

    /// Puts the rows of each book in order by their stamps, where they are not yet. The state stays as it was. Takes
    /// time in the number of these rows, with one logarithm in it.
    pub fn order_by_stamp(&mut self, alloc: Global) -> Result<(), Memory>
        ensures { self.new.state ≡ self.old.state }
    {
        for place in 0..self.books.len() {
            let Some(book) = self.books.get(place) else {
                break;
            };
            let number = book.number;
            self.make_room(alloc, number, 1, RowOrders::ByKeyAndStamp)?;
        }
        Ok(())
    }

    // The plan of a change, for which no room is made yet.
    fn plan_of(&self, alloc: Global, call: &Call) -> Result<Plan, Memory>
        requires change { is_question call.now ≡ false }
        requires fit { is_fit call.now ≡ true }
        ensures planned { IfOk result (λ plan. IsPlanned self.now.state call.now plan) }
        ensures valid { IfOk result (λ _. is_call call.now ≡ true) }
    {
        match call {
            Call::Learn {
                book,
                key,
                okuri,
                cand,
            } => {
                let okuri = okuri.as_ref();
                learning_is_call(key, okuri, cand);
                plan_learn(self, alloc, *book, key, okuri, cand)
            }
            Call::Purge { book, key, word } => {
                purge_is_call(key);
                plan_purge(self, alloc, *book, key, word)
            }
            Call::Annotate { book, key, cand } => {
                annotation_is_call(key, cand);
                plan_annotate(self, alloc, *book, key, cand)
            }
            Call::Share { who, books } => {
                share_is_call(books);
                Ok(plan_share(self, *who, books))
            }
            Call::Unlearn { learned } => {
                unlearning_is_call(learned);
                plan_unlearn(self, alloc, learned)
            }
            _ => unreachable!(),
        }
    }

    // Makes the room that a plan needs. The state stays as it was.
    fn make_room_for(&mut self, alloc: Global, plan: &Plan) -> Result<(), Memory>
        ensures state { self.new.state ≡ self.old.state }
        ensures room { OnOk result (HasRoom self.new plan.now) }
    {
        match plan {
            Plan::Still(_) => Ok(()),
            Plan::Move { book, .. } => self.make_room(alloc, *book, 1, RowOrders::ByKeyAndStamp),
            Plan::Lists { .. } => self.make_list_room(),
        }
    }

    // The rows of a book in order by their stamps, the oldest first, where they are so. Takes a logarithm in the number
    // of books, and no memory.
    pub(crate) fn rows_by_stamp(&self, number: u16) -> Option<&[AgedRow]>
        ensures { ForSome result (λ stamps. stamps.now ≡ oldest_first (rows_of self.now.state number)) }
    {
        match book_of(&self.books, number) {
            Some(book) => book.by_stamp(),
            None => None,
        }
    }

    // The rows of a book, ascending by their keys. Takes a logarithm in the number of books, and no memory.
    pub(crate) fn rows_of(&self, number: u16) -> &[KeptRow]
        ensures rows { result.now ≡ rows_of self.now.state number }
        ensures ascend { rows_ascend result.now ≡ true }
        ensures valid { is_valid self.now.state ≡ true }
    {
        match book_of(&self.books, number) {
            Some(book) => &book.rows,
            None => &[],
        }
    }

    // Makes room for so many changes of a book in these orders of its rows, and keeps no other. The state stays as it
    // was. Takes a logarithm in the number of books, time in the book's rows where its room grows, and with one
    // logarithm in their number where they are to be in order by their stamps and are not.
    pub(crate) fn make_room(
        &mut self,
        alloc: Global,
        number: u16,
        changes: usize,
        orders: RowOrders,
    ) -> Result<(), Memory>
        ensures state { self.new.state ≡ self.old.state }
        ensures room { OnOk result (changes ≤ spare_of self.new number) }
    {
        self.make_book(alloc, number)?;
        self.grow(alloc, number, changes, orders)
    }

    // Makes room for one list more. The state stays as it was.
    fn make_list_room(&mut self) -> Result<(), Memory>
        ensures state { self.new.state ≡ self.old.state }
        ensures room { OnOk result (0 < self.new.spare_lists) }
    {
        Ok(self.lists.reserve(1)?)
    }

    // Gives a typist this list of books, where there is room for one more.
    fn put_list(&mut self, who: u16, list: BookList)
        requires room { 0 < self.old.spare_lists }
        ensures state { self.new.state ≡ state_listed self.old.state who list }
        ensures spare { self.new.spare ≡ self.old.spare }
    {
        // What is counted tells that it is a list.
        let _count = list.len();
        put_list(&mut self.lists, who, list);
    }

    // Keeps a book of a number, where there is none yet.
    fn make_book(&mut self, alloc: Global, number: u16) -> Result<(), Memory>
        ensures state { self.new.state ≡ self.old.state }
        ensures there { OnOk result (keeps_book self.new number ≡ true) }
    {
        let place = place_of(&self.books, number);
        if !has_key_at(&self.books, place, &number) {
            self.books.insert(place, LearnedBook::new(alloc, number))?;
        }
        Ok(())
    }

    // Makes room for so many changes of a book that is kept.
    fn grow(
        &mut self,
        alloc: Global,
        number: u16,
        changes: usize,
        orders: RowOrders,
    ) -> Result<(), Memory>
        requires { keeps_book self.old number ≡ true }
        ensures state { self.new.state ≡ self.old.state }
        ensures room { OnOk result (changes ≤ spare_of self.new number) }
    {
        let place = place_of(&self.books, number);
        self.books[place].make_room(alloc, changes, orders)
    }

    // Gives the key of a row this row in a book that has room, and the book this count.
    fn set_row(&mut self, number: u16, count: u64, row: KeptRow)
        requires room { 0 < spare_of self.old number }
        requires count { 0 < count }
        requires valid { is_valid (state_with self.old.state number count row.key (Some row)) ≡ true }
        ensures state { self.new.state ≡ state_with self.old.state number count row.key (Some row) }
        ensures spare { (other : ℕ) → spare_of self.old other ≤ spare_of self.new other + 1 }
    {
        let place = place_of(&self.books, number);
        let book = &mut self.books[place];
        self.rows -= book.rows.len() as u128;
        book.set_row(count, row);
        self.rows += book.rows.len() as u128;
    }

    // Takes the row of a key out of a book that is kept, and gives the book this count.
    fn remove_row(&mut self, number: u16, count: u64, key: &RowKey)
        requires there { keeps_book self.old number ≡ true }
        requires count { 0 < count }
        requires valid { is_valid (state_with self.old.state number count key.now None) ≡ true }
        ensures state { self.new.state ≡ state_with self.old.state number count key.now None }
        ensures spare { (other : ℕ) → spare_of self.old other ≤ spare_of self.new other + 1 }
    {
        let place = place_of(&self.books, number);
        let book = &mut self.books[place];
        self.rows -= book.rows.len() as u128;
        book.remove_row(count, key);
        self.rows += book.rows.len() as u128;
    }

    // Gives a book that is kept this count.
    fn give_count(&mut self, number: u16, count: u64)
        requires there { keeps_book self.old number ≡ true }
        requires count { 0 < count }
        requires valid { is_valid (state_counted self.old.state number count) ≡ true }
        ensures { self.new.state ≡ state_counted self.old.state number count }
    {
        let place = place_of(&self.books, number);
        self.books[place].set_count(count);
    }
}
