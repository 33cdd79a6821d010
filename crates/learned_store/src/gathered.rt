ghost use Rattle.std.specs.Prelude.{◌≡◌, ◌≤◌, ◌&&◌, nat_le, ℕ, true, false, [], None, IfOk, IfSome, OnOk};
ghost use Rattle.skk_calls.specs.Rows.{RowKey as row_key};
ghost use Rattle.skk_calls.specs.States.{State, empty_state, count_of, row_at, shared_books, is_valid};
ghost use Rattle.learned_store.specs.declared.row_place.RowPlace.{RowPlace as place_value};
ghost use Rattle.learned_store.specs.Gathering.{AreKeyed, AreOf, Gathers, HasRows, IsAdded, IsAnnotated, IsRestamped};
ghost use Rattle.learned_store.specs.Gathering.{ListMap};
ghost use Rattle.learned_store.specs.Gathering.{IsTold, are_apart, count_behind, count_in, counts_on, list_among};
ghost use Rattle.learned_store.specs.Gathering.{list_behind};
ghost use Rattle.learned_store.specs.Gathering.{placed_entries, row_among, row_placed, takes_on};
ghost use Rattle.learned_store.specs.Reading.{put_with};
ghost use Rattle.learned_store.specs.declared.form.PayloadForm.{PayloadForm};
ghost use Rattle.learned_store.specs.Payloads.{CountsOn, Says, SaysNothing, counted_by, first_version, is_sound};
ghost use Rattle.learned_store.specs.Payloads.{may_follow, state_told, takes_note};

use crate::form::PayloadForm;
use crate::payload::{put_fields, read_form, read_key};
use crate::placed_row::PlacedRow;
use crate::row_place::RowPlace;
use crate::stamped_row::StampedRow;
use learn_index::Index;
use skk_calls::{BookList, Cand};
use skk_text::{Copies, Memory};
use std::alloc::Global;
use std::collections::{BTreeMap, HashMap};

// What records leave: the count of each book, the last list of each typist, and each row with its place, in no order.
// So a row is put or taken out at once, where a book of an index moves what stands behind it.
#[derive(Drop)]
pub(crate) struct Gathered {
    counts: BTreeMap<u16, u64>,
    lists: BTreeMap<u16, BookList>,
    rows: HashMap<RowPlace, StampedRow>,
}

impl Gathered {
    // What no records leave. Takes no memory.
    pub(crate) fn new(alloc: Global) -> Gathered
        ensures { Gathers result empty_state }
    {
        Gathered {
            counts: BTreeMap::new(alloc),
            lists: BTreeMap::new(alloc),
            rows: HashMap::new(alloc),
        }
    }

    // Adds what the payload of the next record of a file of a version says, where it says something. Takes time in its
    // length and a logarithm in the number of books or of lists, of a note in its row, and the memory of a row and of
    // its key once more where the row is not the one that its key has, but for the stamp. After an error what was
    // gathered is of no use.
    pub(crate) fn add(&mut self, alloc: Global, version: u8, payload: &[u8]) -> Result<bool, Memory>
        ensures said { IfOk result (λ is. is ≡ true → (state : State) → Gathers self.old state
            → IsAdded version state payload.now self.new) }
        ensures none { IfOk result (λ is. is ≡ false → (state : State) → Gathers self.old state
            → SaysNothing version state payload.now) }
    {
        if self.put_again(alloc, version, payload)? {
            return Ok(true);
        }
        match self.read(alloc, version, payload)? {
            Some(form) => self.tell(alloc, form),
            None => Ok(false),
        }
    }

    // Adds what a payload says that puts the row that its key has, but for the stamp: its line is known, and not read.
    fn put_again(&mut self, alloc: Global, version: u8, payload: &[u8]) -> Result<bool, Memory>
        ensures again { IfOk result (λ is. is ≡ true → (state : State) → Gathers self.old state
            → IsAdded version state payload.now self.new) }
        ensures same { IfOk result (λ is. is ≡ false → (state : State) → Gathers self.old state
            → Gathers self.new state) }
    {
        match put_fields(payload) {
            Some(fields) if version >= 1 => {
                self.put_row_again(alloc, fields.book, fields.count, fields.stamp, fields.row)
            }
            _ => Ok(false),
        }
    }

    // Adds a row of a stamp to a book, which then has a count, if it is the row that its key has, but for the stamp.
    // These are the bytes of its part and line.
    fn put_row_again(
        &mut self,
        alloc: Global,
        book: u16,
        count: u64,
        stamp: u64,
        bytes: &[u8],
    ) -> Result<bool, Memory>
        requires { (nat_le 1 stamp && nat_le stamp count) ≡ true }
        ensures again { IfOk result (λ is. is ≡ true → (state : State) (version : ℕ) → 1 ≤ version
            → Gathers self.old state → IsAdded version state (put_with book count stamp bytes.now) self.new) }
        ensures same { IfOk result (λ is. is ≡ false → (state : State) → Gathers self.old state
            → Gathers self.new state) }
    {
        if count < count_in(&self.counts, book) {
            return Ok(false);
        }
        let Some(place) = place_of(alloc, book, bytes)? else {
            return Ok(false);
        };
        if !restamp(alloc, &mut self.rows, &place, stamp, bytes)? {
            return Ok(false);
        }
        let _count = self.counts.insert(book, count)?;
        Ok(true)
    }

    // What the payload of the next record of a file of a version says, as far as no row has a say in it. Takes time in
    // its length.
    fn read(
        &self,
        alloc: Global,
        version: u8,
        payload: &[u8],
    ) -> Result<Option<PayloadForm>, Memory>
        ensures some { IfOk result (λ form. IfSome form (λ f. (state : State) → Gathers self.now state
            → may_follow state f ≡ true → Says version state payload.now f)) }
        ensures sound { IfOk result (λ form. IfSome form (λ f. (is_sound f ≡ true)
            × ((state : State) → Gathers self.now state → CountsOn state (counted_by f)))) }
        ensures only { IfOk result (λ form. IfSome form (λ f. (state : State) (other : PayloadForm)
            → Says version state payload.now other → other ≡ f)) }
        ensures none { IfOk result (λ form. form ≡ None → (state : State) → Gathers self.now state
            → SaysNothing version state payload.now) }
    {
        let Some(form) = read_form(alloc, payload)? else {
            return Ok(None);
        };
        if !self.comes_next(version, &form) {
            return Ok(None);
        }
        Ok(Some(form))
    }

    // Whether what a record of a file of a version says has its version and its count there.
    fn comes_next(&self, version: u8, form: &PayloadForm) -> bool
        ensures { result ≡ (nat_le (first_version form.now) version
            && counts_on self.now.counts (counted_by form.now)) }
    {
        form.first_version() <= version && counts_on(&self.counts, form.counted())
    }

    // Adds what a record says, where it may stand behind the others.
    fn tell(&mut self, alloc: Global, form: PayloadForm) -> Result<bool, Memory>
        ensures told { IfOk result (λ is. is ≡ true → (state : State) → Gathers self.old state
            → is_sound form ≡ true → CountsOn state (counted_by form)
            → (may_follow state form ≡ true) × Gathers self.new (state_told state form)) }
        ensures none { IfOk result (λ is. is ≡ false → (state : State) → Gathers self.old state
            → may_follow state form ≡ false) }
    {
        let counted = form.counted();
        tell_list(&mut self.lists, &form)?;
        if !tell_row(alloc, &mut self.rows, form)? {
            return Ok(false);
        }
        tell_count(&mut self.counts, counted)?;
        Ok(true)
    }

    // The index of what was gathered. Takes time in the number of rows and lists, with one logarithm in it, and beside
    // the index, while the rows are sorted, the memory of rows and places without what they hold, which is moved and
    // not copied.
    pub(crate) fn into_index(self, alloc: Global) -> Result<Index, Memory>
        requires { (state : State) × Gathers self state }
        ensures { IfOk result (λ index. (state : State) → Gathers self state → index.state ≡ state) }
    {
        let Gathered {
            counts,
            lists,
            rows,
        } = self;
        let rows = in_order(alloc, rows)?;
        let mut index = index_of(alloc, &counts, rows)?;
        give_counts(&mut index, alloc, counts)?;
        give_lists(&mut index, lists)?;
        index.order_by_stamp(alloc)?;
        Ok(index)
    }
}

// The count of a book, 0 where there is none.
fn count_in(counts: &BTreeMap<u16, u64>, book: u16) -> u64
    ensures { result ≡ count_in counts.now book }
{
    counts.get(&book).copied().unwrap_or(0)
}

// Whether a count that is given to a book, where there is one, is not below the one that the book has.
fn counts_on(counts: &BTreeMap<u16, u64>, counted: Option<(u16, u64)>) -> bool
    ensures { result ≡ counts_on counts.now counted }
{
    match counted {
        Some((book, count)) => count_in(counts, book) <= count,
        None => true,
    }
}

// The place in a book that what stands before the first space of a line has, whose bytes stand behind that of its part.
fn place_of(alloc: Global, book: u16, bytes: &[u8]) -> Result<Option<RowPlace>, Memory>
    ensures { IfOk result (λ place. IfSome place (λ p. p.book ≡ book)) }
{
    let Some(end) = bytes.iter().position(|byte| *byte == b' ') else {
        return Ok(None);
    };
    match read_key(alloc, &bytes[..end])? {
        Some(key) => Ok(Some(RowPlace { book, key })),
        None => Ok(None),
    }
}

// Gives the row of a place another stamp, where these are the bytes of the row's part and line.
fn restamp(
    alloc: Global,
    rows: &mut HashMap<RowPlace, StampedRow>,
    place: &RowPlace,
    stamp: u64,
    bytes: &[u8],
) -> Result<bool, Memory>
    ensures restamped { IfOk result (λ is. is ≡ true
        → IsRestamped (row_among rows.old) (row_among rows.new) place.now stamp bytes.now) }
    ensures same { IfOk result (λ is. is ≡ false
        → (other : place_value) → row_among rows.new other ≡ row_among rows.old other) }
{
    let Some(row) = rows.get_mut(place) else {
        return Ok(false);
    };
    if !row.is_spelled(alloc, bytes)? {
        return Ok(false);
    }
    row.restamp(stamp);
    Ok(true)
}

// Gives a book the count that a record gives it, where it speaks of a book.
fn tell_count(counts: &mut BTreeMap<u16, u64>, counted: Option<(u16, u64)>) -> Result<(), Memory>
    ensures { OnOk result ((number : ℕ) → count_in counts.new number
        ≡ count_behind counted number (count_in counts.old number)) }
{
    if let Some((book, count)) = counted {
        let _count = counts.insert(book, count)?;
    }
    Ok(())
}

// Gives a typist the list of books that a record gives, where it speaks of one.
fn tell_list(lists: &mut BTreeMap<u16, BookList>, form: &PayloadForm) -> Result<(), Memory>
    ensures { OnOk result ((typist : ℕ) → list_among lists.new typist
        ≡ list_behind form.now typist (list_among lists.old typist)) }
{
    if let PayloadForm::SetList { typist, books } = form {
        let _books = lists.insert(*typist, books.copied())?;
    }
    Ok(())
}

// Changes the rows as a record tells, where they take that on.
fn tell_row(
    alloc: Global,
    rows: &mut HashMap<RowPlace, StampedRow>,
    form: PayloadForm,
) -> Result<bool, Memory>
    ensures told { IfOk result (λ is. is ≡ true → AreKeyed (row_among rows.old)
        → (takes_on (row_among rows.old) form ≡ true) × IsTold form (row_among rows.old) (row_among rows.new)) }
    ensures none { IfOk result (λ is. is ≡ false → takes_on (row_among rows.old) form ≡ false) }
{
    match form {
        PayloadForm::Put { book, row, .. } => {
            let key = row.key().copy(alloc)?;
            let row = StampedRow::new(alloc, row)?;
            let _row = rows.insert(RowPlace { book, key }, row)?;
            Ok(true)
        }
        PayloadForm::Drop { book, key, .. } => {
            let _row = rows.remove(&RowPlace { book, key });
            Ok(true)
        }
        PayloadForm::SetCount { .. } => Ok(true),
        PayloadForm::SetList { .. } => Ok(true),
        PayloadForm::Note {
            book,
            count,
            key,
            cand,
        } => annotate(alloc, rows, &RowPlace { book, key }, &cand, count),
    }
}

// Gives a candidate of the row of a place its note, and the row a stamp, where there is a row and its line is not too
// long then.
fn annotate(
    alloc: Global,
    rows: &mut HashMap<RowPlace, StampedRow>,
    place: &RowPlace,
    cand: &Cand,
    stamp: u64,
) -> Result<bool, Memory>
    ensures annotated { IfOk result (λ is. is ≡ true
        → IsAnnotated (row_among rows.old) (row_among rows.new) place.now cand.now stamp) }
    ensures none { IfOk result (λ is. is ≡ false
        → takes_note (row_among rows.old place.now) cand.now stamp ≡ false) }
{
    match rows.get_mut(place) {
        Some(row) => row.annotate(alloc, cand, stamp),
        None => Ok(false),
    }
}

// The rows in the order of their places, which are sorted once.
fn in_order(alloc: Global, rows: HashMap<RowPlace, StampedRow>) -> Result<Vec<PlacedRow>, Memory>
    ensures apart { IfOk result (λ placed. are_apart placed.items) }
    ensures rows { IfOk result (λ placed. (place : place_value)
        → row_placed placed.items place ≡ row_among rows place) }
{
    let mut placed = placed_rows(alloc, rows)?;
    placed.sort_unstable_by(|row, other| row.order(other));
    Ok(placed)
}

// The rows with their places, as they lie.
fn placed_rows(alloc: Global, rows: HashMap<RowPlace, StampedRow>) -> Result<Vec<PlacedRow>, Memory>
    ensures apart { IfOk result (λ placed. are_apart placed.items) }
    ensures rows { IfOk result (λ placed. placed_entries placed.items ≡ rows.entries) }
{
    let mut placed = Vec::with_capacity(alloc, rows.len())?;
    for (place, row) in rows {
        placed.push(PlacedRow::new(place, row))?;
    }
    Ok(placed)
}

// An index of rows, each of them put with the last count of its book. They are put in order, so each comes to the end
// of its book.
fn index_of(
    alloc: Global,
    counts: &BTreeMap<u16, u64>,
    rows: Vec<PlacedRow>,
) -> Result<Index, Memory>
    requires apart { are_apart rows.items }
    requires state { (state : State) × (lists : ListMap) × AreOf state counts.now lists (row_placed rows.items) }
    ensures { IfOk result (λ index. (state : State) (lists : ListMap)
        → AreOf state counts.now lists (row_placed rows.items) → HasRows state index.state) }
{
    let mut index = Index::new(alloc);
    for placed in rows {
        let PlacedRow { place, row, .. } = placed;
        let RowPlace { book, key } = place;
        let count = count_in(counts, book);
        let row = row.into_kept(alloc, key)?;
        index.put(alloc, book, count, row)?;
    }
    Ok(index)
}

// Gives each book its count.
fn give_counts(
    index: &mut Index,
    alloc: Global,
    mut counts: BTreeMap<u16, u64>,
) -> Result<(), Memory>
    requires valid { is_valid index.old.state ≡ true }
    requires below { (number : ℕ) → count_of index.old.state number ≤ count_in counts number }
    ensures valid { OnOk result (is_valid index.new.state ≡ true) }
    ensures counts { OnOk result ((number : ℕ) → count_of index.new.state number ≡ count_in counts number) }
    ensures rows { OnOk result ((number : ℕ) (key : row_key)
        → row_at index.new.state number key ≡ row_at index.old.state number key) }
    ensures lists { OnOk result (index.new.state.lists ≡ index.old.state.lists) }
{
    while let Some((book, count)) = counts.pop_first() {
        index.set_count(alloc, book, count)?;
    }
    Ok(())
}

// Gives each typist a list of books, where no typist has one yet. They come in order, so each comes behind those
// before.
fn give_lists(index: &mut Index, mut lists: BTreeMap<u16, BookList>) -> Result<(), Memory>
    requires valid { is_valid index.old.state ≡ true }
    requires none { index.old.state.lists ≡ [] }
    ensures valid { OnOk result (is_valid index.new.state ≡ true) }
    ensures lists { OnOk result ((typist : ℕ) → shared_books index.new.state typist ≡ list_among lists typist) }
    ensures books { OnOk result (index.new.state.books ≡ index.old.state.books) }
{
    while let Some((typist, books)) = lists.pop_first() {
        // What is counted tells that they are a list.
        let _count = books.len();
        index.set_list(typist, &books)?;
    }
    Ok(())
}
