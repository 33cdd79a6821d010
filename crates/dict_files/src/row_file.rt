ghost use Rattle.std.specs.Prelude.{◌≡◌, ◌∷◌, ◌++◌, [], if◌then◌else◌, true, IfOk, OnOk};
ghost use Rattle.std.specs.List.{filter, list_all};
ghost use Rattle.ordered_lists.specs.Orders.{HasAt};
ghost use Rattle.skk_calls.specs.Rows.{is_row};
ghost use Rattle.dict_files.specs.Walked.{is_walked};

use ordered_lists::Places;
use skk_calls::{Book, Part, Row, RowKey};
use skk_text::{Memory, Text};
use std::alloc::Global;
use std::marker::Model;

/// The rows of a dictionary file in memory, with an index of them and one of those that a walk comes by.
#[derive(Drop)]
pub struct RowFile {
    book: Book,
    by_key: Places,
    walked: Places,
}

impl Model for RowFile {
    ghost use Rattle.std.specs.Prelude.{◌≡◌, true, List};
    ghost use Rattle.skk_calls.specs.Rows.{Row};
    ghost use Rattle.dict_files.specs.Files.{is_file};
    ghost use Rattle.dict_files.specs.Walked.{IsFileIndex};

    ghost Value = { List Row };

    ghost view = { λ f. f.book };

    ghost invariant = { λ f. IsFileIndex f.book f.by_key f.walked × (is_file f.book ≡ true) };
}

impl RowFile {
    ghost use Rattle.std.specs.Prelude.{◌≡◌, true, IfOk, OnOk};
    ghost use Rattle.std.specs.Option.{option_copied};
    ghost use Rattle.skk_calls.specs.States.{row_in};
    ghost use Rattle.skk_calls.specs.Walks.{next_above};
    ghost use Rattle.dict_files.specs.Files.{is_file};
    ghost use Rattle.dict_files.specs.Walked.{walked_readings};

    /// The file with the rows of a book, which are moved. Takes time in their number, and with one logarithm in it
    /// where they are not in order.
    pub fn of_book(alloc: Global, book: Book) -> Result<RowFile, Memory>
        ensures file { IfOk result (λ file. file ≡ book) }
        ensures valid { OnOk result (is_file book ≡ true) }
    {
        let rows = book.rows().as_slice();
        let by_key = Places::of(alloc, rows)?;
        let mut walked = walked_places(alloc, rows)?;
        walked.sort(rows);
        Ok(RowFile {
            book,
            by_key,
            walked,
        })
    }

    /// The row of a key, if there is one. Takes a logarithm in the number of rows, and no memory.
    pub fn row_of(&self, key: &RowKey) -> Option<&Row>
        ensures { option_copied result ≡ row_in key.now self.now }
    {
        self.by_key.item_of(self.book.rows().as_slice(), key)
    }

    /// The least reading of a walk that is greater than another. Takes a logarithm in the number of rows, and no
    /// memory.
    pub fn reading_above(&self, low: &Text) -> Option<&Text>
        ensures { option_copied result ≡ next_above (walked_readings self.now) low.now }
    {
        match self.walked.item_above(self.book.rows().as_slice(), low) {
            Some(row) => Some(row.key().reading()),
            None => None,
        }
    }
}

// The places of the rows that a walk comes by.
fn walked_places(alloc: Global, rows: &[Row]) -> Result<Places, Memory>
    ensures places { IfOk result (λ places. HasAt rows.now places (filter is_walked rows.now)) }
    ensures rows { OnOk result (list_all is_row rows.now ≡ true) }
{
    let mut places = Places::new(alloc);
    for (place, row) in rows.iter().enumerate() {
        add_walked(&mut places, place, row)?;
    }
    Ok(places)
}

// Adds the place of a row, where a walk comes by it.
fn add_walked(places: &mut Places, place: usize, row: &Row) -> Result<(), Memory>
    ensures places { OnOk result
        (places.new ≡ (if is_walked row.now then places.old ++ place ∷ [] else places.old)) }
    ensures valid { is_row row.now ≡ true }
{
    if is_walked(row) {
        places.push(place)?;
    }
    Ok(())
}

// Whether a walk comes by a row.
fn is_walked(row: &Row) -> bool
    ensures value { result ≡ is_walked row.now }
    ensures valid { is_row row.now ≡ true }
{
    row.key().part() == Part::Nasi && !row.cands().is_empty()
}
