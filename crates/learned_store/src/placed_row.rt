ghost use Rattle.std.specs.Prelude.{◌≡◌};

use crate::row_place::RowPlace;
use crate::stamped_row::StampedRow;
use crate::writing::part_byte;
use skk_calls::RowKey;
use std::cmp::Ordering;

// How many bytes of a reading stand in a head.
const HEAD_LEN: usize = 15;

// A row with its place, and the head of the place's key, which orders most places without a look at their readings.
#[derive(Debug, Drop)]
pub(crate) struct PlacedRow {
    head: u128,
    pub(crate) place: RowPlace,
    pub(crate) row: StampedRow,
}

impl PlacedRow {
    // A row with its place.
    pub(crate) fn new(place: RowPlace, row: StampedRow) -> PlacedRow
        ensures place { result.place ≡ place }
        ensures row { result.row ≡ row }
    {
        PlacedRow {
            head: head_of(&place.key),
            place,
            row,
        }
    }

    // Which of two places comes first.
    pub(crate) fn order(&self, other: &PlacedRow) -> Ordering {
        match self.place.book.cmp(&other.place.book) {
            Ordering::Equal => self.key_order(other),
            order => order,
        }
    }

    // Which of two keys is the lesser.
    fn key_order(&self, other: &PlacedRow) -> Ordering {
        match self.head.cmp(&other.head) {
            Ordering::Equal => self.place.key.order(&other.place.key),
            order => order,
        }
    }
}

// The part of a key and the first bytes of its reading, as one number: a lesser key has no greater one.
fn head_of(key: &RowKey) -> u128 {
    let mut head = [0; HEAD_LEN + 1];
    head[0] = part_byte(key.part());
    let reading = key.reading().as_str().as_bytes();
    let len = reading.len().min(HEAD_LEN);
    head[1..len + 1].copy_from_slice(&reading[..len]);
    u128::from_be_bytes(head)
}
