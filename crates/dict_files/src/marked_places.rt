ghost use Rattle.std.specs.Prelude.{◌≡◌, All, IfOk, encode_utf8_all};
ghost use Rattle.dict_files.specs.FilePlaces.{AreMarks, IsReadable, reading_at};

use crate::place::{Place, reading_at};
use simdutf8::basic::from_utf8;
use skk_text::{Memory, Text, Texts};
use std::alloc::Global;

/// One of so many entries has a mark.
pub const MARK_STEP: usize = 16;

/// The places of entries in order by their readings, and beside them marks, by which a search begins.
#[derive(Drop)]
pub struct MarkedPlaces {
    pub places: Vec<Place>,
    /// The readings of the first of the entries and of every sixteenth behind it.
    pub marks: Texts,
}

/// Places of entries in order, which are moved, with their marks. Takes time for a copy of one reading in sixteen.
pub fn marked(alloc: Global, bytes: &[u8], places: Vec<Place>) -> Result<MarkedPlaces, Memory>
    requires { All (IsReadable bytes.now) places.items }
    ensures places { IfOk result (λ marked. marked.places.items ≡ places.items) }
    ensures marks { IfOk result (λ marked. AreMarks bytes.now marked.places.items marked.marks) }
{
    let marks = marks_of(alloc, bytes, &places)?;
    Ok(MarkedPlaces { places, marks })
}

/// The reading that a mark is.
pub fn marked_reading(mark: &Text) -> &[u8]
    ensures { result.now ≡ encode_utf8_all mark.now }
{
    mark.as_str().as_bytes()
}

// The marks of entries. They take no more room than they need.
fn marks_of(alloc: Global, bytes: &[u8], places: &[Place]) -> Result<Texts, Memory>
    requires { All (IsReadable bytes.now) places.now }
    ensures { IfOk result (AreMarks bytes.now places.now) }
{
    let mut marks = Vec::with_capacity(alloc, places.len().div_ceil(MARK_STEP))?;
    for at in (0..places.len()).step_by(MARK_STEP) {
        marks.push(mark(alloc, bytes, &places[at])?)?;
    }
    Ok(Texts::of(marks))
}

// The reading of an entry as a text of its own.
fn mark(alloc: Global, bytes: &[u8], place: &Place) -> Result<Text, Memory>
    requires { IsReadable bytes.now place.now }
    ensures { IfOk result (λ mark. encode_utf8_all mark ≡ reading_at bytes.now place.now) }
{
    let Ok(reading) = from_utf8(reading_at(bytes, place)) else {
        unreachable!()
    };
    Text::from_str(alloc, reading)
}
