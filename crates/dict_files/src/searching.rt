ghost use Rattle.std.specs.Prelude.{◌≡◌, ◌*◌, ◌-◌, min, true, not, All, IfOk};
ghost use Rattle.std.specs.List.{filter, list_all};
ghost use Rattle.dict_files.specs.FilePlaces.{AreMarks, IsValid, first_row, has_reading, is_above, is_behind, is_below};
ghost use Rattle.dict_files.specs.FilePlaces.{is_passed, rise};

use crate::marked_places::{MARK_STEP, marked_reading};
use crate::place::{Place, reading_at, row_at};
use ordered_lists::order_bytes;
use skk_calls::{FoundRow, Part};
use skk_text::{Memory, Text};
use std::alloc::Global;
use std::ops::Range;

/// The first row that entries with a reading spell, among entries in order with their marks. Takes a logarithm in their
/// number, and time in the lines with that reading up to the first that spells a row.
pub fn row_of(
    alloc: Global,
    part: Part,
    bytes: &[u8],
    places: &[Place],
    marks: &[Text],
    reading: &[u8],
) -> Result<Option<FoundRow>, Memory>
    requires valid { All (IsValid bytes.now) places.now }
    requires rise { rise bytes.now places.now ≡ true }
    requires marks { AreMarks bytes.now places.now marks.now }
    ensures { IfOk result
        (λ row. row ≡ first_row part bytes.now (filter (has_reading bytes.now reading.now) places.now)) }
{
    first_row(
        alloc,
        part,
        bytes,
        behind(bytes, places, marks, reading, false),
        reading,
    )
}

/// The first row that entries spell which stand at the front of some in order and have their least reading. Takes time
/// in their lines up to the first that spells a row.
pub fn first_row(
    alloc: Global,
    part: Part,
    bytes: &[u8],
    places: &[Place],
    reading: &[u8],
) -> Result<Option<FoundRow>, Memory>
    requires valid { All (IsValid bytes.now) places.now }
    requires rise { rise bytes.now places.now ≡ true }
    requires least { list_all (λ place. not (is_below bytes.now reading.now place)) places.now ≡ true }
    ensures { IfOk result
        (λ row. row ≡ first_row part bytes.now (filter (has_reading bytes.now reading.now) places.now)) }
{
    for place in places {
        if reading_at(bytes, place) != reading {
            return Ok(None);
        }
        if let Some(row) = row_at(alloc, part, bytes, place)? {
            return Ok(Some(row));
        }
    }
    Ok(None)
}

/// The entries with a greater reading, among entries in order. Takes a logarithm in their number, and no memory.
pub fn behind_equal<'p>(bytes: &[u8], places: &'p [Place], reading: &[u8]) -> &'p [Place]
    requires { rise bytes.now places.now ≡ true }
    ensures { result.now ≡ filter (is_above bytes.now reading.now) places.now }
{
    let front = places.partition_point(|place| order_bytes(
        reading_at(bytes, place),
        reading,
    ).is_le());
    &places[front..]
}

/// The same, where the entries come with their marks: their readings are read in a block of less than sixteen alone.
pub fn marked_behind_equal<'p>(
    bytes: &[u8],
    places: &'p [Place],
    marks: &[Text],
    reading: &[u8],
) -> &'p [Place]
    requires rise { rise bytes.now places.now ≡ true }
    requires marks { AreMarks bytes.now places.now marks.now }
    ensures { result.now ≡ filter (is_above bytes.now reading.now) places.now }
{
    behind(bytes, places, marks, reading, true)
}

// The entries behind those with a lesser reading, or where equal ones are to be passed too with a greater one, among
// entries in order with their marks.
fn behind<'p>(
    bytes: &[u8],
    places: &'p [Place],
    marks: &[Text],
    reading: &[u8],
    equal: bool,
) -> &'p [Place]
    requires rise { rise bytes.now places.now ≡ true }
    requires marks { AreMarks bytes.now places.now marks.now }
    ensures { result.now ≡ filter (is_behind equal bytes.now reading.now) places.now }
{
    let marked = marks.partition_point(|mark| is_passed(marked_reading(mark), reading, equal));
    let block = block_behind(marked, places.len());
    let front = places[block.start..block.end].partition_point(|place| is_passed(
        reading_at(bytes, place),
        reading,
        equal,
    ));
    &places[block.start + front..]
}

// Whether a reading is passed on the way to another: it is less, or where equal ones are passed too not greater.
fn is_passed(reading: &[u8], other: &[u8], equal: bool) -> bool
    ensures { result ≡ is_passed equal other.now reading.now }
{
    let order = order_bytes(reading, other);
    if equal { order.is_le() } else { order.is_lt() }
}

// Where a front of so many entries in order may end, of which so many marks are: behind the entry of the last of these,
// and before that of the next one, if there is one.
fn block_behind(marked: usize, len: usize) -> Range<usize>
    ensures end { result.end ≡ min (marked * 16) len }
    ensures start { result.start ≡ result.end - 15 }
{
    let end = marked.saturating_mul(MARK_STEP).min(len);
    end.saturating_sub(MARK_STEP - 1)..end
}
