ghost use Rattle.std.specs.Prelude.{◌≡◌, ◌↔◌, ◌∷◌, true, All, List, IfOk, Some, Err};
ghost use Rattle.std.specs.List.{filter};
ghost use Rattle.skk_calls.specs.declared.part.Part.TheVariants.{Nasi};
ghost use Rattle.skk_text.specs.TextFiles.{IsTextFault, IsTextWithin};
ghost use Rattle.skk_text.specs.declared.text_file.TextFault.{TextFault};
ghost use Rattle.dict_format.specs.FileLines.{file_limit};
ghost use Rattle.dict_files.specs.FilePlaces.{IsFile, IsValid, first_row, has_reading, reading_at, rise};
ghost use Rattle.dict_files.specs.Walked.{walked_reading};
ghost use Rattle.dict_files.specs.declared.place.Place.{Place as PlaceValue};

use crate::part_places::MarkedParts;
use crate::place::{Place, plain_at, reading_at};
use crate::scanning::places_of;
use crate::searching::{behind_equal, first_row, marked_behind_equal, row_of};
use dict_format::{FILE_LIMIT, FileFault, files_list_one_thing};
use skk_calls::{FoundRow, Part, Row, RowKey};
use skk_text::{Bytes, Copies, Memory, Sequence, Text, text_within};
use std::alloc::Global;
use std::marker::Model;

/// A dictionary file as it lies. A line is read when its row is asked for: the first line of its part with a reading
/// that spells a row is the one that counts. Takes the room of the file, 12 bytes for each entry, and 2.5 bytes more
/// for each, which are a copy of one reading in sixteen, by which a search begins.
#[derive(Drop)]
pub struct DictionaryFile {
    bytes: Bytes,
    places: MarkedParts,
}

/// Dictionary files in order.
pub type DictionaryFiles = Sequence<DictionaryFile>;

impl Model for DictionaryFile {
    ghost use Rattle.std.specs.Prelude.{List};
    ghost use Rattle.skk_calls.specs.Rows.{Row};
    ghost use Rattle.dict_files.specs.FilePlaces.{IsFile, file_rows};

    ghost Value = { List Row };

    ghost view = { λ f. file_rows f.bytes };

    ghost invariant = { λ f. IsFile f.bytes f.places };
}

impl DictionaryFile {
    ghost use Rattle.std.specs.Prelude.{◌≡◌, ◌↔◌, true, List, IfOk, Ok, Err};
    ghost use Rattle.skk_text.specs.Results.{AnswersUnless};
    ghost use Rattle.skk_text.specs.TextFiles.{IsTextFault};
    ghost use Rattle.skk_text.specs.declared.text_file.TextFault.{TextFault};
    ghost use Rattle.skk_calls.specs.Rows.{Row as RowValue};
    ghost use Rattle.skk_calls.specs.States.{row_in};
    ghost use Rattle.skk_calls.specs.Walks.{next_above};
    ghost use Rattle.dict_format.specs.FileLines.{ListsRows, file_limit};
    ghost use Rattle.dict_files.specs.Files.{is_file};
    ghost use Rattle.dict_files.specs.Walked.{walked_readings};

    /// The file of these bytes, which are moved. Takes time in their number where the readings of each part ascend or
    /// descend, else with one logarithm in the number of entries; of sixteen readings one is copied.
    pub fn open(alloc: Global, bytes: Bytes) -> Result<DictionaryFile, FileFault>
        ensures ok { IfOk result (ListsRows bytes) }
        ensures only { (rows : List RowValue) → ListsRows bytes rows
            → AnswersUnless FileFault.Memory result (Ok rows) }
        ensures no_text { (fault : TextFault)
            → (result ≡ Err (FileFault.NoText fault)) ↔ IsTextFault file_limit bytes fault }
    {
        files_list_one_thing();
        match places_in(alloc, bytes.as_slice()) {
            Ok(places) => Ok(DictionaryFile { bytes, places }),
            Err(fault) => Err(fault),
        }
    }

    /// The bytes, which list the rows.
    pub fn bytes(&self) -> &Bytes
        ensures lists { ListsRows result.now self.now }
        ensures valid { is_file self.now ≡ true }
    {
        &self.bytes
    }

    /// The row of a key, if there is one. Takes a logarithm in the number of entries, and time in the lines with its
    /// reading up to the first that spells a row.
    pub fn row_of(&self, alloc: Global, key: &RowKey) -> Result<Option<FoundRow>, Memory>
        ensures { IfOk result (λ row. row ≡ row_in key.now self.now) }
    {
        let part = key.part();
        let marked = self.places.of(part);
        row_of(
            alloc,
            part,
            self.bytes.as_slice(),
            &marked.places,
            marked.marks.as_slice(),
            key.reading().as_str().as_bytes(),
        )
    }

    /// The least reading of a walk that is greater than another. Takes a logarithm in the number of entries, and time
    /// in the lines between the two.
    pub fn reading_above(&self, alloc: Global, low: &Text) -> Result<Option<Text>, Memory>
        ensures { IfOk result (λ next. next ≡ next_above (walked_readings self.now) low.now) }
    {
        let bytes = self.bytes.as_slice();
        let nasi = self.places.of(Part::Nasi);
        let mut places = marked_behind_equal(
            bytes,
            &nasi.places,
            nasi.marks.as_slice(),
            low.as_str().as_bytes(),
        );
        while let Some((place, later)) = places.split_first() {
            if let Some(next) = walked_at(alloc, bytes, place, places)? {
                return Ok(Some(next));
            }
            places = behind_equal(bytes, later, reading_at(bytes, place));
        }
        Ok(None)
    }
}

// The places of the entries of a file.
fn places_in(alloc: Global, bytes: &[u8]) -> Result<MarkedParts, FileFault>
    ensures ok { IfOk result (IsFile bytes.now) }
    ensures within { IfOk result (λ _. IsTextWithin file_limit bytes.now) }
    ensures no_text { (fault : TextFault)
        → (result ≡ Err (FileFault.NoText fault)) ↔ IsTextFault file_limit bytes.now fault }
{
    match text_within(bytes, FILE_LIMIT) {
        Ok(text) => match places_of(alloc, text) {
            Ok(places) => Ok(places),
            Err(Memory) => Err(FileFault::Memory),
        },
        Err(fault) => Err(FileFault::NoText(fault)),
    }
}

// The reading of the first of entries in order, where its row has a candidate. Takes no more than its line where that
// is plain.
fn walked_at(
    alloc: Global,
    bytes: &[u8],
    place: &Place,
    places: &[Place],
) -> Result<Option<Text>, Memory>
    requires first { (later : List PlaceValue) × (places.now ≡ place.now ∷ later) }
    requires valid { All (IsValid bytes.now) places.now }
    requires rise { rise bytes.now places.now ≡ true }
    ensures { IfOk result (λ next. next ≡ walked_reading
        (first_row Nasi bytes.now (filter (has_reading bytes.now (reading_at bytes.now place.now)) places.now))) }
{
    if let Some(reading) = plain_at(bytes, place) {
        return Ok(Some(Text::from_str(alloc, reading)?));
    }
    match first_row(alloc, Part::Nasi, bytes, places, reading_at(bytes, place))? {
        Some(row) => walked_reading(alloc, row.into_row(alloc)?),
        None => Ok(None),
    }
}

// The reading of a row that has a candidate.
fn walked_reading(alloc: Global, row: Row) -> Result<Option<Text>, Memory>
    ensures { IfOk result (λ reading. reading ≡ walked_reading (Some row)) }
{
    if row.cands().is_empty() {
        return Ok(None);
    }
    Ok(Some(row.key().reading().copy(alloc)?))
}
