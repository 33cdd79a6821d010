ghost use Rattle.std.specs.Prelude.{◌≡◌, ◌<◌, ◌≤◌, ◌+◌, ◌++◌, ◌∷◌, [], List, ℕ, length, position, IfOk, IfSome};
ghost use Rattle.std.specs.Str.{chars};
ghost use Rattle.exact_readers.specs.Lines.{StandsAt};
ghost use Rattle.dict_format.specs.FileLines.{FileEntry, file_limit};
ghost use Rattle.dict_format.specs.LeftLines.{entries_at};
ghost use Rattle.dict_format.specs.Reading.{is_space};
ghost use Rattle.dict_files.specs.FilePlaces.{IsFile};
ghost use Rattle.dict_files.specs.Scanning.{AreOfFile};

use crate::marked_places::marked;
use crate::part_places::{MarkedParts, PartPlaces};
use crate::place::Place;
use crate::sorting::sort_places;
use dict_format::{FileLine, FileLines, LineKind, files_list_one_thing, lines_spell_one_row};
use skk_calls::Part;
use skk_text::Memory;
use std::alloc::Global;

/// The places of the entries of a text, those of each part in order by their readings, with their marks. Takes time in
/// the length of the text where the readings of a part ascend or descend, else with one logarithm in the number of
/// entries.
pub fn places_of(alloc: Global, text: &str) -> Result<MarkedParts, Memory>
    requires { length text.now ≤ file_limit }
    ensures { IfOk result (IsFile text.now) }
{
    lines_spell_one_row();
    files_list_one_thing();
    let PartPlaces { mut nasi, mut ari } = places_in_text(alloc, text)?;
    let bytes = text.as_bytes();
    sort_places(bytes, &mut nasi)?;
    sort_places(bytes, &mut ari)?;
    let nasi = marked(alloc, bytes, nasi)?;
    let ari = marked(alloc, bytes, ari)?;
    Ok(MarkedParts { nasi, ari })
}

// The places of the entries of a text, as they come.
fn places_in_text(alloc: Global, text: &str) -> Result<PartPlaces, Memory>
    requires { length text.now ≤ file_limit }
    ensures { IfOk result (λ places. AreOfFile text.now places []) }
{
    let mut places = PartPlaces::new(alloc);
    let mut lines = FileLines::of(text);
    while let Some(line) = lines.next_line() {
        places = with_line(places, &line)?;
    }
    Ok(places)
}

// Places with that of a line, where it is an entry.
fn with_line(places: PartPlaces, line: &FileLine<'_>) -> Result<PartPlaces, Memory>
    requires { line.now.start + length line.now.text.now ≤ file_limit }
    ensures { IfOk result (λ after. (text : List ℕ) (left : List FileEntry)
        → StandsAt text line.now.start line.now.text.now → AreOfFile text places (entries_at line.now ++ left)
        → AreOfFile text after left) }
{
    match line.kind {
        LineKind::Entry => with_entry(places, line.part, line.start, line.text),
        LineKind::Opening(_) | LineKind::Skipped => Ok(places),
    }
}

// Places with that of an entry of a part, whose line begins at this byte, where it has a reading.
fn with_entry(
    places: PartPlaces,
    part: Part,
    start: usize,
    line: &str,
) -> Result<PartPlaces, Memory>
    requires { start + length line.now ≤ file_limit }
    ensures { IfOk result (λ after. (text : List ℕ) (number : ℕ) (left : List FileEntry) → StandsAt text start line.now
        → AreOfFile text places (record { number = number; part = part; text = chars line.now } ∷ left)
        → AreOfFile text after left) }
{
    lines_spell_one_row();
    let Some(reading) = first_space(line.as_bytes()) else {
        return Ok(places);
    };
    let place = Place {
        start: start as u32,
        reading: reading as u32,
        line: line.len() as u32,
    };
    places.with(part, place)
}

// Where the first space of bytes stands.
fn first_space(bytes: &[u8]) -> Option<usize>
    ensures value { result ≡ position is_space bytes.now }
    ensures within { IfSome result (λ at. at < length bytes.now) }
{
    bytes.iter().position(|byte| *byte == b' ')
}
