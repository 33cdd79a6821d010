ghost use Rattle.std.specs.Prelude.{◌≡◌, Some, IfOk, IfSome};
ghost use Rattle.std.specs.Option.{option_map};
ghost use Rattle.std.specs.Str.{IsUtf8, chars};
ghost use Rattle.skk_calls.specs.declared.part.Part.TheVariants.{Nasi};
ghost use Rattle.dict_files.specs.FilePlaces.{line_at, piece_at, reading_at, row_at};
ghost use Rattle.dict_files.specs.PlainLines.{plain_reading};
ghost use Rattle.dict_files.specs.Walked.{walked_reading};

use crate::line_rows::found_row_of_line;
use crate::plain_lines::plain_reading;
use simdutf8::basic::from_utf8;
use skk_calls::{FoundRow, Part};
use skk_text::Memory;
use std::alloc::Global;

/// Where an entry stands in the bytes of a file.
#[derive(Clone, Copy, Debug)]
pub struct Place {
    /// Where its line begins.
    pub start: u32,
    /// How many bytes its reading has.
    pub reading: u32,
    /// How many bytes are read of its line.
    pub line: u32,
}

/// The reading of an entry.
pub fn reading_at<'b>(bytes: &'b [u8], place: &Place) -> &'b [u8]
    ensures { result.now ≡ reading_at bytes.now place.now }
{
    piece_at(bytes, place.start, place.reading)
}

/// The row that an entry of a part spells, if it spells one. Takes time in the length of its line.
pub fn row_at(
    alloc: Global,
    part: Part,
    bytes: &[u8],
    place: &Place,
) -> Result<Option<FoundRow>, Memory>
    requires { IsUtf8 (line_at bytes.now place.now) }
    ensures { IfOk result (λ row. row ≡ row_at part bytes.now place.now) }
{
    match from_utf8(piece_at(bytes, place.start, place.line)) {
        Ok(line) => found_row_of_line(alloc, part, line),
        Err(_) => unreachable!(),
    }
}

/// The reading of an entry whose line is plain: it spells a row of the okuri-nasi part with a candidate. Takes time in
/// the length of its line, and no memory.
pub fn plain_at<'b>(bytes: &'b [u8], place: &Place) -> Option<&'b str>
    requires { IsUtf8 (line_at bytes.now place.now) }
    ensures value { option_map (λ reading. chars reading.now) result
        ≡ plain_reading (chars (line_at bytes.now place.now)) }
    ensures walked { IfSome result
        (λ reading. walked_reading (row_at Nasi bytes.now place.now) ≡ Some (chars reading.now)) }
{
    match from_utf8(piece_at(bytes, place.start, place.line)) {
        Ok(line) => plain_reading(line),
        Err(_) => unreachable!(),
    }
}

// So many bytes from one of them on, where they are there.
fn piece_at(bytes: &[u8], start: u32, len: u32) -> &[u8]
    ensures { result.now ≡ piece_at bytes.now start len }
{
    let start = start as usize;
    let len = len as usize;
    match bytes.get(start..start + len) {
        Some(piece) => piece,
        None => &[],
    }
}
