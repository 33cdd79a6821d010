ghost use Rattle.std.specs.Prelude.{◌≡◌, ◌↔◌, IfOk, IfErr, Ok, Err};
ghost use Rattle.skk_text.specs.Results.{AnswersUnless};
ghost use Rattle.skk_text.specs.TextFiles.{IsTextFault};
ghost use Rattle.skk_text.specs.declared.text_file.TextFault.{TextFault};
ghost use Rattle.dict_format.specs.FileLines.{Lists, TakeAll, entries_of, file_limit, none_listed};
ghost use Rattle.dict_format.specs.LeftLines.{entries_at};
ghost use Rattle.dict_format.specs.declared.file.Listed.{Listed};

use crate::file::{FileFault, Listed};
use crate::file_lines::LineKind;
use crate::lines::{FileLine, FileLines};
use crate::listing::Listing;
use skk_text::{Memory, text_within};
use std::alloc::Global;

/// The most bytes that a dictionary file may have.
pub const FILE_LIMIT: usize = 67_108_864;

/// Reads a dictionary file: the rows of its good lines, and its bad lines with their reasons. Takes time in its bytes,
/// but for the readings, each of which is looked for among those before it.
pub fn read_file(alloc: Global, bytes: &[u8]) -> Result<Listed, FileFault>
    ensures ok { IfOk result (Lists bytes.now) }
    ensures only { (listed : Listed) → Lists bytes.now listed → AnswersUnless FileFault.Memory result (Ok listed) }
    ensures no_text { (fault : TextFault)
        → (result ≡ Err (FileFault.NoText fault)) ↔ IsTextFault file_limit bytes.now fault }
{
    match text_within(bytes, FILE_LIMIT) {
        Ok(text) => read_valid(alloc, text),
        Err(fault) => Err(FileFault::NoText(fault)),
    }
}

// Reads a file that is not too long and is UTF-8.
fn read_valid(alloc: Global, text: &str) -> Result<Listed, FileFault>
    ensures ok { IfOk result (TakeAll none_listed (entries_of text.now)) }
    ensures memory { IfErr result (λ fault. fault ≡ FileFault.Memory) }
{
    match read_text(alloc, text) {
        Ok(listed) => Ok(listed),
        Err(Memory) => Err(FileFault::Memory),
    }
}

// Reads the lines of a text.
fn read_text(alloc: Global, text: &str) -> Result<Listed, Memory>
    ensures { IfOk result (TakeAll none_listed (entries_of text.now)) }
{
    let mut listing = Listing::new(alloc);
    let mut lines = FileLines::of(text);
    while let Some(line) = lines.next_line() {
        listing = take_line(alloc, listing, &line)?;
    }
    Ok(listing.into_listed())
}

// Takes a line, where it is an entry.
fn take_line(alloc: Global, listing: Listing, line: &FileLine<'_>) -> Result<Listing, Memory>
    ensures { IfOk result (TakeAll listing (entries_at line.now)) }
{
    match line.kind {
        LineKind::Entry => listing.take_entry(alloc, line.number, line.part, line.text),
        LineKind::Opening(_) | LineKind::Skipped => Ok(listing),
    }
}
