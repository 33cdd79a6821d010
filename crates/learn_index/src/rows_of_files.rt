ghost use Rattle.learn_index.specs.FileRows.{AreFileRows};

use dict_layers::System;
use skk_calls::{Call, FoundRows};
use skk_text::Memory;
use std::alloc::Global;

/// What system files have for a call, found before it is answered, since no change of a book changes it: the rows of a
/// look-up's key, in the order of the files, and none for any other call.
pub type FileRows = Result<FoundRows, Memory>;

/// Finds what system files have for a call. A look-up takes time in the number of files, in each a logarithm in the
/// number of its entries, and time in the lines with the key's reading; any other call takes no memory.
pub fn file_rows(alloc: Global, system: &System, call: &Call) -> FileRows
    ensures { AreFileRows system.now call.now result }
{
    match call {
        Call::Lookup { key, .. } => system.find(alloc, key),
        _ => Ok(FoundRows::new(alloc)),
    }
}
