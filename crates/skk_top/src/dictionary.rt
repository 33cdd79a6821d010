ghost use Rattle.std.specs.Prelude.{◌≡◌, ◌≤◌, ℕ, IfOk, IfErr, IfSome, List, map};
ghost use Rattle.dict_format.specs.FileLines.{Lists, ListsRows};
ghost use Rattle.skk_top.specs.Dictionaries.{AreRowsOf, HasDictionaryFlaw, RefusesDictionaries, fault_of_file};
ghost use Rattle.skk_top.specs.RunFiles.{RefusesFile, RefusesBytes};

use crate::run_file::read_run_file;
use command_line::Word;
use dict_files::{DictionaryFile, DictionaryFiles};
use dict_format::{FILE_LIMIT, FileFault, Listed, read_file};
use run_endings::{RunFault, RunFile};
use skk_outside::Shelf;
use skk_text::Bytes;
use std::alloc::Global;

/// Opens the dictionaries of these names in their order, up to the first that is refused.
/// Their bad lines are passed over.
pub fn open_dictionaries<H: Shelf>(
    alloc: Global,
    shelf: &mut H,
    names: &[Word],
) -> Result<DictionaryFiles, RunFault>
    ensures rows { IfOk result (λ files. AreRowsOf files (map (H.file shelf.old) names.now)) }
    ensures refused { IfErr result (RefusesDictionaries (map (H.file shelf.old) names.now)
        (H.faults shelf.old) (H.faults shelf.new)) }
    ensures counted { H.faults shelf.old ≤ H.faults shelf.new }
{
    let mut files = DictionaryFiles::new(alloc);
    for name in names {
        let file = open_dictionary(alloc, shelf, name, files.len() + 1)?;
        files.push(file)?;
    }
    Ok(files)
}

// Opens the dictionary with this number, counted from 1, from the file of this name.
fn open_dictionary<H: Shelf>(
    alloc: Global,
    shelf: &mut H,
    name: &Word,
    number: usize,
) -> Result<DictionaryFile, RunFault>
    ensures rows { IfOk result (λ file. IfSome (H.file shelf.old name.now) (λ bytes. ListsRows bytes file)) }
    ensures refused { IfErr result
        (RefusesFile (RunFile.Dictionary number) HasDictionaryFlaw (H.file shelf.old name.now)
        (H.faults shelf.old) (H.faults shelf.new)) }
    ensures counted { H.faults shelf.old ≤ H.faults shelf.new }
    ensures kept { H.file shelf.new ≡ H.file shelf.old }
{
    match read_run_file(
        alloc,
        shelf,
        name,
        RunFile::Dictionary { number },
        FILE_LIMIT,
    ) {
        Ok(bytes) => file_of(alloc, bytes, number),
        Err(fault) => Err(fault),
    }
}

// The file of the bytes of the dictionary with this number.
fn file_of(alloc: Global, bytes: Bytes, number: usize) -> Result<DictionaryFile, RunFault>
    ensures rows { IfOk result (ListsRows bytes) }
    ensures refused { IfErr result (RefusesBytes (RunFile.Dictionary number) HasDictionaryFlaw bytes) }
{
    match DictionaryFile::open(alloc, bytes) {
        Ok(file) => Ok(file),
        Err(fault) => Err(fault_of_file(number, fault)),
    }
}

/// Reads the dictionary with this number, counted from 1, from the file of this name. It is what some bytes list, also
/// where the shelf does not tell them.
pub fn read_dictionary<H: Shelf>(
    alloc: Global,
    shelf: &mut H,
    name: &Word,
    number: usize,
) -> Result<Listed, RunFault>
    ensures lists { IfOk result (λ listed. IfSome (H.file shelf.old name.now) (λ bytes. Lists bytes listed)) }
    ensures listed { IfOk result (λ listed. (bytes : List ℕ) × Lists bytes listed) }
    ensures refused { IfErr result
        (RefusesFile (RunFile.Dictionary number) HasDictionaryFlaw (H.file shelf.old name.now)
        (H.faults shelf.old) (H.faults shelf.new)) }
    ensures counted { H.faults shelf.old ≤ H.faults shelf.new }
    ensures kept { H.file shelf.new ≡ H.file shelf.old }
{
    match read_run_file(
        alloc,
        shelf,
        name,
        RunFile::Dictionary { number },
        FILE_LIMIT,
    ) {
        Ok(bytes) => listed_in(alloc, bytes.as_slice(), number),
        Err(fault) => Err(fault),
    }
}

// What the bytes of the dictionary with this number list.
fn listed_in(alloc: Global, bytes: &[u8], number: usize) -> Result<Listed, RunFault>
    ensures lists { IfOk result (Lists bytes.now) }
    ensures refused { IfErr result (RefusesBytes (RunFile.Dictionary number) HasDictionaryFlaw bytes.now) }
{
    match read_file(alloc, bytes) {
        Ok(listed) => Ok(listed),
        Err(fault) => Err(fault_of_file(number, fault)),
    }
}

// What a fault of its file is for the dictionary with this number.
fn fault_of_file(number: usize, fault: FileFault) -> RunFault
    ensures { result ≡ fault_of_file number fault }
{
    match fault {
        FileFault::NoText(fault) => RunFile::Dictionary { number }.fault_of_text(fault),
        FileFault::Memory => RunFault::Memory,
    }
}
