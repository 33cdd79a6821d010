ghost use Rattle.std.specs.Prelude.{◌≡◌, IfOk};
ghost use Rattle.skk_calls.specs.States.{row_in};
ghost use Rattle.skk_calls.specs.Walks.{next_above};
ghost use Rattle.dict_files.specs.Walked.{walked_readings};
ghost use Rattle.dict_layers.specs.SystemFiles.{rows_in};

use crate::system_file::SystemFile;
use dict_files::{DictionaryFiles, RowFile};
use skk_calls::{Books, FoundRow, FoundRows, RowKey, Walk};
use skk_text::{Copies, Memory, Text, copy_of};
use std::alloc::Global;
use std::marker::Model;
use std::sync::Arc;

/// The system files: the rows of each, in the files' order. No file has two rows of one key. They never change, and
/// threads may share them.
#[derive(Drop)]
pub struct System {
    files: Arc<Vec<SystemFile>>,
}

impl Model for System {
    ghost use Rattle.std.specs.Prelude.{◌≡◌, true, List, map};
    ghost use Rattle.std.specs.List.{list_all};
    ghost use Rattle.skk_calls.specs.Rows.{Row};
    ghost use Rattle.dict_files.specs.Files.{is_file};
    ghost use Rattle.dict_layers.specs.SystemFiles.{rows_in};

    ghost Value = { List (List Row) };

    ghost view = { λ s. map rows_in s.files.value.items };

    ghost invariant = { λ s. list_all is_file (map rows_in s.files.value.items) ≡ true };
}

impl System {
    ghost use Rattle.std.specs.Prelude.{◌≡◌, true, length, IfOk};
    ghost use Rattle.std.specs.List.{filter_map, list_all};
    ghost use Rattle.skk_calls.specs.States.{row_in};
    ghost use Rattle.dict_files.specs.Files.{is_file};

    /// The system files with the rows of these books, which are moved. Takes time in the number of rows, and with one
    /// logarithm in it where they are not in order.
    pub fn of_books(alloc: Global, books: Books) -> Result<System, Memory>
        ensures { IfOk result (λ system. system ≡ books) }
    {
        let mut files = Vec::new(alloc);
        for book in books.into_vec() {
            files.push(SystemFile::Rows(RowFile::of_book(alloc, book)?))?;
        }
        let files = Arc::new(alloc, files)?;
        Ok(System { files })
    }

    /// The system files as they lie, which are moved. Takes time in the number of files.
    pub fn of_files(alloc: Global, files: DictionaryFiles) -> Result<System, Memory>
        ensures { IfOk result (λ system. system ≡ files) }
    {
        let mut system = Vec::new(alloc);
        for file in files.into_vec() {
            // Its rows are those of a file, as its type says.
            let _bytes = file.bytes();
            system.push(SystemFile::Bytes(file))?;
        }
        let files = Arc::new(alloc, system)?;
        Ok(System { files })
    }

    /// The same files once more, which lie where they lay. Takes constant time and no memory; `Memory` only where they
    /// are shared some 2^63 times.
    pub fn share(&self) -> Result<System, Memory>
        ensures { IfOk result (λ shared. shared ≡ self.now) }
    {
        let files = Arc::try_clone(&self.files)?;
        Ok(System { files })
    }

    /// How many files there are. Takes no memory.
    pub fn file_count(&self) -> usize
        ensures value { result ≡ length self.now }
        ensures valid { list_all is_file self.now ≡ true }
    {
        self.files.len()
    }

    /// The rows of a key, in the order of the files that have one. Takes time in the number of files, in each a
    /// logarithm in the number of its entries, and time in the lines with the key's reading.
    pub fn find(&self, alloc: Global, key: &RowKey) -> Result<FoundRows, Memory>
        ensures { IfOk result (λ rows. rows ≡ filter_map (row_in key.now) self.now) }
    {
        let mut found = FoundRows::new(alloc);
        for file in self.files.as_slice() {
            if let Some(row) = row_of(alloc, file, key)? {
                found.push(row)?;
            }
        }
        Ok(found)
    }
}

impl Walk for System {
    ghost use Rattle.std.specs.Prelude.{map};
    ghost use Rattle.dict_files.specs.Walked.{walked_readings};
    ghost use Rattle.dict_files.specs.WalkLaws.{all_walked_ascend};

    ghost files = { map walked_readings };

    ghost ascending = { all_walked_ascend };

    fn files(&self) -> usize {
        self.file_count()
    }

    /// Takes a logarithm in the number of the file's entries, and time in the lines up to the reading that is found.
    fn above(&self, alloc: Global, file: usize, low: &Text) -> Result<Option<Text>, Memory> {
        reading_above(alloc, &self.files[file], low)
    }
}

// The row of a key in a file, if there is one.
fn row_of(alloc: Global, file: &SystemFile, key: &RowKey) -> Result<Option<FoundRow>, Memory>
    ensures { IfOk result (λ row. row ≡ row_in key.now (rows_in file.now)) }
{
    match file {
        SystemFile::Rows(rows) => match rows.row_of(key) {
            Some(row) => Ok(Some(FoundRow::of_row(row.copy(alloc)?))),
            None => Ok(None),
        },
        SystemFile::Bytes(file) => file.row_of(alloc, key),
    }
}

// The least reading of a file's walk that is greater than another.
fn reading_above(alloc: Global, file: &SystemFile, low: &Text) -> Result<Option<Text>, Memory>
    ensures { IfOk result (λ next. next ≡ next_above (walked_readings (rows_in file.now)) low.now) }
{
    match file {
        SystemFile::Rows(rows) => copy_of(alloc, rows.reading_above(low)),
        SystemFile::Bytes(file) => file.reading_above(alloc, low),
    }
}
