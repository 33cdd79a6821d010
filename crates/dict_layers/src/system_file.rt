use dict_files::{DictionaryFile, RowFile};

/// A system file.
#[derive(Drop)]
pub enum SystemFile {
    /// Rows that were given.
    Rows(RowFile),
    /// A file as it lies.
    Bytes(DictionaryFile),
}
