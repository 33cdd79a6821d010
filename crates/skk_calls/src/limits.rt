/// The most bytes of a reading without okurigana.
pub const READING_LIMIT: usize = 254;

/// The most bytes of a reading with okurigana, its letter among them.
pub const OKURI_READING_LIMIT: usize = 255;

/// The most bytes of an okurigana.
pub const OKURI_LIMIT: usize = 60;

/// The most bytes of a word with its note.
pub const WORD_LIMIT: usize = 4_095;

/// The most bytes of a row's line, without what ends it.
pub const LINE_LIMIT: usize = 65_535;
