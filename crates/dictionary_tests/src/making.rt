ghost use Rattle.std.specs.Prelude.{◌≡◌};
ghost use Rattle.std.specs.Str.{chars};

use dict_files::{DictionaryFile, DictionaryFiles};
use dict_format::read_file;
use dict_layers::System;
use skk_calls::{Books, Okuri, Part, RowKey};
use skk_text::{Bytes, Text};
use std::alloc::Global;
use std::process::Abort;

// The text of a string.
pub fn text(rt: &impl Abort, alloc: Global, content: &str) -> Text
    ensures { result ≡ chars content.now }
{
    Text::from_str(alloc, content).expect(rt, "memory")
}

// A text that is `start`, `unit` so many times, and then `end`.
pub fn long_text(
    rt: &impl Abort,
    alloc: Global,
    start: &str,
    unit: &str,
    count: usize,
    end: &str,
) -> Text {
    let units = unit.repeat(alloc, count).expect(rt, "memory");
    let text = [start, units.as_str(), end].concat(alloc);
    Text::of(text.expect(rt, "memory"))
}

// The key of a reading, which has okurigana where it ends in a letter behind kana.
pub fn key(rt: &impl Abort, alloc: Global, reading: &str) -> RowKey {
    let part = match reading.as_bytes() {
        [0x80..=0xFF, .., b'a'..=b'z'] => Part::Ari,
        _ => Part::Nasi,
    };
    RowKey::new(part, text(rt, alloc, reading)).expect(rt, "a key")
}

// An okurigana, or none where there is no text.
pub fn okuri(rt: &impl Abort, alloc: Global, content: &str) -> Option<Okuri> {
    if content.is_empty() {
        return None;
    }
    Some(Okuri::new(text(rt, alloc, content)).expect(rt, "an okurigana"))
}

// Adds a word, a semicolon, its note, and a slash.
pub fn add_entry(rt: &impl Abort, told: &mut String, word: &str, note: &str) {
    write!(told, "{word};{note}/").expect(rt, "memory");
}

// These files as they lie.
pub fn files_of(rt: &impl Abort, alloc: Global, contents: &[&str]) -> System {
    let mut files = DictionaryFiles::new(alloc);
    for content in contents {
        let bytes = Bytes::of(content.as_bytes().to_vec(alloc).expect(rt, "memory"));
        let file = DictionaryFile::open(alloc, bytes).expect(rt, "a file");
        files.push(file).expect(rt, "memory");
    }
    System::of_files(alloc, files).expect(rt, "memory")
}

// The rows of these files in memory.
pub fn rows_of(rt: &impl Abort, alloc: Global, contents: &[&str]) -> System {
    let mut books = Books::new(alloc);
    for content in contents {
        let listed = read_file(alloc, content.as_bytes()).expect(rt, "a file");
        books.push(listed.book).expect(rt, "memory");
    }
    System::of_books(alloc, books).expect(rt, "memory")
}
