ghost use Rattle.std.specs.Prelude.{◌≡◌, true, string_bytes};
ghost use Rattle.std.specs.List.{list_all};
ghost use Rattle.std.specs.Str.{chars};
ghost use Rattle.skk_calls.specs.Dictionary.{is_plain_reading};

use skk_calls::{Cand, Cands, DistinctCands, Part, RowKey};
use skk_text::{Copies, Text, Texts};
use std::alloc::Global;
use std::fmt::Debug;
use std::process::Abort;
use word_sets::WordMap;

// The text of a string.
pub fn text(rt: &impl Abort, alloc: Global, content: &str) -> Text {
    Text::from_str(alloc, content).expect(rt, "memory")
}

// The name of a value.
pub fn name_of(rt: &impl Abort, alloc: Global, value: impl Debug + Drop) -> String {
    format!(in alloc; "{value:?}").expect(rt, "memory")
}

// The first of each word of the first so many candidates of a list, as a dictionary finds them.
pub fn distinct_cands(rt: &impl Abort, alloc: Global, list: &str, count: usize) -> DistinctCands {
    let mut first = WordMap::new(alloc);
    for cand in listed_cands(rt, alloc, list, count).into_vec() {
        let (word, note) = cand.into_parts();
        first
            .insert(string(rt, alloc, &word), note)
            .expect(rt, "memory");
    }
    DistinctCands::new(first.into_cands(alloc).expect(rt, "memory"))
}

// The string of a text.
fn string(rt: &impl Abort, alloc: Global, word: &Text) -> String
    ensures { chars (string_bytes result) ≡ word.now }
{
    word.to_string(alloc).expect(rt, "memory")
}

// The first so many candidates of a list, which commas stand between, each with its note behind a `;`.
fn listed_cands(rt: &impl Abort, alloc: Global, list: &str, count: usize) -> Cands {
    let mut cands = Cands::new(alloc);
    for entry in list.split(',').take(count) {
        if !entry.is_empty() {
            cands.push(cand(rt, alloc, entry)).expect(rt, "memory");
        }
    }
    cands
}

fn cand(rt: &impl Abort, alloc: Global, entry: &str) -> Cand {
    let (word, note) = entry.split_once(';').unwrap_or((entry, ""));
    Cand::new(text(rt, alloc, word), text(rt, alloc, note)).expect(rt, "a candidate")
}

// The readings that commas stand between.
pub fn listed_readings(rt: &impl Abort, alloc: Global, list: &str) -> Texts
    ensures { list_all is_plain_reading result ≡ true }
{
    let mut readings = Texts::new(alloc);
    for reading in list.split(',') {
        if !reading.is_empty() {
            readings
                .push(plain_reading(rt, alloc, reading))
                .expect(rt, "memory");
        }
    }
    readings
}

// A valid reading without okurigana.
fn plain_reading(rt: &impl Abort, alloc: Global, reading: &str) -> Text
    ensures { is_plain_reading result ≡ true }
{
    let key = RowKey::new(Part::Nasi, text(rt, alloc, reading)).expect(rt, "a key");
    key.reading().copy(alloc).expect(rt, "memory")
}
