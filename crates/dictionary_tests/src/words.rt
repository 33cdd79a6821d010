use crate::learning::add_texts;
use crate::making::{add_entry, text};
use expectations::{same, same_at};
use skk_text::Text;
use std::alloc::Global;
use std::process::Abort;
use word_sets::{WordMap, WordSet};

// A word that is added, and whether it is new.
static WORDS: [(&str, bool); 4] = [("漢字", true), ("幹事", true), ("漢字", false), ("", true)];

// Adds a word, which is new or not.
fn expect_insert(
    rt: &impl Abort,
    alloc: Global,
    words: &mut WordSet,
    (word, is_new): (&str, bool),
) {
    let inserted = words
        .insert(String::from_str(alloc, word).expect(rt, "memory"))
        .expect(rt, "memory");
    same_at(inserted, is_new, word).expect(rt, "as wanted");
}

#[test]
fn each_word_is_kept_once(rt: HostRuntime) {
    let mut words = WordSet::new(rt.alloc());
    for (word, is_new) in &WORDS {
        expect_insert(&rt, rt.alloc(), &mut words, (*word, *is_new));
    }
    expect_words(&rt, rt.alloc(), words)
}

// Tells that these are the three words.
fn expect_words(rt: &impl Abort, alloc: Global, words: WordSet) {
    let texts = words.into_texts(alloc).expect(rt, "memory");
    same(texts.len(), 3).expect(rt, "as wanted");
    let mut told = String::new(alloc);
    add_texts(rt, &mut told, &texts);
    same(told.as_str(), " 漢字 幹事 ").expect(rt, "as wanted");
}

// A word that is added with a note, and whether it is new.
static NOTED: [(&str, &str, bool); 3] = [("幹事", "宴会", true), ("漢字", "", true), ("幹事", "x", false)];

// Adds a word with a note, which is new or not.
fn expect_noted(
    rt: &impl Abort,
    alloc: Global,
    notes: &mut WordMap<Text>,
    (word, note, is_new): (&str, &str, bool),
) {
    let note = text(rt, alloc, note);
    let inserted = notes
        .insert(String::from_str(alloc, word).expect(rt, "memory"), note)
        .expect(rt, "memory");
    same_at(inserted, is_new, word).expect(rt, "as wanted");
}

#[test]
fn the_first_of_each_word_is_kept(rt: HostRuntime) {
    let mut notes = WordMap::new(rt.alloc());
    for (word, note, is_new) in &NOTED {
        expect_noted(&rt, rt.alloc(), &mut notes, (*word, *note, *is_new));
    }
    if let Some(note) = notes.value_mut("幹事") {
        note.push('の').expect(&rt, "memory");
    }
    assert!(rt; notes.value_mut("感じ").is_none());
    expect_notes(&rt, rt.alloc(), notes)
}

// Tells the words, each with the note of the first of it.
fn expect_notes(rt: &impl Abort, alloc: Global, notes: WordMap<Text>) {
    let mut told = String::new(alloc);
    for (word, note) in notes {
        add_entry(rt, &mut told, word.as_str(), note.as_str());
    }
    same(told.as_str(), "幹事;宴会の/漢字;/").expect(rt, "as wanted");
}
