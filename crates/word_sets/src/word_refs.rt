use indexmap::IndexSet;
use skk_text::{Memory, Text};
use std::alloc::Global;
use std::marker::Model;

/// Words that stand elsewhere, in the order in which they came, each once.
#[derive(Drop)]
pub struct WordRefs<'a> {
    words: IndexSet<&'a str>,
}

impl<'a> Model for WordRefs<'a> {
    ghost use Rattle.std.specs.Prelude.{◌≡◌, true, List, ℕ};
    ghost use Rattle.word_sets.specs.WordRefs.{are_encoded, texts_at};

    ghost Value = { List (List ℕ) };

    ghost view = { λ s. texts_at s.words };

    ghost invariant = { λ s. are_encoded s.words ≡ true };
}

impl<'a> WordRefs<'a> {
    ghost use Rattle.std.specs.Prelude.{◌≡◌, [], position, OnOk, OnErr};
    ghost use Rattle.skk_calls.specs.Rows.{has_text, same_text};
    ghost use Rattle.word_sets.specs.Firsts.{with_new};

    /// No words. Takes no memory: the set keeps the allocator for what is inserted later.
    pub fn new(alloc: Global) -> WordRefs<'a>
        ensures { result ≡ [] }
    {
        WordRefs {
            words: IndexSet::new(alloc),
        }
    }

    /// Adds a word at the end unless it is there.
    pub fn insert(&mut self, word: &'a Text) -> Result<(), Memory>
        ensures ok { OnOk result (self.new ≡ with_new (λ text. text) self.old word.now) }
        ensures err { OnErr result (self.new ≡ self.old) }
    {
        self.words.insert(word.as_str())?;
        Ok(())
    }

    /// Whether a word is there. Takes no memory.
    pub fn contains(&self, word: &Text) -> bool
        ensures { result ≡ has_text self.now word.now }
    {
        !self.words.is_empty() && self.words.contains(word.as_str())
    }

    /// The place of a word, counted from 0, where it is there. Takes no memory.
    pub fn place(&self, word: &Text) -> Option<usize>
        ensures { result ≡ position (same_text word.now) self.now }
    {
        self.words.get_index_of(word.as_str())
    }
}
