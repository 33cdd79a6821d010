use crate::word_map::WordMap;
use skk_text::{Memory, Text, Texts};
use std::alloc::Global;
use std::marker::Model;

/// Words in the order in which they came, each once.
#[derive(Drop)]
pub struct WordSet {
    words: WordMap<()>,
}

impl Model for WordSet {
    ghost use Rattle.std.specs.Prelude.{List, ℕ, map};

    ghost Value = { List (List ℕ) };

    ghost view = { λ s. map (λ pair. pair.0) s.words };
}

impl WordSet {
    ghost use Rattle.std.specs.Prelude.{◌≡◌, [], length, true, not, IfOk, OnOk, OnErr};
    ghost use Rattle.skk_calls.specs.Rows.{has_text, texts_differ};
    ghost use Rattle.word_sets.specs.Firsts.{with_new};
    ghost use Rattle.word_sets.specs.Strings.{characters};

    /// No words. Takes no memory: the set keeps the allocator for what is inserted later.
    pub fn new(alloc: Global) -> WordSet
        ensures { result ≡ [] }
    {
        WordSet {
            words: WordMap::new(alloc),
        }
    }

    /// Adds a word at the end unless it is there, and answers whether it is a new one.
    pub fn insert(&mut self, word: String) -> Result<bool, Memory>
        ensures ok { OnOk result (self.new ≡ with_new (λ text. text) self.old (characters word)) }
        ensures is_new { IfOk result (λ is_new. is_new ≡ not (has_text self.old (characters word))) }
        ensures err { OnErr result (self.new ≡ self.old) }
    {
        let is_new = self.words.insert(word, ())?;
        Ok(is_new)
    }

    /// How many words there are. Takes no memory.
    pub fn len(&self) -> usize
        ensures { result ≡ length self.now }
    {
        self.words.len()
    }

    /// Whether a word is there. Takes no memory.
    pub fn contains(&self, word: &Text) -> bool
        ensures { result ≡ has_text self.now word.now }
    {
        self.words.contains(word.as_str())
    }

    /// The words as texts, which are moved.
    pub fn into_texts(self, alloc: Global) -> Result<Texts, Memory>
        ensures value { IfOk result (λ texts. texts ≡ self) }
        ensures differ { IfOk result (λ texts. texts_differ texts ≡ true) }
    {
        let mut texts = Texts::new(alloc);
        for (word, _) in self.words {
            texts.push(Text::of(word))?;
        }
        Ok(texts)
    }
}
