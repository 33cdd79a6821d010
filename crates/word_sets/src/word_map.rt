use indexmap::IndexMap;
use indexmap::map::IntoIter;
use skk_text::Memory;
use std::alloc::Global;
use std::marker::Model;

/// Words in the order in which they came, each once, with the value that came with the first of each.
#[derive(Drop)]
pub struct WordMap<V> {
    values: IndexMap<String, V>,
}

impl<V> Model for WordMap<V> {
    ghost use Rattle.std.specs.Prelude.{List, ℕ};
    ghost use Rattle.word_sets.specs.Strings.{words_in};

    ghost Value = { List (List ℕ × V) };

    ghost view = { λ m. words_in m.values };
}

impl<V> WordMap<V> {
    ghost use Rattle.std.specs.Prelude.{◌≡◌, [], IfOk};

    /// No words. Takes no memory: the map keeps the allocator for what is inserted later.
    pub fn new(alloc: Global) -> WordMap<V>
        ensures { result ≡ [] }
    {
        WordMap {
            values: IndexMap::new(alloc),
        }
    }

    /// No words, with room for so many.
    pub fn with_capacity(alloc: Global, count: usize) -> Result<WordMap<V>, Memory>
        ensures { IfOk result (λ words. words ≡ []) }
    {
        Ok(WordMap {
            values: IndexMap::with_capacity(alloc, count)?,
        })
    }
}

impl<V: Drop> WordMap<V> {
    ghost use Rattle.std.specs.Prelude.{◌≡◌, length, map, not, IfOk, OnOk, OnErr};
    ghost use Rattle.std.specs.Borrow.{sem};
    ghost use Rattle.std.specs.Map.{lookup};
    ghost use Rattle.std.specs.Option.{option_copied_mut};
    ghost use Rattle.std.specs.Str.{chars};
    ghost use Rattle.skk_calls.specs.Rows.{has_text, same_text};
    ghost use Rattle.word_sets.specs.Firsts.{with_new};
    ghost use Rattle.word_sets.specs.Lent.{lends_value};
    ghost use Rattle.word_sets.specs.Strings.{characters};

    /// Adds a word with its value at the end unless the word is there, and answers whether it is a new one.
    pub fn insert(&mut self, word: String, value: V) -> Result<bool, Memory>
        ensures ok { OnOk result (self.new ≡ with_new (λ pair. pair.0) self.old (characters word, value)) }
        ensures is_new { IfOk result (λ is_new. is_new
            ≡ not (has_text (map (λ pair. pair.0) self.old) (characters word))) }
        ensures err { OnErr result (self.new ≡ self.old) }
    {
        let before = self.values.len();
        self.values.entry(word)?.or_insert(value);
        Ok(before < self.values.len())
    }

    /// How many words there are. Takes no memory.
    pub fn len(&self) -> usize
        ensures { result ≡ length self.now }
    {
        self.values.len()
    }

    /// Whether a word is there. Takes no memory.
    pub fn contains(&self, word: &str) -> bool
        ensures { result ≡ has_text (map (λ pair. pair.0) self.now) (chars word.now) }
    {
        self.values.contains_key(word)
    }

    /// The value of a word that is there, to be changed in place. Takes no memory.
    pub fn value_mut(&mut self, word: &str) -> Option<&mut V>
        ensures* writes_back { sem 𝓛 (lends_value V.row self.entry (chars word.now) result) }
        ensures value { option_copied_mut result ≡ lookup (same_text (chars word.now)) self.old }
    {
        self.values.get_mut(word)
    }
}

impl<V: Drop> IntoIterator for WordMap<V> {
    ghost use Rattle.std.specs.Prelude.{◌≡◌, map, true};
    ghost use Rattle.skk_calls.specs.Rows.{texts_differ};
    ghost use Rattle.word_sets.specs.Strings.{worded};

    type Item = (String, V);

    type IntoIter = IntoIter<String, V>;

    ghost into_iter_gives = { λ m it. (map worded it ≡ m) × (texts_differ (map (λ pair. pair.0) m) ≡ true) };

    fn into_iter(self) -> IntoIter<String, V> {
        self.values.into_iter()
    }
}
