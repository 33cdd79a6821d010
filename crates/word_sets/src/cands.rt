ghost use Rattle.std.specs.Prelude.{◌≡◌, map, true, IfOk};
ghost use Rattle.std.specs.List.{list_all};
ghost use Rattle.skk_calls.specs.Rows.{is_cand, texts_differ, words_of};
ghost use Rattle.word_sets.specs.Strings.{as_cand, characters};

use crate::word_map::WordMap;
use skk_calls::{Cand, Cands};
use skk_text::{Memory, Text};
use std::alloc::Global;

impl WordMap<Text> {
    /// The words with their notes as candidates. The texts are moved.
    pub fn into_cands(self, alloc: Global) -> Result<Cands, Memory>
        requires { list_all is_cand (map as_cand self) ≡ true }
        ensures value { IfOk result (λ cands. cands ≡ map as_cand self) }
        ensures differ { IfOk result (λ cands. texts_differ (words_of cands) ≡ true) }
    {
        let mut cands = Cands::new(alloc);
        for (word, note) in self {
            cands.push(cand_of(word, note))?;
        }
        Ok(cands)
    }
}

// The candidate of a word and a note.
fn cand_of(word: String, note: Text) -> Cand
    requires { is_cand (as_cand (characters word, note)) ≡ true }
    ensures { result ≡ as_cand (characters word, note) }
{
    Cand::of_parts(Text::of(word), note)
}
