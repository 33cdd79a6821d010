ghost use Rattle.std.specs.Prelude.{◌≡◌, ◌++◌, map, true, length, IfOk};
ghost use Rattle.numeric_entries.specs.Numbers.{are_numbers};
ghost use Rattle.candidate_state.specs.Shown.{first_texts, with_fill, with_word};

use crate::shown::{BothFound, Shown, is_same_word};
use numeric_entries::fill;
use skk_calls::{Cand, Cands, RowKey};
use skk_text::{Copies, Memory, Sequence, Text, Texts};
use std::alloc::Global;
use std::mem;
use word_sets::WordSet;

/// A candidate with the text that is shown for it, and whether it was found under the number key.
#[derive(Drop)]
pub struct TextCand {
    pub cand: Cand,
    pub text: Text,
    pub is_numbered: bool,
}

/// Candidates with their texts, in order.
pub type TextCands = Sequence<TextCand>;

/// The candidates that are shown for a reading with numbers, and the keys that they were found under: that of the
/// reading as it is, and its number key.
#[derive(Drop)]
pub struct NumberedList {
    pub key: RowKey,
    pub number_key: RowKey,
    pub cands: TextCands,
}

impl NumberedList {
    ghost use Rattle.std.specs.Prelude.{◌≡◌, ◌<◌, length, map, slice_get, Some};
    ghost use Rattle.candidate_state.specs.Shown.{changed_at, shown_with_text, text_renewed};

    // The candidate of a place, counted from 0. Takes constant time.
    pub(crate) fn at(&self, place: usize) -> Shown<'_>
        requires { place < length self.now.cands }
        ensures { slice_get (map (shown_with_text self.now.key self.now.number_key) self.now.cands) place
            ≡ Some (record { key = result.key.now; cand = result.cand.now; text = result.text.now }) }
    {
        let shown = self.cands.at(place);
        Shown {
            key: if shown.is_numbered {
                &self.number_key
            } else {
                &self.key
            },
            cand: &shown.cand,
            text: &shown.text,
        }
    }

    // Puts another candidate in the place of that of a place, where it has its word: its text and its key stay.
    // Takes no memory, and time in the word.
    #[tactic(auto, using(crate::proofs::Puts::changes))]
    pub(crate) fn put(&mut self, alloc: Global, place: usize, cand: Cand)
        requires { place < length self.old.cands }
        ensures { self.new ≡ record self.old { cands = changed_at (text_renewed cand) self.old.cands place } }
    {
        if !is_same_word(&self.cands.at(place).cand, &cand) {
            return;
        }
        let mut items = mem::replace(&mut self.cands, TextCands::new(alloc)).into_vec();
        items[place].cand = cand;
        self.cands = TextCands::of(items);
    }
}

impl Copies for TextCand {
    fn copy(&self, alloc: Global) -> Result<TextCand, Memory> {
        Ok(TextCand {
            cand: self.cand.copy(alloc)?,
            text: self.text.copy(alloc)?,
            is_numbered: self.is_numbered,
        })
    }
}

impl Copies for NumberedList {
    fn copy(&self, alloc: Global) -> Result<NumberedList, Memory> {
        Ok(NumberedList {
            key: self.key.copy(alloc)?,
            number_key: self.number_key.copy(alloc)?,
            cands: self.cands.copy(alloc)?,
        })
    }
}

// The list of what was found of a reading with numbers, the first of each text.
pub(crate) fn numbered_list(
    alloc: Global,
    found: BothFound,
    numbers: &Texts,
    firsts: &Texts,
) -> Result<NumberedList, Memory>
    requires digits { are_numbers numbers.now ≡ true }
    requires firsts { length firsts.now ≡ length numbers.now }
    ensures key { IfOk result (λ list. list.key ≡ found.plain.key) }
    ensures number_key { IfOk result (λ list. list.number_key ≡ found.numbered.key) }
    ensures cands { IfOk result (λ list. list.cands ≡ first_texts
        (map with_word found.plain.cands ++ map (with_fill numbers.now firsts.now) found.numbered.cands)) }
{
    let BothFound { plain, numbered } = found;
    let mut shown = FirstTexts::new(alloc);
    shown.add_words(alloc, plain.cands.into_cands())?;
    shown.add_filled(alloc, numbered.cands.into_cands(), numbers, firsts)?;
    Ok(NumberedList {
        key: plain.key,
        number_key: numbered.key,
        cands: shown.cands,
    })
}

// Candidates with their texts, the first of each text, and these texts.
#[derive(Drop)]
struct FirstTexts {
    cands: TextCands,
    texts: WordSet,
}

impl FirstTexts {
    ghost use Rattle.std.specs.Prelude.{◌≡◌, [], map, true, length, OnOk};
    ghost use Rattle.std.specs.List.{fold};
    ghost use Rattle.numeric_entries.specs.Numbers.{are_numbers};
    ghost use Rattle.word_sets.specs.Firsts.{with_new};
    ghost use Rattle.candidate_state.specs.Shown.{has_texts, text_of, with_fill, with_word};

    // No candidates. Takes no memory.
    fn new(alloc: Global) -> FirstTexts
        ensures cands { result.cands ≡ [] }
        ensures texts { has_texts result }
    {
        FirstTexts {
            cands: TextCands::new(alloc),
            texts: WordSet::new(alloc),
        }
    }

    // Adds a candidate, unless its text is there.
    fn add(&mut self, alloc: Global, cand: TextCand) -> Result<(), Memory>
        requires { has_texts self.old }
        ensures cands { OnOk result (self.new.cands ≡ with_new text_of self.old.cands cand) }
        ensures texts { OnOk result (has_texts self.new) }
    {
        if self.texts.insert(cand.text.to_string(alloc)?)? {
            self.cands.push(cand)?;
        }
        Ok(())
    }

    // Adds candidates with their words.
    fn add_words(&mut self, alloc: Global, cands: Cands) -> Result<(), Memory>
        requires { has_texts self.old }
        ensures cands { OnOk result (self.new.cands ≡ fold (with_new text_of) self.old.cands (map with_word cands)) }
        ensures texts { OnOk result (has_texts self.new) }
    {
        for cand in cands.into_vec() {
            let text = cand.word().copy(alloc)?;
            self.add(
                alloc,
                TextCand {
                    cand,
                    text,
                    is_numbered: false,
                },
            )?;
        }
        Ok(())
    }

    // Adds candidates of a number key with their words filled.
    fn add_filled(
        &mut self,
        alloc: Global,
        cands: Cands,
        numbers: &Texts,
        firsts: &Texts,
    ) -> Result<(), Memory>
        requires kept { has_texts self.old }
        requires digits { are_numbers numbers.now ≡ true }
        requires firsts { length firsts.now ≡ length numbers.now }
        ensures cands { OnOk result (self.new.cands
            ≡ fold (with_new text_of) self.old.cands (map (with_fill numbers.now firsts.now) cands)) }
        ensures texts { OnOk result (has_texts self.new) }
    {
        for cand in cands.into_vec() {
            let text = fill(alloc, cand.word(), numbers, firsts)?;
            self.add(
                alloc,
                TextCand {
                    cand,
                    text,
                    is_numbered: true,
                },
            )?;
        }
        Ok(())
    }
}
