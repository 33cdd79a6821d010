ghost use Rattle.std.specs.Prelude.{◌≡◌, ◌<◌, true, length, map, slice_get, Some, IfOk};
ghost use Rattle.numeric_entries.specs.Numbers.{are_numbers};
ghost use Rattle.skk_calls.specs.Rows.{same_text};
ghost use Rattle.candidate_state.specs.Shown.{changed_at, renewed, shown_plain, shown_numbers, shown_word};

use crate::numbered::{NumberedList, numbered_list};
use skk_calls::{Cand, Cands, DistinctCands, RowKey};
use skk_text::{Copies, Memory, Text, Texts};
use std::alloc::Global;
use std::marker::Model;
use std::mem;

/// What was found of a key.
#[derive(Drop)]
pub struct Found {
    pub key: RowKey,
    pub cands: DistinctCands,
}

/// What was found of a reading with numbers: as it is, and by its number key.
#[derive(Drop)]
pub struct BothFound {
    pub plain: Found,
    pub numbered: Found,
}

/// Candidates as they are shown, in order: contracts see the list of them.
#[derive(Drop)]
pub struct ShownList {
    cands: ShownCands,
}

/// The candidates that are shown for a reading: of one key with their words, or of both keys with their texts.
#[derive(Drop)]
pub enum ShownCands {
    Words { key: RowKey, cands: Cands },
    Numbered(NumberedList),
}

impl Model for ShownList {
    ghost use Rattle.std.specs.Prelude.{List};
    ghost use Rattle.candidate_state.specs.Shown.{Shown, shown_cands};

    ghost Value = { List Shown };

    ghost view = { λ s. shown_cands s.cands };
}

/// A candidate that is shown: the key that it was found under, the candidate as it was found,
/// and the text that is shown.
#[derive(Clone, Copy)]
pub struct Shown<'a> {
    pub key: &'a RowKey,
    pub cand: &'a Cand,
    pub text: &'a Text,
}

/// The candidates that are shown for what was found of a key, the first of each word: what was found has no word
/// twice, and is moved. Takes no memory and constant time.
#[tactic(auto, using(crate::proofs::ShownWords::shown_words))]
pub fn shown_plain(found: Found) -> ShownList
    ensures { result ≡ shown_plain found }
{
    ShownList {
        cands: ShownCands::Words {
            key: found.key,
            cands: found.cands.into_cands(),
        },
    }
}

/// The candidates that are shown for a reading with numbers, the first of each text: those that were found of it as it
/// is, and those of its number key, filled with the numbers and with the first words that were found for them. What
/// was found is moved. Takes time in the length of its words and of the texts.
#[tactic(auto, using(crate::proofs::ShownWords::shown_texts))]
pub fn shown_numbers(
    alloc: Global,
    found: BothFound,
    numbers: &Texts,
    firsts: &Texts,
) -> Result<ShownList, Memory>
    requires digits { are_numbers numbers.now ≡ true }
    requires firsts { length firsts.now ≡ length numbers.now }
    ensures { IfOk result (λ shown. shown ≡ shown_numbers found numbers.now firsts.now) }
{
    let list = numbered_list(alloc, found, numbers, firsts)?;
    Ok(ShownList {
        cands: ShownCands::Numbered(list),
    })
}

impl ShownList {
    ghost use Rattle.std.specs.Prelude.{◌≡◌, ◌<◌, length, slice_get, Some};
    ghost use Rattle.candidate_state.specs.Shown.{with_cand};

    /// How many candidates there are.
    pub fn len(&self) -> usize
        ensures { result ≡ length self.now }
    {
        match &self.cands {
            ShownCands::Words { cands, .. } => cands.len(),
            ShownCands::Numbered(list) => list.cands.len(),
        }
    }

    /// The candidate of a place, counted from 0. Takes constant time.
    pub fn at(&self, place: usize) -> Shown<'_>
        requires { place < length self.now }
        ensures { slice_get self.now place
            ≡ Some (record { key = result.key.now; cand = result.cand.now; text = result.text.now }) }
    {
        match &self.cands {
            ShownCands::Words { key, cands } => word_at(key, cands, place),
            ShownCands::Numbered(list) => list.at(place),
        }
    }

    // Puts another candidate in the place of that of a place, where it has its word: its key and the text that is
    // shown stay. Takes no memory, and time in the word.
    #[tactic(auto, using(crate::proofs::Puts::puts))]
    pub(crate) fn put(&mut self, alloc: Global, place: usize, cand: Cand)
        requires { place < length self.old }
        ensures { self.new ≡ with_cand self.old place cand }
    {
        match &mut self.cands {
            ShownCands::Words { cands, .. } => put_cand(alloc, cands, place, cand),
            ShownCands::Numbered(list) => list.put(alloc, place, cand),
        }
    }
}

impl Copies for ShownCands {
    fn copy(&self, alloc: Global) -> Result<ShownCands, Memory> {
        match self {
            ShownCands::Words { key, cands } => Ok(ShownCands::Words {
                key: key.copy(alloc)?,
                cands: cands.copy(alloc)?,
            }),
            ShownCands::Numbered(list) => Ok(ShownCands::Numbered(list.copy(alloc)?)),
        }
    }
}

impl Copies for ShownList {
    fn copy(&self, alloc: Global) -> Result<ShownList, Memory> {
        Ok(ShownList {
            cands: self.cands.copy(alloc)?,
        })
    }
}

// The candidate of a place, counted from 0, with its word.
fn word_at<'a>(key: &'a RowKey, cands: &'a Cands, place: usize) -> Shown<'a>
    requires { place < length cands.now }
    ensures { slice_get (map (shown_word key.now) cands.now) place
        ≡ Some (record { key = result.key.now; cand = result.cand.now; text = result.text.now }) }
{
    let cand = cands.at(place);
    Shown {
        key,
        cand,
        text: cand.word(),
    }
}

// Puts another candidate in the place of that of a place, where it has its word.
#[tactic(auto, using(crate::proofs::Puts::changes))]
fn put_cand(alloc: Global, cands: &mut Cands, place: usize, cand: Cand)
    requires { place < length cands.old }
    ensures { cands.new ≡ changed_at (renewed cand) cands.old place }
{
    if !is_same_word(cands.at(place), &cand) {
        return;
    }
    let mut items = mem::replace(cands, Cands::new(alloc)).into_vec();
    items[place] = cand;
    *cands = Cands::of(items);
}

// Whether two candidates have the same word.
pub(crate) fn is_same_word(cand: &Cand, other: &Cand) -> bool
    ensures { result ≡ same_text cand.now.word other.now.word }
{
    cand.word().as_str() == other.word().as_str()
}
