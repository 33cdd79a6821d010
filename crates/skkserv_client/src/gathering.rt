ghost use Rattle.std.specs.Prelude.{◌≡◌, ◌<◌, ◌+◌, ◌^◌, true, map, IfOk, OnOk};
ghost use Rattle.std.specs.List.{flat_map, list_all};
ghost use Rattle.skk_text.specs.Text.{byte_len};
ghost use Rattle.skk_calls.specs.Canonical.{with_slash};
ghost use Rattle.skk_calls.specs.Rows.{is_cand};
ghost use Rattle.word_sets.specs.Strings.{as_cand};
ghost use Rattle.exact_readers.specs.Lacking.{lacks};
ghost use Rattle.dict_format.specs.RowOfItems.{words_once};
ghost use Rattle.dict_format.specs.Views.{texts_seen};
ghost use Rattle.skkserv_client.specs.Gathering.{AddsText, GivesCands, with_reading};
ghost use Rattle.word_sets.specs.Firsts.{with_new};

use crate::told::AskFault;
use dict_format::{ItemFault, read_item};
use skk_calls::{Cand, Cands};
use skk_text::{Memory, Text, Texts};
use std::alloc::Global;
use word_sets::{WordMap, WordSet};

// Where the first text of a list stands in its line, behind `1/`.
const FIRST_TEXT: u64 = 2;

/// The candidates that texts are, the first of each word that is not empty, where none of them is too long.
pub fn cands_of(alloc: Global, texts: &[&str]) -> Result<Cands, AskFault>
    requires short { byte_len (flat_map with_slash (texts_seen texts.now)) < 2 ^ 63 }
    requires apart { list_all (lacks 0x2F) (texts_seen texts.now) ≡ true }
    ensures { GivesCands (texts_seen texts.now) result }
{
    let mut cands = WordMap::new(alloc);
    let mut at = FIRST_TEXT;
    for text in texts {
        let item = Text::from_str(alloc, text)?;
        let behind = place_behind(at, &item);
        add_cand(alloc, &mut cands, item, at)?;
        at = behind;
    }
    Ok(cands.into_cands(alloc)?)
}

// Where the next text stands behind one that stands at this byte, and its slash.
fn place_behind(at: u64, text: &Text) -> u64
    requires { at + (byte_len text.now + 1) < 2 ^ 64 }
    ensures { result ≡ at + (byte_len text.now + 1) }
{
    at + (text.byte_len() as u64 + 1)
}

// Adds the candidate that a text is, which stands at this byte, unless its word is empty or came before.
fn add_cand(alloc: Global, cands: &mut WordMap<Text>, item: Text, at: u64) -> Result<(), AskFault>
    requires { lacks 0x2F item ≡ true }
    ensures { AddsText item at (map as_cand cands.old) (map as_cand cands.new) result }
{
    match read_item(alloc, &item) {
        Ok(Some(cand)) => {
            insert(alloc, cands, cand)?;
            Ok(())
        }
        Ok(None) => Ok(()),
        Err(ItemFault::Long) => Err(AskFault::BadReply { at }),
        Err(ItemFault::Memory) => Err(AskFault::Memory),
    }
}

// Adds a candidate, unless its word came before.
#[tactic(auto, using(crate::proofs::Gathered::insert_more))]
fn insert(alloc: Global, cands: &mut WordMap<Text>, cand: Cand) -> Result<(), Memory>
    ensures added { OnOk result (map as_cand cands.new ≡ with_new (λ c. c.word) (map as_cand cands.old) cand) }
    ensures valid { is_cand cand ≡ true }
{
    let (word, note) = cand.into_parts();
    cands.insert(word.to_string(alloc)?, note)?;
    Ok(())
}

/// The readings that texts are, each once that is not empty.
pub fn readings_of(alloc: Global, texts: &[&str]) -> Result<Texts, Memory>
    ensures { IfOk result (λ readings. readings ≡ words_once (texts_seen texts.now)) }
{
    let mut readings = WordSet::new(alloc);
    for text in texts {
        add_reading(alloc, &mut readings, Text::from_str(alloc, text)?)?;
    }
    readings.into_texts(alloc)
}

// Adds a reading, unless it is empty or came before.
fn add_reading(alloc: Global, readings: &mut WordSet, reading: Text) -> Result<(), Memory>
    ensures { OnOk result (readings.new ≡ with_reading readings.old reading) }
{
    if !reading.is_empty() {
        readings.insert(reading.to_string(alloc)?)?;
    }
    Ok(())
}
