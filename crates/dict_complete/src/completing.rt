ghost use Rattle.std.specs.Prelude.{◌≡◌, ◌<◌, [], length, get_or, fold, IfOk, OnOk};
ghost use Rattle.std.specs.List.{filter};
ghost use Rattle.skk_calls.specs.Completions.{completion_limit, goes_on_from};
ghost use Rattle.word_sets.specs.Firsts.{with_new};
ghost use Rattle.dict_complete.specs.Joined.{completions_among, with_more};

use crate::prefixes::begins_with;
use skk_calls::Walk;
use skk_text::{Copies, Memory, Sequence, Text, Texts};
use std::alloc::Global;
use word_sets::WordSet;

/// The most readings that a completion gives.
pub const COMPLETION_LIMIT: usize = 256;

/// Lists of readings in order.
pub type TextLists = Sequence<Texts>;

/// The completions of a prefix: the readings of books, which are given in their order, and those of each system file
/// that go on from the prefix, the first of each. Takes time in the readings that it goes over, and a step of the walk
/// for each of a file, but none once there are as many as are given.
pub fn complete<W: Walk>(
    alloc: Global,
    lists: &TextLists,
    system: &W,
    prefix: &Text,
) -> Result<Texts, Memory>
    ensures { IfOk result
        (λ readings. readings ≡ completions_among lists.now (W.files system.now) prefix.now) }
{
    let mut readings = WordSet::new(alloc);
    for list in lists.as_slice() {
        add_readings(alloc, &mut readings, list.as_slice())?;
    }
    for file in 0..system.files() {
        add_file(alloc, &mut readings, system, file, prefix)?;
    }
    readings.into_texts(alloc)
}

// Adds copies of readings that are new, up to as many as are given.
fn add_readings(alloc: Global, readings: &mut WordSet, more: &[Text]) -> Result<(), Memory>
    ensures { OnOk result (readings.new ≡ fold (with_more completion_limit) readings.old more.now) }
{
    for reading in more {
        if readings.len() >= COMPLETION_LIMIT {
            break;
        }
        add_new(alloc, readings, reading)?;
    }
    Ok(())
}

// Adds the readings of a file that go on from a prefix and are new, up to as many as are given. They lie together in
// the walk, behind the prefix.
fn add_file<W: Walk>(
    alloc: Global,
    readings: &mut WordSet,
    system: &W,
    file: usize,
    prefix: &Text,
) -> Result<(), Memory>
    requires { file < length (W.files system.now) }
    ensures { OnOk result (readings.new ≡ fold (with_more completion_limit) readings.old
        (filter (goes_on_from prefix.now) (get_or (W.files system.now) file []))) }
{
    let mut low = prefix.copy(alloc)?;
    while readings.len() < COMPLETION_LIMIT {
        let Some(next) = system.above(alloc, file, &low)? else {
            break;
        };
        if !begins_with(&next, prefix) {
            break;
        }
        add_new(alloc, readings, &next)?;
        low = next;
    }
    Ok(())
}

// Adds a copy of a reading, if it is a new one.
fn add_new(alloc: Global, readings: &mut WordSet, reading: &Text) -> Result<(), Memory>
    ensures { OnOk result (readings.new ≡ with_new (λ text. text) readings.old reading.now) }
{
    if !readings.contains(reading) {
        readings.insert(reading.to_string(alloc)?)?;
    }
    Ok(())
}
