ghost use Rattle.std.specs.Prelude.{◌≡◌, ◌∷◌, ◌++◌, ◌+◌, ◌==◌, ◌||◌, [], ℕ, List, not, if◌then◌else◌, Some, None};
ghost use Rattle.std.specs.Prelude.{map, drop, IfOk, OnOk};
ghost use Rattle.std.specs.List.{filter, list_all};
ghost use Rattle.std.specs.Option.{option_map};
ghost use Rattle.std.specs.Str.{chars};
ghost use Rattle.exact_readers.specs.Formats.{mapped, all};
ghost use Rattle.dict_format.specs.Items.{Item as said_item};
ghost use Rattle.dict_format.specs.Items.Item.{block};
ghost use Rattle.dict_format.specs.Items.{at_note, before_note, note_of_text};
ghost use Rattle.dict_format.specs.Items.{opens_block, closes_block, mark_or_candidate};
ghost use Rattle.dict_format.specs.Items.{single_item, inside_block, block_words, item_format};
ghost use Rattle.dict_format.specs.Reading.{fit_items_at};
ghost use Rattle.dict_format.specs.RowOfItems.{fits, item_fits};
ghost use Rattle.dict_format.specs.Views.{item_said, texts_seen, Gives};
ghost use Rattle.dict_format.specs.Words.{said};

use crate::reason::{LineFault, LineReason};
use crate::words::{characters_of, marked_by_form, plain, word_of};
use exact_readers::{Reader, cut_at, past_char, read_many};
use skk_calls::{Part, WORD_LIMIT};
use skk_text::{Memory, Text};
use std::alloc::Global;

// An item of a line.
#[derive(Debug, Drop)]
pub enum Item {
    // A word and its note.
    Candidate { word: Text, note: Text },
    // An okurigana, whatever that is, and its words.
    Block { okuri: Text, words: Vec<Text> },
    // Words that are hidden.
    Mark { words: Vec<Text> },
}

// The items that texts spell, none of which is too long.
#[tactic(auto, using(crate::proofs::Hints::items_fit), unfolding(crate::specs::Reading::fit_items_at))]
pub fn items_of(alloc: Global, part: Part, texts: &[&str]) -> Result<Vec<Item>, LineFault>
    ensures { Gives (λ items. map item_said items.items) result (fit_items_at part (texts_seen texts.now)) }
{
    let Some(items) = whole_items(alloc, part, texts)? else {
        return Err(LineFault::Reason(LineReason::Block));
    };
    if !are_fit(&items) {
        return Err(LineFault::Reason(LineReason::LongCandidate));
    }
    Ok(items)
}

// The items that all texts spell, unless a block is not closed.
#[tactic(auto, using(crate::proofs::Exactness::item_exact))]
fn whole_items(alloc: Global, part: Part, texts: &[&str]) -> Result<Option<Vec<Item>>, Memory>
    ensures { IfOk result (λ found. option_map (λ items. map item_said items.items) found
        ≡ all (item_format part) (texts_seen texts.now)) }
{
    match read_many(alloc, &Items { part }, texts)? {
        (items, []) => Ok(Some(items)),
        _ => Ok(None),
    }
}

// The items of a part.
#[derive(Clone, Copy)]
struct Items {
    part: Part,
}

impl<'c> Reader<&'c str> for Items {
    type Value = Item;

    type Many = Vec<Item>;

    ghost Token = { List ℕ };

    ghost Item = { said_item };

    ghost tokens = { texts_seen };

    ghost item = { item_said };

    ghost items = { λ items. map item_said items.items };

    ghost format = { λ items. item_format items.part };

    fn read<'t>(
        &self,
        alloc: Global,
        texts: &'t [&'c str],
    ) -> Result<Option<(Item, &'t [&'c str])>, Memory>
        ensures { IfOk result (λ found. option_map (λ parts. (item_said parts.0, texts_seen parts.1.now)) found
            ≡ (item_format self.now.part).step (texts_seen texts.now)) }
    {
        first_item(alloc, self.part, texts)
    }

    fn none(alloc: Global) -> Vec<Item>
        ensures { map item_said result.items ≡ [] }
    {
        Vec::new(alloc)
    }

    fn push(items: &mut Vec<Item>, item: Item) -> Result<(), Memory>
        ensures { OnOk result (map item_said items.new.items ≡ map item_said items.old.items ++ item_said item ∷ []) }
    {
        items.push(item)?;
        Ok(())
    }
}

// The item that the first texts spell, and the texts behind them.
fn first_item<'t, 'c>(
    alloc: Global,
    part: Part,
    texts: &'t [&'c str],
) -> Result<Option<(Item, &'t [&'c str])>, Memory>
    ensures { IfOk result (λ found. option_map (λ parts. (item_said parts.0, texts_seen parts.1.now)) found
        ≡ (item_format part).step (texts_seen texts.now)) }
{
    let [text, rest @ ..] = texts else {
        return Ok(None);
    };
    match okuri_of(part, text) {
        Some(okuri) => block_behind(alloc, okuri, rest),
        None => Ok(Some((single_item(alloc, text)?, rest))),
    }
}

// What stands behind the bracket that opens a block, where a text begins with it.
#[tactic(auto, using(crate::proofs::Forms::behind_bracket))]
fn okuri_of(part: Part, text: &str) -> Option<&str>
    ensures { option_map (λ okuri. chars okuri.now) result
        ≡ (if opens_block part (chars text.now) then Some (drop 1 (chars text.now)) else None) }
{
    match part {
        Part::Nasi => None,
        Part::Ari => past_char(text, '['),
    }
}

// The block that texts behind its first one close, and the texts behind it.
fn block_behind<'t, 'c>(
    alloc: Global,
    okuri: &str,
    texts: &'t [&'c str],
) -> Result<Option<(Item, &'t [&'c str])>, Memory>
    ensures { IfOk result (λ found. option_map (λ parts. (item_said parts.0, texts_seen parts.1.now)) found
        ≡ (mapped (block (chars okuri.now)) block_words).step (texts_seen texts.now)) }
{
    let Some((words, rest)) = closed_words(alloc, texts)? else {
        return Ok(None);
    };
    let okuri = plain(alloc, okuri)?;
    Ok(Some((Item::Block { okuri, words }, rest)))
}

// The words of texts up to the one that closes their block, and the texts behind that.
#[tactic(auto, using(crate::proofs::Exactness::inside_exact))]
fn closed_words<'t, 'c>(
    alloc: Global,
    texts: &'t [&'c str],
) -> Result<Option<(Vec<Text>, &'t [&'c str])>, Memory>
    ensures { IfOk result (λ found. option_map (λ parts. (parts.0.items, texts_seen parts.1.now)) found
        ≡ block_words.step (texts_seen texts.now)) }
{
    let (words, rest) = read_many(alloc, &WordInside, texts)?;
    match rest {
        [end, behind @ ..] if closes_block(end) => Ok(Some((words, behind))),
        _ => Ok(None),
    }
}

// A word in a block.
struct WordInside;

impl<'c> Reader<&'c str> for WordInside {
    type Value = Text;

    type Many = Vec<Text>;

    ghost Token = { List ℕ };

    ghost Item = { List ℕ };

    ghost tokens = { texts_seen };

    ghost item = { λ word. word };

    ghost items = { λ words. words.items };

    ghost format = { λ _. inside_block };

    fn read<'t>(
        &self,
        alloc: Global,
        texts: &'t [&'c str],
    ) -> Result<Option<(Text, &'t [&'c str])>, Memory>
        ensures { IfOk result (λ found. option_map (λ parts. (parts.0, texts_seen parts.1.now)) found
            ≡ inside_block.step (texts_seen texts.now)) }
    {
        match texts {
            [text, behind @ ..] if !closes_block(text) => {
                Ok(Some((word_of(alloc, at_note(text).0)?, behind)))
            }
            _ => Ok(None),
        }
    }

    fn none(alloc: Global) -> Vec<Text>
        ensures { result.items ≡ [] }
    {
        Vec::new(alloc)
    }

    fn push(words: &mut Vec<Text>, word: Text) -> Result<(), Memory>
        ensures { OnOk result (words.new.items ≡ words.old.items ++ word ∷ []) }
    {
        words.push(word)?;
        Ok(())
    }
}

// Whether a text is the bracket that closes a block.
fn closes_block(text: &str) -> bool
    ensures { result ≡ closes_block (chars text.now) }
{
    text == "]"
}

// A text without its note, and the note, which stands behind the first semicolon.
#[tactic(auto, using(crate::proofs::Hints::no_text))]
fn at_note(text: &str) -> (&str, &str)
    ensures { at_note (chars text.now) ≡ (chars result.0.now, chars result.1.now) }
{
    match cut_at(text, ';') {
        Some((word, note)) => (word, note),
        None => (text, ""),
    }
}

// The item that a text outside of blocks is: a mark, or else a candidate.
fn single_item(alloc: Global, text: &str) -> Result<Item, Memory>
    ensures { IfOk result (λ item. item_said item ≡ single_item (chars text.now)) }
{
    match marked_by_form(alloc, text)? {
        Some(words) => Ok(Item::Mark { words }),
        None => candidate(alloc, text),
    }
}

// The candidate that a text is.
fn candidate(alloc: Global, text: &str) -> Result<Item, Memory>
    ensures { IfOk result (λ item. item_said item ≡ mark_or_candidate (chars text.now) None) }
{
    let (word, note) = word_and_note(alloc, text)?;
    Ok(Item::Candidate { word, note })
}

// The word and the note of a text that is a candidate.
pub fn word_and_note(alloc: Global, text: &str) -> Result<(Text, Text), Memory>
    ensures word { IfOk result (λ parts. parts.0 ≡ said (before_note (chars text.now))) }
    ensures note { IfOk result (λ parts. parts.1 ≡ note_of_text (chars text.now)) }
{
    let (word, note) = at_note(text);
    let word = word_of(alloc, word)?;
    let note = without_line_ends(alloc, note)?;
    Ok((word, note))
}

// A text without ends of lines.
#[tactic(auto, using(skk_text::specs::FilterLaws::filter_all))]
fn without_line_ends(alloc: Global, text: &str) -> Result<Text, Memory>
    ensures { IfOk result (λ note. note ≡ filter (λ c. not (c == 13 || c == 10)) (chars text.now)) }
{
    if lacks_line_ends(text) {
        let note = plain(alloc, text)?;
        Ok(note)
    } else {
        no_line_ends(alloc, &characters_of(alloc, text)?)
    }
}

// The text of the characters that are no ends of lines.
#[tactic(auto, using(crate::proofs::Strings::characters_encoded))]
fn no_line_ends(alloc: Global, text: &[char]) -> Result<Text, Memory>
    ensures { IfOk result (λ note. note ≡ filter (λ c. not (c == 13 || c == 10)) text.now) }
{
    let kept: String = text
        .iter()
        .copied()
        .filter(|c| !(*c == '\r' || *c == '\n'))
        .collect(alloc)?;
    Ok(Text::of(kept))
}

// Whether no character ends a line: no byte of another character is CR or LF.
#[tactic(auto, using(crate::proofs::Strings::line_ends_are_bytes))]
fn lacks_line_ends(text: &str) -> bool
    ensures { result ≡ list_all (λ c. not (c == 13 || c == 10)) (chars text.now) }
{
    no_byte_ends_a_line(text.as_bytes())
}

// Whether no byte is CR or LF.
fn no_byte_ends_a_line(bytes: &[u8]) -> bool
    ensures { result ≡ list_all (λ byte. not (byte == 13 || byte == 10)) bytes.now }
{
    bytes.iter().all(|byte| !(*byte == b'\r' || *byte == b'\n'))
}

// Whether no word of the items is too long.
fn are_fit(items: &[Item]) -> bool
    ensures { result ≡ list_all (λ item. item_fits (item_said item)) items.now }
{
    items.iter().all(is_fit)
}

// Whether no word of an item is too long.
fn is_fit(item: &Item) -> bool
    ensures { result ≡ item_fits (item_said item.now) }
{
    match item {
        Item::Candidate { word, note } => word.as_str().len() + note.as_str().len() <= WORD_LIMIT,
        Item::Block { words, .. } => words_fit(words),
        Item::Mark { words } => words_fit(words),
    }
}

// Whether no word is too long.
fn words_fit(words: &[Text]) -> bool
    ensures { result ≡ list_all fits words.now }
{
    words.iter().all(word_fits)
}

// Whether a word is not too long.
fn word_fits(word: &Text) -> bool
    ensures { result ≡ fits word.now }
{
    word.byte_len() <= WORD_LIMIT
}
