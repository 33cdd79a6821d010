ghost use Rattle.std.specs.Prelude.{◌≡◌, [], ℕ, List, IfOk};
ghost use Rattle.std.specs.Option.{option_map};
ghost use Rattle.std.specs.Str.{chars};
ghost use Rattle.exact_readers.specs.Formats.{whole};
ghost use Rattle.dict_format.specs.Words.{string_character, string_behind, quoted_word, marked_string, closed_strings};
ghost use Rattle.dict_format.specs.Words.{marked_strings, marked_words, said};

use crate::characters::string_character;
use exact_readers::{Reader, past, past_char, read_many};
use skk_text::{Memory, Text};
use std::alloc::Global;

// What stands before the string that a word is quoted by.
static QUOTED: [char; 9] = ['(', 'c', 'o', 'n', 'c', 'a', 't', ' ', '"'];

// What stands before the strings of a mark.
static MARKED: [char; 20] = [
    '(', 's', 'k', 'k', '-', 'i', 'g', 'n', 'o', 'r', 'e', '-', 'd', 'i', 'c', '-', 'w', 'o', 'r',
    'd',
];

// A text of its own.
pub fn plain(alloc: Global, text: &str) -> Result<Text, Memory>
    ensures { IfOk result (λ copy. copy ≡ chars text.now) }
{
    Text::from_str(alloc, text)
}

// The word that a text says: the one that it quotes, or itself.
pub fn word_of(alloc: Global, text: &str) -> Result<Text, Memory>
    ensures { IfOk result (λ word. word ≡ said (chars text.now)) }
{
    match said_by_form(alloc, text)? {
        Some(word) => Ok(word),
        None => plain(alloc, text),
    }
}

// The word that a whole text quotes, which is looked for where the text begins as a form does.
#[tactic(auto, using(crate::proofs::Forms::past_none))]
fn said_by_form(alloc: Global, text: &str) -> Result<Option<Text>, Memory>
    ensures { IfOk result (λ found. found ≡ whole quoted_word (chars text.now)) }
{
    match past_char(text, '(') {
        Some(_) => whole_quoted(alloc, &characters_of(alloc, text)?),
        None => Ok(None),
    }
}

// The words that a whole text marks, which are looked for where the text begins as a form does.
#[tactic(auto, using(crate::proofs::Forms::past_none))]
pub fn marked_by_form(alloc: Global, text: &str) -> Result<Option<Vec<Text>>, Memory>
    ensures { IfOk result (λ found. option_map (λ words. words.items) found
        ≡ whole marked_words (chars text.now)) }
{
    match past_char(text, '(') {
        Some(_) => whole_marked(alloc, &characters_of(alloc, text)?),
        None => Ok(None),
    }
}

// The characters of a text.
#[tactic(auto, using(std::proofs::lemmas::Str::chars_from_encodes))]
pub fn characters_of(alloc: Global, text: &str) -> Result<Vec<char>, Memory>
    ensures { IfOk result (λ characters. characters.items ≡ chars text.now) }
{
    Ok(text.chars().collect(alloc)?)
}

// The word that a whole text quotes.
fn whole_quoted(alloc: Global, text: &[char]) -> Result<Option<Text>, Memory>
    ensures { IfOk result (λ found. found ≡ whole quoted_word text.now) }
{
    match quoted_word(alloc, text)? {
        Some((word, [])) => Ok(Some(word)),
        _ => Ok(None),
    }
}

// The word that is quoted at the front of a text, and what stands behind it.
fn quoted_word(alloc: Global, text: &[char]) -> Result<Option<(Text, &[char])>, Memory>
    ensures { IfOk result (λ found. option_map (λ parts. (parts.0, parts.1.now)) found
        ≡ quoted_word.step text.now) }
{
    let Some(text) = past(text, &QUOTED) else {
        return Ok(None);
    };
    match string(alloc, text)? {
        Some((word, [')', rest @ ..])) => Ok(Some((word, rest))),
        _ => Ok(None),
    }
}

// The words that a whole text marks.
fn whole_marked(alloc: Global, text: &[char]) -> Result<Option<Vec<Text>>, Memory>
    ensures { IfOk result (λ found. option_map (λ words. words.items) found
        ≡ whole marked_words text.now) }
{
    match marked_words(alloc, text)? {
        Some((words, [])) => Ok(Some(words)),
        _ => Ok(None),
    }
}

// The words that are marked at the front of a text, and what stands behind them.
fn marked_words(alloc: Global, text: &[char]) -> Result<Option<(Vec<Text>, &[char])>, Memory>
    ensures { IfOk result (λ found. option_map (λ parts. (parts.0.items, parts.1.now)) found
        ≡ marked_words.step text.now) }
{
    match past(text, &MARKED) {
        Some(text) => some_strings(alloc, text),
        None => Ok(None),
    }
}

// The words of the strings of a mark, where there is one and a parenthesis closes it.
fn some_strings(alloc: Global, text: &[char]) -> Result<Option<(Vec<Text>, &[char])>, Memory>
    ensures { IfOk result (λ found. option_map (λ parts. (parts.0.items, parts.1.now)) found
        ≡ marked_strings.step text.now) }
{
    match closed_strings(alloc, text)? {
        Some((words, rest)) if !words.is_empty() => Ok(Some((words, rest))),
        _ => Ok(None),
    }
}

// The words of the strings of a mark up to the parenthesis that closes it.
#[tactic(auto, using(crate::proofs::Exactness::marked_string_exact))]
fn closed_strings(alloc: Global, text: &[char]) -> Result<Option<(Vec<Text>, &[char])>, Memory>
    ensures { IfOk result (λ found. option_map (λ parts. (parts.0.items, parts.1.now)) found
        ≡ closed_strings.step text.now) }
{
    let (words, rest) = read_many(alloc, &MarkedString, text)?;
    match rest {
        [')', rest @ ..] => Ok(Some((words, rest))),
        _ => Ok(None),
    }
}

// A string of a mark, behind its space.
struct MarkedString;

impl Reader<char> for MarkedString {
    type Value = Text;

    type Many = Vec<Text>;

    ghost Token = { ℕ };

    ghost Item = { List ℕ };

    ghost tokens = { λ text. text };

    ghost item = { λ word. word };

    ghost items = { λ words. words.items };

    ghost format = { λ _. marked_string };

    fn read<'t>(
        &self,
        alloc: Global,
        text: &'t [char],
    ) -> Result<Option<(Text, &'t [char])>, Memory> {
        match text {
            [' ', '"', rest @ ..] => string(alloc, rest),
            _ => Ok(None),
        }
    }

    fn none(alloc: Global) -> Vec<Text> {
        Vec::new(alloc)
    }

    fn push(words: &mut Vec<Text>, word: Text) -> Result<(), Memory> {
        words.push(word)?;
        Ok(())
    }
}

// The word of a string up to its closing double quote, and what stands behind that, where there is one.
#[tactic(auto, using(crate::proofs::Exactness::character_exact))]
fn string(alloc: Global, text: &[char]) -> Result<Option<(Text, &[char])>, Memory>
    ensures { IfOk result (λ found. option_map (λ parts. (parts.0, parts.1.now)) found
        ≡ string_behind.step text.now) }
{
    let (word, rest) = read_many(alloc, &StringCharacter, text)?;
    match rest {
        ['"', rest @ ..] => Ok(Some((word, rest))),
        _ => Ok(None),
    }
}

// A character of a string.
struct StringCharacter;

impl Reader<char> for StringCharacter {
    type Value = char;

    type Many = Text;

    ghost Token = { ℕ };

    ghost Item = { ℕ };

    ghost tokens = { λ text. text };

    ghost item = { λ c. c };

    ghost items = { λ word. word };

    ghost format = { λ _. string_character };

    fn read<'t>(
        &self,
        _alloc: Global,
        text: &'t [char],
    ) -> Result<Option<(char, &'t [char])>, Memory> {
        Ok(string_character(text))
    }

    fn none(alloc: Global) -> Text {
        Text::new(alloc)
    }

    fn push(word: &mut Text, c: char) -> Result<(), Memory> {
        word.push(c)?;
        Ok(())
    }
}
