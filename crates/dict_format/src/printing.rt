ghost use Rattle.std.specs.Prelude.{◌≡◌, ◌++◌, ◌∷◌, ℕ, true, IfOk, OnOk};
ghost use Rattle.std.specs.List.{flat_map};
ghost use Rattle.dict_format.specs.Lines.{SpellsRow};
ghost use Rattle.skk_calls.specs.Rows.{is_row};
ghost use Rattle.skk_calls.specs.Canonical.{canonical, is_good, item, with_slash, char_in_string, quoted, written_word};
ghost use Rattle.skk_calls.specs.Canonical.{written_note, written_block, mark_items};

use crate::laws::good_rows_are_read_again;
use exact_readers::{Printer, print_each};
use skk_calls::{Block, Cand, Row, needs_quotes};
use skk_text::{Memory, Text, Texts};
use std::alloc::Global;

/// The canonical line of a row, which says nothing of its stamp. That of a good row is read again as the row, with
/// stamp 0.
#[tactic(auto, using(std::proofs::lemmas::Grind::common_steps))]
pub fn print_line(alloc: Global, row: &Row) -> Result<Text, Memory>
    ensures canonical { IfOk result (λ line. line ≡ canonical row.now) }
    ensures read_again { is_good row.now ≡ true
        → IfOk result (λ line. SpellsRow row.now.key.part line (record row.now { stamp = 0 })) }
{
    good_rows_are_read_again();
    let mut line = Text::new(alloc);
    push_line(&mut line, row)?;
    Ok(line)
}

// Adds the canonical line of a row.
#[tactic(auto, using(crate::proofs::Hints::line_is), unfolding(crate::proofs::Hints::chars))]
pub fn push_line(text: &mut Text, row: &Row) -> Result<(), Memory>
    ensures ok { OnOk result (text.new ≡ text.old ++ canonical row.now) }
    ensures valid { is_row row.now ≡ true }
{
    text.push_str(row.key().reading().as_str())?;
    text.push_str(" /")?;
    print_each::<CandItem>(text, row.cands().as_slice())?;
    print_each::<BlockItem>(text, row.blocks().as_slice())?;
    push_mark(text, row.hides())?;
    Ok(())
}

/// A candidate as an item of a line.
pub fn print_item(alloc: Global, cand: &Cand) -> Result<Text, Memory>
    ensures { IfOk result (λ text. text ≡ item cand.now) }
{
    let mut text = Text::new(alloc);
    push_item(&mut text, cand)?;
    Ok(text)
}

// A candidate as an item, with its slash.
struct CandItem;

impl Printer for CandItem {
    type Page = Text;

    type Value = Cand;

    ghost Token = { ℕ };

    ghost shown = { λ text. text };

    ghost printed = { λ cand. with_slash (item cand) };

    fn print(line: &mut Text, cand: &Cand) -> Result<(), Memory> {
        push_item(line, cand)?;
        line.push('/')
    }
}

/// Adds a candidate as an item of a line: its word, and its note where it has one. Takes memory only where the line
/// grows.
pub fn push_item(line: &mut Text, cand: &Cand) -> Result<(), Memory>
    ensures { OnOk result (line.new ≡ line.old ++ item cand.now) }
{
    push_word(line, cand.word())?;
    push_note(line, cand.note())
}

// Adds a note behind its semicolon, where there is one.
#[tactic(auto, using(std::proofs::lemmas::Grind::common_steps))]
fn push_note(line: &mut Text, note: &Text) -> Result<(), Memory>
    ensures { OnOk result (line.new ≡ line.old ++ written_note note.now) }
{
    if note.is_empty() {
        return Ok(());
    }
    line.push(';')?;
    line.push_str(note.as_str())
}

// A block as an item, with its slash.
struct BlockItem;

impl Printer for BlockItem {
    type Page = Text;

    type Value = Block;

    ghost Token = { ℕ };

    ghost shown = { λ text. text };

    ghost printed = { λ block. with_slash (written_block block) };

    fn print(line: &mut Text, block: &Block) -> Result<(), Memory> {
        push_block(line, block)?;
        line.push('/')
    }
}

// Adds a block: its okurigana and its words between brackets.
fn push_block(line: &mut Text, block: &Block) -> Result<(), Memory>
    ensures { OnOk result (line.new ≡ line.old ++ written_block block.now) }
{
    line.push('[')?;
    line.push_str(block.okuri().text().as_str())?;
    line.push('/')?;
    print_each::<BlockWord>(line, block.words().as_slice())?;
    line.push(']')
}

// A word in a block, with its slash.
struct BlockWord;

impl Printer for BlockWord {
    type Page = Text;

    type Value = Text;

    ghost Token = { ℕ };

    ghost shown = { λ text. text };

    ghost printed = { λ word. with_slash (written_word word) };

    fn print(line: &mut Text, word: &Text) -> Result<(), Memory> {
        push_word(line, word)?;
        line.push('/')
    }
}

// Adds a word, quoted where it could not be read as it is.
#[tactic(auto, using(std::proofs::lemmas::Grind::common_steps), unfolding(crate::proofs::Hints::chars))]
fn push_word(line: &mut Text, word: &Text) -> Result<(), Memory>
    ensures { OnOk result (line.new ≡ line.old ++ written_word word.now) }
{
    if !needs_quotes(word) {
        line.push_str(word.as_str())?;
        return Ok(());
    }
    line.push_str("(concat ")?;
    push_string(line, word)?;
    line.push(')')?;
    Ok(())
}

// Adds a text as a string in double quotes.
fn push_string(line: &mut Text, text: &Text) -> Result<(), Memory>
    ensures { OnOk result (line.new ≡ line.old ++ quoted text.now) }
{
    line.push('"')?;
    push_characters(line, text)?;
    line.push('"')
}

// Adds the characters of a text as they stand in a string.
#[tactic(auto, using(std::proofs::lemmas::Grind::common_steps))]
fn push_characters(line: &mut Text, text: &Text) -> Result<(), Memory>
    ensures { OnOk result (line.new ≡ line.old ++ flat_map char_in_string text.now) }
{
    for c in text.as_str().chars() {
        push_character(line, c)?;
    }
    Ok(())
}

// Adds a character as it stands in a string.
#[tactic(auto, unfolding(crate::proofs::Hints::chars))]
fn push_character(line: &mut Text, c: char) -> Result<(), Memory>
    ensures { OnOk result (line.new ≡ line.old ++ char_in_string c) }
{
    match c {
        '/' => line.push_str("\\057"),
        ';' => line.push_str("\\073"),
        '"' => line.push_str("\\\""),
        '\\' => line.push_str("\\\\"),
        '\r' => line.push_str("\\r"),
        '\n' => line.push_str("\\n"),
        _ => line.push(c),
    }
}

// Adds one mark with all words that are hidden, and its slash, where there are any.
#[tactic(auto, using(crate::proofs::Hints::marks), unfolding(crate::proofs::Hints::chars))]
fn push_mark(line: &mut Text, hides: &Texts) -> Result<(), Memory>
    ensures { OnOk result (line.new ≡ line.old ++ flat_map with_slash (mark_items hides.now)) }
{
    if hides.is_empty() {
        return Ok(());
    }
    line.push_str("(skk-ignore-dic-word")?;
    print_each::<HiddenWord>(line, hides.as_slice())?;
    line.push_str(")/")?;
    Ok(())
}

// A hidden word as a string of a mark, behind its space.
struct HiddenWord;

impl Printer for HiddenWord {
    type Page = Text;

    type Value = Text;

    ghost Token = { ℕ };

    ghost shown = { λ text. text };

    ghost printed = { λ word. 0x20 ∷ quoted word };

    fn print(line: &mut Text, word: &Text) -> Result<(), Memory> {
        line.push(' ')?;
        push_string(line, word)
    }
}
