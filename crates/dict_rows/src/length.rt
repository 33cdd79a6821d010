ghost use Rattle.std.specs.Prelude.{◌≡◌, ◌∷◌, length};
ghost use Rattle.std.specs.List.{flat_map};
ghost use Rattle.skk_text.specs.Text.{byte_len};
ghost use Rattle.skk_calls.specs.Canonical.{char_in_string, item, mark_items, quoted, with_slash, written_block};
ghost use Rattle.skk_calls.specs.Canonical.{written_note, written_word};
ghost use Rattle.skk_calls.specs.Dictionary.{line_length};
ghost use Rattle.dict_rows.specs.Lengths.{told_len};

use skk_calls::{Block, Cand, Row, needs_quotes};
use skk_text::Text;

/// How many bytes a row's line has, or 2^64 - 1 where it has more. Takes no memory, and time in what the row holds: the
/// line is not printed.
pub fn line_length(row: &Row) -> u64
    ensures { result ≡ line_length row.now }
{
    len_of(row.key().reading())
        .saturating_add(len(" /"))
        .saturating_add(cands_len(row.cands().as_slice()))
        .saturating_add(blocks_len(row.blocks().as_slice()))
        .saturating_add(mark_len(row.hides().as_slice()))
}

// How many bytes a string has.
fn len(text: &str) -> u64
    ensures { result ≡ length text.now }
{
    text.len() as u64
}

// How many bytes a text has.
fn len_of(text: &Text) -> u64
    ensures { result ≡ byte_len text.now }
{
    text.byte_len() as u64
}

// How long the items of candidates are, each with its slash.
fn cands_len(cands: &[Cand]) -> u64
    ensures { result ≡ told_len (flat_map (λ cand. with_slash (item cand)) cands.now) }
{
    let mut bytes = 0u64;
    for cand in cands {
        bytes = bytes
            .saturating_add(cand_len(cand))
            .saturating_add(len("/"));
    }
    bytes
}

// How long a candidate's item is: its word, and its note where it has one.
fn cand_len(cand: &Cand) -> u64
    ensures { result ≡ told_len (item cand.now) }
{
    word_len(cand.word()).saturating_add(note_len(cand.note()))
}

// How long a note is behind its semicolon, where there is one.
fn note_len(note: &Text) -> u64
    ensures { result ≡ told_len (written_note note.now) }
{
    match len_of(note) {
        0 => 0,
        bytes => bytes.saturating_add(len(";")),
    }
}

// How long the items of blocks are, each with its slash.
fn blocks_len(blocks: &[Block]) -> u64
    ensures { result ≡ told_len (flat_map (λ block. with_slash (written_block block)) blocks.now) }
{
    let mut bytes = 0u64;
    for block in blocks {
        bytes = bytes
            .saturating_add(block_len(block))
            .saturating_add(len("/"));
    }
    bytes
}

// How long a block's item is: its okurigana and its words between brackets.
fn block_len(block: &Block) -> u64
    ensures { result ≡ told_len (written_block block.now) }
{
    len_of(block.okuri().text())
        .saturating_add(len("[/]"))
        .saturating_add(words_len(block.words().as_slice()))
}

// How long words are, each with its slash.
fn words_len(words: &[Text]) -> u64
    ensures { result ≡ told_len (flat_map (λ word. with_slash (written_word word)) words.now) }
{
    let mut bytes = 0u64;
    for word in words {
        bytes = bytes
            .saturating_add(word_len(word))
            .saturating_add(len("/"));
    }
    bytes
}

// How long a word is as it is written, which is quoted where it could not be read as it is.
fn word_len(word: &Text) -> u64
    ensures { result ≡ told_len (written_word word.now) }
{
    if needs_quotes(word) {
        string_len(word).saturating_add(len("(concat )"))
    } else {
        len_of(word)
    }
}

// How long the mark of the words that are hidden is with its slash, where there are any.
fn mark_len(hides: &[Text]) -> u64
    ensures { result ≡ told_len (flat_map with_slash (mark_items hides.now)) }
{
    if hides.is_empty() {
        return 0;
    }
    strings_len(hides).saturating_add(len("(skk-ignore-dic-word)/"))
}

// How long words are as strings, each behind a space.
fn strings_len(words: &[Text]) -> u64
    ensures { result ≡ told_len (flat_map (λ word. 0x20 ∷ quoted word) words.now) }
{
    let mut bytes = 0u64;
    for word in words {
        bytes = bytes
            .saturating_add(string_len(word))
            .saturating_add(len(" "));
    }
    bytes
}

// How long a text is as a string in double quotes.
fn string_len(text: &Text) -> u64
    ensures { result ≡ told_len (quoted text.now) }
{
    let mut bytes = len("\"\"");
    for c in text.as_str().chars() {
        bytes = bytes.saturating_add(char_len(c));
    }
    bytes
}

// How many bytes a character has as it stands in a string.
fn char_len(c: char) -> u64
    ensures { result ≡ byte_len (char_in_string c) }
{
    match c {
        '/' => len("\\057"),
        ';' => len("\\073"),
        '"' => len("\\\""),
        '\\' => len("\\\\"),
        '\r' => len("\\r"),
        '\n' => len("\\n"),
        _ => c.len_utf8() as u64,
    }
}
