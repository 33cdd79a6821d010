ghost use Rattle.std.specs.Prelude.{◌≡◌, nat_le, Some, IfSome};
ghost use Rattle.std.specs.Option.{option_map};
ghost use Rattle.std.specs.Str.{chars};
ghost use Rattle.skk_text.specs.Text.{byte_len};
ghost use Rattle.skk_calls.specs.declared.part.Part.TheVariants.{Nasi};
ghost use Rattle.skk_calls.specs.Rows.{is_row_key, word_limit};
ghost use Rattle.exact_readers.specs.Lacking.{lacks};
ghost use Rattle.dict_format.specs.EntryRows.{row_of_line};
ghost use Rattle.dict_format.specs.Reasons.{ends_in_slash};
ghost use Rattle.dict_files.specs.PlainLines.{begins_word, is_plain, plain_reading};
ghost use Rattle.dict_files.specs.Walked.{walked_reading};

use dict_format::lines_spell_one_row;
use exact_readers::{cut_at, past_char};
use skk_calls::{READING_LIMIT, WORD_LIMIT, are_reading_chars, begins_well};

/// The reading of a line that is plain: it spells a row of the okuri-nasi part with a candidate, whatever its words
/// are. Takes time in the line's length, and no memory.
pub fn plain_reading(line: &str) -> Option<&str>
    ensures value { option_map (λ reading. chars reading.now) result ≡ plain_reading (chars line.now) }
    ensures walked { IfSome result
        (λ reading. walked_reading (row_of_line Nasi (chars line.now)) ≡ Some (chars reading.now)) }
{
    lines_spell_one_row();
    let (reading, rest) = cut_at(line, ' ')?;
    let behind = past_char(rest, '/')?;
    if is_plain(line, reading, behind) {
        Some(reading)
    } else {
        None
    }
}

// Whether a line is plain which begins with a reading, a space and a slash, with this behind it.
fn is_plain(line: &str, reading: &str, behind: &str) -> bool
    ensures { result ≡ is_plain (chars line.now) (chars reading.now) (chars behind.now) }
{
    is_short(line)
        && lacks_forms(line)
        && is_plain_reading(reading)
        && begins_word(behind)
        && ends_in_slash(behind)
}

// Whether a line is no longer than a word may be.
#[tactic(auto, using(crate::proofs::PlainLines::bytes))]
fn is_short(line: &str) -> bool
    ensures { result ≡ nat_le (byte_len (chars line.now)) word_limit }
{
    line.len() <= WORD_LIMIT
}

// Whether a line holds no parenthesis, with which a form begins.
fn lacks_forms(line: &str) -> bool
    ensures { result ≡ lacks 0x28 (chars line.now) }
{
    line.chars().all(|c| c != '(')
}

// Whether a reading is valid without okurigana.
#[tactic(auto, using(crate::proofs::PlainLines::bytes))]
fn is_plain_reading(reading: &str) -> bool
    ensures { result ≡ is_row_key (record { part = Nasi; reading = chars reading.now }) }
{
    begins_well(reading) && are_reading_chars(reading) && reading.len() <= READING_LIMIT
}

// Whether a text begins with a word.
fn begins_word(text: &str) -> bool
    ensures { result ≡ begins_word (chars text.now) }
{
    match text.chars().next() {
        Some(c) => c != '/' && c != ';',
        None => false,
    }
}

// Whether the last character of a text is a slash.
fn ends_in_slash(text: &str) -> bool
    ensures { result ≡ ends_in_slash (chars text.now) }
{
    match text.strip_suffix('/') {
        Some(_) => true,
        None => false,
    }
}
