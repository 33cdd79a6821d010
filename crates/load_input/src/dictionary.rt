ghost use Rattle.std.specs.Prelude.{◌≡◌, ◌++◌, IfOk, OnOk, List, map, true};
ghost use Rattle.std.specs.List.{flat_map, list_all};
ghost use Rattle.skk_calls.specs.Rows.{is_cand, is_row};
ghost use Rattle.load_input.specs.Dictionary.{candidate, cands_of, dictionary_rows, kana, row_of, rows_from};

use skk_calls::{Blocks, Book, Cand, Cands, Part, Row, RowKey, Rows};
use skk_text::{Memory, Text, Texts, to_katakana};
use std::alloc::Global;

// The kana of the syllables.
static KANA: [char; 16] = [
    'か', 'き', 'く', 'け', 'こ', 'さ', 'し', 'す', 'せ', 'そ', 'た', 'ち', 'つ', 'て', 'と', 'な',
];

// What the candidates of a row end with.
static DIGITS: [char; 3] = ['1', '2', '3'];

/// The dictionary that has a row for each word that is drawn.
pub fn load_dictionary(alloc: Global) -> Result<Book, Memory>
    ensures { IfOk result (λ book. book ≡ dictionary_rows) }
{
    let mut rows = Rows::new(alloc);
    push_all(alloc, &KANA, &mut rows)?;
    Ok(Book::new(rows))
}

// Adds the rows whose first syllables are given.
fn push_all(alloc: Global, firsts: &[char], rows: &mut Rows) -> Result<(), Memory>
    requires { list_all (λ first. list_all (λ second. is_row (row_of first second)) kana) firsts.now ≡ true }
    ensures { OnOk result (rows.new ≡ rows.old ++ flat_map rows_from firsts.now) }
{
    for first in firsts {
        push_rows(alloc, *first, &KANA, rows)?;
    }
    Ok(())
}

// Adds the rows of a first syllable with these second ones.
fn push_rows(alloc: Global, first: char, seconds: &[char], rows: &mut Rows) -> Result<(), Memory>
    requires { list_all (λ second. is_row (row_of first second)) seconds.now ≡ true }
    ensures { OnOk result (rows.new ≡ rows.old ++ map (row_of first) seconds.now) }
{
    for second in seconds {
        rows.push(make_row(alloc, first, *second)?)?;
    }
    Ok(())
}

// The row of two syllables.
fn make_row(alloc: Global, first: char, second: char) -> Result<Row, Memory>
    requires { is_row (row_of first second) ≡ true }
    ensures { IfOk result (λ row. row ≡ row_of first second) }
{
    let mut reading = Text::new(alloc);
    reading.push(first)?;
    reading.push(second)?;
    let cands = make_cands(alloc, &reading, &DIGITS)?;
    let key = RowKey::new(Part::Nasi, reading).unwrap();
    Ok(Row::new(key, cands, Blocks::new(alloc), Texts::new(alloc), 0))
}

// The candidates of a reading with these digits.
fn make_cands(alloc: Global, reading: &Text, digits: &[char]) -> Result<Cands, Memory>
    requires { list_all (λ digit. is_cand (candidate reading.now digit)) digits.now ≡ true }
    ensures { IfOk result (λ cands. cands ≡ map (candidate reading.now) digits.now) }
{
    let mut cands = Cands::new(alloc);
    for digit in digits {
        cands.push(make_cand(alloc, reading, *digit)?)?;
    }
    Ok(cands)
}

// The candidate of a reading with a digit.
fn make_cand(alloc: Global, reading: &Text, digit: char) -> Result<Cand, Memory>
    requires { is_cand (candidate reading.now digit) ≡ true }
    ensures { IfOk result (λ cand. cand ≡ candidate reading.now digit) }
{
    let mut word = to_katakana(alloc, reading)?;
    word.push(digit)?;
    Ok(Cand::of_parts(word, Text::new(alloc)))
}
