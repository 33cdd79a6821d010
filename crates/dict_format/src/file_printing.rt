ghost use Rattle.std.specs.Prelude.{◌≡◌, ◌≤◌, ◌++◌, [], true, map, encode_utf8_all, IfOk, OnOk};
ghost use Rattle.std.specs.List.{filter, flat_map, list_all};
ghost use Rattle.std.specs.Ordering.{is_lt};
ghost use Rattle.std.specs.Str.{chars};
ghost use Rattle.skk_text.specs.Text.{byte_len};
ghost use Rattle.skk_calls.specs.Canonical.{canonical, is_good};
ghost use Rattle.skk_calls.specs.Rows.{is_row};
ghost use Rattle.dict_format.specs.FileLines.{Lists, TakeAll, entries_of, file_limit, none_listed};
ghost use Rattle.dict_format.specs.PrintedFiles.{AreOfBook, in_printing_order, is_of, is_printed_before, part_in_order};
ghost use Rattle.exact_readers.specs.Lines.{with_line_end};
ghost use Rattle.dict_format.specs.PrintedFiles.{part_line, without_stamp, printed_part, printed_file};

use crate::laws::printed_files_are_read_again;
use crate::printing::push_line;
use skk_calls::{Book, Part, Row};
use skk_text::{Memory, Text};
use std::alloc::Global;
use std::cmp::Ordering;

/// The text of a dictionary file with the rows of a book: the okuri-ari rows descending by the bytes of their readings,
/// then the okuri-nasi rows ascending, each part behind its line. That of good rows is read again as these, in that
/// order and with stamp 0, where it is not too long for a file; and its entries come to these rows however long it is.
/// Takes time in the length of that text, and with one logarithm in the number of rows.
pub fn print_file(alloc: Global, book: &Book) -> Result<Text, Memory>
    ensures printed { IfOk result (λ text. text ≡ printed_file book.now) }
    ensures read_again { list_all is_good book.now ≡ true → IfOk result (λ text. byte_len text ≤ file_limit
        → Lists (encode_utf8_all text) (record { book = map without_stamp (in_printing_order book.now); bad = [] })) }
    ensures entries { list_all is_good book.now ≡ true → IfOk result (λ text.
        TakeAll none_listed (entries_of (encode_utf8_all text))
        (record { book = map without_stamp (in_printing_order book.now); bad = [] })) }
{
    printed_files_are_read_again();
    let mut file = Text::new(alloc);
    push_part(alloc, &mut file, Part::Ari, book)?;
    push_part(alloc, &mut file, Part::Nasi, book)?;
    // The bytes of a text are UTF-8, as those of a file must be.
    let _ = file.as_str();
    Ok(file)
}

// Adds the line of a part and those of its rows.
#[tactic(auto, using(std::proofs::lemmas::Grind::common_steps))]
fn push_part(alloc: Global, file: &mut Text, part: Part, book: &Book) -> Result<(), Memory>
    ensures printed { OnOk result (file.new ≡ file.old ++ printed_part part book.now) }
    ensures of_book { OnOk result (AreOfBook book.now) }
{
    let rows = rows_in_order(alloc, part, book)?;
    file.push_str(part_line(part))?;
    file.push('\n')?;
    push_lines(file, &rows)
}

// The line that opens a part.
#[tactic(auto, unfolding(crate::proofs::Hints::chars))]
fn part_line(part: Part) -> &'static str
    ensures { chars result.now ≡ part_line part }
{
    match part {
        Part::Nasi => ";; okuri-nasi entries.",
        Part::Ari => ";; okuri-ari entries.",
    }
}

/// The rows of a part, in the order in which they are printed. Takes time in the number of rows, with one logarithm in
/// it.
#[tactic(auto, using(std::proofs::lemmas::Grind::common_steps))]
pub fn rows_in_order(alloc: Global, part: Part, book: &Book) -> Result<Vec<&Row>, Memory>
    ensures order { IfOk result (λ rows. map (λ row. row.now) rows.items ≡ part_in_order part book.now) }
    ensures of_book { IfOk result (λ rows. AreOfBook book.now) }
{
    let mut rows = rows_of(alloc, part, book.rows().as_slice())?;
    rows.sort_unstable_by(|row, other| printing_order(part, row, other));
    Ok(rows)
}

// The rows of a part.
#[tactic(auto, using(crate::proofs::Hints::one_more))]
fn rows_of(alloc: Global, part: Part, rows: &[Row]) -> Result<Vec<&Row>, Memory>
    ensures kept { IfOk result (λ kept. map (λ row. row.now) kept.items ≡ filter (is_of part) rows.now) }
    ensures valid { IfOk result (λ kept. list_all is_row rows.now ≡ true) }
{
    let mut kept = Vec::new(alloc);
    for row in rows {
        if is_of(part, row) {
            kept.push(row)?;
        }
    }
    Ok(kept)
}

// Whether a row is of a part.
fn is_of(part: Part, row: &Row) -> bool
    ensures value { result ≡ is_of part row.now }
    ensures valid { is_row row.now ≡ true }
{
    row.key().part() == part
}

// Which of two rows of a part is printed first.
fn printing_order(part: Part, row: &Row, other: &Row) -> Ordering
    ensures { is_lt result ≡ is_printed_before part row.now other.now }
{
    match part {
        Part::Nasi => reading_of(row).cmp(reading_of(other)),
        Part::Ari => reading_of(other).cmp(reading_of(row)),
    }
}

// The bytes of a row's reading.
fn reading_of(row: &Row) -> &[u8]
    ensures { result.now ≡ encode_utf8_all row.now.key.reading }
{
    row.key().reading().as_str().as_bytes()
}

// Adds the lines of rows, each with its end.
fn push_lines(file: &mut Text, rows: &[&Row]) -> Result<(), Memory>
    ensures { OnOk result
        (file.new ≡ file.old ++ flat_map with_line_end (map canonical (map (λ row. row.now) rows.now))) }
{
    for row in rows {
        push_line(file, row)?;
        file.push('\n')?;
    }
    Ok(())
}
