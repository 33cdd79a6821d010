ghost use Rattle.std.specs.Prelude.{◌≡◌, ◌≤◌, ℕ, true, [], map, encode_utf8_all, None, Some, IfOk, IsErrOf};
ghost use Rattle.std.specs.List.{list_all};
ghost use Rattle.std.specs.Option.{option_map};
ghost use Rattle.skk_text.specs.Text.{byte_len};
ghost use Rattle.skk_calls.specs.Dictionary.{line_length};
ghost use Rattle.skk_calls.specs.Rows.{is_row};
ghost use Rattle.dict_format.specs.FileLines.{Lists, TakeAll, entries_of, file_limit, none_listed};
ghost use Rattle.dict_format.specs.PrintedFiles.{in_printing_order, part_in_order, printed_file, without_stamp};
ghost use Rattle.dict_expr.specs.Books.{first_too_big, says_something, too_big_told};

use crate::expr_fault::ExprFault;
use dict_format::{print_file, printing_order_moves_rows, rows_in_order};
use dict_rows::line_length;
use skk_calls::{Book, LINE_LIMIT, Part, Row};
use skk_text::{Memory, Text};
use std::alloc::Global;

/// The text of a dictionary file with the rows of a book, unless the line of one is too long to be read again. Where
/// each row says something the text is read as these rows, in printing order and with stamp 0, and no line of it is
/// bad. Takes time in the length of that text, and with one logarithm in the number of rows.
pub fn expr_text(alloc: Global, book: &Book) -> Result<Text, ExprFault>
    ensures printed { IfOk result (λ text. text ≡ printed_file book.now) }
    ensures fits { IfOk result (λ text. first_too_big book.now ≡ None) }
    ensures too_big { (bytes : ℕ) → IsErrOf result (ExprFault.RowTooBig bytes)
        → option_map line_length (first_too_big book.now) ≡ Some bytes }
    ensures read_again { list_all says_something book.now ≡ true
        → IfOk result (λ text. byte_len text ≤ file_limit → Lists (encode_utf8_all text)
        (record { book = map without_stamp (in_printing_order book.now); bad = [] })) }
    ensures entries { list_all says_something book.now ≡ true
        → IfOk result (λ text. TakeAll none_listed (entries_of (encode_utf8_all text))
        (record { book = map without_stamp (in_printing_order book.now); bad = [] })) }
{
    match first_too_big(alloc, book)? {
        Some(bytes) => Err(ExprFault::RowTooBig { bytes }),
        None => Ok(file_text(alloc, book)?),
    }
}

// The text of a file with the rows of a book, of which no line is too long.
fn file_text(alloc: Global, book: &Book) -> Result<Text, Memory>
    requires valid { list_all is_row book.now ≡ true }
    requires fits { first_too_big book.now ≡ None }
    ensures printed { IfOk result (λ text. text ≡ printed_file book.now) }
    ensures read_again { list_all says_something book.now ≡ true
        → IfOk result (λ text. byte_len text ≤ file_limit → Lists (encode_utf8_all text)
        (record { book = map without_stamp (in_printing_order book.now); bad = [] })) }
    ensures entries { list_all says_something book.now ≡ true
        → IfOk result (λ text. TakeAll none_listed (entries_of (encode_utf8_all text))
        (record { book = map without_stamp (in_printing_order book.now); bad = [] })) }
{
    printing_order_moves_rows();
    print_file(alloc, book)
}

// How many bytes the first line has that is too long.
#[tactic(auto, using(crate::proofs::GoodRows::parts_told))]
fn first_too_big(alloc: Global, book: &Book) -> Result<Option<u64>, Memory>
    ensures told { IfOk result (λ bytes. bytes ≡ option_map line_length (first_too_big book.now)) }
    ensures valid { IfOk result (λ bytes. list_all is_row book.now ≡ true) }
{
    match too_big_of(alloc, Part::Ari, book)? {
        Some(bytes) => Ok(Some(bytes)),
        None => too_big_of(alloc, Part::Nasi, book),
    }
}

// How many bytes the first line of a part has that is too long.
fn too_big_of(alloc: Global, part: Part, book: &Book) -> Result<Option<u64>, Memory>
    ensures told { IfOk result (λ bytes. bytes ≡ too_big_told (part_in_order part book.now)) }
    ensures valid { IfOk result (λ bytes. list_all is_row book.now ≡ true) }
{
    let rows = rows_in_order(alloc, part, book)?;
    Ok(too_big_among(&rows))
}

// How many bytes the first line of rows has that is too long.
fn too_big_among(rows: &[&Row]) -> Option<u64>
    ensures { result ≡ too_big_told (map (λ row. row.now) rows.now) }
{
    for row in rows {
        let bytes = line_length(row);
        if bytes > LINE_LIMIT as u64 {
            return Some(bytes);
        }
    }
    None
}
