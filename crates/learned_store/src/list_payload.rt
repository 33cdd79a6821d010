ghost use Rattle.std.specs.Prelude.{◌≡◌, ℕ, IfOk};
ghost use Rattle.std.specs.Int.{w16};
ghost use Rattle.std.specs.Option.{option_map};
ghost use Rattle.exact_readers.specs.Formats.{all};
ghost use Rattle.exact_readers.specs.Numbers.{number};
ghost use Rattle.learned_store.specs.declared.form.PayloadForm.TheVariants.{SetList};
ghost use Rattle.learned_store.specs.Reading.{books_of, list_of, typist_list, valid_list};

use crate::form::PayloadForm;
use exact_readers::{Reader, read_many, read_u16};
use skk_calls::BookList;
use skk_text::Memory;
use std::alloc::Global;

// The list of a typist, where one is read behind the byte of its kind.
pub(crate) fn list_of(alloc: Global, bytes: &[u8]) -> Result<Option<PayloadForm>, Memory>
    ensures { IfOk result (λ form. form ≡ list_of bytes.now) }
{
    match read_u16(bytes) {
        Some((typist, rest)) => typist_list(alloc, typist, rest),
        None => Ok(None),
    }
}

// The list of a typist, where one is read behind the typist's number.
fn typist_list(alloc: Global, typist: u16, bytes: &[u8]) -> Result<Option<PayloadForm>, Memory>
    ensures { IfOk result (λ form. form ≡ typist_list (typist, bytes.now)) }
{
    match bytes {
        [size, numbers @ ..] => {
            let books = books_of(alloc, *size, numbers)?;
            Ok(books.map(|books| PayloadForm::SetList { typist, books }))
        }
        [] => Ok(None),
    }
}

// The list of just so many books, of the bytes of their numbers.
fn books_of(alloc: Global, size: u8, bytes: &[u8]) -> Result<Option<BookList>, Memory>
    ensures { IfOk result (λ books. books ≡ books_of size bytes.now) }
{
    match numbers_of(alloc, bytes)? {
        Some(numbers) if numbers.len() == size as usize => Ok(valid_list(&numbers)),
        _ => Ok(None),
    }
}

// The numbers that all bytes are, one behind another.
fn numbers_of(alloc: Global, bytes: &[u8]) -> Result<Option<Vec<u16>>, Memory>
    ensures { IfOk result (λ numbers. option_map (λ found. found.items) numbers ≡ all (number w16) bytes.now) }
{
    let (numbers, rest) = read_many(alloc, &BookNumber, bytes)?;
    if rest.is_empty() {
        Ok(Some(numbers))
    } else {
        Ok(None)
    }
}

// The number of a book.
struct BookNumber;

impl Reader<u8> for BookNumber {
    type Value = u16;

    type Many = Vec<u16>;

    ghost Token = { ℕ };

    ghost Item = { ℕ };

    ghost tokens = { λ bytes. bytes };

    ghost item = { λ number. number };

    ghost items = { λ numbers. numbers.items };

    ghost format = { λ _. number w16 };

    fn read<'t>(&self, _alloc: Global, bytes: &'t [u8]) -> Result<Option<(u16, &'t [u8])>, Memory> {
        Ok(read_u16(bytes))
    }

    fn none(alloc: Global) -> Vec<u16> {
        Vec::new(alloc)
    }

    fn push(numbers: &mut Vec<u16>, number: u16) -> Result<(), Memory> {
        numbers.push(number)?;
        Ok(())
    }
}

// The list of these books, where they are one.
fn valid_list(books: &[u16]) -> Option<BookList>
    ensures { result ≡ valid_list books.now }
{
    match BookList::new(books) {
        Ok(books) => Some(books),
        Err(_) => None,
    }
}
