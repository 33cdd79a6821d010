ghost use Rattle.std.specs.Prelude.{◌≡◌, true, Some, None, if◌then◌else◌, IfOk, IfSome};
ghost use Rattle.std.specs.Str.{chars, is_utf8};
ghost use Rattle.std.specs.Option.{option_map};
ghost use Rattle.skk_calls.specs.Dictionary.{is_fit};
ghost use Rattle.skk_calls.specs.Rows.{is_letter};
ghost use Rattle.skk_text.specs.Text.{last_chars};
ghost use Rattle.skkserv_proto.specs.Replies.{begins_past_ascii, call_of, key_of, look_up, part_of};

use crate::request::Request;
use skk_calls::{Call, Part, RowKey};
use skk_text::{Bytes, Memory, Text};
use std::alloc::Global;
use std::str;

// The book that a client looks into, which all typists share.
const SHARED_BOOK: u16 = 0;

/// The call that a request is. Nothing is called for the end, the version and the host, nor for bytes that are no text
/// and for a reading that is not valid.
pub fn request_call(alloc: Global, request: &Request) -> Result<Option<Call>, Memory>
    ensures call { IfOk result (λ call. call ≡ call_of request.now) }
    ensures fit { IfOk result (λ call. IfSome call (λ c. is_fit c ≡ true)) }
{
    match request {
        Request::Look(bytes) => look_up_call(alloc, bytes),
        Request::Complete(bytes) => completion_call(alloc, bytes),
        Request::End | Request::Version | Request::Host => Ok(None),
    }
}

// The call for the candidates of a reading.
fn look_up_call(alloc: Global, bytes: &Bytes) -> Result<Option<Call>, Memory>
    ensures call { IfOk result (λ call. call ≡ call_of (Request.Look bytes.now)) }
    ensures fit { IfOk result (λ call. IfSome call (λ c. is_fit c ≡ true)) }
{
    let Some(reading) = text_of(alloc, bytes)? else {
        return Ok(None);
    };
    match RowKey::new(part_of(bytes.as_slice()), reading) {
        Ok(key) => Ok(Some(Call::Lookup {
            who: SHARED_BOOK,
            key,
            okuri: None,
        })),
        Err(_) => Ok(None),
    }
}

// The call for the readings that go on from a prefix.
fn completion_call(alloc: Global, bytes: &Bytes) -> Result<Option<Call>, Memory>
    ensures call { IfOk result (λ call. call ≡ call_of (Request.Complete bytes.now)) }
    ensures fit { IfOk result (λ call. IfSome call (λ c. is_fit c ≡ true)) }
{
    match text_of(alloc, bytes)? {
        Some(prefix) => Ok(Some(Call::Complete {
            who: SHARED_BOOK,
            prefix,
        })),
        None => Ok(None),
    }
}

// The text of bytes, where they are one.
fn text_of(alloc: Global, bytes: &Bytes) -> Result<Option<Text>, Memory>
    ensures { IfOk result (λ text. text ≡ (if is_utf8 bytes.now then Some (chars bytes.now) else None)) }
{
    match str::from_utf8(bytes.as_slice()) {
        Ok(text) => Ok(Some(Text::from_str(alloc, text)?)),
        Err(_) => Ok(None),
    }
}

// The part of a reading, by its bytes.
fn part_of(bytes: &[u8]) -> Part
    ensures { result ≡ part_of bytes.now }
{
    if begins_past_ascii(bytes) && is_letter(last_byte(bytes)) {
        Part::Ari
    } else {
        Part::Nasi
    }
}

// Whether bytes begin past ASCII.
fn begins_past_ascii(bytes: &[u8]) -> bool
    ensures { result ≡ begins_past_ascii bytes.now }
{
    match bytes {
        [first, ..] => *first > 0x7F,
        [] => false,
    }
}

// The last byte, where there is one.
fn last_byte(bytes: &[u8]) -> &[u8]
    ensures { result.now ≡ last_chars 1 bytes.now }
{
    &bytes[bytes.len().saturating_sub(1)..]
}

// Whether bytes are one letter from `a` to `z`.
fn is_letter(bytes: &[u8]) -> bool
    ensures { result ≡ is_letter bytes.now }
{
    matches!(bytes, [b'a'..=b'z'])
}
