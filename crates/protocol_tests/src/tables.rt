ghost use Rattle.std.specs.Prelude.{◌<◌};

use skk_text::Bytes;
use std::alloc::Global;
use std::process::Abort;

// A table is a text of rows, a line each, with bars between its fields; a line that begins with `//` is a remark. In a
// field `~` is an LF, `%E3` the byte of these two digits, `{255 a}` the text `a` so many times, and `^` stands where a
// piece ends. What has no character of its own is written as in any text of this language.

// The pieces of a field: none of an empty one.
pub(crate) fn pieces_of<R: Abort>(rt: &R, alloc: Global, field: &str) -> Vec<Bytes> {
    let mut pieces = Vec::new(alloc);
    if !field.is_empty() {
        for piece in field.split('^') {
            let bytes = Bytes::of(bytes_of(rt, alloc, piece));
            pieces.push(bytes).expect(rt, "memory");
        }
    }
    pieces
}

// The bytes of a field, or of a piece of it.
pub(crate) fn bytes_of<R: Abort>(rt: &R, alloc: Global, field: &str) -> Vec<u8> {
    let mut bytes = Vec::new(alloc);
    for part in field.split('{') {
        let (repeated, once) = part.split_once('}').unwrap_or(("0 ", part));
        push_repeated(rt, &mut bytes, repeated);
        push_text(rt, &mut bytes, once);
    }
    bytes
}

// Adds a text that stands behind the count of its times.
fn push_repeated<R: Abort>(rt: &R, bytes: &mut Vec<u8>, repeated: &str) {
    let (count, text) = repeated.split_once(' ').unwrap_or((repeated, ""));
    for _ in 0..number(count) {
        push_text(rt, bytes, text);
    }
}

// The number that digits are; 0 where there is none.
pub(crate) fn number(digits: &str) -> u64 {
    let mut number: u64 = 0;
    for byte in digits.as_bytes() {
        number = number
            .saturating_mul(10)
            .saturating_add(u64::from(digit(*byte)));
    }
    number
}

// Adds a text in which some bytes may be written by their digits.
fn push_text<R: Abort>(rt: &R, bytes: &mut Vec<u8>, text: &str) {
    let mut parts = text.split('%');
    push_plain(rt, bytes, parts.next().unwrap_or("").as_bytes());
    for part in parts {
        push_digits(rt, bytes, part.as_bytes());
    }
}

// Adds the byte of two digits, and the text behind them.
fn push_digits<R: Abort>(rt: &R, bytes: &mut Vec<u8>, text: &[u8]) {
    if let [high, low, others @ ..] = text {
        let byte = digit(*high) * 16 + digit(*low);
        bytes.push(byte).expect(rt, "memory");
        push_plain(rt, bytes, others);
    }
}

// The number that a digit is.
fn digit(byte: u8) -> u8
    ensures { result < 16 }
{
    match byte {
        b'0'..=b'9' => byte - b'0',
        b'A'..=b'F' => byte - b'A' + 10,
        _ => 0,
    }
}

// Adds a text whose bytes stand there, without the places where pieces end.
fn push_plain<R: Abort>(rt: &R, bytes: &mut Vec<u8>, text: &[u8]) {
    for byte in text {
        if *byte != b'^' {
            let byte = if *byte == b'~' { b'\n' } else { *byte };
            bytes.push(byte).expect(rt, "memory");
        }
    }
}
