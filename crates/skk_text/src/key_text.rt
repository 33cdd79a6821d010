ghost use Rattle.std.specs.Prelude.{◌≡◌, ◌≢◌, ◌<◌, ◌+◌, ◌++◌, ℕ, List, length, drop, nat_eq, true, false};
ghost use Rattle.std.specs.Prelude.{IfOk, OnOk, IsErrOf, IfSome, IsNone, Ok, Err};
ghost use Rattle.std.specs.List.{list_any, starts_with};
ghost use Rattle.skk_text.specs.KeyText.{spell, spelled, is_keyboard_key, is_printable, names, AreKeys, BeginsBadName};
ghost use Rattle.skk_text.specs.KeyText.{BeginsNotAscii, HasBadName, HasNotAscii};
ghost use Rattle.skk_text.specs.Results.{AnswersUnless};
ghost use Rattle.skk_text.specs.declared.key.Key.{Key};

use crate::key::{Key, Keys};
use crate::memory::Memory;
use crate::text::Text;
use std::alloc::Global;
use thiserror::Error;

/// Why bytes are no key text. Places count bytes from 0.
#[derive(Clone, Copy, Debug, PartialEq, Eq, Error)]
pub enum KeyFault {
    /// A `<` that begins none of the seven names.
    #[error("bad key name at byte {at}")]
    BadName { at: usize },
    /// A byte outside 0x20 to 0x7E.
    #[error("bad byte at {at}")]
    NotAscii { at: usize },
    /// Out of memory.
    #[error("out of memory")]
    Memory,
}

impl From<Memory> for KeyFault {
    ghost use Rattle.std.specs.Prelude.{◌≡◌};
    ghost use Rattle.skk_text.specs.declared.key_text.KeyFault.TheVariants as faults;

    ghost from_gives = { λ _ fault. fault ≡ faults.Memory };

    fn from(_memory: Memory) -> KeyFault {
        KeyFault::Memory
    }
}

/// Reads key text. The first fault is answered.
pub fn read_keys(alloc: Global, bytes: &[u8]) -> Result<Keys, KeyFault>
    ensures found { IfOk result (λ keys. AreKeys keys × (spelled keys ≡ bytes.now)) }
    ensures only_keys { (keys : List Key) → AreKeys keys → spelled keys ≡ bytes.now
        → AnswersUnless KeyFault.Memory result (Ok keys) }
    ensures bad_name { (at : ℕ) → IsErrOf result (KeyFault.BadName at) → HasBadName bytes.now at }
    ensures only_bad_name { (at : ℕ) → HasBadName bytes.now at
        → AnswersUnless KeyFault.Memory result (Err (KeyFault.BadName at)) }
    ensures not_ascii { (at : ℕ) → IsErrOf result (KeyFault.NotAscii at) → HasNotAscii bytes.now at }
    ensures only_not_ascii { (at : ℕ) → HasNotAscii bytes.now at
        → AnswersUnless KeyFault.Memory result (Err (KeyFault.NotAscii at)) }
{
    let mut keys = Keys::new(alloc);
    let mut at = 0;
    while at < bytes.len() {
        match key_at(bytes, at) {
            Ok((key, length)) => {
                keys.push(key)?;
                at += length;
            }
            Err(fault) => return Err(fault),
        }
    }
    Ok(keys)
}

// The key that is spelled at a place, and how many bytes its spelling has.
fn key_at(bytes: &[u8], at: usize) -> Result<(Key, usize), KeyFault>
    requires { at < length bytes.now }
    ensures ok { IfOk result (λ found. (is_keyboard_key found.0 ≡ true) × (found.1 ≡ length (spell found.0))
        × (drop at bytes.now ≡ spell found.0 ++ drop (at + found.1) bytes.now)) }
    ensures bad_name { (place : ℕ) → IsErrOf result (KeyFault.BadName place)
        → (place ≡ at) × BeginsBadName (drop at bytes.now) }
    ensures not_ascii { (place : ℕ) → IsErrOf result (KeyFault.NotAscii place)
        → (place ≡ at) × BeginsNotAscii (drop at bytes.now) }
    ensures no_memory { result ≢ Err KeyFault.Memory }
{
    let byte = bytes[at];
    if byte == b'<' {
        return match key_of_name(&bytes[at..]) {
            Some(found) => Ok(found),
            None => Err(KeyFault::BadName { at }),
        };
    }
    if is_printable(byte) {
        return Ok((Key::Char(byte), 1));
    }
    Err(KeyFault::NotAscii { at })
}

// Whether a byte may be a character key.
fn is_printable(byte: u8) -> bool
    ensures { result ≡ is_printable byte }
{
    (b' '..=b'~').contains(&byte)
}

// The key whose name the bytes begin with, and how many bytes the name has.
fn key_of_name(bytes: &[u8]) -> Option<(Key, usize)>
    ensures found { IfSome result (λ found. (is_keyboard_key found.0 ≡ true) × (found.1 ≡ length (spell found.0))
        × (bytes.now ≡ spell found.0 ++ drop found.1 bytes.now)) }
    ensures none { IsNone result → list_any (λ name. starts_with nat_eq bytes.now name) names ≡ false }
{
    if bytes.starts_with(b"<lt>") {
        return Some((Key::Char(b'<'), 4));
    }
    if bytes.starts_with(b"<cj>") {
        return Some((Key::Cj, 4));
    }
    if bytes.starts_with(b"<cg>") {
        return Some((Key::Cg, 4));
    }
    if bytes.starts_with(b"<bs>") {
        return Some((Key::Bs, 4));
    }
    if bytes.starts_with(b"<ret>") {
        return Some((Key::Ret, 5));
    }
    if bytes.starts_with(b"<tab>") {
        return Some((Key::Tab, 5));
    }
    if bytes.starts_with(b"<undo>") {
        return Some((Key::Undo, 6));
    }
    None
}

/// The spelling of the keys.
pub fn print_keys(alloc: Global, keys: &Keys) -> Result<Text, Memory>
    ensures { IfOk result (λ text. text ≡ spelled keys.now) }
{
    let mut text = Text::new(alloc);
    for place in 0..keys.len() {
        push_key(&mut text, *keys.at(place))?;
    }
    Ok(text)
}

// Adds the spelling of a key.
#[tactic(auto, using(crate::proofs::KeyNames::key_names))]
fn push_key(text: &mut Text, key: Key) -> Result<(), Memory>
    ensures { OnOk result (text.new ≡ text.old ++ spell key) }
{
    match key {
        Key::Char(b'<') => text.push_str("<lt>"),
        Key::Char(c) => text.push(c as char),
        Key::Cj => text.push_str("<cj>"),
        Key::Cg => text.push_str("<cg>"),
        Key::Bs => text.push_str("<bs>"),
        Key::Ret => text.push_str("<ret>"),
        Key::Tab => text.push_str("<tab>"),
        Key::Undo => text.push_str("<undo>"),
    }
}
