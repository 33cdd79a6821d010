//! Times what dictionaries are asked: it opens those that the words behind the first name, asks them for each line of
//! standard input, and prints how much they gave.
//!
//! It stands on `skk_text`, `skk_outside`, `skk_calls`, `dict_format`, `dict_files`, `dict_layers` and `learn_index`.
//! With `find` as the first word each line is a reading without okurigana that is looked up for a typist, and its
//! candidates are counted; with `walk` it is a reading from which a walk goes over the first dictionary, and the
//! readings that this comes by are counted, 256 at most; with `complete` it is a prefix that is completed for the
//! typist, and the readings that are given are counted. A reading behind a `+` is learnt by the typist. It is no part
//! of the input method, and promises nothing but to end.
#![tactic(auto)]

ghost use Rattle.std.specs.Prelude.{◌≡◌, true, IfSome};
ghost use Rattle.skk_calls.specs.Dictionary.{is_fit};

use dict_files::{DictionaryFile, DictionaryFiles};
use dict_format::FILE_LIMIT;
use dict_layers::System;
use learn_index::Index;
use skk_calls::{Call, Cand, FoundCands, FoundItems, Part, Reply, RowKey, Walk};
use skk_outside::{HostShelf, Shelf, read_named_file};
use skk_text::Text;
use std::alloc::Global;
use std::io::Write;
use std::process::ExitCode;
use std::{env, io};

/// The most readings that a walk goes over.
const STEPS: usize = 256;

/// The number of the typist that learns and completes, and of the book.
const TYPIST: u16 = 1;

fn main(rt: HostRuntime) -> ExitCode {
    match count_all(&rt) {
        Some(count) => print(&rt, count),
        None => ExitCode::FAILURE,
    }
}

// Prints how much was given.
fn print(rt: &HostRuntime, count: u64) -> ExitCode {
    match writeln!(rt.stdout(), "{count}") {
        Ok(()) => ExitCode::SUCCESS,
        Err(_) => ExitCode::FAILURE,
    }
}

// How much the dictionaries give for all lines; nothing where a word or a line is wrong, or memory is out.
fn count_all(rt: &HostRuntime) -> Option<u64> {
    let alloc = rt.alloc();
    let mut words = env::args(rt).ok()?.skip(1);
    let kind = words.next()?;
    let mut shelf = HostShelf::new(alloc, rt);
    let mut files = DictionaryFiles::new(alloc);
    for name in words {
        files.push(open(alloc, &mut shelf, &Text::of(name))?).ok()?;
    }
    let system = System::of_files(alloc, files).ok()?;
    let lines = io::read_to_string(alloc, rt.reader()).ok()?;
    count_lines(alloc, &system, &kind, &lines)
}

// Opens a dictionary.
fn open<H: Shelf>(alloc: Global, shelf: &mut H, name: &Text) -> Option<DictionaryFile> {
    let bytes = read_named_file(alloc, shelf, name, FILE_LIMIT).ok()?;
    DictionaryFile::open(alloc, bytes).ok()
}

// How much the dictionaries give for lines.
fn count_lines(alloc: Global, system: &System, kind: &str, lines: &str) -> Option<u64> {
    let mut index = Index::new(alloc);
    let mut count = 0u64;
    for line in lines.lines() {
        count = count.saturating_add(count_line(alloc, system, &mut index, kind, line)?);
    }
    Some(count)
}

// How much is given for a line: nothing where its reading is learnt.
fn count_line(
    alloc: Global,
    system: &System,
    index: &mut Index,
    kind: &str,
    line: &str,
) -> Option<u64> {
    if kind == "walk" {
        return count_walked(alloc, system, text(alloc, line)?);
    }
    let call = call_of(alloc, kind, line)?;
    count_answered(alloc, system, index, &call)
}

// The call that a line says.
fn call_of(alloc: Global, kind: &str, line: &str) -> Option<Call>
    ensures { IfSome result (λ call. is_fit call ≡ true) }
{
    if let Some(reading) = line.strip_prefix('+') {
        return learning(alloc, text(alloc, reading)?);
    }
    question(kind, text(alloc, line)?)
}

// The call that learns a word for a reading.
fn learning(alloc: Global, reading: Text) -> Option<Call>
    ensures { IfSome result (λ call. is_fit call ≡ true) }
{
    let key = RowKey::new(Part::Nasi, reading).ok()?;
    let cand = Cand::new(text(alloc, "字")?, Text::new(alloc)).ok()?;
    Some(Call::Learn {
        book: TYPIST,
        key,
        okuri: None,
        cand,
    })
}

// The call that a reading is asked by.
fn question(kind: &str, reading: Text) -> Option<Call>
    ensures { IfSome result (λ call. is_fit call ≡ true) }
{
    match kind {
        "find" => Some(Call::Lookup {
            who: TYPIST,
            key: RowKey::new(Part::Nasi, reading).ok()?,
            okuri: None,
        }),
        "complete" => Some(Call::Complete {
            who: TYPIST,
            prefix: reading,
        }),
        _ => None,
    }
}

// How many candidates or readings the answer to a call gives.
fn count_answered(alloc: Global, system: &System, index: &mut Index, call: &Call) -> Option<u64>
    requires { is_fit call.now ≡ true }
{
    let reply = index.serve(alloc, system, call).ok()?;
    Some(count_in(&reply))
}

// How many candidates or readings a reply has.
fn count_in(reply: &Reply) -> u64 {
    match reply {
        Reply::Found(found) => count_found(found),
        Reply::Readings(readings) => readings.len() as u64,
        _ => 0,
    }
}

// How many candidates were found. Where they lie in one text a slash ends each of them.
fn count_found(found: &FoundCands) -> u64 {
    match found.items() {
        FoundItems::Distinct(cands) => cands.cands().len() as u64,
        FoundItems::Plain(cands) => {
            let text = cands.text().as_str();
            text.chars().filter(|c| *c == '/').count() as u64
        }
    }
}

// How many readings a walk goes over behind a reading.
fn count_walked(alloc: Global, system: &System, from: Text) -> Option<u64> {
    let mut low = from;
    for count in 0..STEPS {
        if system.files() == 0 {
            return Some(count as u64);
        }
        match system.above(alloc, 0, &low).ok()? {
            Some(next) => low = next,
            None => return Some(count as u64),
        }
    }
    Some(STEPS as u64)
}

// The text of a string.
fn text(alloc: Global, content: &str) -> Option<Text> {
    Text::from_str(alloc, content).ok()
}
