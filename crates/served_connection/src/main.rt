//! Times a connection: it opens the dictionaries that its words name, serves one connection whose bytes are those of
//! standard input, over a dictionary in memory that it learns in, and prints how many bytes were sent.
//!
//! It stands on `skk_text`, `skk_outside`, `skk_calls`, `dict_format`, `dict_files`, `dict_layers`, `learn_index`,
//! `romaji_rules` and `skk_server`. It is no part of the input method, and promises nothing but to end.
#![tactic(auto)]

ghost use Rattle.std.specs.Prelude.{◌≡◌, true};
ghost use Rattle.skk_calls.specs.Dictionary.{is_fit, may_answer};

use dict_files::{DictionaryFile, DictionaryFiles};
use dict_format::FILE_LIMIT;
use dict_layers::System;
use learn_index::Index;
use romaji_rules::Rules;
use skk_calls::{Answer, Call, Caller, DialogTrace, Refusal};
use skk_outside::{HostShelf, MemLink, Open, Shelf, read_named_file};
use skk_server::{End, serve_connection};
use skk_text::{Bytes, Memory, Text};
use std::alloc::Global;
use std::io::{Read, Write};
use std::process::ExitCode;
use std::{env, io};

fn main(rt: HostRuntime) -> ExitCode {
    match count_sent(&rt) {
        Some(count) => print(&rt, count),
        None => ExitCode::FAILURE,
    }
}

// Prints how many bytes were sent.
fn print(rt: &HostRuntime, count: usize) -> ExitCode {
    match writeln!(rt.stdout(), "{count}") {
        Ok(()) => ExitCode::SUCCESS,
        Err(_) => ExitCode::FAILURE,
    }
}

// How many bytes are sent; nothing where a word is wrong, the connection was not served to its end, or memory is out.
fn count_sent(rt: &HostRuntime) -> Option<usize> {
    let alloc = rt.alloc();
    let mut dictionary = Dictionary {
        system: opened(rt)?,
        index: Index::new(alloc),
        said: DialogTrace::new(alloc).ok()?,
    };
    let rules = Rules::standard(alloc).ok()?;
    let mut link = MemLink::new(alloc, vec![in alloc; input(rt)?].ok()?, Vec::new(alloc));
    match serve_connection(alloc, &mut link, &rules, &mut dictionary, &Open) {
        End::Closed => Some(link.written().len()),
        _ => None,
    }
}

// What standard input has.
fn input(rt: &HostRuntime) -> Option<Bytes> {
    let mut bytes = Vec::new(rt.alloc());
    rt.reader().read_to_end(&mut bytes).ok()?;
    Some(Bytes::of(bytes))
}

// The dictionaries that the words name.
fn opened(rt: &HostRuntime) -> Option<System> {
    let alloc = rt.alloc();
    let mut shelf = HostShelf::new(alloc, rt);
    let mut files = DictionaryFiles::new(alloc);
    for name in env::args(rt).ok()?.skip(1) {
        files.push(open(alloc, &mut shelf, &Text::of(name))?).ok()?;
    }
    System::of_files(alloc, files).ok()
}

// Opens a dictionary.
fn open<H: Shelf>(alloc: Global, shelf: &mut H, name: &Text) -> Option<DictionaryFile> {
    let bytes = read_named_file(alloc, shelf, name, FILE_LIMIT).ok()?;
    DictionaryFile::open(alloc, bytes).ok()
}

// Dictionaries, and what is learnt over them.
#[derive(Drop)]
struct Dictionary {
    system: System,
    index: Index,
    said: DialogTrace,
}

impl Caller for Dictionary {
    ghost number = { λ _. 0 };

    ghost said = { λ caller. caller.said };

    fn number(&self) -> u32 {
        0
    }

    fn call(&mut self, alloc: Global, call: &Call) -> Answer {
        let answer = served(alloc, &self.system, &mut self.index, call);
        self.said.note(call, &answer);
        answer
    }
}

// What a call is answered.
fn served(alloc: Global, system: &System, index: &mut Index, call: &Call) -> Answer
    requires { is_fit call.now ≡ true }
    ensures { may_answer call.now result ≡ true }
{
    match index.serve(alloc, system, call) {
        Ok(reply) => Answer::Done(reply),
        Err(Memory) => Answer::Refused(Refusal::Memory),
    }
}
