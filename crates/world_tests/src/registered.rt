ghost use Rattle.std.specs.Prelude.{◌≡◌, true};
ghost use Rattle.skk_calls.specs.Dictionary.{is_fit, may_answer};

use dict_format::print_line;
use dict_layers::System;
use expectations::same;
use learn_index::Index;
use romaji_rules::Rules;
use session_machine::Session;
use skk_calls::{Answer, Books, Call, Caller, DialogTrace, Refusal, Rows};
use skk_text::{Memory, Text, read_keys};
use std::alloc::Global;
use std::process::Abort;

// A dictionary of learned books alone, which serves each call.
#[derive(Drop)]
struct Learner {
    system: System,
    index: Index,
    said: DialogTrace,
}

impl Caller for Learner {
    ghost number = { λ _. 1 };

    ghost said = { λ caller. caller.said };

    fn number(&self) -> u32 {
        1
    }

    fn call(&mut self, alloc: Global, call: &Call) -> Answer {
        let answer = served(alloc, &self.system, &mut self.index, call);
        self.said.note(call, &answer);
        answer
    }
}

// What a call is answered.
fn served(alloc: Global, system: &System, index: &mut Index, call: &Call) -> Answer
    requires { is_fit call.now ≡ true }
    ensures { may_answer call.now result ≡ true }
{
    match index.serve(alloc, system, call) {
        Ok(reply) => Answer::Done(reply),
        Err(Memory) => Answer::Refused(Refusal::Memory),
    }
}

// A dictionary in which nothing was learnt.
fn new_learner(rt: &impl Abort, alloc: Global) -> Learner {
    Learner {
        system: System::of_books(alloc, Books::new(alloc)).expect(rt, "memory"),
        index: Index::new(alloc),
        said: DialogTrace::new(alloc).expect(rt, "memory"),
    }
}

// A word that a line of a dictionary can't hold as it is stands in its book quoted.
#[test]
fn a_registered_word_is_a_line_of_its_book(rt: HostRuntime) {
    let mut learner = new_learner(&rt, rt.alloc());
    let display = display_after(&rt, rt.alloc(), &mut learner, "/ao land/or;x<ret>/ao ");
    let lines = lines_of(&rt, rt.alloc(), &learner.index);
    same(display.as_str(), "and/or;x▼and/or;x").expect(&rt, "as wanted");
    same(lines.as_str(), "ao /(concat \"and\\057or\\073x\")/\n").expect(&rt, "as wanted");
}

// The display of a session after these keys.
fn display_after(rt: &impl Abort, alloc: Global, learner: &mut Learner, keys: &str) -> Text {
    let session = session_after(rt, alloc, learner, keys);
    session.display(alloc).expect(rt, "memory")
}

fn session_after(rt: &impl Abort, alloc: Global, learner: &mut Learner, keys: &str) -> Session {
    let keys = read_keys(alloc, keys.as_bytes()).expect(rt, "keys");
    let rules = Rules::standard(alloc).expect(rt, "memory");
    Session::new(alloc, 1, 1)
        .play(alloc, &rules, keys.as_slice(), learner)
        .expect(rt, "memory")
}

// The lines of the first book.
fn lines_of(rt: &impl Abort, alloc: Global, index: &Index) -> String {
    let book = index.book(alloc, 1).expect(rt, "memory");
    lines_of_rows(rt, alloc, book.rows())
}

fn lines_of_rows(rt: &impl Abort, alloc: Global, rows: &Rows) -> String {
    let mut lines = String::new(alloc);
    for row in rows.iter() {
        lines
            .push_str(print_line(alloc, row).expect(rt, "memory").as_str())
            .expect(rt, "memory");
        lines.push('\n').expect(rt, "memory");
    }
    lines
}
