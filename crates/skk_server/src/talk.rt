ghost use Rattle.std.specs.Prelude.{◌≡◌, OnErr, IfOk};
ghost use Rattle.typist_line.specs.Typings.{heard};
ghost use Rattle.typist_line.specs.declared.typing.Typing.{Typing};
ghost use Rattle.skk_server.specs.Connections.{is_typist};
ghost use Rattle.skk_server.specs.Turns.{Answers, Breaks, AnswersOf, BreaksOf, Begins};

use crate::client::answer_client;
use crate::laws::exchange_of_a_front;
use crate::page::Page;
use romaji_rules::Rules;
use skk_calls::Caller;
use skk_text::Memory;
use skkserv_proto::Feeder;
use std::alloc::Global;
use typist_line::{Going, Typing, over_stays_over, run_typist};

/// Whose connection it is, with what is kept of its bytes.
#[derive(Drop)]
pub(crate) enum Talk {
    /// Nobody's yet: no byte was read.
    New,
    /// That of a client of an SKK server.
    Client(Feeder),
    /// A typist's.
    Typist(Typing),
}

impl Talk {
    /// Answers the next bytes, of which there is one at least.
    pub(crate) fn answer<C: Caller>(
        &mut self,
        alloc: Global,
        bytes: &[u8],
        rules: &Rules,
        caller: &mut C,
        page: &mut Page,
    ) -> Result<Going, Memory>
        ensures ok { IfOk result (Answers rules.now bytes.now self.old self.new
            (heard C.said caller.old page.old.bytes.items) (heard C.said caller.new page.new.bytes.items)) }
        ensures err { OnErr result (Breaks rules.now bytes.now self.old
            (heard C.said caller.old page.old.bytes.items) (heard C.said caller.new page.new.bytes.items)) }
        ensures number { C.number caller.new ≡ C.number caller.old }
    {
        self.begin(alloc, bytes);
        self.go_on(alloc, bytes, rules, caller, page)
    }

    // Answers the next bytes, where it is known whose they are.
    fn go_on<C: Caller>(
        &mut self,
        alloc: Global,
        bytes: &[u8],
        rules: &Rules,
        caller: &mut C,
        page: &mut Page,
    ) -> Result<Going, Memory>
        ensures ok { IfOk result (AnswersOf rules.now bytes.now self.old self.new
            (heard C.said caller.old page.old.bytes.items) (heard C.said caller.new page.new.bytes.items)) }
        ensures err { OnErr result (BreaksOf rules.now bytes.now self.old
            (heard C.said caller.old page.old.bytes.items) (heard C.said caller.new page.new.bytes.items)) }
        ensures number { C.number caller.new ≡ C.number caller.old }
    {
        exchange_of_a_front();
        match self {
            Talk::New => Ok(Going::More),
            Talk::Client(feeder) => answer_client(alloc, feeder, bytes, caller, page),
            Talk::Typist(lines) => answer_typist(alloc, lines, bytes, rules, caller, page),
        }
    }

    // Tells by its first byte whose connection it is.
    fn begin(&mut self, alloc: Global, bytes: &[u8])
        ensures { Begins bytes.now self.old self.new }
    {
        if let Talk::New = self {
            *self = Talk::of(alloc, bytes);
        }
    }

    // Whose connection it is that begins with these bytes.
    fn of(alloc: Global, bytes: &[u8]) -> Talk
        ensures { Begins bytes.now Talk.New result }
    {
        if bytes.is_empty() {
            Talk::New
        } else if is_typist(bytes) {
            Talk::Typist(Typing::new(alloc))
        } else {
            Talk::Client(Feeder::new())
        }
    }
}

// Whether bytes begin a typist's connection.
fn is_typist(bytes: &[u8]) -> bool
    ensures { result ≡ is_typist bytes.now }
{
    match bytes {
        [first, ..] => *first == b'T',
        [] => false,
    }
}

// Answers the next bytes of a typist.
fn answer_typist<C: Caller>(
    alloc: Global,
    lines: &mut Typing,
    bytes: &[u8],
    rules: &Rules,
    caller: &mut C,
    page: &mut Page,
) -> Result<Going, Memory>
    ensures ok { IfOk result (AnswersOf rules.now bytes.now (Talk.Typist lines.old) (Talk.Typist lines.new)
        (heard C.said caller.old page.old.bytes.items) (heard C.said caller.new page.new.bytes.items)) }
    ensures err { OnErr result (BreaksOf rules.now bytes.now (Talk.Typist lines.old)
        (heard C.said caller.old page.old.bytes.items) (heard C.said caller.new page.new.bytes.items)) }
    ensures number { C.number caller.new ≡ C.number caller.old }
{
    exchange_of_a_front();
    over_stays_over();
    let start = page.bytes.len();
    let going = run_typist(lines, alloc, bytes, rules, caller, &mut page.bytes);
    page.count_lines(start);
    going
}
