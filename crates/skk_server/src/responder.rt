ghost use Rattle.std.specs.Prelude.{◌≡◌, ◌≤◌, ◌<◌, [], Ok, OnOk, OnErr, IfErr, length};
ghost use Rattle.std.specs.Io.KnownBytes.{Appends};
ghost use Rattle.skk_outside.specs.Faults.{Rose};
ghost use Rattle.skk_outside.specs.Written.{AppendsPrefix};
ghost use Rattle.skk_server.specs.Ends.{moved_link};
ghost use Rattle.skk_server.specs.Turns.{AnswersPart, AnswersRead, EndsPart, EndsRead};

use crate::end::End;
use crate::laws::exchange_of_a_front;
use crate::page::Page;
use crate::service::ConnectionContext;
use crate::talk::Talk;
use skk_calls::Caller;
use skk_outside::{Failed, Gate, Link, write_all};
use skk_text::Memory;
use std::alloc::Global;
use typist_line::{Going, bytes_lead_a_typist};

// How many bytes of replies are kept at most, but for the last reply, before they are written.
const PAGE: usize = 65_536;

/// Answers a connection: whose it is, the replies that are to be written, and how many were written.
#[derive(Drop)]
pub(crate) struct Responder {
    pub(crate) talk: Talk,
    pub(crate) page: Page,
    written: u64,
}

impl Responder {
    /// That of a connection of which nothing was read. Takes no memory.
    pub(crate) fn new(alloc: Global) -> Responder
        ensures new { result.talk ≡ Talk.New }
        ensures quiet { result.page.bytes.items ≡ [] }
    {
        Responder {
            talk: Talk::New,
            page: Page::new(alloc),
            written: 0,
        }
    }

    /// Answers bytes that were read, and writes the replies, many together. An end is told as an error.
    pub(crate) fn answer<K: Link, C: Caller, G: Gate>(
        &mut self,
        service: &ConnectionContext<'_, G>,
        bytes: &[u8],
        link: &mut K,
        caller: &mut C,
    ) -> Result<(), End>
        requires quiet { self.old.page.bytes.items ≡ [] }
        ensures quiet { self.new.page.bytes.items ≡ [] }
        ensures ok { OnOk result (AnswersRead service.now.rules.now (K.written link.old) (K.written link.new)
            (C.said caller.old) (C.said caller.new) self.old.talk self.new.talk [] bytes.now) }
        ensures err { IfErr result (EndsRead service.now.rules.now
            (moved_link K.Outside link.old link.new) (C.said caller.old) (C.said caller.new) self.old.talk bytes.now) }
        ensures left { K.left link.new ≡ K.left link.old }
        ensures number { C.number caller.new ≡ C.number caller.old }
        ensures counted { K.faults link.old ≤ K.faults link.new }
    {
        bytes_lead_a_typist();
        exchange_of_a_front();
        self.answer_parts(service, bytes, link, caller)?;
        Ok(self.send(link, caller.number(), service.gate)?)
    }

    // Answers bytes that were read, part by part.
    fn answer_parts<K: Link, C: Caller, G: Gate>(
        &mut self,
        service: &ConnectionContext<'_, G>,
        bytes: &[u8],
        link: &mut K,
        caller: &mut C,
    ) -> Result<(), End>
        requires quiet { self.old.page.bytes.items ≡ [] }
        ensures ok { OnOk result (AnswersRead service.now.rules.now (K.written link.old) (K.written link.new)
            (C.said caller.old) (C.said caller.new) self.old.talk self.new.talk self.new.page.bytes.items bytes.now) }
        ensures err { IfErr result (EndsRead service.now.rules.now
            (moved_link K.Outside link.old link.new) (C.said caller.old) (C.said caller.new) self.old.talk bytes.now) }
        ensures quiet { OnErr result (self.new.page.bytes.items ≡ []) }
        ensures left { K.left link.new ≡ K.left link.old }
        ensures number { C.number caller.new ≡ C.number caller.old }
        ensures counted { K.faults link.old ≤ K.faults link.new }
    {
        let mut rest = bytes;
        while !rest.is_empty() {
            let (part, behind) = rest.split_at(part_len(rest));
            self.answer_part(service, part, link, caller)?;
            rest = behind;
        }
        Ok(())
    }

    // Answers a part, and writes the replies where they are many, or no more come.
    fn answer_part<K: Link, C: Caller, G: Gate>(
        &mut self,
        service: &ConnectionContext<'_, G>,
        part: &[u8],
        link: &mut K,
        caller: &mut C,
    ) -> Result<(), End>
        ensures ok { OnOk result (AnswersPart service.now.rules.now (K.written link.old) (K.written link.new)
            (C.said caller.old) (C.said caller.new) self.old.talk self.new.talk
            self.old.page.bytes.items self.new.page.bytes.items part.now) }
        ensures err { IfErr result (EndsPart service.now.rules.now
            (moved_link K.Outside link.old link.new) (C.said caller.old) (C.said caller.new) self.old.talk
            self.old.page.bytes.items part.now) }
        ensures quiet { OnErr result (self.new.page.bytes.items ≡ []) }
        ensures left { K.left link.new ≡ K.left link.old }
        ensures number { C.number caller.new ≡ C.number caller.old }
        ensures counted { K.faults link.old ≤ K.faults link.new }
    {
        bytes_lead_a_typist();
        exchange_of_a_front();
        match self
            .talk
            .answer(service.alloc, part, service.rules, caller, &mut self.page)
        {
            Ok(Going::More) if self.page.bytes.len() <= PAGE => Ok(()),
            Ok(Going::More) => Ok(self.send(link, caller.number(), service.gate)?),
            Ok(Going::Over) => {
                self.send(link, caller.number(), service.gate)?;
                Err(End::Closed)
            }
            Err(Memory) => {
                let _sent = self.send(link, caller.number(), service.gate);
                Err(End::Memory)
            }
        }
    }

    // Writes the replies of the page, if there are any, and takes them away. Each comes to the gate before.
    fn send<K: Link, G: Gate>(&mut self, link: &mut K, caller: u32, gate: &G) -> Result<(), Failed>
        ensures quiet { self.new.page.bytes.items ≡ [] }
        ensures talk { self.new.talk ≡ self.old.talk }
        ensures ok { OnOk result (Appends (K.written link.old) (K.written link.new) self.old.page.bytes.items) }
        ensures err { OnErr result (AppendsPrefix (K.written link.old) (K.written link.new) self.old.page.bytes.items) }
        ensures left { K.left link.new ≡ K.left link.old }
        ensures failed { OnErr result (Rose (K.faults link.old) (K.faults link.new)) }
        ensures counted { K.faults link.old ≤ K.faults link.new }
    {
        let next = self.written.saturating_add(self.page.replies);
        come_to(gate, caller, self.written, next);
        self.written = next;
        let sent = write_page(link, &self.page.bytes);
        self.page.clear();
        sent
    }
}

// How long the first part of bytes is, by which a request or a line of keys may end: up to the first blank or line end.
fn part_len(bytes: &[u8]) -> usize
    requires { 0 < length bytes.now }
    ensures some { 0 < result }
    ensures within { result ≤ length bytes.now }
{
    match bytes
        .iter()
        .position(|byte| matches!(*byte, b' ' | b'\n' | b'\r'))
    {
        Some(end) => end + 1,
        None => bytes.len(),
    }
}

// Comes to the gate for each reply from a number up to another.
fn come_to<G: Gate>(gate: &G, caller: u32, first: u64, next: u64) {
    for turn in first..next {
        gate.at(caller, turn);
    }
}

// Writes replies and hands them on, if there are any.
fn write_page<K: Link>(link: &mut K, replies: &[u8]) -> Result<(), Failed>
    ensures ok { OnOk result (Appends (K.written link.old) (K.written link.new) replies.now) }
    ensures err { OnErr result (AppendsPrefix (K.written link.old) (K.written link.new) replies.now) }
    ensures left { K.left link.new ≡ K.left link.old }
    ensures failed { OnErr result (Rose (K.faults link.old) (K.faults link.new)) }
    ensures counted { K.faults link.old ≤ K.faults link.new }
{
    if replies.is_empty() {
        return Ok(());
    }
    write_all(link, replies)?;
    link.flush()
}
