ghost use Rattle.std.specs.Prelude.{◌≡◌, ◌≤◌, ◌<◌, ◌+◌, OnOk, IfOk, IfErr};
ghost use Rattle.skk_server.specs.Services.{EndsServing};
ghost use Rattle.skk_server.specs.Stages.{accepted_in, passes_in, HasPlaces, HasPlace, CountsStay, Stage, AddsWork};
ghost use Rattle.skk_server.specs.Stages.{TakesLink, TakesNone, EndsTaking};

use crate::hall::Hall;
use crate::served_end::ServedEnd;
use crate::server::Server;
use crate::start::Start;
use crate::work::{begin, refuse};
use skk_calls::{Caller, Kept, Office};
use skk_outside::{Failed, Gate, Link, Listener};
use skk_text::Memory;
use std::sync::Wait;
use std::thread::{Scope, Threads};

impl<'s, L: Link + Send + Drop + 's, C: Caller + Send + Drop + 's, S: Kept> Hall<L, C, S> {
    /// Takes connections in until there are as many as asked for, or none can come, or a call fails.
    pub(crate) fn take_all<
        E,
        R: Threads + Wait + Sync,
        N: Listener<Link = L>,
        W: Office<Pass = C, Slip = S>,
        G: Gate + Sync,
    >(
        &mut self,
        scope: &'s Scope<'s, E>,
        server: &Server<'s, R, W, G>,
        net: &mut N,
        roll: &mut W::Roll,
        start: &Start<N>,
    ) -> ServedEnd
        requires owns { W.owns server.now.office.now roll.old }
        requires few { W.drawn roll.old + server.now.connections ≤ 4294967295 }
        requires rules { start.now.rules.value ≡ server.now.service.now.rules.now }
        requires drawn { W.drawn roll.old ≡ start.now.first + passes_in self.old }
        requires none { (accepted_in self.old ≡ 0) × (passes_in self.old ≡ 0) }
        requires places { HasPlaces self.old }
        requires stage { Stage N.Listener L.Outside C.Caller S.Kept start.now net.old self.old }
        ensures owned { W.owns server.now.office.now roll.new }
        ensures drawn { W.drawn roll.new ≡ start.now.first + passes_in self.new }
        ensures few { accepted_in self.new ≤ server.now.connections }
        ensures ends { EndsServing N.Listener start.now.net.value net.new server.now.connections (accepted_in self.new)
            (passes_in self.new) result }
        ensures places { HasPlaces self.new }
        ensures stage { Stage N.Listener L.Outside C.Caller S.Kept start.now net.new self.new }
    {
        for _ in 0..server.connections {
            if let Err(end) = self.take_one(scope, server, net, roll, start) {
                return end;
            }
        }
        ServedEnd::Done
    }

    // Takes a connection in, when one under way has ended where there are as many as may be. An end is told as an
    // error.
    fn take_one<
        E,
        R: Threads + Wait + Sync,
        N: Listener<Link = L>,
        W: Office<Pass = C, Slip = S>,
        G: Gate + Sync,
    >(
        &mut self,
        scope: &'s Scope<'s, E>,
        server: &Server<'s, R, W, G>,
        net: &mut N,
        roll: &mut W::Roll,
        start: &Start<N>,
    ) -> Result<(), ServedEnd>
        requires owns { W.owns server.now.office.now roll.old }
        requires room { W.drawn roll.old < 4294967295 }
        requires rules { start.now.rules.value ≡ server.now.service.now.rules.now }
        requires drawn { W.drawn roll.old ≡ start.now.first + passes_in self.old }
        requires level { passes_in self.old ≡ accepted_in self.old }
        requires places { HasPlaces self.old }
        requires stage { Stage N.Listener L.Outside C.Caller S.Kept start.now net.old self.old }
        ensures owned { W.owns server.now.office.now roll.new }
        ensures drawn { W.drawn roll.new ≡ start.now.first + passes_in self.new }
        ensures one_more { accepted_in self.new ≤ accepted_in self.old + 1 }
        ensures ok { OnOk result ((accepted_in self.new ≡ accepted_in self.old + 1)
            × (passes_in self.new ≡ passes_in self.old + 1)) }
        ensures err { IfErr result (λ end. EndsTaking N.Listener net.old net.new self.old self.new end) }
        ensures places { HasPlaces self.new }
        ensures stage { Stage N.Listener L.Outside C.Caller S.Kept start.now net.new self.new }
    {
        if let Err(Memory) = self.make_place(server, net, start) {
            return Err(ServedEnd::Memory);
        }
        match accept(net) {
            Ok(link) => self.welcome(scope, server, roll, link),
            Err(end) => Err(end),
        }
    }

    // Makes room for one connection more, and for what it leaves.
    fn make_place<R: Threads + Wait, N: Listener<Link = L>, W: Office<Pass = C, Slip = S>, G>(
        &mut self,
        server: &Server<'_, R, W, G>,
        net: &mut N,
        start: &Start<N>,
    ) -> Result<(), Memory>
        requires places { HasPlaces self.old }
        requires stage { Stage N.Listener L.Outside C.Caller S.Kept start.now net.old self.old }
        ensures ok { OnOk result (HasPlace self.new) }
        ensures places { HasPlaces self.new }
        ensures counts { CountsStay self.old self.new }
        ensures coming { N.coming net.new ≡ N.coming net.old }
        ensures faults { N.faults net.new ≡ N.faults net.old }
        ensures stage { Stage N.Listener L.Outside C.Caller S.Kept start.now net.new self.new }
    {
        self.join_ended(server.rt, server.ended);
        self.see_ended_off(server, net, start);
        self.works.reserve(1)?;
        self.passes.reserve(self.works.len() + 1)?;
        self.ends.reserve(self.works.len() + 1)?;
        Ok(())
    }

    // Begins to serve a connection with a caller of its own. Where there is no memory for one it is closed, and that is
    // told as an error.
    fn welcome<E, R: Wait + Sync, W: Office<Pass = C, Slip = S>, G: Gate + Sync>(
        &mut self,
        scope: &'s Scope<'s, E>,
        server: &Server<'s, R, W, G>,
        roll: &mut W::Roll,
        link: L,
    ) -> Result<(), ServedEnd>
        requires owns { W.owns server.now.office.now roll.old }
        requires room { W.drawn roll.old < 4294967295 }
        requires place { HasPlace self.old }
        ensures owned { W.owns server.now.office.now roll.new }
        ensures adds { AddsWork server.now.service.now.rules.now L.Outside C.Caller (W.drawn roll.old)
            (W.drawn roll.new) link self.old self.new }
        ensures ok { OnOk result (W.drawn roll.new ≡ W.drawn roll.old + 1) }
        ensures err { IfErr result (λ end. (end ≡ ServedEnd.Memory) × (W.drawn roll.new ≡ W.drawn roll.old)) }
        ensures places { HasPlaces self.new }
    {
        match server.office.admit(server.service.alloc, roll) {
            Ok(pass) => {
                let number = self.ends.len() + self.works.len();
                let work = begin(scope, server, number, link, pass);
                self.running += work.running();
                self.works.push_back_reserved(work);
                Ok(())
            }
            Err(Memory) => {
                self.works.push_back_reserved(refuse(link));
                Err(ServedEnd::Memory)
            }
        }
    }
}

// Accepts a link. An end is told as an error.
fn accept<N: Listener>(net: &mut N) -> Result<N::Link, ServedEnd>
    ensures ok { IfOk result (λ link. TakesLink N.Listener net.old net.new link) }
    ensures err { IfErr result (λ end. TakesNone N.Listener net.old net.new end) }
{
    match net.accept() {
        Ok(Some(link)) => Ok(link),
        Ok(None) => Err(ServedEnd::Done),
        Err(Failed) => Err(ServedEnd::Fault),
    }
}
