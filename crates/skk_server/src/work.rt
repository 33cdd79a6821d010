ghost use Rattle.std.specs.Prelude.{◌≡◌, []};
ghost use Rattle.skk_server.specs.Visits.{HasWorked};
ghost use Rattle.skk_server.specs.Works.{begun, passes_of, running_of, IsUnderWay, Joins};

use crate::ended::Ended;
use crate::promised::{Promised, WorkerResult};
use crate::server::Server;
use crate::service::ConnectionContext;
use crate::serving::serve_connection;
use core::mem::replace_with;
use romaji_rules::Rules;
use skk_calls::Caller;
use skk_outside::{Gate, Link};
use std::snapshot::Snapshot;
use std::sync::Wait;
use std::thread::{PromisedHandle, Scope, Threads};

/// A connection that was accepted, and whose link is not given back yet.
#[derive(Drop)]
pub(crate) enum Accepted<L: Link, C: Caller> {
    /// A worker serves it, in a thread of its own.
    Running(PromisedHandle<WorkerResult<L, C>, Promised<L, C>>, Promised<L, C>),
    /// It was served: its worker was joined, or no thread could be started for it.
    Done(WorkerResult<L, C>, Promised<L, C>),
    /// It has no caller, for want of memory, and was closed: its link, and as that was before.
    Refused(L, Snapshot<L>),
}

impl<L: Link, C: Caller> Accepted<L, C> {
    /// How many workers serve it: one or none.
    pub(crate) fn running(&self) -> usize
        ensures { result ≡ running_of self.now }
    {
        match self {
            Accepted::Running(..) => 1,
            Accepted::Done(..) | Accepted::Refused(..) => 0,
        }
    }

    /// Waits until its worker has ended, if there is one, and keeps what that hands back.
    pub(crate) fn join<R: Threads>(&mut self, rt: &R)
        ensures { Joins L.Outside C.Caller self.old self.new }
    {
        replace_with(self, (), |work, ()| (work.joined(rt), ()))
    }

    fn joined<R: Threads>(self, rt: &R) -> Accepted<L, C>
        ensures { Joins L.Outside C.Caller self result }
    {
        match self {
            Accepted::Running(handle, was) => Accepted::Done(handle.join(rt), was),
            Accepted::Done(worked, was) => Accepted::Done(worked, was),
            Accepted::Refused(link, was) => Accepted::Refused(link, was),
        }
    }
}

/// Begins to serve a connection: in a thread of its own where one can be started, which tells when it ends, and else
/// here, up to its end.
pub(crate) fn begin<
    's,
    E,
    R: Wait + Sync,
    L: Link + Send + Drop + 's,
    C: Caller + Send + Drop + 's,
    W,
    G: Gate + Sync,
>(
    scope: &'s Scope<'s, E>,
    server: &Server<'s, R, W, G>,
    number: usize,
    link: L,
    pass: C,
) -> Accepted<L, C>
    requires new { C.said pass ≡ [] }
    ensures under_way { IsUnderWay server.now.service.now.rules.now
        L.Outside C.Caller (C.number pass) result [] }
    ensures begun { begun result ≡ link }
    ensures one { passes_of result ≡ 1 }
{
    let (rt, service, ended) = (server.rt, server.service, server.ended);
    let promise = promised(service.rules, &link, &pass);
    let was = promised(service.rules, &link, &pass);
    let work = move || serve(rt, service, ended, number, link, pass);
    match scope.spawn_with(promise, work) {
        Ok(handle) => Accepted::Running(handle, was),
        Err(refused) => Accepted::Done((refused.value)(), was),
    }
}

/// Closes a link for which there is no caller.
pub(crate) fn refuse<L: Link, C: Caller>(mut link: L) -> Accepted<L, C>
    ensures under_way { (rules : _) (number : _) → IsUnderWay rules L.Outside C.Caller number result [] }
    ensures begun { begun result ≡ link }
    ensures none { passes_of result ≡ 0 }
    ensures idle { running_of result ≡ 0 }
{
    let was = Snapshot::of(&link);
    link.close();
    Accepted::Refused(link, was)
}

// What a worker begins with.
fn promised<L: Link, C: Caller>(rules: &Rules, link: &L, pass: &C) -> Promised<L, C>
    ensures rules { result.rules.value ≡ rules.now }
    ensures link { result.link.value ≡ link.now }
    ensures pass { result.pass.value ≡ pass.now }
{
    Promised {
        rules: Snapshot::of(rules),
        link: Snapshot::of(link),
        pass: Snapshot::of(pass),
    }
}

// Serves a connection up to its end, and closes it. That it ends is told last.
fn serve<R: Wait, L: Link, C: Caller, G: Gate>(
    rt: &R,
    service: &ConnectionContext<'_, G>,
    ended: &Ended,
    number: usize,
    mut link: L,
    mut pass: C,
) -> WorkerResult<L, C>
    ensures { HasWorked L.Outside C.Caller service.now.rules.now link pass result.link result.pass result.end }
{
    let end = serve_connection(
        service.alloc,
        &mut link,
        service.rules,
        &mut pass,
        service.gate,
    );
    ended.tell(rt, number);
    WorkerResult { link, pass, end }
}
