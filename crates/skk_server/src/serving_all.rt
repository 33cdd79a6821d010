ghost use Rattle.std.specs.Prelude.{◌≡◌, ◌<◌, ◌≤◌, ◌+◌, []};
ghost use Rattle.skk_server.specs.Services.{ServesAll};
ghost use Rattle.skk_server.specs.Stages.{Opens};

use crate::ended::Ended;
use crate::hall::Hall;
use crate::served::Served;
use crate::served_end::ServedEnd;
use crate::server::Server;
use crate::service::ConnectionContext;
use crate::start::Start;
use romaji_rules::Rules;
use skk_calls::{Caller, Kept, Office};
use skk_outside::{Gate, Link, Listener};
use skk_text::Memory;
use std::alloc::Global;
use std::snapshot::Snapshot;
use std::sync::Wait;
use std::thread::{Scope, Threads, scope, scope_env};

/// Serves the connections that come to a listener, up to so many, each by a caller of its own that an office admits,
/// and in a thread of its own where one can be started, else in this one. At most 32 are served at once: where there
/// are as many, one of them must have ended before the next is accepted. A link for which there is no memory for a
/// caller is closed, and no more are accepted then. Waits until all have ended. Every link that was accepted was then
/// closed and given back, in the order in which they came.
pub fn serve_all<
    R: Threads + Wait + Sync,
    N: Listener<Link: Send + Drop>,
    W: Office<Pass: Send + Drop, Slip: Drop>,
    G: Gate + Sync,
>(
    rt: &R,
    alloc: Global,
    net: &mut N,
    connections: u32,
    rules: &Rules,
    office: &W,
    roll: &mut W::Roll,
    gate: &G,
) -> Served<W::Slip>
    requires owns { W.owns office.now roll.old }
    requires few { W.drawn roll.old + connections ≤ 4294967295 }
    ensures serves { ServesAll rules.now N.Listener N.Link.Outside W.Slip.Kept connections net.old net.new
        (W.drawn roll.old) (W.drawn roll.new) result }
    ensures owned { W.owns office.now roll.new }
{
    let start = Start {
        rules: Snapshot::of(rules),
        net: Snapshot::of(net),
        first: office.drawn(roll),
    };
    let Ok(ended) = Ended::new(alloc) else {
        return none_served(alloc, connections);
    };
    let service = ConnectionContext { alloc, rules, gate };
    let server = Server {
        rt,
        service: &service,
        office,
        ended: &ended,
        connections,
    };
    match Hall::new(alloc) {
        Ok(hall) => serve_from(&server, net, roll, start, hall),
        Err(Memory) => none_served(alloc, connections),
    }
}

// Serves connections from the beginning on.
fn serve_from<
    R: Threads + Wait + Sync,
    L: Link + Send + Drop,
    C: Caller + Send + Drop,
    S: Kept + Drop,
    N: Listener<Link = L>,
    W: Office<Pass = C, Slip = S>,
    G: Gate + Sync,
>(
    server: &Server<'_, R, W, G>,
    net: &mut N,
    roll: &mut W::Roll,
    start: Start<N>,
    hall: Hall<L, C, S>,
) -> Served<S>
    requires owns { W.owns server.now.office.now roll.old }
    requires few { W.drawn roll.old + server.now.connections ≤ 4294967295 }
    requires opens { Opens server.now.service.now.rules.now net.old (W.drawn roll.old) start hall }
    ensures serves { ServesAll server.now.service.now.rules.now
        N.Listener L.Outside S.Kept server.now.connections net.old net.new (W.drawn roll.old) (W.drawn roll.new)
        result }
    ensures owned { W.owns server.now.office.now roll.new }
{
    let (net, roll, served) = scope(
        scope_env(),
        server.rt,
        move |scope| -> (&mut N, &mut W::Roll, Served<S>)
            requires owns { W.owns server.now.office.now roll.now }
            requires few { W.drawn roll.now + server.now.connections ≤ 4294967295 }
            requires opens { Opens server.now.service.now.rules.now net.now (W.drawn roll.now) start hall }
            ensures same { (result.0.ghost_name ≡ net.entry.ghost_name)
                × (result.1.ghost_name ≡ roll.entry.ghost_name) }
            ensures serves { ServesAll server.entry.now.service.now.rules.now
                N.Listener L.Outside S.Kept server.entry.now.connections net.entry.now result.0.now
                (W.drawn roll.entry.now) (W.drawn result.1.now) result.2 }
            ensures owned { W.owns server.entry.now.office.now result.1.now }
        {
            let served = serve_in(scope, server, net, roll, start, hall);
            (net, roll, served)
        },
    );
    given_back(net);
    given_back(roll);
    served
}

// Does nothing. This use of what a closure gave back ties it to the reference that went in.
fn given_back<T>(value: &mut T)
    ensures { value.new ≡ value.old }
{}

// What is answered where there is no memory for the first connection.
fn none_served<S>(alloc: Global, connections: u32) -> Served<S>
    ensures none { (result.count ≡ 0) × (result.passes.items ≡ []) × (result.ends.items ≡ []) }
    ensures done { connections ≡ 0 → result.end ≡ ServedEnd.Done }
    ensures memory { 0 < connections → result.end ≡ ServedEnd.Memory }
{
    let end = match connections {
        0 => ServedEnd::Done,
        _ => ServedEnd::Memory,
    };
    Served {
        count: 0,
        passes: Vec::new(alloc),
        ends: Vec::new(alloc),
        end,
    }
}

// Serves connections within a scope.
fn serve_in<
    's,
    E,
    R: Threads + Wait + Sync,
    L: Link + Send + Drop + 's,
    C: Caller + Send + Drop + 's,
    S: Kept,
    N: Listener<Link = L>,
    W: Office<Pass = C, Slip = S>,
    G: Gate + Sync,
>(
    scope: &'s Scope<'s, E>,
    server: &Server<'s, R, W, G>,
    net: &mut N,
    roll: &mut W::Roll,
    start: Start<N>,
    mut hall: Hall<L, C, S>,
) -> Served<S>
    requires owns { W.owns server.now.office.now roll.old }
    requires few { W.drawn roll.old + server.now.connections ≤ 4294967295 }
    requires opens { Opens server.now.service.now.rules.now net.old (W.drawn roll.old) start hall }
    ensures serves { ServesAll server.now.service.now.rules.now
        N.Listener L.Outside S.Kept server.now.connections net.old net.new (W.drawn roll.old) (W.drawn roll.new)
        result }
    ensures owned { W.owns server.now.office.now roll.new }
{
    let end = hall.take_all(scope, server, net, roll, &start);
    hall.see_all_off(server, net, &start);
    let Hall {
        works: _,
        running: _,
        passes,
        ends,
    } = hall;
    Served {
        count: ends.len() as u32,
        passes,
        ends,
        end,
    }
}
