ghost use Rattle.std.specs.Prelude.{◌≡◌, ◌≤◌, ◌+◌, [], Err};
ghost use Rattle.std.specs.List.{list_any};
ghost use Rattle.skk_outside.specs.Moved.{moved_sink};
ghost use Rattle.run_endings.specs.Page.{LeavesPrinted};
ghost use Rattle.skk_top.specs.ServeCommand.{ServesByOffice, TellsEnd, moved_listener, ready_line};
ghost use Rattle.skk_top.specs.ServeCommand.{wants_memory};

use romaji_rules::Rules;
use run_endings::{RunFault, print_numbered, write_through};
use script_typing::Host;
use skk_calls::Office;
use skk_outside::{Failed, Gate, Listener, Sink};
use skk_server::{End, Served, ServedEnd, serve_all};
use std::alloc::Global;
use std::sync::Wait;
use std::thread::Threads;

/// What is to be served.
#[derive(Clone, Copy, Debug)]
pub struct Service {
    /// The port, on loopback.
    pub port: u16,
    /// How many connections.
    pub connections: u32,
}

/// What is to be served, and the rules by which its typists type.
#[derive(Drop)]
pub struct Serving<'a> {
    pub service: Service,
    pub rules: &'a Rules,
}

/// What the serving of a port came to.
#[derive(Drop)]
pub struct Outcome<S> {
    /// How it ended by itself.
    pub ended: Result<(), RunFault>,
    /// What is left of the callers, in the order of their connections.
    pub slips: Vec<S>,
    /// How each connection ended, in their order.
    pub ends: Vec<End>,
}

impl<S> Outcome<S> {
    // No connection was served. Takes no memory.
    fn of_none(alloc: Global, fault: RunFault) -> Outcome<S>
        ensures ended { result.ended ≡ Err fault }
        ensures slips { result.slips.items ≡ [] }
        ensures ends { result.ends.items ≡ [] }
    {
        Outcome {
            ended: Err(fault),
            slips: Vec::new(alloc),
            ends: Vec::new(alloc),
        }
    }

    /// Whether a connection ended for want of memory.
    pub fn wants_memory(&self) -> bool
        ensures { result ≡ list_any wants_memory self.now.ends.items }
    {
        self.ends.iter().any(|end| wants_memory(*end))
    }
}

// Whether a connection ended for want of memory.
fn wants_memory(end: End) -> bool
    ensures { result ≡ wants_memory end }
{
    match end {
        End::Memory => true,
        End::Closed | End::LinkFault | End::Limit => false,
    }
}

/// Opens a port, tells that it is open, serves its connections by callers that an office admits, and tells how many
/// were accepted. Where the port can't be opened, nothing is printed.
pub fn serve_port<
    O: Sink,
    P: Listener<Link: Send + Drop>,
    W: Office<Pass: Send + Drop, Slip: Drop>,
    R: Threads + Wait + Sync,
    G: Gate + Sync,
>(
    host: &Host<'_, R, G>,
    serving: &Serving<'_>,
    office: &W,
    roll: &mut W::Roll,
    out: &mut O,
    net: &mut P,
) -> Outcome<W::Slip>
    requires owns { W.owns office.now roll.old }
    requires few { W.drawn roll.old + serving.now.service.connections ≤ 4294967295 }
    ensures serves { ServesByOffice serving.now.service serving.now.rules.now W.Slip.Kept (W.drawn roll.old)
        (W.drawn roll.new) result (moved_sink O.Outside out.old out.new)
        (moved_listener P.Listener P.Link.Outside net.old net.new) }
    ensures out_counted { O.faults out.old ≤ O.faults out.new }
    ensures net_counted { P.faults net.old ≤ P.faults net.new }
    ensures owned { W.owns office.now roll.new }
{
    if let Err(Failed) = net.open(serving.service.port) {
        return Outcome::of_none(host.alloc, RunFault::Outside);
    }
    if let Err(fault) = print_ready(out) {
        return Outcome::of_none(host.alloc, fault);
    }
    let Served {
        count,
        passes,
        ends,
        end,
    } = serve_all(
        &host.rt,
        host.alloc,
        net,
        serving.service.connections,
        serving.rules,
        office,
        roll,
        host.gate,
    );
    Outcome {
        ended: end_serving(end, count, out),
        slips: passes,
        ends,
    }
}

// Tells that the port is open.
fn print_ready<O: Sink>(out: &mut O) -> Result<(), RunFault>
    ensures { LeavesPrinted ready_line result (moved_sink O.Outside out.old out.new) }
{
    write_through(out, b"ready\n")?;
    Ok(())
}

// Tells how many connections were accepted, where their serving is done.
#[tactic(auto, using(crate::proofs::Runs::untouched))]
fn end_serving<O: Sink>(end: ServedEnd, count: u32, out: &mut O) -> Result<(), RunFault>
    ensures tells { TellsEnd end count result (moved_sink O.Outside out.old out.new) }
    ensures counted { O.faults out.old ≤ O.faults out.new }
{
    match end {
        ServedEnd::Done => print_numbered(out, b"served ", count as u64),
        ServedEnd::Fault => Err(RunFault::Outside),
        ServedEnd::Memory => Err(RunFault::Memory),
    }
}
