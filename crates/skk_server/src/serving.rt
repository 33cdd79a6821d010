ghost use Rattle.std.specs.Prelude.{◌≡◌, ◌≤◌, true};
ghost use Rattle.skk_server.specs.Ends.{Serves, moved_link};

use crate::connection::{Connection, MOST_BYTES};
use crate::end::End;
use crate::service::ConnectionContext;
use romaji_rules::Rules;
use skk_calls::Caller;
use skk_outside::{Gate, Link};
use std::alloc::Global;
use typist_line::bytes_lead_a_typist;

/// Serves a connection up to its end, and closes it. At most 4,096 bytes are read at once, and the replies to them are
/// written and flushed before more are read, 65,536 bytes and the last reply together at most; each comes to the gate
/// before. A byte costs constant time, a
/// request or a key what it costs its caller and what is sent for it.
pub fn serve_connection<K: Link, C: Caller, G: Gate>(
    alloc: Global,
    link: &mut K,
    rules: &Rules,
    caller: &mut C,
    gate: &G,
) -> End
    ensures serves { Serves rules.now (moved_link K.Outside link.old link.new) (C.said caller.old) (C.said caller.new)
        result }
    ensures closed { K.closed link.new ≡ true }
    ensures number { C.number caller.new ≡ C.number caller.old }
    ensures counted { K.faults link.old ≤ K.faults link.new }
{
    let service = ConnectionContext { alloc, rules, gate };
    let end = serve_turns(&service, link, caller);
    link.close();
    end
}

// Serves a connection up to its end.
fn serve_turns<K: Link, C: Caller, G: Gate>(
    service: &ConnectionContext<'_, G>,
    link: &mut K,
    caller: &mut C,
) -> End
    ensures serves { Serves service.now.rules.now (moved_link K.Outside link.old link.new) (C.said caller.old)
        (C.said caller.new) result }
    ensures number { C.number caller.new ≡ C.number caller.old }
    ensures counted { K.faults link.old ≤ K.faults link.new }
{
    bytes_lead_a_typist();
    let Ok(mut connection) = Connection::new(service.alloc) else {
        return End::Memory;
    };
    while connection.taken < MOST_BYTES {
        if let Err(end) = connection.take_turn(service, link, caller) {
            return end;
        }
    }
    End::Limit
}
