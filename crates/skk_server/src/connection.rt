ghost use Rattle.std.specs.Prelude.{◌≡◌, ◌≤◌, ◌<◌, ◌+◌, [], IfOk, OnOk, IfErr};
ghost use Rattle.std.specs.Prelude.{take, vec_len};
ghost use Rattle.std.specs.Io.KnownBytes.{Consumes};
ghost use Rattle.skk_server.specs.Ends.{moved_link, most_bytes, longest_piece};
ghost use Rattle.skk_server.specs.Turns.{TakesTurn, EndsTurn, IsReady, StopsReading};
ghost use Rattle.skk_server.specs.declared.talk.Talk.TheVariants.{New};

use crate::end::End;
use crate::laws::exchange_of_a_front;
use crate::responder::Responder;
use crate::service::ConnectionContext;
use skk_calls::Caller;
use skk_outside::{Failed, Gate, Link};
use skk_text::Memory;
use std::alloc::Global;
use typist_line::bytes_lead_a_typist;

/// The most bytes that are read of a connection.
pub(crate) const MOST_BYTES: u64 = 4_294_967_296;

/// The most bytes that are read at once.
pub(crate) const PIECE: usize = 4096;

/// A connection: what answers it, room for its bytes, which is never more than it may still have, and how many bytes
/// were read.
#[derive(Drop)]
pub(crate) struct Connection {
    pub(crate) responder: Responder,
    room: Vec<u8>,
    pub(crate) taken: u64,
}

impl Connection {
    /// A connection of which nothing was read.
    pub(crate) fn new(alloc: Global) -> Result<Connection, Memory>
        ensures { IfOk result (λ connection. (connection.responder.talk ≡ New) × (connection.taken ≡ 0)
            × IsReady connection) }
    {
        Ok(Connection {
            responder: Responder::new(alloc),
            room: vec![in alloc; 0; PIECE]?,
            taken: 0,
        })
    }

    /// Reads bytes, answers them, and writes the replies. An end is told as an error.
    pub(crate) fn take_turn<K: Link, C: Caller, G: Gate>(
        &mut self,
        service: &ConnectionContext<'_, G>,
        link: &mut K,
        caller: &mut C,
    ) -> Result<(), End>
        requires ready { IsReady self.old }
        requires left { self.old.taken < most_bytes }
        ensures ready { IsReady self.new }
        ensures ok { OnOk result (TakesTurn service.now.rules.now
            (moved_link K.Outside link.old link.new) (C.said caller.old) (C.said caller.new) self.old.responder.talk
            self.new.responder.talk self.old.taken self.new.taken) }
        ensures err { IfErr result (EndsTurn service.now.rules.now
            (moved_link K.Outside link.old link.new) (C.said caller.old) (C.said caller.new) self.old.responder.talk
            self.old.taken) }
        ensures number { C.number caller.new ≡ C.number caller.old }
        ensures counted { K.faults link.old ≤ K.faults link.new }
    {
        bytes_lead_a_typist();
        exchange_of_a_front();
        let count = match self.read(link) {
            Ok(count) => count,
            Err(end) => return Err(end),
        };
        self.responder
            .answer(service, &self.room[..count], link, caller)
    }

    // Reads the next bytes into the room, and answers how many: one at least.
    fn read<K: Link>(&mut self, link: &mut K) -> Result<usize, End>
        requires ready { IsReady self.old }
        requires left { self.old.taken < most_bytes }
        ensures ready { IsReady self.new }
        ensures talk { self.new.responder.talk ≡ self.old.responder.talk }
        ensures ok { IfOk result (λ n. (0 < n) × (n ≤ longest_piece) × (self.new.taken ≡ self.old.taken + n)
            × (n ≤ vec_len self.new.room) × (self.new.taken ≤ most_bytes)
            × Consumes (K.left link.old) (K.left link.new) (take n self.new.room.items)) }
        ensures err { IfErr result (λ end. StopsReading (moved_link K.Outside link.old link.new) end) }
        ensures written { K.written link.new ≡ K.written link.old }
        ensures counted { K.faults link.old ≤ K.faults link.new }
    {
        let left = MOST_BYTES - self.taken;
        self.room.truncate(left as usize);
        match link.read(&mut self.room) {
            Err(Failed) => Err(End::LinkFault),
            Ok(0) => Err(End::Closed),
            Ok(count) => {
                self.taken += count as u64;
                Ok(count)
            }
        }
    }
}
