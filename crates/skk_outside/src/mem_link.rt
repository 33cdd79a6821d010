ghost use Rattle.std.specs.Prelude.{◌≡◌, ◌↔◌, ◌<◌, ◌≤◌, [], length, min, true, false, Some, IsErr, IfOk, OnOk, OnErr};
ghost use Rattle.std.specs.Io.{ReadsAtMost, WritesAtMost};
ghost use Rattle.std.specs.Io.KnownBytes.{Keeps, ReadConsumes, WriteAppends};
ghost use Rattle.skk_outside.specs.Faults.{Rose};
ghost use Rattle.skk_outside.specs.Memory.{no_call_yet, after_success, after_failure, FailsNext, bytes_of_pieces};
ghost use Rattle.skk_outside.specs.Memory.{first_nonempty_piece};

use crate::link::Link;
use crate::mem_sink::MemSink;
use crate::outside::{Failed, Outside};
use crate::pieces::Pieces;
use crate::sink::Sink;
use crate::source::Source;
use skk_text::Bytes;
use std::alloc::Global;
use std::marker::Model;

/// A link in memory: pieces of bytes, of which one read gives bytes of one piece only, what is written to it, and a
/// list of calls that are to fail.
#[derive(Debug, Drop)]
pub struct MemLink {
    pieces: Pieces,
    // Its calls are those of the link.
    sink: MemSink,
    closed: bool,
}

impl Model for MemLink {
    ghost use Rattle.skk_outside.specs.Memory.{LinkState};

    ghost Value = { LinkState };

    ghost view = { λ l. record {
      pieces = l.pieces;
      written = l.sink.written;
      closed = l.closed;
      count = l.sink.count;
    } };
}

impl MemLink {
    /// A link of these pieces, with nothing written, whose calls with these numbers fail: they count from 1 over all
    /// its reads, writes and flushes. Takes no memory.
    pub fn new(alloc: Global, pieces: Vec<Bytes>, fails: Vec<u64>) -> MemLink
        ensures pieces { result.pieces ≡ pieces.items }
        ensures written { result.written ≡ [] }
        ensures closed { result.closed ≡ false }
        ensures count { result.count ≡ no_call_yet fails.items }
    {
        MemLink {
            pieces: Pieces::new(pieces),
            sink: MemSink::new(alloc, fails),
            closed: false,
        }
    }

    /// What was written.
    pub fn written(&self) -> &[u8]
        ensures { result.now ≡ self.now.written }
    {
        self.sink.written()
    }

    /// Whether it was closed.
    pub fn is_closed(&self) -> bool
        ensures { result ≡ self.now.closed }
    {
        self.closed
    }
}

impl Outside for MemLink {
    ghost faults = { λ l. l.count.faults };

    ghost left = { λ l. Some (bytes_of_pieces l.pieces) };

    ghost written = { λ l. Some l.written };

    ghost closed = { λ l. l.closed };
}

impl Source for MemLink {
    fn read(&mut self, into: &mut [u8]) -> Result<usize, Failed>
        ensures bound { ReadsAtMost result into.new }
        ensures bytes { ReadConsumes (Some (bytes_of_pieces self.old.pieces)) (Some (bytes_of_pieces self.new.pieces))
            result into.new }
        ensures written { self.new.written ≡ self.old.written }
        ensures failed { OnErr result (Rose self.old.count.faults self.new.count.faults) }
        ensures counted { self.old.count.faults ≤ self.new.count.faults }

        // As many bytes as there is room for, of the first piece that has any.
        ensures piece { IfOk result (λ n. n ≡ min (length into.old) (length (first_nonempty_piece self.old.pieces))) }
        ensures closed { self.new.closed ≡ self.old.closed }
        ensures fails { IsErr result ↔ FailsNext self.old.count }
        ensures ok { OnOk result (self.new.count ≡ after_success self.old.count) }
        ensures err { OnErr result (self.new.count ≡ after_failure self.old.count) }
    {
        self.sink.calls.next()?;
        Ok(self.pieces.read(into))
    }
}

impl Sink for MemLink {
    /// Writes all of `from`. Fails also where it is out of memory.
    fn write(&mut self, from: &[u8]) -> Result<usize, Failed>
        ensures bound { WritesAtMost result from.now }
        ensures progress { 0 < length from.now → IfOk result (λ n. 1 ≤ n) }
        ensures bytes { WriteAppends (Some self.old.written) (Some self.new.written) result from.now }
        ensures left { self.new.pieces ≡ self.old.pieces }
        ensures failed { OnErr result (Rose self.old.count.faults self.new.count.faults) }
        ensures counted { self.old.count.faults ≤ self.new.count.faults }

        // All of it is written, unless the call is to fail.
        ensures all { IfOk result (λ n. n ≡ length from.now) }
        ensures closed { self.new.closed ≡ self.old.closed }
        ensures fails { FailsNext self.old.count → IsErr result }
        ensures ok { OnOk result (self.new.count ≡ after_success self.old.count) }
        ensures err { OnErr result (self.new.count ≡ after_failure self.old.count) }
    {
        self.sink.write(from)
    }

    fn flush(&mut self) -> Result<(), Failed>
        ensures bytes { Keeps (Some self.old.written) (Some self.new.written) }
        ensures left { self.new.pieces ≡ self.old.pieces }
        ensures failed { OnErr result (Rose self.old.count.faults self.new.count.faults) }
        ensures counted { self.old.count.faults ≤ self.new.count.faults }
        ensures closed { self.new.closed ≡ self.old.closed }
        ensures fails { IsErr result ↔ FailsNext self.old.count }
        ensures ok { OnOk result (self.new.count ≡ after_success self.old.count) }
        ensures err { OnErr result (self.new.count ≡ after_failure self.old.count) }
    {
        self.sink.flush()
    }
}

impl Link for MemLink {
    fn close(&mut self)
        ensures { self.new ≡ record self.old { closed = true } }
    {
        self.closed = true;
    }
}
