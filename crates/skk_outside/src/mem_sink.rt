ghost use Rattle.std.specs.Prelude.{◌≡◌, ◌↔◌, ◌<◌, ◌≤◌, [], length, Some, IsErr, IfOk, OnOk, OnErr};
ghost use Rattle.std.specs.Io.{WritesAtMost};
ghost use Rattle.std.specs.Io.KnownBytes.{Keeps, WriteAppends};
ghost use Rattle.skk_outside.specs.Faults.{Rose};
ghost use Rattle.skk_outside.specs.Memory.{no_call_yet, after_success, after_failure, FailsNext};

use crate::calls::Calls;
use crate::outside::{Failed, Outside};
use crate::sink::Sink;
use std::alloc::Global;
use std::marker::Model;

/// A sink in memory, which keeps what is written and has a list of calls that are to fail.
#[derive(Debug, Drop)]
pub struct MemSink {
    written: Vec<u8>,
    pub(crate) calls: Calls,
}

impl Model for MemSink {
    ghost use Rattle.skk_outside.specs.Memory.{SinkState};

    ghost Value = { SinkState };

    ghost view = { λ s. record { written = s.written.items; count = s.calls } };
}

impl MemSink {
    /// A sink with nothing written, whose calls with these numbers fail: they count from 1 over all
    /// its writes and flushes. Takes no memory.
    pub fn new(alloc: Global, fails: Vec<u64>) -> MemSink
        ensures written { result.written ≡ [] }
        ensures count { result.count ≡ no_call_yet fails.items }
    {
        MemSink {
            written: Vec::new(alloc),
            calls: Calls::new(fails),
        }
    }

    /// What was written.
    pub fn written(&self) -> &[u8]
        ensures { result.now ≡ self.now.written }
    {
        self.written.as_slice()
    }
}

impl Outside for MemSink {
    ghost faults = { λ s. s.count.faults };

    ghost written = { λ s. Some s.written };
}

impl Sink for MemSink {
    /// Writes all of `from`. Fails also where it is out of memory.
    fn write(&mut self, from: &[u8]) -> Result<usize, Failed>
        ensures bound { WritesAtMost result from.now }
        ensures progress { 0 < length from.now → IfOk result (λ n. 1 ≤ n) }
        ensures bytes { WriteAppends (Some self.old.written) (Some self.new.written) result from.now }
        ensures failed { OnErr result (Rose self.old.count.faults self.new.count.faults) }
        ensures counted { self.old.count.faults ≤ self.new.count.faults }

        // All of it is written, unless the call is to fail.
        ensures all { IfOk result (λ n. n ≡ length from.now) }
        ensures fails { FailsNext self.old.count → IsErr result }
        ensures ok { OnOk result (self.new.count ≡ after_success self.old.count) }
        ensures err { OnErr result (self.new.count ≡ after_failure self.old.count) }
    {
        self.calls.next()?;
        if self.written.extend_from_slice(from).is_err() {
            return Err(self.calls.fail());
        }
        Ok(from.len())
    }

    fn flush(&mut self) -> Result<(), Failed>
        ensures bytes { Keeps (Some self.old.written) (Some self.new.written) }
        ensures failed { OnErr result (Rose self.old.count.faults self.new.count.faults) }
        ensures counted { self.old.count.faults ≤ self.new.count.faults }
        ensures fails { IsErr result ↔ FailsNext self.old.count }
        ensures ok { OnOk result (self.new.count ≡ after_success self.old.count) }
        ensures err { OnErr result (self.new.count ≡ after_failure self.old.count) }
    {
        self.calls.next()
    }
}
