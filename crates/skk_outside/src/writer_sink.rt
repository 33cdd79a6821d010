ghost use Rattle.std.specs.Prelude.{◌≡◌, ◌≤◌, ◌<◌, length, IfOk, OnOk, OnErr};
ghost use Rattle.std.specs.Io.{WritesAtMost};
ghost use Rattle.std.specs.Io.KnownBytes.{Keeps, WriteAppends};
ghost use Rattle.skk_text.specs.Counts.{one_more};
ghost use Rattle.skk_outside.specs.Faults.{Rose};

use crate::count::Count;
use crate::outside::{Failed, Outside};
use crate::sink::Sink;
use std::io::Write;

/// A sink over a writer, as standard output.
#[derive(Drop)]
pub struct WriterSink<W> {
    writer: W,
    faults: Count,
}

impl<W: Write> WriterSink<W> {
    /// A sink that writes to the writer.
    pub fn new(writer: W) -> WriterSink<W>
        ensures written { ⟦<WriterSink<W> as Outside>⟧.written result ≡ W.contents writer }
        ensures faults { ⟦<WriterSink<W> as Outside>⟧.faults result ≡ 0 }
    {
        WriterSink {
            writer,
            faults: Count::new(),
        }
    }
}

impl<W: Write> Outside for WriterSink<W> {
    ghost faults = { λ s. s.faults };

    ghost written = { λ s. W.contents s.writer };
}

impl<W: Write> Sink for WriterSink<W> {
    /// A write of 0 bytes of some is a fault. A write that goes well leaves the count of faults, and one
    /// that fails raises it by one.
    fn write(&mut self, from: &[u8]) -> Result<usize, Failed>
        ensures bound { WritesAtMost result from.now }
        ensures progress { 0 < length from.now → IfOk result (λ n. 1 ≤ n) }
        ensures bytes { WriteAppends (⟦<WriterSink<W> as Outside>⟧.written self.old)
            (⟦<WriterSink<W> as Outside>⟧.written self.new) result from.now }
        ensures failed { OnErr result
            (Rose (⟦<WriterSink<W> as Outside>⟧.faults self.old) (⟦<WriterSink<W> as Outside>⟧.faults self.new)) }
        ensures counted { ⟦<WriterSink<W> as Outside>⟧.faults self.old ≤ ⟦<WriterSink<W> as Outside>⟧.faults self.new }
        ensures no_fault { OnOk result
            (⟦<WriterSink<W> as Outside>⟧.faults self.new ≡ ⟦<WriterSink<W> as Outside>⟧.faults self.old) }
        ensures one_fault { OnErr result
            (⟦<WriterSink<W> as Outside>⟧.faults self.new ≡ one_more (⟦<WriterSink<W> as Outside>⟧.faults self.old)) }
    {
        match self.writer.write(from) {
            Ok(n) if n > 0 || from.is_empty() => Ok(n),
            _ => Err(self.faults.fail()),
        }
    }

    /// A flush that goes well leaves the count of faults, and one that fails raises it by one.
    fn flush(&mut self) -> Result<(), Failed>
        ensures bytes { Keeps (⟦<WriterSink<W> as Outside>⟧.written self.old)
            (⟦<WriterSink<W> as Outside>⟧.written self.new) }
        ensures failed { OnErr result
            (Rose (⟦<WriterSink<W> as Outside>⟧.faults self.old) (⟦<WriterSink<W> as Outside>⟧.faults self.new)) }
        ensures counted { ⟦<WriterSink<W> as Outside>⟧.faults self.old ≤ ⟦<WriterSink<W> as Outside>⟧.faults self.new }
        ensures no_fault { OnOk result
            (⟦<WriterSink<W> as Outside>⟧.faults self.new ≡ ⟦<WriterSink<W> as Outside>⟧.faults self.old) }
        ensures one_fault { OnErr result
            (⟦<WriterSink<W> as Outside>⟧.faults self.new ≡ one_more (⟦<WriterSink<W> as Outside>⟧.faults self.old)) }
    {
        match self.writer.flush() {
            Ok(()) => Ok(()),
            Err(_) => Err(self.faults.fail()),
        }
    }
}
