ghost use Rattle.std.specs.Prelude.{◌≡◌, ◌≤◌, OnOk, OnErr};
ghost use Rattle.std.specs.Io.{ReadsAtMost};
ghost use Rattle.std.specs.Io.KnownBytes.{ReadConsumes};
ghost use Rattle.skk_text.specs.Counts.{one_more};
ghost use Rattle.skk_outside.specs.Faults.{Rose};

use crate::count::Count;
use crate::outside::{Failed, Outside};
use crate::source::Source;
use std::io::Read;

/// A source over a reader, as standard input.
#[derive(Drop)]
pub struct ReaderSource<R> {
    reader: R,
    faults: Count,
}

impl<R: Read> ReaderSource<R> {
    /// A source of what the reader gives.
    pub fn new(reader: R) -> ReaderSource<R>
        ensures left { ⟦<ReaderSource<R> as Outside>⟧.left result ≡ R.remaining reader }
        ensures faults { ⟦<ReaderSource<R> as Outside>⟧.faults result ≡ 0 }
    {
        ReaderSource {
            reader,
            faults: Count::new(),
        }
    }
}

impl<R: Read> Outside for ReaderSource<R> {
    ghost faults = { λ s. s.faults };

    ghost left = { λ s. R.remaining s.reader };
}

impl<R: Read> Source for ReaderSource<R> {
    /// A read that goes well leaves the count of faults, and one that fails raises it by one.
    fn read(&mut self, into: &mut [u8]) -> Result<usize, Failed>
        ensures bound { ReadsAtMost result into.new }
        ensures bytes { ReadConsumes (⟦<ReaderSource<R> as Outside>⟧.left self.old)
            (⟦<ReaderSource<R> as Outside>⟧.left self.new) result into.new }
        ensures failed { OnErr result
            (Rose (⟦<ReaderSource<R> as Outside>⟧.faults self.old) (⟦<ReaderSource<R> as Outside>⟧.faults self.new)) }
        ensures counted { ⟦<ReaderSource<R> as Outside>⟧.faults self.old
            ≤ ⟦<ReaderSource<R> as Outside>⟧.faults self.new }
        ensures no_fault { OnOk result
            (⟦<ReaderSource<R> as Outside>⟧.faults self.new ≡ ⟦<ReaderSource<R> as Outside>⟧.faults self.old) }
        ensures one_fault { OnErr result (⟦<ReaderSource<R> as Outside>⟧.faults self.new
            ≡ one_more (⟦<ReaderSource<R> as Outside>⟧.faults self.old)) }
    {
        match self.reader.read(into) {
            Ok(n) => Ok(n),
            Err(_) => Err(self.faults.fail()),
        }
    }
}
