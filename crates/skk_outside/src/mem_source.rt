ghost use Rattle.std.specs.Prelude.{◌≡◌, ◌↔◌, ◌≤◌, length, min, Some, IsErr, IfOk, OnOk, OnErr};
ghost use Rattle.std.specs.Io.{ReadsAtMost};
ghost use Rattle.std.specs.Io.KnownBytes.{ReadConsumes};
ghost use Rattle.skk_outside.specs.Faults.{Rose};
ghost use Rattle.skk_outside.specs.Memory.{no_call_yet, after_success, after_failure, FailsNext, bytes_of_pieces};
ghost use Rattle.skk_outside.specs.Memory.{first_nonempty_piece};

use crate::calls::Calls;
use crate::outside::{Failed, Outside};
use crate::pieces::Pieces;
use crate::source::Source;
use skk_text::Bytes;
use std::marker::Model;

/// A source in memory: pieces of bytes, of which one read gives bytes of one piece only, and a list of
/// calls that are to fail.
#[derive(Debug, Drop)]
pub struct MemSource {
    pieces: Pieces,
    calls: Calls,
}

impl Model for MemSource {
    ghost use Rattle.skk_outside.specs.Memory.{SourceState};

    ghost Value = { SourceState };

    ghost view = { λ s. record { pieces = s.pieces; count = s.calls } };
}

impl MemSource {
    /// A source of these pieces, whose reads with these numbers fail: they count from 1. Takes no memory.
    pub fn new(pieces: Vec<Bytes>, fails: Vec<u64>) -> MemSource
        ensures pieces { result.pieces ≡ pieces.items }
        ensures count { result.count ≡ no_call_yet fails.items }
    {
        MemSource {
            pieces: Pieces::new(pieces),
            calls: Calls::new(fails),
        }
    }
}

impl Outside for MemSource {
    ghost faults = { λ s. s.count.faults };

    ghost left = { λ s. Some (bytes_of_pieces s.pieces) };
}

impl Source for MemSource {
    fn read(&mut self, into: &mut [u8]) -> Result<usize, Failed>
        ensures bound { ReadsAtMost result into.new }
        ensures bytes { ReadConsumes (Some (bytes_of_pieces self.old.pieces)) (Some (bytes_of_pieces self.new.pieces))
            result into.new }
        ensures failed { OnErr result (Rose self.old.count.faults self.new.count.faults) }
        ensures counted { self.old.count.faults ≤ self.new.count.faults }

        // As many bytes as there is room for, of the first piece that has any.
        ensures piece { IfOk result (λ n. n ≡ min (length into.old) (length (first_nonempty_piece self.old.pieces))) }
        ensures fails { IsErr result ↔ FailsNext self.old.count }
        ensures ok { OnOk result (self.new.count ≡ after_success self.old.count) }
        ensures err { OnErr result (self.new.count ≡ after_failure self.old.count) }
    {
        self.calls.next()?;
        Ok(self.pieces.read(into))
    }
}
