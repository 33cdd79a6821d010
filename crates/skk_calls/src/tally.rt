use crate::answer::{Answer, Refusal, Reply};
use std::marker::Model;

/// What a run of calls came to.
#[derive(Clone, Copy, Debug, PartialEq, Eq)]
pub struct Tally {
    learned: u64,
    restored: u64,
    rows: u64,
    memory: bool,
    disk: bool,
    full: bool,
}

impl Model for Tally {
    ghost use Rattle.skk_calls.specs.Tallies.{Tally};

    ghost Value = { Tally };

    ghost view = { λ t. record {
      learned = t.learned;
      restored = t.restored;
      rows = t.rows;
      memory = t.memory;
      disk = t.disk;
      full = t.full;
    } };

    ghost inverse = { λ t. record {
      learned = t.learned;
      restored = t.restored;
      rows = t.rows;
      memory = t.memory;
      disk = t.disk;
      full = t.full;
    } };
}

impl Tally {
    ghost use Rattle.std.specs.Prelude.{◌≡◌};
    ghost use Rattle.skk_calls.specs.Tallies.{empty_tally, tally_with};

    /// The tally with these fields. Takes no memory.
    pub fn new(
        learned: u64,
        restored: u64,
        rows: u64,
        memory: bool,
        disk: bool,
        full: bool,
    ) -> Tally
        ensures { result ≡ record {
          learned = learned;
          restored = restored;
          rows = rows;
          memory = memory;
          disk = disk;
          full = full;
        } }
    {
        Tally {
            learned,
            restored,
            rows,
            memory,
            disk,
            full,
        }
    }

    /// The tally of no calls, over no rows. Takes no memory.
    pub fn none() -> Tally
        ensures { result ≡ empty_tally }
    {
        Tally::new(0, 0, 0, false, false, false)
    }

    /// Counts one more answer. The number of rows stays. Takes no memory.
    pub fn count(&mut self, answer: &Answer)
        ensures { self.new ≡ tally_with self.old answer.now }
    {
        match answer {
            Answer::Done(Reply::Learned(_)) => self.learned = self.learned.saturating_add(1),
            Answer::Done(Reply::Restored) => self.restored = self.restored.saturating_add(1),
            Answer::Done(_) => {}
            Answer::Refused(Refusal::Memory) => self.memory = true,
            Answer::Refused(Refusal::Disk) => self.disk = true,
            Answer::Refused(Refusal::JournalFull { .. }) => self.full = true,
        }
    }

    /// How many candidates were learnt, up to 2^64 - 1.
    pub fn learned(&self) -> u64
        ensures { result ≡ self.now.learned }
    {
        self.learned
    }

    /// How many learnings were taken back, up to 2^64 - 1.
    pub fn restored(&self) -> u64
        ensures { result ≡ self.now.restored }
    {
        self.restored
    }

    /// How many rows the books have in the end, up to 2^64 - 1.
    pub fn rows(&self) -> u64
        ensures { result ≡ self.now.rows }
    {
        self.rows
    }

    /// Whether a call was refused as out of memory.
    pub fn memory(&self) -> bool
        ensures { result ≡ self.now.memory }
    {
        self.memory
    }

    /// Whether a call was refused for a disk that failed.
    pub fn disk(&self) -> bool
        ensures { result ≡ self.now.disk }
    {
        self.disk
    }

    /// Whether a call was refused since the learned file was full.
    pub fn full(&self) -> bool
        ensures { result ≡ self.now.full }
    {
        self.full
    }
}
