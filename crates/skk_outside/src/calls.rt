ghost use Rattle.std.specs.Prelude.{◌≡◌, ◌↔◌, ◌≤◌, OnOk, OnErr, IsErr};
ghost use Rattle.skk_outside.specs.Memory.{no_call_yet, after_success, after_failure, with_fault, FailsNext};

use crate::count::Count;
use crate::outside::Failed;
use std::marker::Model;

/// The calls of a memory form that can fail, counted from 1, with the numbers of those that are to
/// fail. Counts stand still at 2^64 - 1.
#[derive(Debug, Drop)]
pub struct Calls {
    fails: Vec<u64>,
    calls: Count,
    faults: Count,
}

impl Model for Calls {
    ghost use Rattle.skk_outside.specs.Memory.{CallCount};

    ghost Value = { CallCount };

    ghost view = { λ c. record { fails = c.fails.items; calls = c.calls; faults = c.faults } };
}

impl Calls {
    /// No call yet. Takes no memory.
    pub fn new(fails: Vec<u64>) -> Calls
        ensures { result ≡ no_call_yet fails.items }
    {
        Calls {
            fails,
            calls: Count::new(),
            faults: Count::new(),
        }
    }

    /// Counts one more call, which fails where its number is among those that are to fail.
    pub fn next(&mut self) -> Result<(), Failed>
        ensures fails { IsErr result ↔ FailsNext self.old }
        ensures ok { OnOk result (self.new ≡ after_success self.old) }
        ensures err { OnErr result (self.new ≡ after_failure self.old) }
        ensures counted { self.old.faults ≤ self.new.faults }
    {
        self.calls.add_one();
        if self.fails.contains(&self.calls.value()) {
            return Err(self.faults.fail());
        }
        Ok(())
    }

    /// Makes the call counted last one that failed.
    pub fn fail(&mut self) -> Failed
        ensures fault { self.new ≡ with_fault self.old }
        ensures counted { self.old.faults ≤ self.new.faults }
    {
        self.faults.fail()
    }
}
