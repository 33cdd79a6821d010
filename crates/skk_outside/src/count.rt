ghost use Rattle.std.specs.Prelude.{◌≡◌, ◌≤◌};
ghost use Rattle.skk_text.specs.Counts.{one_more};

use crate::outside::Failed;
use std::marker::Model;

/// A count that stands still at 2^64 - 1: contracts see the number.
#[derive(Debug, Drop)]
pub struct Count {
    count: u64,
}

impl Model for Count {
    ghost use Rattle.std.specs.Prelude.{ℕ};

    ghost Value = { ℕ };

    ghost view = { λ c. c.count };
}

impl Count {
    /// Nothing counted yet. Takes no memory.
    pub fn new() -> Count
        ensures { result ≡ 0 }
    {
        Count { count: 0 }
    }

    /// How many were counted.
    pub fn value(&self) -> u64
        ensures { result ≡ self.now }
    {
        self.count
    }

    /// Counts one more.
    pub fn add_one(&mut self)
        ensures one_more { self.new ≡ one_more self.old }
        ensures counted { self.old ≤ self.new }
    {
        self.count = self.count.saturating_add(1);
    }

    /// Counts a call that failed.
    pub fn fail(&mut self) -> Failed
        ensures one_more { self.new ≡ one_more self.old }
        ensures counted { self.old ≤ self.new }
    {
        self.add_one();
        Failed
    }
}
