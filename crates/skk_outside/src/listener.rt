ghost use Rattle.std.specs.Prelude.{◌≡◌, ◌<◌, ◌≤◌, ◌+◌, ℕ, List, [], ◌∷◌, ◌++◌, Option, Some, option_map, OnOk, OnErr};
ghost use Rattle.skk_outside.specs.Faults.{Rose};
ghost use Rattle.skk_outside.specs.Listeners.{Accepts, Dials, out_after};

use crate::link::Link;
use crate::outside::Failed;

/// Where connections come from, of peers that come or are dialled, and go to when they are over.
pub trait Listener {
    /// A connection.
    type Link: Link;

    /// How many of its calls failed, up to 2^64 - 1. It never falls.
    ghost faults: { Self → ℕ };

    /// The links that are still to come, as they are before any use, where the listener tells them.
    ghost coming: { Self → Option (List Self.Link) };

    /// The links that were taken back, in order, where the listener tells them.
    ghost over: { Self → Option (List Self.Link) };

    /// How many links are out: they were accepted or dialled, and are not taken back yet.
    ghost out: { Self → ℕ };

    /// The port that it listens on, where one was opened.
    ghost opened: { Self → Option ℕ };

    /// Listens on a port of loopback.
    fn open(&mut self, port: u16) -> Result<(), Failed>
        ensures opened { OnOk result (opened self.new ≡ Some port) }
        ensures stays { OnErr result (opened self.new ≡ opened self.old) }
        ensures coming { coming self.new ≡ coming self.old }
        ensures over { over self.new ≡ over self.old }
        ensures out { out self.new ≡ out self.old }
        ensures failed { OnErr result (Rose (faults self.old) (faults self.new)) }
        ensures counted { faults self.old ≤ faults self.new };

    /// The next connection, for which it may wait, and none exactly where no more can come: a listener that does not
    /// tell what is to come, as a real one, never gives none.
    fn accept(&mut self) -> Result<Option<Self::Link>, Failed>
        ensures coming { Accepts (coming self.old) (coming self.new) result }
        ensures over { over self.new ≡ over self.old }
        ensures out { out self.new ≡ out_after (out self.old) result }
        ensures opened { opened self.new ≡ opened self.old }
        ensures failed { OnErr result (Rose (faults self.old) (faults self.new)) }
        ensures counted { faults self.old ≤ faults self.new };

    /// A connection to a port of loopback, for which it may wait: a peer that can't be had is a fault.
    fn dial(&mut self, port: u16) -> Result<Self::Link, Failed>
        ensures coming { Dials (coming self.old) (coming self.new) result }
        ensures over { over self.new ≡ over self.old }
        ensures dialled { OnOk result (out self.new ≡ out self.old + 1) }
        ensures none { OnErr result (out self.new ≡ out self.old) }
        ensures opened { opened self.new ≡ opened self.old }
        ensures failed { OnErr result (Rose (faults self.old) (faults self.new)) }
        ensures counted { faults self.old ≤ faults self.new };

    /// Takes a connection back that is over. Can't fail.
    fn done(&mut self, link: Self::Link)
        requires { 0 < out self.old }
        ensures out { out self.new + 1 ≡ out self.old }
        ensures opened { opened self.new ≡ opened self.old }
        ensures over { over self.new ≡ option_map (λ links. links ++ link ∷ []) (over self.old) }
        ensures coming { coming self.new ≡ coming self.old }
        ensures faults { faults self.new ≡ faults self.old };
}
