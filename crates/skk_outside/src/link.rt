ghost use Rattle.std.specs.Prelude.{◌≡◌, true};

use crate::outside::Outside;
use crate::sink::Sink;
use crate::source::Source;

/// A connection: bytes come from it, and bytes go to it. It has one count of faults for both.
pub trait Link: Source + Sink {
    /// Ends the connection for the peer. Can't fail.
    fn close(&mut self)
        ensures closed { Self.closed self.new ≡ true }
        ensures left { Self.left self.new ≡ Self.left self.old }
        ensures written { Self.written self.new ≡ Self.written self.old }
        ensures faults { Self.faults self.new ≡ Self.faults self.old };
}
