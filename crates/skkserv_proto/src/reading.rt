ghost use Rattle.std.specs.Prelude.{◌≡◌};
ghost use Rattle.skkserv_proto.specs.Requests.{ends_reading, longest_reading};

use cut_input::Ending;

/// The most bytes of a reading.
pub const READING: usize = 255;

/// A reading, which ends at a space, a CR or an LF.
pub struct ReadingEnding;

impl Ending for ReadingEnding {
    ghost ends = { ends_reading };

    ghost limit = { longest_reading };

    fn ends(byte: u8) -> bool {
        byte == b' ' || byte == b'\r' || byte == b'\n'
    }

    fn limit() -> usize {
        READING
    }
}
