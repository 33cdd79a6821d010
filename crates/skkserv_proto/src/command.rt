ghost use Rattle.std.specs.Prelude.{◌≡◌};
ghost use Rattle.skkserv_proto.specs.Requests.{asking, command_at};

use crate::request::Request;
use skk_text::Bytes;

/// What is asked of a reading.
#[derive(Clone, Copy, Debug, PartialEq, Eq)]
pub enum Wants {
    /// Its candidates.
    Candidates,
    /// The readings that go on from it.
    Completions,
}

impl Wants {
    /// The request of a reading. Takes no memory.
    pub fn request(self, reading: Bytes) -> Request
        ensures { result ≡ asking self reading }
    {
        match self {
            Wants::Candidates => Request::Look(reading),
            Wants::Completions => Request::Complete(reading),
        }
    }
}

/// What a byte is in a command's place.
#[derive(Clone, Copy, Debug, PartialEq, Eq)]
pub enum CommandByte {
    /// A CR or an LF, which is skipped.
    LineEnd,
    /// It ends the connection.
    End,
    /// It asks the version.
    Version,
    /// It asks the host.
    Host,
    /// A reading stands behind it.
    Reading(Wants),
    /// It is no command.
    Other,
}

/// What a byte is in a command's place.
pub fn command_at(byte: u8) -> CommandByte
    ensures { result ≡ command_at byte }
{
    match byte {
        b'\r' | b'\n' => CommandByte::LineEnd,
        b'0' => CommandByte::End,
        b'1' => CommandByte::Reading(Wants::Candidates),
        b'2' => CommandByte::Version,
        b'3' => CommandByte::Host,
        b'4' => CommandByte::Reading(Wants::Completions),
        _ => CommandByte::Other,
    }
}
