ghost use Rattle.std.specs.Prelude.{◌≡◌, not, IfOk};
ghost use Rattle.std.specs.List.{list_all};
ghost use Rattle.skkserv_proto.specs.Requests.{ends_reading};
ghost use Rattle.skkserv_client.specs.Questions.{are_askable};

use skk_text::{Bytes, Memory, Text};
use std::alloc::Global;

// The most bytes of what is asked.
const LONGEST: usize = 255;

/// What is asked of a server.
#[derive(Debug, Drop)]
pub enum Ask {
    /// The candidates of a reading.
    Look(Text),
    /// The readings that go on from a prefix.
    Complete(Text),
}

impl Ask {
    ghost use Rattle.std.specs.Prelude.{◌≡◌, IfOk};
    ghost use Rattle.skkserv_client.specs.Questions.{command_of, request_of, text_asked};

    /// The reading or the prefix.
    pub fn text(&self) -> &Text
        ensures { result.now ≡ text_asked self.now }
    {
        match self {
            Ask::Look(reading) => reading,
            Ask::Complete(prefix) => prefix,
        }
    }

    // The command before it.
    fn command(&self) -> &'static str
        ensures { result.now ≡ command_of self.now }
    {
        match self {
            Ask::Look(_) => "1",
            Ask::Complete(_) => "4",
        }
    }

    /// The bytes that are sent: a command, the text, and the space that ends it.
    pub fn request(&self, alloc: Global) -> Result<Bytes, Memory>
        ensures { IfOk result (λ bytes. bytes ≡ request_of self.now) }
    {
        let mut bytes = Vec::new(alloc);
        bytes.extend_from_slice(self.command().as_bytes())?;
        bytes.extend_from_slice(self.text().as_str().as_bytes())?;
        bytes.extend_from_slice(b" ")?;
        Ok(Bytes::of(bytes))
    }
}

/// Whether a text can be asked: it has 1 to 255 bytes, none of which is a space, CR or LF.
pub fn is_askable(text: &str) -> bool
    ensures { result ≡ are_askable text.now }
{
    !text.is_empty() && text.len() <= LONGEST && holds_no_end(text.as_bytes())
}

// Whether no byte is a space, CR or LF.
fn holds_no_end(bytes: &[u8]) -> bool
    ensures { result ≡ list_all (λ byte. not (ends_reading byte)) bytes.now }
{
    bytes.iter().all(|byte| !(*byte == b' ' || *byte == b'\r' || *byte == b'\n'))
}
