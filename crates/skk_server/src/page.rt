use skk_text::Memory;
use std::alloc::Global;

/// Replies that are written together, and how many they are, as far as 64 bits tell.
#[derive(Drop)]
pub(crate) struct Page {
    pub(crate) bytes: Vec<u8>,
    pub(crate) replies: u64,
}

impl Page {
    ghost use Rattle.std.specs.Prelude.{◌≡◌, ◌++◌, [], OnOk, OnErr};

    /// A page without replies. Takes no memory.
    pub(crate) fn new(alloc: Global) -> Page
        ensures { result.bytes.items ≡ [] }
    {
        Page {
            bytes: Vec::new(alloc),
            replies: 0,
        }
    }

    /// Adds a reply.
    pub(crate) fn push(&mut self, reply: &[u8]) -> Result<(), Memory>
        ensures ok { OnOk result (self.new.bytes.items ≡ self.old.bytes.items ++ reply.now) }
        ensures err { OnErr result (self.new.bytes.items ≡ self.old.bytes.items) }
    {
        self.bytes.extend_from_slice(reply)?;
        self.replies = self.replies.saturating_add(1);
        Ok(())
    }

    /// Counts replies that were added as lines, from a place on.
    pub(crate) fn count_lines(&mut self, start: usize)
        ensures { self.new.bytes ≡ self.old.bytes }
    {
        if let Some(lines) = self.bytes.get(start..) {
            let count = lines.iter().filter(|byte| **byte == b'\n').count();
            self.replies = self.replies.saturating_add(count as u64);
        }
    }

    /// Takes all replies away, and keeps the room.
    pub(crate) fn clear(&mut self)
        ensures { self.new.bytes.items ≡ [] }
    {
        self.bytes.clear();
        self.replies = 0;
    }
}
