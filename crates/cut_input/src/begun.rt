ghost use Rattle.std.specs.Prelude.{◌≡◌, ◌++◌, ℕ, List, [], IfOk, OnOk, OnErr};

use skk_text::Memory;
use std::alloc::Global;
use std::marker::Model;

/// The bytes so far of a piece that has not ended: contracts see the list of them.
#[derive(Debug, Drop)]
pub struct Begun {
    bytes: Vec<u8>,
}

impl Model for Begun {
    ghost Value = { List ℕ };

    ghost view = { λ b. b.bytes.items };
}

impl Begun {
    /// No bytes. Takes no memory: it keeps the allocator for bytes that come later.
    pub fn new(alloc: Global) -> Begun
        ensures { result ≡ [] }
    {
        Begun {
            bytes: Vec::new(alloc),
        }
    }

    /// A piece that begins with these bytes.
    pub fn of(alloc: Global, bytes: &[u8]) -> Result<Begun, Memory>
        ensures { IfOk result (λ begun. begun ≡ bytes.now) }
    {
        let mut begun = Begun::new(alloc);
        begun.push_bytes(bytes)?;
        Ok(begun)
    }

    /// The bytes, in order.
    pub fn as_slice(&self) -> &[u8]
        ensures { result.now ≡ self.now }
    {
        self.bytes.as_slice()
    }

    /// Adds bytes at the end.
    pub fn push_bytes(&mut self, bytes: &[u8]) -> Result<(), Memory>
        ensures ok { OnOk result (self.new ≡ self.old ++ bytes.now) }
        ensures err { OnErr result (self.new ≡ self.old) }
    {
        self.bytes.extend_from_slice(bytes)?;
        Ok(())
    }

    /// Takes all bytes out. Takes no memory, and keeps the room.
    pub fn clear(&mut self)
        ensures { self.new ≡ [] }
    {
        self.bytes.clear();
    }
}
