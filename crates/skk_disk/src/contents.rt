ghost use Rattle.std.specs.Prelude.{◌≡◌, ◌++◌, ◌-◌, length, take, replicate, OnOk, OnErr};
ghost use Rattle.skk_disk.specs.Image.{empty_image, part, with_part};
ghost use Rattle.skk_disk.specs.Steps.{placed};

use crate::which::Which;
use std::alloc::{AllocError, Global};
use std::marker::Model;

// The bytes of both files: contracts see an image.
#[derive(Debug, Drop)]
pub(crate) struct Contents {
    a: Vec<u8>,
    b: Vec<u8>,
}

impl Model for Contents {
    ghost use Rattle.skk_disk.specs.Image.{Image};

    ghost Value = { Image };

    ghost view = { λ c. record { a = c.a.items; b = c.b.items } };
}

impl Contents {
    // Two empty files. Takes no memory.
    pub(crate) fn new(alloc: Global) -> Contents
        ensures { result ≡ empty_image }
    {
        Contents {
            a: Vec::new(alloc),
            b: Vec::new(alloc),
        }
    }

    // The bytes of a file.
    pub(crate) fn bytes(&self, file: Which) -> &[u8]
        ensures { result.now ≡ part file self.now }
    {
        match file {
            Which::A => &self.a,
            Which::B => &self.b,
        }
    }

    // Writes bytes at a place of a file, in place as far as there is room.
    pub(crate) fn write(&mut self, file: Which, at: u64, from: &[u8]) -> Result<(), AllocError>
        ensures ok { OnOk result (self.new ≡ with_part file (placed at from.now (part file self.old)) self.old) }
        ensures err { OnErr result (self.new ≡ self.old) }
    {
        match file {
            Which::A => place(&mut self.a, at, from),
            Which::B => place(&mut self.b, at, from),
        }
    }

    // Cuts a file to a length, where it is longer.
    pub(crate) fn cut(&mut self, file: Which, len: u64)
        ensures { self.new ≡ with_part file (take len (part file self.old)) self.old }
    {
        match file {
            Which::A => self.a.truncate(len as usize),
            Which::B => self.b.truncate(len as usize),
        }
    }
}

// Writes bytes at a place of a file, behind zeros where it is shorter.
fn place(file: &mut Vec<u8>, at: u64, from: &[u8]) -> Result<(), AllocError>
    ensures ok { OnOk result (file.new.items ≡ placed at from.now file.old.items) }
    ensures err { OnErr result (file.new.items ≡ file.old.items) }
{
    let at = at as usize;
    // No vector is longer than that.
    let Some(end) = at.checked_add(from.len()) else {
        return Err(AllocError);
    };
    grow(file, end)?;
    file[at..end].copy_from_slice(from);
    Ok(())
}

// Fills a file up with zeros to a length, where it is shorter.
fn grow(file: &mut Vec<u8>, len: usize) -> Result<(), AllocError>
    ensures ok { OnOk result (file.new.items ≡ file.old.items ++ replicate (len - length file.old.items) 0) }
    ensures err { OnErr result (file.new.items ≡ file.old.items) }
{
    if len <= file.len() {
        return Ok(());
    }
    file.resize(len, 0)
}
