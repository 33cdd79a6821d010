use super::{BegunOkuri, Reading};
use skk_text::{Copies, Memory, copy_of};
use std::alloc::Global;

impl Copies for BegunOkuri {
    fn copy(&self, alloc: Global) -> Result<BegunOkuri, Memory> {
        Ok(BegunOkuri {
            letter: self.letter,
            text: self.text.copy(alloc)?,
        })
    }
}

impl Copies for Reading {
    fn copy(&self, alloc: Global) -> Result<Reading, Memory> {
        Ok(Reading {
            text: self.text.copy(alloc)?,
            is_abbrev: self.is_abbrev,
            okuri: copy_of(alloc, self.okuri.as_ref())?,
            pending: self.pending.copied(),
            completions: copy_of(alloc, self.completions.as_ref())?,
        })
    }
}
