ghost use Rattle.std.specs.Prelude.{◌≡◌, ◌⊎◌, ◌<◌, ◌≤◌, ◌+◌, ◌++◌, ◌∷◌, [], OnOk, OnErr};
ghost use Rattle.std.specs.Vec.{vec_len, vec_capacity};
ghost use Rattle.skk_disk.specs.Image.{part};
ghost use Rattle.skk_disk.specs.MadeCalls.{made_by, image_seen};

use crate::contents::Contents;
use crate::made_call::MadeCall;
use crate::which::Which;
use skk_text::Bytes;
use std::alloc::{AllocError, Global};
use std::marker::Model;

// The calls that were made on a disk that was empty, in order, and the bytes that a read gives after them:
// contracts see the calls, and for how many more there is room. A call that was made leaves room for one more,
// so that one that fails can be recorded when memory is out. Where that room can't be had, or memory for the
// call itself, the call changes nothing.
#[derive(Debug, Drop)]
pub(crate) struct CallRecord {
    alloc: Global,
    contents: Contents,
    made: Vec<MadeCall>,
    ghost is: { contents ≡ image_seen (made_by made.items) },
}

impl Model for CallRecord {
    ghost use Rattle.std.specs.Prelude.{◌-◌};
    ghost use Rattle.std.specs.Vec.{vec_len, vec_capacity};
    ghost use Rattle.skk_disk.specs.MadeCalls.{RecordState};

    ghost Value = { RecordState };

    ghost view = { λ r. record { made = r.made.items; room = vec_capacity r.made - vec_len r.made } };
}

impl CallRecord {
    // No call. Takes no memory.
    pub(crate) fn new(alloc: Global) -> CallRecord
        ensures { result.made ≡ [] }
    {
        CallRecord {
            alloc,
            contents: Contents::new(alloc),
            made: Vec::new(alloc),
        }
    }

    // The calls, in order.
    pub(crate) fn made(&self) -> &[MadeCall]
        ensures { result.now ≡ self.now.made }
    {
        self.made.as_slice()
    }

    // The bytes that a read gives of a file.
    pub(crate) fn bytes(&self, file: Which) -> &[u8]
        ensures { result.now ≡ part file (image_seen (made_by self.now.made)) }
    {
        self.contents.bytes(file)
    }

    // Does a write and records it.
    pub(crate) fn write(&mut self, file: Which, at: u64, from: &[u8]) -> Result<(), AllocError>
        ensures ok { OnOk result (self.new.made ≡ self.old.made ++ MadeCall.Write file at from.now ∷ []) }
        ensures room { OnOk result (0 < self.new.room) }
        ensures err { OnErr result (self.new.made ≡ self.old.made) }
    {
        let bytes = Bytes::of(from.to_vec(self.alloc)?);
        self.made.reserve(2)?;
        self.contents.write(file, at, from)?;
        add(&mut self.made, MadeCall::Write { file, at, bytes });
        Ok(())
    }

    // Records a write of so many bytes that failed, where there is room or memory for that.
    pub(crate) fn torn_write(&mut self, file: Which, at: u64, count: u64)
        ensures recorded { 0 < self.old.room → self.new.made ≡ self.old.made ++ MadeCall.TornWrite file at count ∷ [] }
        ensures made { (self.new.made ≡ self.old.made)
            ⊎ (self.new.made ≡ self.old.made ++ MadeCall.TornWrite file at count ∷ []) }
    {
        let _ = self.made.push(MadeCall::TornWrite { file, at, count });
    }

    // Does a cut and records it.
    pub(crate) fn cut(&mut self, file: Which, len: u64) -> Result<(), AllocError>
        ensures ok { OnOk result (self.new.made ≡ self.old.made ++ MadeCall.Cut file len ∷ []) }
        ensures room { OnOk result (0 < self.new.room) }
        ensures err { OnErr result (self.new.made ≡ self.old.made) }
    {
        self.made.reserve(2)?;
        self.contents.cut(file, len);
        add(&mut self.made, MadeCall::Cut { file, len });
        Ok(())
    }

    // Records a cut that failed, where there is room or memory for that.
    pub(crate) fn torn_cut(&mut self, file: Which, len: u64)
        ensures recorded { 0 < self.old.room → self.new.made ≡ self.old.made ++ MadeCall.TornCut file len ∷ [] }
        ensures made { (self.new.made ≡ self.old.made)
            ⊎ (self.new.made ≡ self.old.made ++ MadeCall.TornCut file len ∷ []) }
    {
        let _ = self.made.push(MadeCall::TornCut { file, len });
    }

    // Records a sync.
    pub(crate) fn sync(&mut self, file: Which) -> Result<(), AllocError>
        ensures ok { OnOk result (self.new.made ≡ self.old.made ++ MadeCall.Sync file ∷ []) }
        ensures room { OnOk result (0 < self.new.room) }
        ensures err { OnErr result (self.new.made ≡ self.old.made) }
    {
        self.made.reserve(2)?;
        add(&mut self.made, MadeCall::Sync { file });
        Ok(())
    }
}

// Adds a call to those that have room for it and for one more.
fn add(made: &mut Vec<MadeCall>, call: MadeCall)
    requires { vec_len made.old + 2 ≤ vec_capacity made.old }
    ensures items { made.new.items ≡ made.old.items ++ call ∷ [] }
    ensures room { vec_len made.new < vec_capacity made.new }
{
    let _fits = made.push(call);
}
