ghost use Rattle.std.specs.Prelude.{◌≡◌, ◌↔◌, ◌≤◌, ◌<◌, ◌++◌, ◌∷◌, [], ⊤, length, take, drop, min};
ghost use Rattle.std.specs.Prelude.{Some, IfOk, IsErr, OnOk, OnErr};
ghost use Rattle.std.specs.Io.{ReadsAtMost};
ghost use Rattle.skk_outside.specs.Faults.{Rose};
ghost use Rattle.skk_outside.specs.Memory.{no_call_yet, after_success, after_failure, FailsNext};
ghost use Rattle.skk_outside.specs.Shelves.{ReadsFrom};
ghost use Rattle.skk_disk.specs.Image.{Image, part, with_part};
ghost use Rattle.skk_disk.specs.Steps.{placed, PartlyWritten, PartlyCut, InFile, ComeFrom};
ghost use Rattle.skk_disk.specs.Moments.{Passes, SameImages};
ghost use Rattle.skk_disk.specs.MadeCalls.{seen_after, LeftSince, IsMade, HasFailed};
ghost use Rattle.skk_disk.specs.MadeCallLaws.{earlier, reads_image, apart};

use crate::call_record::CallRecord;
use crate::disk::Disk;
use crate::made_call::MadeCall;
use crate::which::Which;
use skk_outside::{Calls, Failed, copy_what_fits};
use std::alloc::Global;
use std::marker::Model;

/// A disk in memory, with a list of calls that are to fail. It keeps a record of its calls, and its images
/// at each moment are all that the rules of a disk allow for the calls made by then.
///
/// A write or a cut that is to fail leaves what a read gives, and a stop may leave any part of it; a sync
/// that is to fail changes nothing. A call for which memory is out fails and changes nothing either.
///
/// Each write, cut or sync that went well leaves room in the record for one call more, so that where the next
/// one is to fail it is recorded, whether there is memory or not. One that is to fail where there is neither
/// room nor memory is not recorded, and no part of it is left.
#[derive(Debug, Drop)]
pub struct MemDisk {
    record: CallRecord,
    calls: Calls,
}

impl Model for MemDisk {
    ghost use Rattle.skk_disk.specs.MadeCalls.{MemDiskState};

    ghost Value = { MemDiskState };

    ghost view = { λ m. record { made = m.record.made; room = m.record.room; count = m.calls } };
}

impl MemDisk {
    /// Two empty files. All calls are counted, from 1, and those with these numbers fail. Takes no memory.
    pub fn new(alloc: Global, fails: Vec<u64>) -> MemDisk
        ensures made { result.made ≡ [] }
        ensures count { result.count ≡ no_call_yet fails.items }
    {
        MemDisk {
            record: CallRecord::new(alloc),
            calls: Calls::new(fails),
        }
    }

    /// The writes, cuts and syncs that were made, and the writes and cuts that were to fail, in order. Takes no
    /// memory.
    pub fn made(&self) -> &[MadeCall]
        ensures { result.now ≡ self.now.made }
    {
        self.record.made()
    }

    // Makes a write, or fails where it is to fail or can't be recorded.
    fn make_write(&mut self, file: Which, at: u64, from: &[u8]) -> Result<(), Failed>
        ensures fails { FailsNext self.old.count → IsErr result }
        ensures counted { self.old.count.faults ≤ self.new.count.faults }
        ensures ok { OnOk result (IsMade (MadeCall.Write file at from.now) self.old self.new) }
        ensures err { OnErr result (HasFailed (MadeCall.TornWrite file at (length from.now) ∷ []) self.old self.new) }
    {
        if let Err(failed) = self.calls.next() {
            // Any part of it may be left.
            self.record.torn_write(file, at, from.len() as u64);
            return Err(failed);
        }
        let Ok(()) = self.record.write(file, at, from) else {
            return Err(self.calls.fail());
        };
        Ok(())
    }

    // Makes a cut, or fails where it is to fail or can't be recorded.
    fn make_cut(&mut self, file: Which, len: u64) -> Result<(), Failed>
        ensures fails { FailsNext self.old.count → IsErr result }
        ensures counted { self.old.count.faults ≤ self.new.count.faults }
        ensures ok { OnOk result (IsMade (MadeCall.Cut file len) self.old self.new) }
        ensures err { OnErr result (HasFailed (MadeCall.TornCut file len ∷ []) self.old self.new) }
    {
        if let Err(failed) = self.calls.next() {
            // Any part of it may be left.
            self.record.torn_cut(file, len);
            return Err(failed);
        }
        let Ok(()) = self.record.cut(file, len) else {
            return Err(self.calls.fail());
        };
        Ok(())
    }

    // Makes a sync, or fails where it is to fail or can't be recorded.
    fn make_sync(&mut self, file: Which) -> Result<(), Failed>
        ensures fails { FailsNext self.old.count → IsErr result }
        ensures counted { self.old.count.faults ≤ self.new.count.faults }
        ensures ok { OnOk result (IsMade (MadeCall.Sync file) self.old self.new) }
        ensures err { OnErr result (HasFailed [] self.old self.new) }
    {
        self.calls.next()?;
        let Ok(()) = self.record.sync(file) else {
            return Err(self.calls.fail());
        };
        Ok(())
    }
}

impl Disk for MemDisk {
    ghost tells = { ⊤ };

    ghost faults = { λ m. m.count.faults };

    ghost time = { λ m. length m.made };

    ghost seen = { λ m. seen_after m.made };

    ghost left_since = { λ m t image. LeftSince m.made t image };

    ghost earlier = { λ m t u image le left. earlier m.made t u image le left };

    ghost reads_image = { λ m tells. reads_image m.made };

    ghost apart = { λ m c d is_c is_d. apart m.made c d is_c is_d };

    ghost tells_images = { λ m t image left. tt };

    fn len(&mut self, file: Which) -> Result<u64, Failed>
        ensures length { ⊤ → IfOk result (λ n. n ≡ length (part file (seen_after self.old.made))) }
        ensures seen { seen_after self.new.made ≡ seen_after self.old.made }
        ensures time { length self.new.made ≡ length self.old.made }
        ensures images { SameImages (LeftSince self.old.made) (LeftSince self.new.made) }
        ensures failed { OnErr result (Rose self.old.count.faults self.new.count.faults) }
        ensures counted { self.old.count.faults ≤ self.new.count.faults }

        // It fails exactly where it is to fail, and is not recorded.
        ensures fails { IsErr result ↔ FailsNext self.old.count }
        ensures made { self.new.made ≡ self.old.made }
        ensures room { self.new.room ≡ self.old.room }
        ensures ok { OnOk result (self.new.count ≡ after_success self.old.count) }
        ensures err { OnErr result (self.new.count ≡ after_failure self.old.count) }
    {
        self.calls.next()?;
        Ok(self.record.bytes(file).len() as u64)
    }

    fn read_at(&mut self, file: Which, at: u64, into: &mut [u8]) -> Result<usize, Failed>
        ensures bound { ReadsAtMost result into.new }
        ensures bytes { ⊤ → ReadsFrom (Some (part file (seen_after self.old.made))) at result into.new }
        ensures seen { seen_after self.new.made ≡ seen_after self.old.made }
        ensures time { length self.new.made ≡ length self.old.made }
        ensures images { SameImages (LeftSince self.old.made) (LeftSince self.new.made) }
        ensures failed { OnErr result (Rose self.old.count.faults self.new.count.faults) }
        ensures counted { self.old.count.faults ≤ self.new.count.faults }

        // It fails exactly where it is to fail, is not recorded, and reads as much as there is room for.
        ensures fails { IsErr result ↔ FailsNext self.old.count }
        ensures many { IfOk result (λ n.
            n ≡ min (length into.old) (length (drop at (part file (seen_after self.old.made))))) }
        ensures made { self.new.made ≡ self.old.made }
        ensures room { self.new.room ≡ self.old.room }
        ensures ok { OnOk result (self.new.count ≡ after_success self.old.count) }
        ensures err { OnErr result (self.new.count ≡ after_failure self.old.count) }
    {
        self.calls.next()?;
        Ok(read_from(self.record.bytes(file), at, into))
    }

    fn write_at(&mut self, file: Which, at: u64, from: &[u8]) -> Result<(), Failed>
        ensures written { OnOk result (⊤ → seen_after self.new.made
            ≡ with_part file (placed at from.now (part file (seen_after self.old.made))) (seen_after self.old.made)) }
        ensures partly { ⊤ → InFile file (PartlyWritten (record { at = at; count = length from.now }))
            (seen_after self.old.made) (seen_after self.new.made) }
        ensures images { ComeFrom (InFile file (PartlyWritten (record { at = at; count = length from.now })))
            (LeftSince self.old.made (length self.old.made)) (LeftSince self.new.made (length self.old.made)) }
        ensures past { Passes (length self.old.made) (length self.new.made)
            (LeftSince self.old.made) (LeftSince self.new.made) }
        ensures later { OnOk result (⊤ → length self.old.made < length self.new.made) }
        ensures failed { OnErr result (Rose self.old.count.faults self.new.count.faults) }
        ensures counted { self.old.count.faults ≤ self.new.count.faults }

        // What is recorded; where it is to fail it does.
        ensures fails { FailsNext self.old.count → IsErr result }
        ensures ok { OnOk result (IsMade (MadeCall.Write file at from.now) self.old self.new) }
        ensures err { OnErr result (HasFailed (MadeCall.TornWrite file at (length from.now) ∷ []) self.old self.new) }
    {
        self.make_write(file, at, from)
    }

    fn cut(&mut self, file: Which, len: u64) -> Result<(), Failed>
        ensures cut { OnOk result (⊤ → seen_after self.new.made
            ≡ with_part file (take len (part file (seen_after self.old.made))) (seen_after self.old.made)) }
        ensures partly { ⊤ → InFile file (PartlyCut len) (seen_after self.old.made) (seen_after self.new.made) }
        ensures images { ComeFrom (InFile file (PartlyCut len))
            (LeftSince self.old.made (length self.old.made)) (LeftSince self.new.made (length self.old.made)) }
        ensures past { Passes (length self.old.made) (length self.new.made)
            (LeftSince self.old.made) (LeftSince self.new.made) }
        ensures later { OnOk result (⊤ → length self.old.made < length self.new.made) }
        ensures failed { OnErr result (Rose self.old.count.faults self.new.count.faults) }
        ensures counted { self.old.count.faults ≤ self.new.count.faults }

        // What is recorded; where it is to fail it does.
        ensures fails { FailsNext self.old.count → IsErr result }
        ensures ok { OnOk result (IsMade (MadeCall.Cut file len) self.old self.new) }
        ensures err { OnErr result (HasFailed (MadeCall.TornCut file len ∷ []) self.old self.new) }
    {
        self.make_cut(file, len)
    }

    fn sync(&mut self, file: Which) -> Result<(), Failed>
        ensures durable { OnOk result ((image : Image) → LeftSince self.new.made (length self.new.made) image →
            part file image ≡ part file (seen_after self.new.made)) }
        ensures seen { OnOk result (seen_after self.new.made ≡ seen_after self.old.made) }
        ensures images { (image : Image) → LeftSince self.new.made (length self.old.made) image →
            LeftSince self.old.made (length self.old.made) image }
        ensures past { Passes (length self.old.made) (length self.new.made)
            (LeftSince self.old.made) (LeftSince self.new.made) }
        ensures later { OnOk result (⊤ → length self.old.made < length self.new.made) }
        ensures failed { OnErr result (Rose self.old.count.faults self.new.count.faults) }
        ensures counted { self.old.count.faults ≤ self.new.count.faults }

        // What is recorded; where it is to fail it does.
        ensures fails { FailsNext self.old.count → IsErr result }
        ensures ok { OnOk result (IsMade (MadeCall.Sync file) self.old self.new) }
        ensures err { OnErr result (HasFailed [] self.old self.new) }
    {
        self.make_sync(file)
    }
}

// Copies what a file has from a place on, as far as there is room.
fn read_from(file: &[u8], at: u64, into: &mut [u8]) -> usize
    ensures count { result ≡ min (length into.old) (length (drop at file.now)) }
    ensures room { length into.new ≡ length into.old }
    ensures bytes { take result into.new ≡ take result (drop at file.now) }
{
    let place = at.min(file.len() as u64) as usize;
    copy_what_fits(&file[place..], into)
}
