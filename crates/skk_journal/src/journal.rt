ghost use Rattle.std.specs.Prelude.{◌≡◌, ◌≢◌, ◌⊎◌, ◌+◌, ◌<◌, ◌≤◌, [], List, ℕ, true, false, length, All};
ghost use Rattle.std.specs.Prelude.{IfOk, IfErr, OnOk, OnErr, IsOk, IsErrOf, MatchResult};
ghost use Rattle.skk_outside.specs.Faults.{Rose};
ghost use Rattle.skk_disk.specs.Image.{Image};
ghost use Rattle.skk_disk.specs.declared.which.Which.TheVariants.{A};
ghost use Rattle.skk_disk.specs.Runs.{Advances, ImagesWithin};
ghost use Rattle.skk_journal.specs.declared.choice.LiveChoice.TheVariants.{NoLive, LiveIn};
ghost use Rattle.skk_journal.specs.Contents.{Contents, with_added, with_record};
ghost use Rattle.skk_journal.specs.Records.{IsSized, IsGroup, IsVersion, need, framed, first_place};
ghost use Rattle.skk_journal.specs.Found.{payloads, found_from};
ghost use Rattle.skk_journal.specs.Generations.{live_after};
ghost use Rattle.skk_journal.specs.Choice.{choice};
ghost use Rattle.skk_journal.specs.Opening.{IsOpened, with_contents, contents_of};
ghost use Rattle.skk_journal.specs.Images.{Each, Opens, OpensEither, StillOpens, Anyhow};
ghost use Rattle.skk_journal.specs.Filling.{IsNew};
ghost use Rattle.skk_journal.specs.Journal.{is_in_doubt, Rests, Doubts};
ghost use Rattle.skk_journal.specs.Causes.{file_number, IsRefused, UnlessDisk, IsNotAdded};

use crate::fault::{AppendFault, OpenFault};
use crate::filling::write_first;
use crate::found::Records;
use crate::live::{Doubt, Idle, Live, generation_beside, other_file};
use crate::opening::{number, open_files};
use crate::ready::make_ready;
use crate::records::FIRST_PLACE;
use crate::steps::{CLOSED, OPEN, add_record, add_records, write_gate};
use skk_disk::Disk;
use skk_outside::Failed;
use std::alloc::{AllocError, Global};
use std::marker::Model;

/// The most bytes that a record's payload has.
pub const PAYLOAD_LIMIT: usize = 131_072;

// The most bytes of a record that are written at once: the length of a payload, the payload, and a closed gate.
pub(crate) const PIECE_ROOM: usize = 131_077;

/// The learned dictionary of a disk, open: records can be added behind those that its live file has, and it can go over
/// to the other file with other ones.
#[derive(Drop)]
pub struct Journal<D> {
    disk: D,
    newest: u8,
    live: Live,
    end: u64,
    idle: Idle,
    doubt: Doubt,
    buffer: Vec<u8>,
}

impl<D> Model for Journal<D> {
    ghost use Rattle.std.specs.Prelude.{◌≡◌, ◌≤◌, length};
    ghost use Rattle.skk_journal.specs.Records.{IsVersion};
    ghost use Rattle.skk_journal.specs.Journal.{OpenJournal};
    ghost use Rattle.skk_journal.specs.declared.journal.TheConstants.{PIECE_ROOM};

    ghost Value = { OpenJournal D };

    ghost view = { λ j. record {
      disk = j.disk;
      newest = j.newest;
      live = j.live;
      end = j.end;
      idle = j.idle;
      doubt = j.doubt;
    } };

    ghost invariant = { λ j. (1 ≤ j.end) × (length j.buffer.items ≡ PIECE_ROOM) × IsVersion j.newest j.live.version };
}

/// A disk whose learned dictionary was not opened, and why.
#[derive(Debug, Drop)]
pub struct Unopened<D> {
    pub disk: D,
    pub why: OpenFault,
}

// Tells whether bytes have room behind an end.
fn check_room(end: u64, need: u64, limit: u64) -> Result<(), AppendFault>
    ensures fits { OnOk result (end + need ≤ limit) }
    ensures full { IfErr result (λ fault. (limit < end + need) × (fault ≡ AppendFault.Full end need limit)) }
{
    if end > limit || need > limit - end {
        return Err(AppendFault::Full { end, need, limit });
    }
    Ok(())
}

// Room for one piece.
fn empty_buffer(alloc: Global) -> Result<Vec<u8>, AllocError>
    ensures { IfOk result (λ buffer. length buffer.items ≡ PIECE_ROOM) }
{
    vec![in alloc; 0; PIECE_ROOM]
}

impl<D> Journal<D> {
    /// Whether a gate may stand open that is to be closed: that of the last record that was to be added, or that of the
    /// other file. Takes no memory.
    pub fn in_doubt(&self) -> bool
        ensures { result ≡ is_in_doubt self.now.doubt }
    {
        match self.doubt {
            Doubt::Calm => false,
            Doubt::Record | Doubt::Idle => true,
        }
    }

    /// One more than the place of the closed gate behind the records of the live file. Takes no memory.
    pub fn end(&self) -> u64
        ensures { result ≡ self.now.end }
    {
        self.end
    }

    /// The number of the live file: 0 is the first one, 1 the second one. Takes no memory.
    pub fn file(&self) -> u8
        ensures { result ≡ file_number self.now.live.file }
    {
        number(self.live.file)
    }

    /// The version of the live file. Takes no memory.
    pub fn version(&self) -> u8
        ensures live { result ≡ self.now.live.version }
        ensures right { IsVersion self.now.newest result }
    {
        self.live.version
    }

    /// Gives the disk back as it is. Takes no memory.
    pub fn close(self) -> D
        ensures { result ≡ self.disk }
    {
        self.disk
    }
}

impl<D: Disk> Journal<D> {
    /// Opens the learned dictionary of a disk, after a sync of both files, and gives the records of its live file in
    /// order. The versions from 1 up to `newest` are right, and a file that is filled gets `newest`. Where no file is
    /// live the first one is filled with no records. It takes the memory of the records, and a buffer that each later
    /// record is written from.
    pub fn open(
        alloc: Global,
        mut disk: D,
        newest: u8,
    ) -> Result<(Journal<D>, Records), Unopened<D>>
        requires { 1 ≤ newest }
        ensures newest { IfOk result (λ opened. opened.0.newest ≡ newest) }

        // What a read gives of both files at the start decides.
        ensures opened { D.tells → IfOk result (λ opened.
            IsOpened newest (D.seen disk) (with_contents (contents_of opened.0.live (payloads opened.1)))) }
        ensures refused { D.tells → IfErr result (λ unopened. IsRefused newest (D.seen disk) unopened.why) }
        ensures live { D.tells → choice newest (D.seen disk) ≢ NoLive → IfOk result (λ opened.
            choice newest (D.seen disk) ≡ LiveIn opened.0.live) }
        ensures right { IfOk result (λ opened. IsVersion newest opened.0.live.version) }
        ensures places { IfOk result (λ opened. opened.1 ≡ found_from first_place (payloads opened.1)) }

        // What each image has afterwards, also where a file was filled.
        ensures rests { IfOk result (λ opened.
            Rests D.Disk opened.0 (contents_of opened.0.live (payloads opened.1))) }
        ensures anew { D.tells → choice newest (D.seen disk) ≡ NoLive → IfOk result (λ opened.
            Each (D.left_since opened.0.disk (D.time opened.0.disk)) (IsNew newest)) }

        // Where there was one image, each one of each moment is opened with its records, and where a file was live with
        // its version too: a file that was not may be one of an older version without records, until it is filled.
        ensures images { (contents : Contents) (start : Image) →
            Each (D.left_since disk (D.time disk)) (λ image. image ≡ start) → Opens newest contents start →
            MatchResult result
            (λ opened. Each (D.left_since opened.0.disk (D.time disk)) (StillOpens newest start contents))
            (λ unopened. Each (D.left_since unopened.disk (D.time disk)) (StillOpens newest start contents)) }

        // But where no file is live both are only synced and read, and the second one is in any case.
        ensures kept { D.tells → choice newest (D.seen disk) ≢ NoLive → MatchResult result
            (λ opened. Each (D.left_since opened.0.disk (D.time disk)) (D.left_since disk (D.time disk)))
            (λ unopened. Each (D.left_since unopened.disk (D.time disk)) (D.left_since disk (D.time disk))) }
        ensures seen { D.tells → choice newest (D.seen disk) ≢ NoLive → MatchResult result
            (λ opened. D.seen opened.0.disk ≡ D.seen disk)
            (λ unopened. UnlessDisk unopened.why (D.seen unopened.disk ≡ D.seen disk)) }
        ensures first_alone { MatchResult result
            (λ opened. ImagesWithin D.Disk A Anyhow disk opened.0.disk)
            (λ unopened. ImagesWithin D.Disk A Anyhow disk unopened.disk) }

        ensures advances { MatchResult result
            (λ opened. Advances D.Disk disk opened.0.disk) (λ unopened. Advances D.Disk disk unopened.disk) }
        ensures failed { IfErr result (λ unopened. unopened.why ≡ OpenFault.Disk →
            Rose (D.faults disk) (D.faults unopened.disk)) }
    {
        let Ok(mut buffer) = empty_buffer(alloc) else {
            let why = OpenFault::Memory;
            return Err(Unopened { disk, why });
        };
        match open_files(alloc, &mut disk, newest, &mut buffer) {
            Ok(opened) => {
                let journal = Journal {
                    disk,
                    newest,
                    live: opened.live,
                    end: opened.end,
                    idle: opened.idle,
                    doubt: Doubt::Calm,
                    buffer,
                };
                Ok((journal, opened.records))
            }
            Err(why) => Err(Unopened { disk, why }),
        }
    }

    /// Adds a record behind the others of the live file: a write and a sync of it behind the closed gate, and a write
    /// and a sync of the gate. Where one of the last two fails the record is in doubt. Takes no memory.
    #[tactic(auto, using(crate::specs::RecordLaws::need_is))]
    pub fn append(&mut self, limit: u64, payload: &[u8]) -> Result<(), AppendFault>
        requires calm { is_in_doubt self.old.doubt ≡ false }
        requires sized { IsSized payload.now }

        // It is added exactly where it ends within the limit and the disk does not fail.
        ensures fits { OnOk result (self.old.end + need payload.now ≤ limit) }
        ensures cause { IfErr result (IsNotAdded (need payload.now) limit self.old self.new) }
        ensures failed { IsErrOf result AppendFault.Disk → Rose (D.faults self.old.disk) (D.faults self.new.disk) }

        ensures settled { OnOk result (is_in_doubt self.new.doubt ≡ false) }
        ensures end { OnOk result (self.new.end ≡ self.old.end + need payload.now) }
        ensures end_stays { OnErr result (self.new.end ≡ self.old.end) }
        ensures live { self.new.live ≡ self.old.live }
        ensures newest { self.new.newest ≡ self.old.newest }

        // What each image has afterwards, and at each moment.
        ensures ok { OnOk result ((contents : Contents) → Rests D.Disk self.old contents →
            Rests D.Disk self.new (with_record contents payload.now)) }
        ensures err { OnErr result ((contents : Contents) → Rests D.Disk self.old contents →
            Rests D.Disk self.new contents
            ⊎ Doubts D.Disk self.new contents (with_record contents payload.now)) }
        ensures images { (contents : Contents) → Rests D.Disk self.old contents →
            Each (D.left_since self.new.disk (D.time self.old.disk))
            (OpensEither self.old.newest contents (with_record contents payload.now)) }

        ensures advances { Advances D.Disk self.old.disk self.new.disk }
    {
        let need = 5 + payload.len() as u64;
        check_room(self.end, need, limit)?;
        add_record(
            &mut self.disk,
            self.live.file,
            self.end,
            &mut self.doubt,
            &mut self.buffer,
            payload,
        )?;
        self.end += need;
        Ok(())
    }

    /// Adds records behind the others of the live file, all of them or none: a write and a sync of them behind the
    /// closed gate, and a write and a sync of the gate of the first one, without which they are given, with a closed
    /// gate at their end. Where one of the last two fails they are in doubt, all together. Takes no memory.
    pub fn append_many(&mut self, limit: u64, records: &[u8]) -> Result<(), AppendFault>
        requires { is_in_doubt self.old.doubt ≡ false }

        // They are added exactly where they end within the limit and the disk does not fail.
        ensures fits { OnOk result (self.old.end + length records.now ≤ limit) }
        ensures cause { IfErr result (IsNotAdded (length records.now) limit self.old self.new) }
        ensures failed { IsErrOf result AppendFault.Disk → Rose (D.faults self.old.disk) (D.faults self.new.disk) }

        ensures settled { OnOk result (is_in_doubt self.new.doubt ≡ false) }
        ensures end { OnOk result (self.new.end ≡ self.old.end + length records.now) }
        ensures end_stays { OnErr result (self.new.end ≡ self.old.end) }
        ensures live { self.new.live ≡ self.old.live }
        ensures newest { self.new.newest ≡ self.old.newest }

        // What each image has afterwards, and at each moment.
        ensures ok { OnOk result ((contents : Contents) (added : List (List ℕ)) → IsGroup added records.now →
            Rests D.Disk self.old contents → Rests D.Disk self.new (with_added contents added)) }
        ensures err { OnErr result ((contents : Contents) (added : List (List ℕ)) → IsGroup added records.now →
            Rests D.Disk self.old contents →
            Rests D.Disk self.new contents
            ⊎ Doubts D.Disk self.new contents (with_added contents added)) }
        ensures images { (contents : Contents) (added : List (List ℕ)) → IsGroup added records.now →
            Rests D.Disk self.old contents →
            Each (D.left_since self.new.disk (D.time self.old.disk))
            (OpensEither self.old.newest contents (with_added contents added)) }

        ensures advances { Advances D.Disk self.old.disk self.new.disk }
    {
        let need = records.len() as u64;
        check_room(self.end, need, limit)?;
        add_records(
            &mut self.disk,
            self.live.file,
            self.end,
            &mut self.doubt,
            records,
        )?;
        self.end += need;
        Ok(())
    }

    /// Fills the other file with the newest version and the bytes of these records, which is live after `Ok` with them
    /// alone: at most eleven calls. After `Failed` the live file is the same, and the gate of the other one is in doubt
    /// where its opening was begun. Takes no memory.
    pub fn compact(&mut self, records: &[u8]) -> Result<(), Failed>
        requires { is_in_doubt self.old.doubt ≡ false }
        ensures failed { OnErr result (Rose (D.faults self.old.disk) (D.faults self.new.disk)) }

        ensures settled { OnOk result (is_in_doubt self.new.doubt ≡ false) }
        ensures end { OnOk result (self.new.end ≡ first_place + 1 + length records.now) }
        ensures end_stays { OnErr result (self.new.end ≡ self.old.end) }
        ensures live { OnOk result (self.new.live ≡ live_after self.old.newest self.old.live) }
        ensures live_stays { OnErr result (self.new.live ≡ self.old.live) }
        ensures newest { self.new.newest ≡ self.old.newest }

        // What each image has afterwards, and at each moment.
        ensures ok { OnOk result ((before : Contents) (compacted : List (List ℕ)) → All IsSized compacted →
            records.now ≡ framed compacted → Rests D.Disk self.old before →
            Rests D.Disk self.new (record { version = self.old.newest; records = compacted })) }
        ensures err { OnErr result ((before : Contents) (compacted : List (List ℕ)) → All IsSized compacted →
            records.now ≡ framed compacted → Rests D.Disk self.old before →
            Rests D.Disk self.new before
            ⊎ Doubts D.Disk self.new before (record { version = self.old.newest; records = compacted })) }
        ensures images { (before : Contents) (compacted : List (List ℕ)) → All IsSized compacted →
            records.now ≡ framed compacted → Rests D.Disk self.old before →
            Each (D.left_since self.new.disk (D.time self.old.disk))
            (OpensEither self.old.newest before (record { version = self.old.newest; records = compacted })) }

        ensures advances { Advances D.Disk self.old.disk self.new.disk }
    {
        let newest = self.newest;
        let beside = Some(self.live);
        let file = other_file(self.live.file);
        let generation = generation_beside(beside);
        make_ready(
            &mut self.disk,
            file,
            newest,
            beside,
            &mut self.idle,
            records,
        )?;
        // From here on the gate may be open.
        self.doubt = Doubt::Idle;
        write_first(&mut self.disk, file, OPEN)?;
        self.doubt = Doubt::Calm;
        self.live = Live {
            file,
            version: newest,
            generation,
        };
        self.idle = Idle::Loose;
        self.end = FIRST_PLACE + 1 + records.len() as u64;
        Ok(())
    }

    /// Closes the gate in doubt: a write and a sync, or no call where nothing is in doubt. After `Failed` the doubt
    /// stands. Takes no memory.
    pub fn repair(&mut self) -> Result<(), Failed>
        ensures calm { is_in_doubt self.old.doubt ≡ false → IsOk result × (self.new ≡ self.old) }
        ensures failed { OnErr result (Rose (D.faults self.old.disk) (D.faults self.new.disk)) }

        ensures settled { OnOk result (is_in_doubt self.new.doubt ≡ false) }
        ensures stands { OnErr result (is_in_doubt self.new.doubt ≡ true) }
        ensures end { self.new.end ≡ self.old.end }
        ensures live { self.new.live ≡ self.old.live }
        ensures newest { self.new.newest ≡ self.old.newest }

        // What each image has afterwards, and at each moment.
        ensures ok { OnOk result ((contents others : Contents) →
            Doubts D.Disk self.old contents others → Rests D.Disk self.new contents) }
        ensures err { OnErr result ((contents others : Contents) →
            Doubts D.Disk self.old contents others →
            Doubts D.Disk self.new contents others) }
        ensures images { (contents others : Contents) → Doubts D.Disk self.old contents others →
            Each (D.left_since self.new.disk (D.time self.old.disk)) (OpensEither self.old.newest contents others) }
        ensures rests { (contents : Contents) → Rests D.Disk self.old contents →
            Each (D.left_since self.new.disk (D.time self.old.disk)) (Opens self.old.newest contents) }

        ensures advances { Advances D.Disk self.old.disk self.new.disk }
    {
        match self.doubt {
            Doubt::Calm => Ok(()),
            Doubt::Record => {
                write_gate(&mut self.disk, self.live.file, self.end - 1, CLOSED)?;
                self.doubt = Doubt::Calm;
                Ok(())
            }
            Doubt::Idle => {
                write_first(&mut self.disk, other_file(self.live.file), CLOSED)?;
                self.idle = Idle::Blank;
                self.doubt = Doubt::Calm;
                Ok(())
            }
        }
    }
}
