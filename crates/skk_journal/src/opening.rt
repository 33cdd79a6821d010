ghost use Rattle.std.specs.Prelude.{◌≡◌, ◌≢◌, ◌≤◌, ℕ, length, IfOk, IfErr, IsErrOf, MatchResult, OnOk, OnErr};
ghost use Rattle.skk_outside.specs.Faults.{Rose};
ghost use Rattle.skk_disk.specs.Image.{Image, part, other};
ghost use Rattle.skk_disk.specs.declared.which.Which.TheVariants.{A};
ghost use Rattle.skk_disk.specs.Moments.{SameImages};
ghost use Rattle.skk_disk.specs.Runs.{Advances, ImagesWithin, OnlyReads};
ghost use Rattle.skk_journal.specs.declared.choice.LiveChoice.TheVariants.{NoLive, LiveIn};
ghost use Rattle.skk_journal.specs.declared.journal.TheConstants.{PIECE_ROOM};
ghost use Rattle.skk_journal.specs.Contents.{Contents};
ghost use Rattle.skk_journal.specs.Records.{IsVersion, first_place, end_of};
ghost use Rattle.skk_journal.specs.Found.{payloads, found_from};
ghost use Rattle.skk_journal.specs.Choice.{choice, idle_beside};
ghost use Rattle.skk_journal.specs.Idle.{idle_of};
ghost use Rattle.skk_journal.specs.Opening.{IsOpened, with_contents, contents_of};
ghost use Rattle.skk_journal.specs.Images.{Each, Opens, StillOpens, Anyhow};
ghost use Rattle.skk_journal.specs.Filling.{IsNew};
ghost use Rattle.skk_journal.specs.Journal.{Holds};
ghost use Rattle.skk_journal.specs.Reading.{SameCause};
ghost use Rattle.skk_journal.specs.Causes.{file_number, IsRefused, UnlessDisk};

use crate::choice::{Chosen, LiveChoice, read_choice};
use crate::fault::OpenFault;
use crate::first::fill_first;
use crate::found::Records;
use crate::head::GENERATION_PLACE;
use crate::journal::PIECE_ROOM;
use crate::live::{Idle, Live};
use crate::records::{FILE_LIMIT, FIRST_PLACE, RecordsFault, read_records};
use skk_disk::{Disk, Which};
use skk_outside::Failed;
use std::alloc::Global;

// Both files, open: the live one, what is known of the other one, the records, and one more than the place of the gate
// behind them.
#[derive(Debug, Drop)]
pub(crate) struct OpenedFiles {
    pub(crate) live: Live,
    pub(crate) idle: Idle,
    pub(crate) records: Records,
    pub(crate) end: u64,
}

// Syncs both files and opens them.
pub(crate) fn open_files<D: Disk>(
    alloc: Global,
    disk: &mut D,
    newest: u8,
    buffer: &mut [u8],
) -> Result<OpenedFiles, OpenFault>
    requires room { length buffer.old ≡ PIECE_ROOM }
    requires some { 1 ≤ newest }
    ensures opened { D.tells → IfOk result (λ opened.
        IsOpened newest (D.seen disk.old) (with_contents (contents_of opened.live (payloads opened.records)))) }
    ensures refused { D.tells → IfErr result (IsRefused newest (D.seen disk.old)) }
    ensures right { IfOk result (λ opened. IsVersion newest opened.live.version) }
    ensures places { IfOk result (λ opened. opened.records ≡ found_from first_place (payloads opened.records)) }
    ensures end { IfOk result (λ opened. opened.end ≡ end_of (payloads opened.records)) }
    ensures now { IfOk result (λ opened. Each (D.left_since disk.new (D.time disk.new))
        (Holds newest opened.live opened.idle (contents_of opened.live (payloads opened.records)))) }
    ensures live { D.tells → choice newest (D.seen disk.old) ≢ NoLive → IfOk result (λ opened.
        choice newest (D.seen disk.old) ≡ LiveIn opened.live) }
    ensures anew { D.tells → choice newest (D.seen disk.old) ≡ NoLive → IfOk result (λ opened.
        Each (D.left_since disk.new (D.time disk.new)) (IsNew newest)) }
    ensures images { (contents : Contents) (start : Image) →
        Each (D.left_since disk.old (D.time disk.old)) (λ image. image ≡ start) → Opens newest contents start →
        Each (D.left_since disk.new (D.time disk.old)) (StillOpens newest start contents) }
    ensures kept { D.tells → choice newest (D.seen disk.old) ≢ NoLive →
        Each (D.left_since disk.new (D.time disk.old)) (D.left_since disk.old (D.time disk.old)) }
    ensures seen { D.tells → choice newest (D.seen disk.old) ≢ NoLive → MatchResult result
        (λ opened. D.seen disk.new ≡ D.seen disk.old)
        (λ why. UnlessDisk why (D.seen disk.new ≡ D.seen disk.old)) }
    ensures first_alone { ImagesWithin D.Disk A Anyhow disk.old disk.new }
    ensures advances { Advances D.Disk disk.old disk.new }
    ensures failed { IsErrOf result OpenFault.Disk → Rose (D.faults disk.old) (D.faults disk.new) }
{
    sync_both(disk)?;
    open_synced(alloc, disk, newest, buffer)
}

// Syncs both files: two calls.
fn sync_both<D: Disk>(disk: &mut D) -> Result<(), Failed>
    ensures durable { OnOk result (Each (D.left_since disk.new (D.time disk.new)) (λ image. image ≡ D.seen disk.new)) }
    ensures seen { OnOk result (D.seen disk.new ≡ D.seen disk.old) }
    ensures images { Each (D.left_since disk.new (D.time disk.old)) (D.left_since disk.old (D.time disk.old)) }
    ensures advances { Advances D.Disk disk.old disk.new }
    ensures failed { OnErr result (Rose (D.faults disk.old) (D.faults disk.new)) }
{
    disk.sync(Which::A)?;
    disk.sync(Which::B)
}

// Opens both files, which were synced.
fn open_synced<D: Disk>(
    alloc: Global,
    disk: &mut D,
    newest: u8,
    buffer: &mut [u8],
) -> Result<OpenedFiles, OpenFault>
    requires room { length buffer.old ≡ PIECE_ROOM }
    requires some { 1 ≤ newest }
    ensures opened { D.tells → IfOk result (λ opened.
        IsOpened newest (D.seen disk.old) (with_contents (contents_of opened.live (payloads opened.records)))) }
    ensures refused { D.tells → IfErr result (IsRefused newest (D.seen disk.old)) }
    ensures right { IfOk result (λ opened. IsVersion newest opened.live.version) }
    ensures places { IfOk result (λ opened. opened.records ≡ found_from first_place (payloads opened.records)) }
    ensures end { IfOk result (λ opened. opened.end ≡ end_of (payloads opened.records)) }
    ensures now { IfOk result (λ opened.
        Each (D.left_since disk.old (D.time disk.old)) (λ image. image ≡ D.seen disk.old) →
        Each (D.left_since disk.new (D.time disk.new))
        (Holds newest opened.live opened.idle (contents_of opened.live (payloads opened.records)))) }
    ensures live { D.tells → choice newest (D.seen disk.old) ≢ NoLive → IfOk result (λ opened.
        choice newest (D.seen disk.old) ≡ LiveIn opened.live) }
    ensures anew { D.tells → choice newest (D.seen disk.old) ≡ NoLive → IfOk result (λ opened.
        Each (D.left_since disk.old (D.time disk.old)) (λ image. image ≡ D.seen disk.old) →
        Each (D.left_since disk.new (D.time disk.new)) (IsNew newest)) }
    ensures images { (contents : Contents) →
        Each (D.left_since disk.old (D.time disk.old)) (λ image. image ≡ D.seen disk.old) →
        Opens newest contents (D.seen disk.old) →
        Each (D.left_since disk.new (D.time disk.old)) (StillOpens newest (D.seen disk.old) contents) }
    ensures kept { D.tells → choice newest (D.seen disk.old) ≢ NoLive →
        SameImages (D.left_since disk.old) (D.left_since disk.new) }
    ensures seen { D.tells → choice newest (D.seen disk.old) ≢ NoLive → D.seen disk.new ≡ D.seen disk.old }
    ensures first_alone { ImagesWithin D.Disk A Anyhow disk.old disk.new }
    ensures advances { Advances D.Disk disk.old disk.new }
    ensures failed { IsErrOf result OpenFault.Disk → Rose (D.faults disk.old) (D.faults disk.new) }
{
    let chosen = read_choice(disk, newest, buffer)?;
    match chosen.choice {
        LiveChoice::NoneBy(file, first) => Err(OpenFault::NotJournal {
            file: number(file),
            first,
        }),
        LiveChoice::CutShortIn(file) => Err(OpenFault::BadRecord {
            file: number(file),
            at: GENERATION_PLACE,
            version: newest,
            before: Records::new(alloc),
        }),
        LiveChoice::NoLive => {
            fill_first(disk, newest, chosen.first, chosen.second)?;
            Ok(OpenedFiles {
                live: Live {
                    file: Which::A,
                    version: newest,
                    generation: 1,
                },
                idle: chosen.second,
                records: Records::new(alloc),
                end: FIRST_PLACE + 1,
            })
        }
        LiveChoice::LiveIn(live) => {
            let idle = beside(live.file, &chosen);
            open_live(alloc, disk, live, idle, buffer)
        }
    }
}

// Reads the records of the live file, beside which this is known of the other one.
fn open_live<D: Disk>(
    alloc: Global,
    disk: &mut D,
    live: Live,
    idle: Idle,
    buffer: &mut [u8],
) -> Result<OpenedFiles, OpenFault>
    requires { length buffer.old ≡ PIECE_ROOM }
    ensures opened { (newest : ℕ) → D.tells → choice newest (D.seen disk.old) ≡ LiveIn live →
        IfOk result (λ opened.
        IsOpened newest (D.seen disk.old) (with_contents (contents_of opened.live (payloads opened.records)))) }
    ensures holds { (newest : ℕ) → D.tells → choice newest (D.seen disk.old) ≡ LiveIn live →
        idle ≡ idle_of (part (other live.file) (D.seen disk.old)) → IfOk result (λ opened.
        Holds newest opened.live opened.idle (contents_of opened.live (payloads opened.records))
        (D.seen disk.old)) }
    ensures refused { (newest : ℕ) → D.tells → choice newest (D.seen disk.old) ≡ LiveIn live →
        IfErr result (IsRefused newest (D.seen disk.old)) }
    ensures places { IfOk result (λ opened. opened.records ≡ found_from first_place (payloads opened.records)) }
    ensures live { IfOk result (λ opened. opened.live ≡ live) }
    ensures end { IfOk result (λ opened. opened.end ≡ end_of (payloads opened.records)) }
    ensures only_reads { OnlyReads D.Disk disk.old disk.new }
    ensures failed { IsErrOf result OpenFault.Disk → Rose (D.faults disk.old) (D.faults disk.new) }
{
    let len = disk.len(live.file)?;
    if len > FILE_LIMIT {
        return Err(OpenFault::Memory);
    }
    match read_records(alloc, disk, live.file, len, buffer) {
        Ok(read) => Ok(OpenedFiles {
            live,
            idle,
            records: read.records,
            end: read.end,
        }),
        Err(fault) => Err(refusal(live, fault)),
    }
}

// Why the files are not opened where the records of the live one were not read.
fn refusal(live: Live, fault: RecordsFault) -> OpenFault
    ensures { SameCause live fault result }
{
    match fault {
        RecordsFault::Disk => OpenFault::Disk,
        RecordsFault::Memory => OpenFault::Memory,
        RecordsFault::Bad { at, before } => OpenFault::BadRecord {
            file: number(live.file),
            at,
            version: live.version,
            before,
        },
    }
}

// The number by which a file is told.
pub(crate) fn number(file: Which) -> u8
    ensures { result ≡ file_number file }
{
    match file {
        Which::A => 0,
        Which::B => 1,
    }
}

// What is known of the file that is not this one.
fn beside(file: Which, chosen: &Chosen) -> Idle
    ensures { result ≡ idle_beside file chosen.now }
{
    match file {
        Which::A => chosen.second,
        Which::B => chosen.first,
    }
}
