ghost use Rattle.std.specs.Prelude.{◌≡◌, ◌≢◌, ◌↔◌, [], None, IfOk, IfErr, MatchResult};
ghost use Rattle.skk_outside.specs.Faults.{Rose};
ghost use Rattle.skk_disk.specs.Runs.{Advances};
ghost use Rattle.skk_disk.specs.Image.{Image};
ghost use Rattle.skk_calls.specs.States.{State};
ghost use Rattle.skk_journal.specs.declared.choice.LiveChoice.TheVariants.{NoLive, LiveIn};
ghost use Rattle.skk_journal.specs.Choice.{choice};
ghost use Rattle.skk_journal.specs.Causes.{IsRefused as RefusesFrames, UnlessDisk};
ghost use Rattle.skk_journal.specs.Images.{Each};
ghost use Rattle.skk_journal.specs.Filling.{IsNew};
ghost use Rattle.learned_store.specs.Payloads.{newest_version};
ghost use Rattle.learned_store.specs.Recovered.{IsOpenedWith, IsRefused};
ghost use Rattle.learned_store.specs.Recovering.{refusal_of};
ghost use Rattle.learned_store.specs.Stores.{Keeps, Recovers};

use crate::form::NEWEST;
use crate::kept_answers::KeptAnswers;
use crate::recovery::{RecoverFault, recover};
use crate::store::Store;
use dict_layers::System;
use skk_disk::Disk;
use skk_journal::{Journal, OpenFault, Records, Unopened};
use std::alloc::Global;

impl<D: Disk> Store<D> {
    /// Opens the learned dictionary of a disk, after a sync of both files, over these system files, each of whose
    /// learned files may have so many bytes. Where no file is live the first one is filled with no records. `BadRecord`
    /// tells the least place that is refused, be it that of a bad frame or of a record that says nothing, and no
    /// records. Takes time in the bytes of the live file, with one logarithm in the number of rows that are left.
    pub fn open(alloc: Global, disk: D, system: System, limit: u64) -> Result<Store<D>, Unopened<D>>
        // What a read gives at the start decides.
        ensures opened { IfOk result (λ store.
            IsOpenedWith D.tells (D.seen disk) store.state store.journal.end) }
        ensures refused { D.tells → IfErr result (λ unopened. IsRefused (D.seen disk) unopened.why) }
        ensures live { D.tells → choice newest_version (D.seen disk) ≢ NoLive → IfOk result (λ store.
            choice newest_version (D.seen disk) ≡ LiveIn store.journal.live) }
        ensures files { IfOk result (λ store. store.files ≡ system) }
        ensures limit { IfOk result (λ store. store.limit ≡ limit) }

        // What each image has afterwards, also where a file was filled.
        ensures keeps { IfOk result (λ store. Keeps D.Disk store.journal store.state None) }
        ensures anew { D.tells → choice newest_version (D.seen disk) ≡ NoLive → IfOk result (λ store.
            Each (D.left_since store.journal.disk (D.time store.journal.disk)) (IsNew newest_version)) }

        // Where there was one image, each one of each moment is opened as it was.
        ensures images { (state : State) (start : Image) →
            Each (D.left_since disk (D.time disk)) (λ image. image ≡ start) → Recovers state start →
            MatchResult result
            (λ store. Each (D.left_since store.journal.disk (D.time disk)) (Recovers state))
            (λ unopened. Each (D.left_since unopened.disk (D.time disk)) (Recovers state)) }

        // But where no file is live both are only synced and read.
        ensures kept { D.tells → choice newest_version (D.seen disk) ≢ NoLive → MatchResult result
            (λ store. Each (D.left_since store.journal.disk (D.time disk)) (D.left_since disk (D.time disk)))
            (λ unopened. Each (D.left_since unopened.disk (D.time disk)) (D.left_since disk (D.time disk))) }
        ensures seen { D.tells → choice newest_version (D.seen disk) ≢ NoLive → MatchResult result
            (λ store. D.seen store.journal.disk ≡ D.seen disk)
            (λ unopened. UnlessDisk unopened.why (D.seen unopened.disk ≡ D.seen disk)) }
        ensures advances { MatchResult result (λ store. Advances D.Disk disk store.journal.disk)
            (λ unopened. Advances D.Disk disk unopened.disk) }
        ensures failed { IfErr result (λ unopened. unopened.why ≡ OpenFault.Disk →
            Rose (D.faults disk) (D.faults unopened.disk)) }
    {
        let Ok(kept) = KeptAnswers::new(alloc) else {
            return Err(Unopened {
                disk,
                why: OpenFault::Memory,
            });
        };
        match Journal::open(alloc, disk, NEWEST) {
            Ok((journal, records)) => match recover(alloc, journal.version(), records) {
                Ok(index) => Ok(Store {
                    journal,
                    index,
                    system,
                    limit,
                    kept,
                }),
                Err(fault) => {
                    let file = journal.file();
                    let version = journal.version();
                    Err(Unopened {
                        disk: journal.close(),
                        why: refusal(alloc, file, version, fault),
                    })
                }
            },
            Err(Unopened { disk, why }) => Err(Unopened {
                disk,
                why: first_refusal(alloc, why),
            }),
        }
    }
}

// Why files are refused that their journal refuses: a record before a bad frame may say nothing.
fn first_refusal(alloc: Global, why: OpenFault) -> OpenFault
    ensures refused { (image : Image) → RefusesFrames newest_version image why → IsRefused image result }
    ensures disk { (result ≡ OpenFault.Disk) ↔ (why ≡ OpenFault.Disk) }
{
    match why {
        OpenFault::BadRecord {
            file,
            at,
            version,
            before,
        } => match recover(alloc, version, before) {
            Ok(_) => bad_record(alloc, file, at, version),
            Err(fault) => refusal(alloc, file, version, fault),
        },
        why => why,
    }
}

// Why the file of this number and version is refused, of whose records no state was recovered.
fn refusal(alloc: Global, file: u8, version: u8, fault: RecoverFault) -> OpenFault
    ensures { result ≡ refusal_of file version fault }
{
    match fault {
        RecoverFault::Memory => OpenFault::Memory,
        RecoverFault::Break { at } => bad_record(alloc, file, at, version),
    }
}

// The refusal of a place of the file of this number and version, which tells no records.
fn bad_record(alloc: Global, file: u8, at: u64, version: u8) -> OpenFault
    ensures { result ≡ OpenFault.BadRecord file at version [] }
{
    OpenFault::BadRecord {
        file,
        at,
        version,
        before: Records::new(alloc),
    }
}
