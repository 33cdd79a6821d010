ghost use Rattle.std.specs.Prelude.{◌≡◌, length, IfOk, OnErr};
ghost use Rattle.skk_outside.specs.Faults.{Rose};
ghost use Rattle.skk_disk.specs.Runs.{OnlyReads};
ghost use Rattle.skk_journal.specs.declared.journal.TheConstants.{PIECE_ROOM};
ghost use Rattle.skk_journal.specs.Generations.{first_counts};
ghost use Rattle.skk_journal.specs.Choice.{lives, choice_of, choice, ChoosesVersion};
ghost use Rattle.skk_journal.specs.Idle.{idle_of};

use crate::head::{Head, read_front};
use crate::journal::PIECE_ROOM;
use crate::live::{Idle, Live, one_more};
use skk_disk::{Disk, Which};
use skk_outside::Failed;

/// What decides how both files are opened.
#[derive(Clone, Copy, Debug)]
pub enum LiveChoice {
    /// This file is no learned one, by its first byte.
    NoneBy(Which, u8),
    /// The generation of this file is not whole.
    CutShortIn(Which),
    /// No file is live.
    NoLive,
    /// This file is live.
    LiveIn(Live),
}

// The choice between both files, and what is known of each if it is not live.
#[derive(Clone, Copy, Debug)]
pub(crate) struct Chosen {
    pub(crate) choice: LiveChoice,
    pub(crate) first: Idle,
    pub(crate) second: Idle,
}

// Whether the first of two files with these generations counts.
fn counts_first(first: u64, second: u64) -> bool
    ensures { result ≡ first_counts first second }
{
    if second == one_more(first) {
        false
    } else if first == one_more(second) {
        true
    } else {
        first >= second
    }
}

// A file that is live, with its version and its generation.
fn live_in(file: Which, version: u8, generation: u64) -> LiveChoice
    ensures { result ≡ lives file version generation }
{
    LiveChoice::LiveIn(Live {
        file,
        version,
        generation,
    })
}

// Chooses between two files by their heads.
fn choose(first: Head, second: Head) -> LiveChoice
    ensures { result ≡ choice_of first second }
{
    match first {
        Head::Foreign(byte) => LiveChoice::NoneBy(Which::A, byte),
        Head::CutShort => match second {
            Head::Foreign(byte) => LiveChoice::NoneBy(Which::B, byte),
            _ => LiveChoice::CutShortIn(Which::A),
        },
        Head::Fresh => match second {
            Head::Foreign(byte) => LiveChoice::NoneBy(Which::B, byte),
            Head::CutShort => LiveChoice::CutShortIn(Which::B),
            Head::Fresh => LiveChoice::NoLive,
            Head::Headed {
                version,
                generation,
            } => live_in(Which::B, version, generation),
        },
        Head::Headed {
            version,
            generation,
        } => match second {
            Head::Foreign(byte) => LiveChoice::NoneBy(Which::B, byte),
            Head::CutShort => LiveChoice::CutShortIn(Which::B),
            Head::Fresh => live_in(Which::A, version, generation),
            Head::Headed {
                version: other,
                generation: others,
            } => {
                if counts_first(generation, others) {
                    live_in(Which::A, version, generation)
                } else {
                    live_in(Which::B, other, others)
                }
            }
        },
    }
}

// Reads the heads of both files, and chooses between them.
pub(crate) fn read_choice<D: Disk>(
    disk: &mut D,
    newest: u8,
    buffer: &mut [u8],
) -> Result<Chosen, Failed>
    requires { length buffer.old ≡ PIECE_ROOM }
    ensures choice { D.tells → IfOk result (λ chosen. chosen.choice ≡ choice newest (D.seen disk.old)) }
    ensures right { IfOk result (λ chosen. ChoosesVersion newest chosen.choice) }
    ensures first { D.tells → IfOk result (λ chosen. chosen.first ≡ idle_of (D.seen disk.old).a) }
    ensures second { D.tells → IfOk result (λ chosen. chosen.second ≡ idle_of (D.seen disk.old).b) }
    ensures room { length buffer.new ≡ PIECE_ROOM }
    ensures only_reads { OnlyReads D.Disk disk.old disk.new }
    ensures failed { OnErr result (Rose (D.faults disk.old) (D.faults disk.new)) }
{
    let first = read_front(disk, Which::A, newest, buffer)?;
    let second = read_front(disk, Which::B, newest, buffer)?;
    Ok(Chosen {
        choice: choose(first.head, second.head),
        first: first.idle,
        second: second.idle,
    })
}
