ghost use Rattle.std.specs.Prelude.{◌≡◌, ◌≤◌, length, drop, IfOk, OnErr};
ghost use Rattle.std.specs.Int.{w64};
ghost use Rattle.exact_readers.specs.Numbers.{number};
ghost use Rattle.skk_outside.specs.Faults.{Rose};
ghost use Rattle.skk_disk.specs.Image.{part};
ghost use Rattle.skk_disk.specs.Runs.{OnlyReads};
ghost use Rattle.skk_journal.specs.declared.journal.TheConstants.{PIECE_ROOM};
ghost use Rattle.skk_journal.specs.Heads.{is_version as version_test, is_marked as mark_test, version_byte};
ghost use Rattle.skk_journal.specs.Heads.{headed_by, head_of, HasVersion};
ghost use Rattle.skk_journal.specs.Idle.{idle_of};

use crate::journal::PIECE_ROOM;
use crate::live::Idle;
use crate::reading::read_full;
use exact_readers::read_u64;
use skk_disk::{Disk, Which};
use skk_outside::Failed;

/// What the mark begins with. A version follows it.
pub(crate) const MARK_NAME: [u8; 7] = *b"SKKDESK";

/// The place of a file's generation.
pub(crate) const GENERATION_PLACE: u64 = 9;

// What the first bytes of a file say: it does not count, it is no learned file, its generation is not whole, or all of
// its head is there, with this version and this generation.
#[derive(Clone, Copy, Debug)]
pub(crate) enum Head {
    Fresh,
    Foreign(u8),
    CutShort,
    Headed { version: u8, generation: u64 },
}

// The head of a file, and what is known of it if it is not live.
#[derive(Clone, Copy, Debug)]
pub(crate) struct FileFront {
    pub(crate) head: Head,
    pub(crate) idle: Idle,
}

// Whether a byte is a right version, where this is the newest one.
fn is_version(newest: u8, byte: u8) -> bool
    ensures { result ≡ version_test newest byte }
{
    1 <= byte && byte <= newest
}

// Whether the bytes behind the gate of a file begin with a right mark.
fn is_marked(newest: u8, rest: &[u8]) -> bool
    ensures { result ≡ mark_test newest rest.now }
{
    match rest.get(MARK_NAME.len()) {
        Some(byte) => rest.starts_with(&MARK_NAME) && is_version(newest, *byte),
        None => false,
    }
}

// Judges a file by its first 17 bytes, as far as it has them.
fn judge(newest: u8, head: &[u8]) -> Head
    ensures { result ≡ head_of newest head.now }
{
    match head {
        [] | [_] => Head::Fresh,
        [first, rest @ ..] => {
            let marked = is_marked(newest, rest);
            if *first == 0 || (*first != 1 && marked) {
                Head::Fresh
            } else if !marked {
                Head::Foreign(*first)
            } else {
                read_generation(rest)
            }
        }
    }
}

// The head of a file whose mark is right and whose gate is open, by what stands behind its gate.
fn read_generation(rest: &[u8]) -> Head
    requires { 8 ≤ length rest.now }
    ensures { result ≡ headed_by (version_byte rest.now) ((number w64).step (drop 8 rest.now)) }
{
    let version = rest[MARK_NAME.len()];
    match read_u64(&rest[MARK_NAME.len() + 1..]) {
        Some((generation, _)) => Head::Headed {
            version,
            generation,
        },
        None => Head::CutShort,
    }
}

// What is known of a file that is not live by its first two bytes.
fn idle_kind(head: &[u8]) -> Idle
    ensures { result ≡ idle_of head.now }
{
    match head {
        [] => Idle::Loose,
        [0, ..] => Idle::Blank,
        [_] | [1, ..] => Idle::Loose,
        _ => Idle::Stray,
    }
}

// Judges a file.
pub(crate) fn read_front<D: Disk>(
    disk: &mut D,
    file: Which,
    newest: u8,
    buffer: &mut [u8],
) -> Result<FileFront, Failed>
    requires { length buffer.old ≡ PIECE_ROOM }
    ensures head { D.tells → IfOk result (λ front. front.head ≡ head_of newest (part file (D.seen disk.old))) }
    ensures right { IfOk result (λ front. HasVersion newest front.head) }
    ensures idle { D.tells → IfOk result (λ front. front.idle ≡ idle_of (part file (D.seen disk.old))) }
    ensures room { length buffer.new ≡ PIECE_ROOM }
    ensures only_reads { OnlyReads D.Disk disk.old disk.new }
    ensures failed { OnErr result (Rose (D.faults disk.old) (D.faults disk.new)) }
{
    let n = read_full(disk, file, 0, &mut buffer[..17])?;
    let head = &buffer[..n];
    Ok(FileFront {
        head: judge(newest, head),
        idle: idle_kind(head),
    })
}
