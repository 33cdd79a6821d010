ghost use Rattle.std.specs.Prelude.{◌≡◌, ◌≤◌, ◌++◌, codes};
ghost use Rattle.std.specs.Fmt.{decimal};
ghost use Rattle.skk_outside.specs.Moved.{moved_sink};
ghost use Rattle.run_endings.specs.Finishes.{finish_of};
ghost use Rattle.run_endings.specs.Page.{Writes};
ghost use Rattle.run_endings.specs.Status.{run_status, run_message, Tells, file_words, flaw_words};
ghost use Rattle.run_endings.specs.Status.{learned_words, fault_words, message_of, reply_words};

use crate::finish::{Finish, Run};
use crate::page::write;
use crate::reply_flaw::ReplyFlaw;
use crate::run_file::{Flaw, RunFile};
use itoa::Buffer;
use key_scripts::ScriptFault;
use skk_journal::OpenFault;
use skk_outside::{Failed, Sink};
use skk_text::Memory;
use skkserv_client::AskFault;

/// Why a run was not done.
#[derive(Clone, Copy, Debug, PartialEq, Eq)]
pub enum RunFault {
    /// The words are no command.
    Words,
    /// A file is refused.
    Refused { file: RunFile, flaw: Flaw },
    /// A file of the learned dictionary, 0 for the first one and 1 for the second, is none: it has two bytes or more,
    /// and this is its first one.
    NotJournal { file: u8, first: u8 },
    /// A file of the learned dictionary, by the same numbers, has a bad record, and this is the least place of one, in
    /// bytes.
    BadRecord { file: u8, at: u64 },
    /// The line of a row that is to be printed has so many bytes, which are more than are read again.
    RowTooBig { bytes: u64 },
    /// A call on the outside failed.
    Outside,
    /// Out of memory.
    Memory,
    /// All was done but a change that no learned file had room for.
    JournalFull,
    /// A server told nothing: what is wrong with its reply.
    Reply(ReplyFlaw),
    /// The count of a book leaves no stamp for each of the candidates that were to be learnt.
    StampsEnd,
}

/// Ends a run: tells its fault on `err`, and answers the status to exit with beside how it ended, its chronicle and its
/// disk. Takes no memory.
pub fn end_run<D, E: Sink>(run: Run<D>, err: &mut E) -> Finish<D>
    ensures finish { result ≡ finish_of run }
    ensures told { Tells (run_message run.ended) (moved_sink E.Outside err.old err.new) }
    ensures counted { E.faults err.old ≤ E.faults err.new }
{
    let Run {
        ended,
        chronicle,
        disk,
    } = run;
    let status = tell_end(ended, err);
    Finish {
        status,
        ended,
        chronicle,
        disk,
    }
}

/// Tells a fault on `err`, and answers the status. Takes no memory.
pub fn tell_end<E: Sink>(ended: Result<(), RunFault>, err: &mut E) -> u8
    ensures status { result ≡ run_status ended }
    ensures told { Tells (run_message ended) (moved_sink E.Outside err.old err.new) }
    ensures counted { E.faults err.old ≤ E.faults err.new }
{
    match ended {
        Ok(()) => 0,
        Err(fault) => {
            let _ = fault.tell(err);
            fault.status()
        }
    }
}

impl RunFault {
    ghost use Rattle.std.specs.Prelude.{◌≡◌};
    ghost use Rattle.run_endings.specs.Status.{status_of};

    // The status that the program exits with.
    fn status(self) -> u8
        ensures { result ≡ status_of self }
    {
        match self {
            RunFault::Words => 1,
            RunFault::Refused { file, flaw: _ } => file.status(),
            RunFault::NotJournal { .. } | RunFault::BadRecord { .. } => 5,
            RunFault::RowTooBig { bytes: _ } => 3,
            RunFault::Outside => 4,
            RunFault::Memory => 6,
            RunFault::JournalFull => 7,
            RunFault::Reply(_) => 9,
            RunFault::StampsEnd => 10,
        }
    }

    // Writes the line on standard error.
    fn tell<E: Sink>(self, err: &mut E) -> Result<(), Failed>
        ensures { Writes (message_of self) result (moved_sink E.Outside err.old err.new) }
    {
        self.tell_head(err)?;
        write(err, b"\n")
    }

    // Writes the line up to its LF.
    fn tell_head<E: Sink>(self, err: &mut E) -> Result<(), Failed>
        ensures { Writes (codes "skk: " ++ fault_words self) result (moved_sink E.Outside err.old err.new) }
    {
        write(err, b"skk: ")?;
        self.tell_words(err)
    }

    // Writes the words of the line.
    fn tell_words<E: Sink>(self, err: &mut E) -> Result<(), Failed>
        ensures { Writes (fault_words self) result (moved_sink E.Outside err.old err.new) }
    {
        match self {
            RunFault::Words => write(err, b"words"),
            RunFault::Refused { file, flaw } => tell_refused(file, flaw, err),
            RunFault::NotJournal { file, first } => {
                tell_learned(file, b"byte ", u64::from(first), err)
            }
            RunFault::BadRecord { file, at } => tell_learned(file, b"record at ", at, err),
            RunFault::RowTooBig { bytes } => write_numbered(err, b"row too big ", bytes),
            RunFault::Outside => write(err, b"outside"),
            RunFault::Memory => write(err, b"memory"),
            RunFault::JournalFull => write(err, b"journal full"),
            RunFault::Reply(flaw) => tell_reply(flaw, err),
            RunFault::StampsEnd => write(err, b"stamps end"),
        }
    }
}

// Writes the words of a file and of its flaw.
fn tell_refused<E: Sink>(file: RunFile, flaw: Flaw, err: &mut E) -> Result<(), Failed>
    ensures { Writes (file_words file flaw ++ flaw_words flaw) result (moved_sink E.Outside err.old err.new) }
{
    tell_file(file, flaw, err)?;
    tell_flaw(flaw, err)
}

// Writes the words that name a file in front of its flaw.
fn tell_file<E: Sink>(file: RunFile, flaw: Flaw, err: &mut E) -> Result<(), Failed>
    ensures { Writes (file_words file flaw) result (moved_sink E.Outside err.old err.new) }
{
    match (file, flaw) {
        (RunFile::Script, Flaw::Line { number: _ }) => write(err, b""),
        (RunFile::Script, _) => write(err, b"script "),
        (RunFile::Rules, _) => write(err, b"rules "),
        (RunFile::Dictionary { number }, _) => tell_dictionary(number, err),
    }
}

// Writes the words that name the dictionary of a number.
fn tell_dictionary<E: Sink>(number: usize, err: &mut E) -> Result<(), Failed>
    ensures { Writes (codes "dictionary " ++ decimal number ++ codes " ") result
        (moved_sink E.Outside err.old err.new) }
{
    write_numbered(err, b"dictionary ", number as u64)?;
    write(err, b" ")
}

// Writes the words that name a file of the learned dictionary, and behind them what is wrong with it, with a number.
fn tell_learned<E: Sink>(file: u8, wrong: &[u8], number: u64, err: &mut E) -> Result<(), Failed>
    ensures { Writes (learned_words file ++ (wrong.now ++ decimal number)) result
        (moved_sink E.Outside err.old err.new) }
{
    name_learned(file, err)?;
    write_numbered(err, wrong, number)
}

// Writes the words that name a file of the learned dictionary.
fn name_learned<E: Sink>(file: u8, err: &mut E) -> Result<(), Failed>
    ensures { Writes (learned_words file) result (moved_sink E.Outside err.old err.new) }
{
    if file == 0 {
        write(err, b"learned file ")
    } else {
        write(err, b"learned file 2 ")
    }
}

// Writes the words of a flaw.
fn tell_flaw<E: Sink>(flaw: Flaw, err: &mut E) -> Result<(), Failed>
    ensures { Writes (flaw_words flaw) result (moved_sink E.Outside err.old err.new) }
{
    match flaw {
        Flaw::TooLong => write(err, b"too long"),
        Flaw::Byte { at } => write_numbered(err, b"byte ", at as u64),
        Flaw::Line { number } => write_numbered(err, b"line ", number as u64),
    }
}

// Writes the words of what is wrong with a reply.
fn tell_reply<E: Sink>(flaw: ReplyFlaw, err: &mut E) -> Result<(), Failed>
    ensures { Writes (reply_words flaw) result (moved_sink E.Outside err.old err.new) }
{
    match flaw {
        ReplyFlaw::TooLong => write(err, b"reply too long"),
        ReplyFlaw::Ended { read } => write_numbered(err, b"reply ended at ", read),
        ReplyFlaw::Refused => write(err, b"reply refused"),
        ReplyFlaw::Bad { at } => write_numbered(err, b"reply bad at ", at),
    }
}

/// Writes bytes, and behind them a number in decimal.
pub fn write_numbered<E: Sink>(err: &mut E, before: &[u8], number: u64) -> Result<(), Failed>
    ensures { Writes (before.now ++ decimal number) result (moved_sink E.Outside err.old err.new) }
{
    write(err, before)?;
    write(err, Buffer::new().format(number).as_bytes())
}

impl From<Memory> for RunFault {
    ghost use Rattle.std.specs.Prelude.{◌≡◌};
    ghost use Rattle.run_endings.specs.declared.fault.RunFault.TheVariants as faults;

    ghost from_gives = { λ _ fault. fault ≡ faults.Memory };

    fn from(_memory: Memory) -> RunFault {
        RunFault::Memory
    }
}

impl From<Failed> for RunFault {
    ghost use Rattle.std.specs.Prelude.{◌≡◌};
    ghost use Rattle.run_endings.specs.declared.fault.RunFault.TheVariants as faults;

    ghost from_gives = { λ _ fault. fault ≡ faults.Outside };

    fn from(_failed: Failed) -> RunFault {
        RunFault::Outside
    }
}

impl From<ScriptFault> for RunFault {
    ghost use Rattle.std.specs.Prelude.{◌≡◌};
    ghost use Rattle.run_endings.specs.Status.{fault_of_script};

    ghost from_gives = { λ fault told. told ≡ fault_of_script fault };

    fn from(fault: ScriptFault) -> RunFault {
        match fault {
            ScriptFault::BadLine { number } => RunFault::Refused {
                file: RunFile::Script,
                flaw: Flaw::Line { number },
            },
            ScriptFault::Memory => RunFault::Memory,
        }
    }
}

impl From<OpenFault> for RunFault {
    ghost use Rattle.std.specs.Prelude.{◌≡◌};
    ghost use Rattle.run_endings.specs.Status.{fault_of_opening};

    ghost from_gives = { λ fault told. told ≡ fault_of_opening fault };

    fn from(fault: OpenFault) -> RunFault {
        match fault {
            OpenFault::Disk => RunFault::Outside,
            OpenFault::NotJournal { file, first } => RunFault::NotJournal { file, first },
            OpenFault::BadRecord { file, at, .. } => RunFault::BadRecord { file, at },
            OpenFault::Memory => RunFault::Memory,
        }
    }
}

impl From<AskFault> for RunFault {
    ghost use Rattle.std.specs.Prelude.{◌≡◌};
    ghost use Rattle.run_endings.specs.Status.{fault_of_asking};

    ghost from_gives = { λ fault told. told ≡ fault_of_asking fault };

    fn from(fault: AskFault) -> RunFault {
        match fault {
            AskFault::LinkFault => RunFault::Outside,
            AskFault::TooLong => RunFault::Reply(ReplyFlaw::TooLong),
            AskFault::Ended { read } => RunFault::Reply(ReplyFlaw::Ended { read }),
            AskFault::Refused => RunFault::Reply(ReplyFlaw::Refused),
            AskFault::BadReply { at } => RunFault::Reply(ReplyFlaw::Bad { at }),
            AskFault::Memory => RunFault::Memory,
        }
    }
}
