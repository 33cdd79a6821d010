use crate::fault::RunFault;
use skk_outside::ReadFault;
use skk_text::TextFault;

/// A file that a run reads.
#[derive(Clone, Copy, Debug, PartialEq, Eq)]
pub enum RunFile {
    /// The script, which is the input.
    Script,
    /// The rule file.
    Rules,
    /// The dictionary with this number, counted from 1.
    Dictionary { number: usize },
}

/// Why a file is refused.
#[derive(Clone, Copy, Debug, PartialEq, Eq)]
pub enum Flaw {
    /// It has more bytes than such a file may have.
    TooLong,
    /// It is not UTF-8: the longest prefix of it that is ends at this byte.
    Byte { at: usize },
    /// The first of its lines that is at fault, counted from 1.
    Line { number: usize },
}

impl RunFile {
    ghost use Rattle.std.specs.Prelude.{◌≡◌};
    ghost use Rattle.run_endings.specs.Status.{status_of_file, fault_of_read, fault_of_text};

    /// The status of a run that refuses it.
    pub fn status(self) -> u8
        ensures { result ≡ status_of_file self }
    {
        match self {
            RunFile::Script => 2,
            RunFile::Rules | RunFile::Dictionary { number: _ } => 3,
        }
    }

    /// What a fault of reading it is for the run.
    pub fn fault_of_read(self, fault: ReadFault) -> RunFault
        ensures { result ≡ fault_of_read self fault }
    {
        match fault {
            ReadFault::TooLong => self.fault_of_flaw(Flaw::TooLong),
            ReadFault::Failed => RunFault::Outside,
            ReadFault::Memory => RunFault::Memory,
        }
    }

    /// What it is for the run that it is no text.
    pub fn fault_of_text(self, fault: TextFault) -> RunFault
        ensures { result ≡ fault_of_text self fault }
    {
        match fault {
            TextFault::TooLong { bytes: _ } => self.fault_of_flaw(Flaw::TooLong),
            TextFault::NotUtf8 { at } => self.fault_of_flaw(Flaw::Byte { at }),
        }
    }

    /// The fault that it is refused for a flaw.
    pub fn fault_of_flaw(self, flaw: Flaw) -> RunFault
        ensures { result ≡ RunFault.Refused self flaw }
    {
        RunFault::Refused { file: self, flaw }
    }
}
