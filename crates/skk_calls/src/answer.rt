use crate::found_cands::FoundCands;
use crate::learned::Learned;
use skk_text::{Sequence, Texts};

/// What a dictionary replies to a call.
#[derive(Debug, Drop)]
pub enum Reply {
    /// The candidates that were found, which may be none, as they lie. Their words differ.
    Found(FoundCands),
    /// The readings that go on from the prefix, which may be none.
    Readings(Texts),
    /// The candidate was learnt.
    Learned(Learned),
    /// The word was purged.
    Purged,
    /// The purge or the annotation would change nothing, or the typist reads these books already.
    Unchanged,
    /// What was learnt was taken back.
    Restored,
    /// The candidate was annotated.
    Annotated,
    /// The typist reads these books.
    Shared,
    /// The row has this stamp by now, or 0 where there is none, and was left so.
    Overtaken(u64),
    /// The row's line would have so many bytes, which are too many.
    TooBig(u64),
    /// The book's count has no further number.
    StampsEnd,
}

impl Reply {
    ghost use Rattle.std.specs.Prelude.{◌≡◌};
    ghost use Rattle.skk_calls.specs.Dictionary.{is_change};

    /// Whether it tells of a change.
    pub fn is_change(&self) -> bool
        ensures { result ≡ is_change self.now }
    {
        matches!(
            self,
            Reply::Learned(_) | Reply::Purged | Reply::Restored | Reply::Annotated | Reply::Shared
        )
    }
}

/// Why a call was refused. A refused call changes nothing.
#[derive(Clone, Copy, Debug, PartialEq, Eq)]
pub enum Refusal {
    /// Out of memory.
    Memory,
    /// The disk failed.
    Disk,
    /// No learned file has room for the change within the limit: with the rows that stand and nothing else it would end
    /// at a byte, and the change needs more than the limit leaves there. All are bytes.
    JournalFull { end: u64, need: u64, limit: u64 },
}

/// What a caller is answered.
#[derive(Debug, Drop)]
pub enum Answer {
    /// The call was served.
    Done(Reply),
    /// The call was refused.
    Refused(Refusal),
}

/// Answers in order.
pub type Answers = Sequence<Answer>;
