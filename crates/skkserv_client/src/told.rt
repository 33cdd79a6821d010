use skk_calls::Cands;
use skk_outside::Failed;
use skk_text::{Memory, Texts};
use std::alloc::AllocError;
use thiserror::Error;

/// What a server tells, in its order.
#[derive(Debug, Drop)]
pub enum Told {
    /// Candidates, the first of each word, which may be none.
    Cands(Cands),
    /// Readings, each once, which may be none.
    Readings(Texts),
}

/// Why a server told nothing. The first that fits is given, in this order.
#[derive(Clone, Copy, Debug, PartialEq, Eq, Error)]
pub enum AskFault {
    /// A call of the link failed.
    #[error("the link failed")]
    LinkFault,
    /// 4,194,304 bytes hold no LF.
    #[error("reply too long")]
    TooLong,
    /// The server ended before an LF, behind so many bytes.
    #[error("reply ended at {read}")]
    Ended { read: u64 },
    /// The server refused the request.
    #[error("reply refused")]
    Refused,
    /// The reply has none of the forms of one. It is at fault at this byte of its line, counted from 0.
    #[error("reply bad at {at}")]
    BadReply { at: u64 },
    /// Out of memory.
    #[error("out of memory")]
    Memory,
}

impl From<Failed> for AskFault {
    ghost use Rattle.std.specs.Prelude.{◌≡◌};
    ghost use Rattle.skkserv_client.specs.declared.told.AskFault.TheVariants as faults;

    ghost from_gives = { λ _ fault. fault ≡ faults.LinkFault };

    fn from(_failed: Failed) -> AskFault {
        AskFault::LinkFault
    }
}

impl From<Memory> for AskFault {
    ghost use Rattle.std.specs.Prelude.{◌≡◌};
    ghost use Rattle.skkserv_client.specs.declared.told.AskFault.TheVariants as faults;

    ghost from_gives = { λ _ fault. fault ≡ faults.Memory };

    fn from(_memory: Memory) -> AskFault {
        AskFault::Memory
    }
}

impl From<AllocError> for AskFault {
    ghost use Rattle.std.specs.Prelude.{◌≡◌};
    ghost use Rattle.skkserv_client.specs.declared.told.AskFault.TheVariants as faults;

    ghost from_gives = { λ _ fault. fault ≡ faults.Memory };

    fn from(_error: AllocError) -> AskFault {
        AskFault::Memory
    }
}
