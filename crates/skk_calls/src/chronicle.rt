use crate::answer::Answer;
use crate::book::Books;
use crate::call::Call;
use crate::state::State;
use skk_trace::Trace;
use std::marker::Model;

/// What a chronicle notes. It is for contracts alone: a program needs to make none.
#[derive(Debug, Drop)]
pub enum Noted {
    /// The dictionary was opened: the system files, the state and the end of the learned file, its limit, and the
    /// disk's time and count of faults.
    Opened {
        files: Books,
        state: State,
        end: u64,
        limit: u64,
        time: u64,
        faults: u64,
    },
    /// A caller's call was answered, and the disk's time and count of faults then.
    Entered {
        number: u32,
        call: Call,
        answer: Answer,
        time: u64,
        faults: u64,
    },
}

/// The history of a run, for contracts alone: nothing, or an opening and what was entered behind it. No other opening
/// stands there.
#[derive(Drop)]
pub struct Chronicle {
    trace: Option<Trace<Noted>>,
}

impl Model for Chronicle {
    ghost use Rattle.std.specs.Prelude.{◌≡◌, true, List};
    ghost use Rattle.skk_calls.specs.declared.chronicle.Noted.{Noted};
    ghost use Rattle.skk_calls.specs.Chronicles.{noted, is_chronicle_or_none};

    ghost Value = { List Noted };

    ghost view = { λ c. noted c.trace };

    ghost invariant = { λ c. is_chronicle_or_none c.trace ≡ true };
}

impl Chronicle {
    ghost use Rattle.std.specs.Prelude.{◌≡◌, [], true};
    ghost use Rattle.skk_calls.specs.Chronicles.{is_chronicle};

    /// The chronicle of a trace that has an opening first and nowhere else. Takes no memory.
    pub fn of(trace: Trace<Noted>) -> Chronicle
        requires { is_chronicle trace ≡ true }
        ensures { result ≡ trace }
    {
        Chronicle { trace: Some(trace) }
    }

    /// A chronicle that notes nothing. Takes no memory.
    pub fn none() -> Chronicle
        ensures { result ≡ [] }
    {
        Chronicle { trace: None }
    }
}
