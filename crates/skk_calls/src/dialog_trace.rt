use crate::answer::Answer;
use crate::call::Call;
use skk_text::Memory;
use skk_trace::{Shows, Trace};
use std::alloc::Global;
use std::marker::Model;

/// What a caller has said, for contracts alone: the calls that it made, each with its answer, in order.
#[derive(Drop)]
pub struct DialogTrace {
    // Its first note is no call.
    trace: Trace<Option<(Call, Answer)>>,
}

impl Model for DialogTrace {
    ghost use Rattle.std.specs.List.{filter_map};
    ghost use Rattle.skk_calls.specs.Interactions.{Dialog};

    ghost Value = { Dialog };

    ghost view = { λ d. filter_map (λ note. note) d.trace };
}

impl DialogTrace {
    ghost use Rattle.std.specs.Prelude.{◌≡◌, [], ◌∷◌, ◌++◌, IfOk};

    /// The trace of a caller that has said nothing. Takes constant memory.
    pub fn new(alloc: Global) -> Result<DialogTrace, Memory>
        ensures { IfOk result (λ dialog. dialog ≡ []) }
    {
        let trace = Trace::new(alloc, &Silence)?;
        Ok(DialogTrace { trace })
    }

    /// Notes a call with its answer behind what was said. Takes no memory, and constant time.
    pub fn note(&mut self, call: &Call, answer: &Answer)
        ensures { self.new ≡ self.old ++ (call.now, answer.now) ∷ [] }
    {
        self.trace.note(&Answered { call, answer });
    }
}

// No call.
#[derive(Drop)]
struct Silence;

impl Shows<Option<(Call, Answer)>> for Silence {
    ghost use Rattle.std.specs.Prelude.{None};

    ghost shows = { λ _. None };
}

// A call and its answer.
#[derive(Drop)]
struct Answered<'a> {
    call: &'a Call,
    answer: &'a Answer,
}

impl Shows<Option<(Call, Answer)>> for Answered<'_> {
    ghost use Rattle.std.specs.Prelude.{Some};

    ghost shows = { λ answered. Some (answered.call.now, answered.answer.now) };
}
