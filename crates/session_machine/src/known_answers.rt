ghost use Rattle.std.specs.Prelude.{◌≡◌, ◌≢◌, ◌∷◌, ◌++◌, [], true, false, IfOk, List};
ghost use Rattle.skk_calls.specs.Dictionary.{is_fit, may_answer};
ghost use Rattle.skk_calls.specs.Interactions.{Dialog};
ghost use Rattle.session_machine.specs.Replayed.{Gives, IsReplay, Keeps};

use crate::answer_kinds::may_answer;
use crate::copying::{copy_answer, copy_call};
use skk_calls::{Answer, Call, Refusal};
use skk_text::Memory;
use std::alloc::Global;
use std::mem;

// Answers that are known, and are given to calls one after another. The call behind them is kept, and refused, and so
// are those that follow.
#[derive(Drop)]
pub(crate) struct KnownAnswers<'a> {
    // Those that are left.
    pub(crate) left: &'a [Answer],
    pub(crate) stage: Stage,
}

// Where the giving of answers stands.
#[derive(Drop)]
pub(crate) enum Stage {
    // Each call so far got its answer.
    Giving,
    // All were given, and this call came behind them.
    Kept(Call),
    // A call or an answer could not be copied, or an answer was none that its call may get.
    Failed,
}

// What a call is answered where known answers are given.
#[tactic(auto, using(crate::proofs::Replays::replays))]
pub(crate) fn answer(alloc: Global, known: &mut KnownAnswers<'_>, call: &Call) -> Answer
    requires { is_fit call.now ≡ true }
    ensures said { (answers : List Answer) (said : Dialog) → IsReplay answers known.old said
        → IsReplay answers known.new (said ++ (call.now, result) ∷ []) }
    ensures may { may_answer call.now result ≡ true }
{
    if is_giving(&known.stage) {
        go_on(alloc, known, call)
    } else {
        Answer::Refused(Refusal::Memory)
    }
}

// Whether answers are still given.
fn is_giving(stage: &Stage) -> bool
    ensures giving { result ≡ true → stage.now ≡ Stage.Giving }
    ensures other { result ≡ false → stage.now ≢ Stage.Giving }
{
    match stage {
        Stage::Giving => true,
        Stage::Kept(_) | Stage::Failed => false,
    }
}

// The answer that comes next, or the refusal of a call behind all answers, which is kept.
#[tactic(auto, using(crate::proofs::Replays::replays))]
fn go_on(alloc: Global, known: &mut KnownAnswers<'_>, call: &Call) -> Answer
    requires fit { is_fit call.now ≡ true }
    requires stage { known.old.stage ≡ Stage.Giving }
    ensures said { (answers : List Answer) (said : Dialog) → IsReplay answers known.old said
        → IsReplay answers known.new (said ++ (call.now, result) ∷ []) }
    ensures may { may_answer call.now result ≡ true }
{
    let left = known.left;
    match left.split_first() {
        Some((answer, behind)) => give(alloc, known, call, answer, behind),
        None => {
            keep(alloc, known, call);
            Answer::Refused(Refusal::Memory)
        }
    }
}

// Keeps a call, which is refused.
fn keep(alloc: Global, known: &mut KnownAnswers<'_>, call: &Call)
    ensures same { record known.new { stage = known.old.stage } ≡ known.old }
    ensures kept { Keeps call.now known.new.stage }
{
    drop(mem::replace(&mut known.stage, kept(alloc, call)));
}

// The stage in which a call is kept.
fn kept(alloc: Global, call: &Call) -> Stage
    ensures { Keeps call.now result }
{
    match copy_call(alloc, call) {
        Ok(call) => Stage::Kept(call),
        Err(Memory) => Stage::Failed,
    }
}

// Gives the next answer to a call, or refuses it where that is none that it may get.
fn give<'a>(
    alloc: Global,
    known: &mut KnownAnswers<'a>,
    call: &Call,
    next: &Answer,
    behind: &'a [Answer],
) -> Answer
    requires left { known.old.left.now ≡ next.now ∷ behind.now }
    ensures given { Gives known.old result known.new }
    ensures may { may_answer call.now result ≡ true }
{
    match answer_of(alloc, call, next) {
        Ok(answer) => {
            known.left = behind;
            answer
        }
        Err(Memory) => {
            drop(mem::replace(&mut known.stage, Stage::Failed));
            Answer::Refused(Refusal::Memory)
        }
    }
}

// A copy of an answer, which the call may get.
fn answer_of(alloc: Global, call: &Call, answer: &Answer) -> Result<Answer, Memory>
    ensures same { IfOk result (λ copy. copy ≡ answer.now) }
    ensures may { IfOk result (λ copy. may_answer call.now copy ≡ true) }
{
    if !may_answer(call, answer) {
        return Err(Memory);
    }
    copy_answer(alloc, answer)
}
