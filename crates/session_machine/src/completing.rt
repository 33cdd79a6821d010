ghost use Rattle.std.specs.Prelude.{◌≡◌, true};
ghost use Rattle.std.specs.List.{list_all};
ghost use Rattle.skk_calls.specs.declared.call.Call.TheVariants.{Complete};
ghost use Rattle.skk_calls.specs.declared.answer.Answer.TheVariants.{Done};
ghost use Rattle.skk_calls.specs.declared.answer.Reply.TheVariants.{Readings};
ghost use Rattle.skk_calls.specs.Dictionary.{is_plain_reading, may_answer};
ghost use Rattle.session_machine.specs.Converted.{completing, completions_answered};
ghost use Rattle.session_machine.specs.Said.{Becomes, Says, after, spoken};

use crate::frame::FrameState;
use crate::opening::leave_open;
use crate::session::Session;
use reading_state::Reading;
use skk_calls::{Answer, Call, Caller, Reply};
use skk_text::{Copies, Memory, Texts};
use std::alloc::Global;

// Asks for the readings that complete one, and shows the first.
#[tactic(auto, using(crate::proofs::Saying::says))]
pub(crate) fn complete<C: Caller>(
    session: &mut Session,
    alloc: Global,
    reading: Reading,
    caller: &mut C,
) -> Result<(), Memory>
    ensures { Says (completing session.old reading) (after result session.new)
        (spoken C.number C.said caller.old) (spoken C.number C.said caller.new) }
{
    let call = Call::Complete {
        who: session.typist,
        prefix: reading.text().copy(alloc)?,
    };
    let answer = caller.call(alloc, &call);
    drop(call);
    take_completions(session, alloc, reading, answer)
}

// Takes the answer to the completion of a reading.
fn take_completions(
    session: &mut Session,
    alloc: Global,
    reading: Reading,
    answer: Answer,
) -> Result<(), Memory>
    requires { may_answer (Complete session.old.typist reading.text) answer ≡ true }
    ensures { Becomes (completions_answered session.old reading answer) (after result session.new) }
{
    match answer {
        Answer::Done(Reply::Readings(readings)) => {
            return show_first(session, alloc, reading, readings);
        }
        Answer::Done(_) => leave_open(session, reading, None),
        Answer::Refused(refusal) => leave_open(session, reading, Some(refusal)),
    }
    Ok(())
}

// Shows the first of the readings that complete one, and keeps them all.
fn show_first(
    session: &mut Session,
    alloc: Global,
    reading: Reading,
    readings: Texts,
) -> Result<(), Memory>
    requires { list_all is_plain_reading readings ≡ true }
    ensures { Becomes (completions_answered session.old reading (Done (Readings readings))) (after result session.new) }
{
    let mut reading = reading;
    let notice = reading.complete(alloc, readings)?;
    session.put_state(FrameState::Reading(reading));
    session.note(notice);
    Ok(())
}
