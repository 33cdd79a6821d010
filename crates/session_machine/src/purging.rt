ghost use Rattle.std.specs.Prelude.{◌≡◌, true, IfOk};
ghost use Rattle.skk_calls.specs.declared.call.Call.TheVariants as calls;
ghost use Rattle.skk_calls.specs.Dictionary.{is_fit};
ghost use Rattle.session_machine.specs.Pressed.{after_purge, of_candidate, purging};
ghost use Rattle.session_machine.specs.Said.{Says, after, spoken};

use crate::answered::{notice_of, says_purged};
use crate::frame::{Conversion, FrameState};
use crate::session::Session;
use candidate_state::Shown;
use skk_calls::{Answer, Call, Caller};
use skk_text::{Copies, Memory};
use std::alloc::Global;

// Purges the candidate that is shown.
#[tactic(auto, using(crate::proofs::Saying::says))]
pub(crate) fn purge<C: Caller>(
    session: &mut Session,
    alloc: Global,
    conversion: Conversion,
    caller: &mut C,
) -> Result<(), Memory>
    ensures { Says (of_candidate session.old conversion conversion.picking.place (purging session.old conversion))
        (after result session.new) (spoken C.number C.said caller.old) (spoken C.number C.said caller.new) }
{
    let shown = conversion
        .picking
        .shown_list()
        .at(conversion.picking.place());
    let call = purging(alloc, session.book, shown)?;
    let answer = caller.call(alloc, &call);
    drop(call);
    take_purge(session, conversion, &answer);
    drop(answer);
    Ok(())
}

// The call that purges a candidate.
fn purging(alloc: Global, book: u16, shown: Shown<'_>) -> Result<Call, Memory>
    ensures call { IfOk result (λ call. call ≡ calls.Purge book shown.entry.key.now shown.entry.cand.now.word) }
    ensures fit { IfOk result (λ call. is_fit call ≡ true) }
{
    Ok(Call::Purge {
        book,
        key: shown.key.copy(alloc)?,
        word: shown.cand.word().copy(alloc)?,
    })
}

// Takes the answer to a purge: the candidates are closed where the word is found no more, and stay else.
fn take_purge(session: &mut Session, conversion: Conversion, answer: &Answer)
    ensures { session.new ≡ after_purge session.old conversion answer.now }
{
    session.notice = notice_of(answer);
    if !says_purged(answer) {
        session.put_state(FrameState::Picking(conversion));
    }
}
