ghost use Rattle.std.specs.Prelude.{◌≡◌};
ghost use Rattle.session_machine.specs.Pressed.{before_choice, undone, unlearnt};
ghost use Rattle.session_machine.specs.Said.{Says, spoken};
ghost use Rattle.session_machine.specs.Session.{choice_at};
ghost use Rattle.skk_text.specs.Text.{byte_len};

use crate::answered::notice_of;
use crate::editing::delete_chars;
use crate::frame::{Choice, FrameState};
use crate::session::Session;
use crate::session_notice::SessionNotice;
use skk_calls::{Call, Caller, Learned};
use skk_text::Notice;
use std::alloc::Global;

// Takes back what was chosen last, where the text is as long as it was behind it.
#[tactic(auto, using(crate::proofs::Saying::says))]
pub(crate) fn undo<C: Caller>(session: &mut Session, alloc: Global, caller: &mut C)
    ensures { Says (undone session.old (choice_at (byte_len session.old.frame.text) session.old.frame.last_choice))
        (Ok session.new) (spoken C.number C.said caller.old) (spoken C.number C.said caller.new) }
{
    let Some(choice) = session.take_choice() else {
        session.note(Notice::NoUndo);
        return;
    };
    let learned = go_before(session, choice);
    unlearn(session, alloc, learned, caller);
}

// Goes back before a choice, and hands out what was learnt of it.
fn go_before(session: &mut Session, choice: Choice) -> Option<Learned>
    ensures before { session.new ≡ before_choice session.old choice }
    ensures learned { result ≡ choice.learned }
{
    delete_chars(&mut session.frame.text, choice.inserted);
    session.frame.mode = choice.mode;
    let (conversion, learned) = choice.into_parts();
    session.put_state(FrameState::Picking(conversion));
    session.frame.last_choice = None;
    learned
}

// Takes back what was learnt, if anything was.
#[tactic(auto, using(crate::proofs::Saying::says))]
fn unlearn<C: Caller>(
    session: &mut Session,
    alloc: Global,
    learned: Option<Learned>,
    caller: &mut C,
)
    ensures { Says (unlearnt session.old learned) (Ok session.new)
        (spoken C.number C.said caller.old) (spoken C.number C.said caller.new) }
{
    let Some(learned) = learned else {
        session.notice = SessionNotice::Undone;
        return;
    };
    let call = Call::Unlearn { learned };
    let answer = caller.call(alloc, &call);
    drop(call);
    session.notice = notice_of(&answer);
    drop(answer);
}
