ghost use Rattle.std.specs.Prelude.{◌≡◌, [], true, IfOk, IfSome};
ghost use Rattle.skk_calls.specs.Dictionary.{is_fit};
ghost use Rattle.skk_calls.specs.Interactions.{Comes, end_of};
ghost use Rattle.session_machine.specs.Meanings.{Meaning};
ghost use Rattle.session_machine.specs.NextAsked.{next_asked};
ghost use Rattle.session_machine.specs.Replayed.{end_behind};

use crate::known_answers::{KnownAnswers, Stage, answer};
use crate::session::Session;
use skk_calls::{Answer, Answers, Call, Caller, DialogTrace};
use skk_text::Memory;
use std::alloc::Global;
use std::marker::{Brand, Model, PhantomData};

/// What a key comes to behind answers: the call that it asks next, or else the session after it, where just these
/// answers lead to its end.
#[derive(Drop)]
pub struct Replayed {
    pub next: Option<Call>,
    pub end: Option<Session>,
}

// Names the answers that are given, for the proof alone: a call at `Brand` picks them.
pub(crate) trait AnswersName {
    ghost use Rattle.std.specs.Prelude.{List};
    ghost use Rattle.skk_calls.specs.declared.answer.Answer.{Answer};

    ghost answers: { List Answer };
}

impl AnswersName for Brand {
    ghost use Rattle.std.specs.Prelude.{[]};

    ghost answers = { [] };
}

// A caller that gives known answers. Contracts see what it has said, the answers that are left, and where it stands.
pub(crate) struct Replay<'a, N: AnswersName> {
    known: KnownAnswers<'a>,
    said: DialogTrace,
    answers: PhantomData<N>,
}

impl<N: AnswersName> Drop for Replay<'_, N> {
    fn drop(self) {
        let Replay {
            known,
            said: _,
            answers: _,
        } = self;
        drop(known);
    }
}

impl<'a, N: AnswersName> Model for Replay<'a, N> {
    ghost use Rattle.session_machine.specs.Replayed.{IsReplay, Replaying};

    ghost Value = { Replaying };

    ghost view = { λ r. record { said = r.said; left = r.known.left.now; stage = r.known.stage } };

    ghost invariant = { λ r. IsReplay N.answers r.known r.said };
}

impl<'a, N: AnswersName> Replay<'a, N> {
    // A caller that gives these answers, and has said nothing.
    pub(crate) fn new(alloc: Global, answers: &'a Answers) -> Result<Replay<'a, N>, Memory>
        requires { answers.now ≡ N.answers }
        ensures { IfOk result (λ replay. replay.said ≡ []) }
    {
        let said = DialogTrace::new(alloc)?;
        Ok(Replay {
            known: KnownAnswers {
                left: answers.as_slice(),
                stage: Stage::Giving,
            },
            said,
            answers: PhantomData,
        })
    }

    // What a key came to that was pressed over the caller, and left this session.
    pub(crate) fn close(self, end: Session) -> Result<Replayed, Memory>
        ensures next { (meaning : Meaning) → Comes meaning self.entry.said end
            → IfOk result (λ replayed. replayed.next ≡ next_asked meaning N.answers) }
        ensures end { (meaning : Meaning) → Comes meaning self.entry.said end
            → IfOk result (λ replayed. replayed.end ≡ end_of meaning N.answers) }
        ensures fit { IfOk result (λ replayed. IfSome replayed.next (λ call. is_fit call ≡ true)) }
    {
        let Replay {
            known,
            said: _,
            answers: _,
        } = self;
        let KnownAnswers { left, stage } = known;
        match stage {
            Stage::Giving => Ok(Replayed {
                next: None,
                end: end_behind(left, end),
            }),
            Stage::Kept(call) => Ok(Replayed {
                next: Some(call),
                end: None,
            }),
            Stage::Failed => Err(Memory),
        }
    }
}

// The session that a key left, where no answer is left behind it.
fn end_behind(left: &[Answer], end: Session) -> Option<Session>
    ensures { result ≡ end_behind left.now end }
{
    match left.split_first() {
        Some(_) => None,
        None => Some(end),
    }
}

impl<N: AnswersName> Caller for Replay<'_, N> {
    ghost number = { λ _. 0 };

    ghost said = { λ replay. replay.said };

    fn number(&self) -> u32 {
        0
    }

    fn call(&mut self, alloc: Global, call: &Call) -> Answer {
        let answer = answer(alloc, &mut self.known, call);
        self.said.note(call, &answer);
        answer
    }
}
