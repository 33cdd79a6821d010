ghost use Rattle.std.specs.Prelude.{◌≡◌, true, IfOk, IfSome};
ghost use Rattle.skk_calls.specs.Dictionary.{is_fit};
ghost use Rattle.skk_calls.specs.Interactions.{end_of};
ghost use Rattle.session_machine.specs.NextAsked.{next_asked};
ghost use Rattle.session_machine.specs.Pressed.{pressed};

use crate::replay::{AnswersName, Replay, Replayed};
use crate::session::Session;
use romaji_rules::Rules;
use skk_calls::Answers;
use skk_text::{Copies, Key, Memory};
use std::alloc::Global;
use std::marker::Brand;

// What a key of a session comes to behind these answers: a copy of the session is pressed.
pub(crate) fn replay(
    session: &Session,
    alloc: Global,
    rules: &Rules,
    key: Key,
    answers: &Answers,
) -> Result<Replayed, Memory>
    ensures next { IfOk result
        (λ replayed. replayed.next ≡ next_asked (pressed rules.now session.now key) answers.now) }
    ensures end { IfOk result (λ replayed. replayed.end ≡ end_of (pressed rules.now session.now key) answers.now) }
    ensures fit { IfOk result (λ replayed. IfSome replayed.next (λ call. is_fit call ≡ true)) }
{
    replay_over::<Brand>(session, alloc, rules, key, answers)
}

// The same by a caller for which `N` names the answers to the proof.
fn replay_over<N: AnswersName>(
    session: &Session,
    alloc: Global,
    rules: &Rules,
    key: Key,
    answers: &Answers,
) -> Result<Replayed, Memory>
    requires { answers.now ≡ N.answers }
    ensures next { IfOk result (λ replayed. replayed.next ≡ next_asked (pressed rules.now session.now key) N.answers) }
    ensures end { IfOk result (λ replayed. replayed.end ≡ end_of (pressed rules.now session.now key) N.answers) }
    ensures fit { IfOk result (λ replayed. IfSome replayed.next (λ call. is_fit call ≡ true)) }
{
    let mut replay = Replay::<N>::new(alloc, answers)?;
    let copy = session.copy(alloc)?;
    let end = copy.press(alloc, rules, key, &mut replay)?;
    replay.close(end)
}
