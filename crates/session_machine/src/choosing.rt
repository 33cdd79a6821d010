ghost use Rattle.std.specs.Prelude.{◌≡◌, ◌<◌, length, IfOk, OnOk};
ghost use Rattle.std.specs.Str.{chars};
ghost use Rattle.skk_calls.specs.declared.call.Call.TheVariants.{Learn};
ghost use Rattle.reading_state.specs.Keys.{okuri_of};
ghost use Rattle.session_machine.specs.Pressed.{after_learning, choice_effect, choice_piece, choosing, learning};
ghost use Rattle.session_machine.specs.Pressed.{of_candidate};
ghost use Rattle.session_machine.specs.Said.{Says, after, spoken};
ghost use Rattle.session_machine.specs.Session.{with_piece};

use crate::answered::{learnt_by, notice_of};
use crate::frame::{Choice, Conversion, FrameState};
use crate::kana::in_kana_of;
use crate::pressing::press_in_plain;
use crate::returning::put_return;
use crate::session::Session;
use candidate_state::{AfterChoose, Shown};
use reading_state::Reading;
use romaji_rules::{Pending, Rules};
use skk_calls::{Answer, Call, Caller};
use skk_text::{Copies, Memory, Mode, Notice, Text};
use std::alloc::Global;

// Chooses the candidate of a place: inserts it, learns it, and does what comes behind that. The candidates stay where
// it does not fit.
#[tactic(auto, using(crate::proofs::Saying::says))]
pub(crate) fn choose<C: Caller>(
    session: &mut Session,
    alloc: Global,
    rules: &Rules,
    conversion: Conversion,
    place: usize,
    then: AfterChoose,
    caller: &mut C,
) -> Result<(), Memory>
    requires { place < length conversion.picking.shown }
    ensures { Says (of_candidate session.old conversion place (choosing rules.now session.old conversion (then)))
        (after result session.new) (spoken C.number C.said caller.old) (spoken C.number C.said caller.new) }
{
    let shown = conversion.picking.shown_list().at(place);
    let piece = choice_piece(
        alloc,
        session.frame.mode,
        conversion.reading.reading(),
        shown,
    )?;
    if !session.has_room(piece.as_str()) {
        session.put_state(FrameState::Picking(conversion));
        session.note(Notice::Limit);
        return Ok(());
    }
    learn(
        session, alloc, rules, conversion, place, &piece, then, caller,
    )
}

// What is inserted for a candidate that was found for a reading.
fn choice_piece(
    alloc: Global,
    mode: Mode,
    reading: &Reading,
    shown: Shown<'_>,
) -> Result<Text, Memory>
    ensures { IfOk result (λ piece. piece
        ≡ choice_piece mode reading.now
        (record { key = shown.entry.key.now; cand = shown.entry.cand.now; text = shown.entry.text.now })) }
{
    let mut piece = shown.text.copy(alloc)?;
    if let Some(kana) = reading.begun_text() {
        let kana = in_kana_of(alloc, mode, kana.copy(alloc)?)?;
        piece.push_str(kana.as_str())?;
    }
    Ok(piece)
}

// Inserts the piece of a candidate, which fits, learns the candidate, and does what comes behind that.
#[tactic(auto, using(crate::proofs::Saying::says))]
fn learn<C: Caller>(
    session: &mut Session,
    alloc: Global,
    rules: &Rules,
    conversion: Conversion,
    place: usize,
    piece: &Text,
    then: AfterChoose,
    caller: &mut C,
) -> Result<(), Memory>
    requires { place < length conversion.picking.shown }
    ensures { Says (of_candidate session.old conversion place
        (learning rules.now session.old conversion piece.now (then))) (after result session.new)
        (spoken C.number C.said caller.old) (spoken C.number C.said caller.new) }
{
    let shown = conversion.picking.shown_list().at(place);
    let call = insert_choice(session, alloc, conversion.reading.reading(), shown, piece)?;
    let answer = caller.call(alloc, &call);
    drop(call);
    take_learning(session, conversion, piece, answer);
    apply_choice(session, alloc, rules, then, caller)
}

// Inserts the piece of a candidate that was found for a reading, and gives the call that learns the candidate.
fn insert_choice(
    session: &mut Session,
    alloc: Global,
    reading: &Reading,
    shown: Shown<'_>,
    piece: &Text,
) -> Result<Call, Memory>
    ensures call { IfOk result (λ call. call
        ≡ Learn session.old.book shown.entry.key.now (okuri_of reading.now) shown.entry.cand.now) }
    ensures inserted { OnOk result (session.new ≡ with_piece session.old piece.now) }
{
    session.frame.text.push_str(piece.as_str())?;
    learning(alloc, session.book, reading, shown)
}

// The call that learns a candidate that was found for a reading.
fn learning(alloc: Global, book: u16, reading: &Reading, shown: Shown<'_>) -> Result<Call, Memory>
    ensures { IfOk result (λ call. call ≡ Learn book shown.entry.key.now (okuri_of reading.now) shown.entry.cand.now) }
{
    Ok(Call::Learn {
        book,
        key: shown.key.copy(alloc)?,
        okuri: reading.okuri(alloc)?,
        cand: shown.cand.copy(alloc)?,
    })
}

// Takes the answer to the learning of a candidate whose piece was inserted, and keeps what takes the choice back.
fn take_learning(session: &mut Session, conversion: Conversion, piece: &Text, answer: Answer)
    ensures { session.new ≡ after_learning session.old conversion piece.now answer }
{
    session.notice = notice_of(&answer);
    session.frame.last_choice = Some(Choice {
        inserted: char_count(piece.as_str()),
        end: session.frame.text.byte_len(),
        mode: session.frame.mode,
        conversion,
        learned: learnt_by(answer),
    });
}

// How many characters a text has.
fn char_count(text: &str) -> usize
    ensures { result ≡ length (chars text.now) }
{
    text.chars().count()
}

// Does what comes behind a choice.
#[tactic(auto, using(crate::proofs::Words::words, crate::proofs::Saying::says))]
fn apply_choice<C: Caller>(
    session: &mut Session,
    alloc: Global,
    rules: &Rules,
    then: AfterChoose,
    caller: &mut C,
) -> Result<(), Memory>
    ensures { Says (choice_effect rules.now session.old (then)) (after result session.new)
        (spoken C.number C.said caller.old) (spoken C.number C.said caller.new) }
{
    match then {
        AfterChoose::Nothing => {}
        AfterChoose::Delete => session.shorten(),
        AfterChoose::Newline => return put_return(session, alloc, caller),
        AfterChoose::OpenSuffix => session.put_state(FrameState::Reading(Reading::suffix(alloc)?)),
        AfterChoose::Read(key) => {
            return press_in_plain(session, alloc, rules, Pending::new(), key, caller);
        }
    }
    Ok(())
}
