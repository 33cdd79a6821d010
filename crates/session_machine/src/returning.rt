ghost use Rattle.std.specs.Prelude.{◌≡◌, ◌≢◌, [], Some, true, false, IfOk, OnOk};
ghost use Rattle.std.specs.Option.{option_map_or};
ghost use Rattle.skk_text.specs.Lists.{is_empty};
ghost use Rattle.skk_calls.specs.Rows.{is_word};
ghost use Rattle.session_machine.specs.Registrations.{innermost, registered, registered_piece};
ghost use Rattle.session_machine.specs.Registrations.{registration, returned, return_effect, word_ended};
ghost use Rattle.session_machine.specs.Said.{Says, after, spoken};

use crate::annotating::{note_return, take_annotation};
use crate::answered::notice_of;
use crate::editing::fits_behind;
use crate::frame::{OuterFrame, Waiting};
use crate::kana::in_kana_of;
use crate::reading_parts::{numbers_of, registered_key};
use crate::registering::cancel;
use crate::session::Session;
use crate::session_notice::SessionNotice;
use numeric_entries::fill;
use reading_state::Reading;
use skk_calls::{Answer, Call, Caller, Cand, WORD_LIMIT};
use skk_text::{Copies, Memory, Mode, Notice, Text};
use std::alloc::Global;

// What a return does.
#[derive(Drop)]
pub(crate) enum Return {
    // It puts a new line into the typist's text.
    NewLine,
    // It cancels a registration or a note line, since there is no text.
    Cancel,
    // Nothing but this notice, since the text is none that may be learnt, inserted outside, or put into a note.
    Stay(SessionNotice),
    // It ends a registration: the word is learnt by this call, and this is inserted outside.
    Learn { call: Call, piece: Text },
    // It ends a note line: its candidate is annotated by this call, and becomes this one.
    Annotate { call: Call, cand: Cand },
}

// Does what a return does: a new line, or the end of the innermost registration or note line.
#[tactic(auto, using(crate::proofs::Saying::says, crate::proofs::Words::words))]
pub(crate) fn put_return<C: Caller>(
    session: &mut Session,
    alloc: Global,
    caller: &mut C,
) -> Result<(), Memory>
    ensures { Says (returned session.old) (after result session.new)
        (spoken C.number C.said caller.old) (spoken C.number C.said caller.new) }
{
    match what_returns(alloc, session)? {
        Return::NewLine => session.insert("\n"),
        Return::Cancel => {
            cancel(session);
            Ok(())
        }
        Return::Stay(notice) => {
            session.notice = notice;
            Ok(())
        }
        Return::Learn { call, piece } => {
            let answer = caller.call(alloc, &call);
            drop(call);
            let done = take_registration(session, &piece, &answer);
            drop(answer);
            done
        }
        Return::Annotate { call, cand } => {
            let answer = caller.call(alloc, &call);
            drop(call);
            take_annotation(session, alloc, cand, &answer);
            drop(answer);
            Ok(())
        }
    }
}

// What a return does in a session.
fn what_returns(alloc: Global, session: &Session) -> Result<Return, Memory>
    ensures { IfOk result (λ done. returned session.now ≡ return_effect session.now done) }
{
    let Some(frame) = session.outer.last() else {
        return Ok(Return::NewLine);
    };
    if session.frame.text.is_empty() {
        return Ok(Return::Cancel);
    }
    match &frame.waiting {
        Waiting::Note(conversion) => note_return(alloc, session, frame, conversion),
        Waiting::Reading(_) | Waiting::Picking(_) => word_return(alloc, session, frame),
    }
}

// What a return does in a registration whose text is not empty, and which stands in this frame.
fn word_return(alloc: Global, session: &Session, frame: &OuterFrame) -> Result<Return, Memory>
    requires inner { innermost session.now.outer ≡ Some frame.now }
    requires text { is_empty session.now.frame.text ≡ false }
    ensures { IfOk result (λ done. word_ended session.now frame.now ≡ return_effect session.now done) }
{
    let word = &session.frame.text;
    if word.byte_len() > WORD_LIMIT {
        return Ok(Return::Stay(SessionNotice::Step(Notice::Limit)));
    }
    let reading = frame.waiting.reading();
    let piece = registered_piece(alloc, frame.mode, reading, word)?;
    if !fits_behind(&frame.text, piece.as_str()) {
        return Ok(Return::Stay(SessionNotice::Step(Notice::Limit)));
    }
    let call = registration(alloc, session.book, reading, word)?;
    Ok(Return::Learn { call, piece })
}

// What is inserted outside for a word that was typed for a reading.
fn registered_piece(
    alloc: Global,
    mode: Mode,
    reading: &Reading,
    word: &Text,
) -> Result<Text, Memory>
    ensures { IfOk result (λ piece. piece ≡ registered_piece mode reading.now word.now) }
{
    let numbers = numbers_of(alloc, reading)?;
    let mut piece = fill(alloc, word, &numbers, &numbers)?;
    if let Some(kana) = reading.begun_text() {
        let kana = in_kana_of(alloc, mode, kana.copy(alloc)?)?;
        piece.push_str(kana.as_str())?;
    }
    Ok(piece)
}

// The call that learns a word which was typed for a reading.
fn registration(alloc: Global, book: u16, reading: &Reading, word: &Text) -> Result<Call, Memory>
    requires text { reading.now.text ≢ [] }
    requires word { is_word word.now ≡ true }
    ensures { IfOk result (λ call. call ≡ registration book reading.now word.now) }
{
    Ok(Call::Learn {
        book,
        key: registered_key(alloc, reading)?,
        okuri: reading.okuri(alloc)?,
        cand: Cand::of_word(alloc, word.copy(alloc)?),
    })
}

// Takes the answer to the learning of a registered word, and inserts its piece outside, where it fits.
fn take_registration(session: &mut Session, piece: &Text, answer: &Answer) -> Result<(), Memory>
    ensures { OnOk result (session.new ≡ option_map_or
        (λ frame. registered session.old frame piece.now answer.now) (innermost session.old.outer) session.old) }
{
    let Some(frame) = session.outer.pop() else {
        return Ok(());
    };
    session.put_frame(frame.with_word(piece)?);
    session.tell(notice_of(answer));
    Ok(())
}
