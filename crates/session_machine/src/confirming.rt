ghost use Rattle.std.specs.Prelude.{◌≡◌, IfOk};
ghost use Rattle.session_machine.specs.Pressed.{confirmed, confirmed_effect, reading_piece};
ghost use Rattle.session_machine.specs.Said.{Says, after, spoken};

use crate::frame::FrameState;
use crate::kana::{in_kana_of, whole_reading};
use crate::returning::put_return;
use crate::session::Session;
use reading_state::{AfterConfirm, Reading};
use skk_calls::Caller;
use skk_text::{Memory, Mode, Notice, Text};
use std::alloc::Global;

// Inserts a reading in the frame's kana or in the other, and does what comes behind that. The reading stays open where
// it does not fit.
#[tactic(auto, using(crate::proofs::Saying::says))]
pub(crate) fn confirm<C: Caller>(
    session: &mut Session,
    alloc: Global,
    reading: Reading,
    other: bool,
    then: AfterConfirm,
    caller: &mut C,
) -> Result<(), Memory>
    ensures { Says (confirmed session.old reading other (then)) (after result session.new)
        (spoken C.number C.said caller.old) (spoken C.number C.said caller.new) }
{
    let piece = reading_piece(alloc, session.frame.mode, &reading, other)?;
    if !session.has_room(piece.as_str()) {
        session.put_state(FrameState::Reading(reading));
        session.note(Notice::Limit);
        return Ok(());
    }
    drop(reading);
    session.frame.text.push_str(piece.as_str())?;
    apply_confirmed(session, alloc, then, caller)
}

// A reading with its okurigana as it is inserted.
fn reading_piece(alloc: Global, mode: Mode, reading: &Reading, other: bool) -> Result<Text, Memory>
    ensures { IfOk result (λ piece. piece ≡ reading_piece mode reading.now other) }
{
    let mode = if other { mode.other_kana() } else { mode };
    in_kana_of(alloc, mode, whole_reading(alloc, reading)?)
}

// Does what comes behind a reading that was inserted.
#[tactic(auto, using(crate::proofs::Words::words, crate::proofs::Saying::says))]
fn apply_confirmed<C: Caller>(
    session: &mut Session,
    alloc: Global,
    then: AfterConfirm,
    caller: &mut C,
) -> Result<(), Memory>
    ensures { Says (confirmed_effect session.old (then)) (after result session.new)
        (spoken C.number C.said caller.old) (spoken C.number C.said caller.new) }
{
    match then {
        AfterConfirm::Nothing => {}
        AfterConfirm::ToAscii => session.frame.mode = Mode::Ascii,
        AfterConfirm::ToWide => session.frame.mode = Mode::Wide,
        AfterConfirm::OpenReading => session.put_state(FrameState::Reading(Reading::new(alloc))),
        AfterConfirm::Newline => return put_return(session, alloc, caller),
    }
    Ok(())
}
