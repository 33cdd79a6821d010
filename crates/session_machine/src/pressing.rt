ghost use Rattle.std.specs.Prelude.{◌≡◌, ◌≢◌, ◌<◌, ℕ, [], length, IfOk};
ghost use Rattle.reading_state.specs.declared.reading_do.ReadingThen.TheVariants as effects;
ghost use Rattle.session_machine.specs.Pressed.{pressed, plain_pressed, plain_typed, plain_effect, reading_pressed};
ghost use Rattle.session_machine.specs.Pressed.{reading_effect, picking_pressed, picking_read, picking_effect};
ghost use Rattle.session_machine.specs.Said.{Says, after, spoken};

use crate::annotating::opens_note;
use crate::choosing::choose;
use crate::completing::complete;
use crate::confirming::confirm;
use crate::converting::convert;
use crate::frame::{Conversion, FrameState, Waiting};
use crate::purging::purge;
use crate::registering::{cancel, register};
use crate::returning::put_return;
use crate::session::Session;
use crate::undoing::undo;
use candidate_state::{AfterChoose, CandsDo, press_cands};
use kana_input::{Plain, PlainDo, PlainThen, press_plain};
use reading_state::{Reading, ReadingDo, ReadingThen, press_reading};
use romaji_rules::{Pending, Rules};
use skk_calls::Caller;
use skk_text::{Key, Memory, Notice};
use std::alloc::Global;

// Gives a key to the state of the frame.
#[tactic(auto, using(crate::proofs::Saying::says))]
pub(crate) fn press_key<C: Caller>(
    session: &mut Session,
    alloc: Global,
    rules: &Rules,
    key: Key,
    caller: &mut C,
) -> Result<(), Memory>
    ensures { Says (pressed rules.now session.old key) (after result session.new)
        (spoken C.number C.said caller.old) (spoken C.number C.said caller.new) }
{
    if let Some(pending) = session.take_pending() {
        return press_in_plain(session, alloc, rules, pending, key, caller);
    }
    match session.take_state() {
        FrameState::Plain(pending) => press_in_plain(session, alloc, rules, pending, key, caller),
        FrameState::Reading(reading) => press_in_reading(
            session, alloc, rules, reading, key, caller,
        ),
        FrameState::Picking(conversion) => {
            press_in_picking(session, alloc, rules, conversion, key, caller)
        }
    }
}

// Gives a key to the plain state, with these letters pending.
#[tactic(auto, using(crate::proofs::Saying::says))]
pub(crate) fn press_in_plain<C: Caller>(
    session: &mut Session,
    alloc: Global,
    rules: &Rules,
    pending: Pending,
    key: Key,
    caller: &mut C,
) -> Result<(), Memory>
    ensures { Says (plain_pressed rules.now session.old pending key) (after result session.new)
        (spoken C.number C.said caller.old) (spoken C.number C.said caller.new) }
{
    match type_plain(session, rules, pending, key)? {
        PlainThen::Stay => Ok(()),
        then => apply_plain(session, alloc, rules, then, caller),
    }
}

// Gives a key to the plain state, and inserts what comes out. What else the key does is left to be done.
fn type_plain(
    session: &mut Session,
    rules: &Rules,
    pending: Pending,
    key: Key,
) -> Result<PlainThen, Memory>
    ensures { IfOk result (λ effect. (session.new, effect) ≡ plain_typed rules.now session.old pending key) }
{
    let mut plain = Plain {
        mode: session.frame.mode,
        pending,
    };
    let PlainDo { insert, then } = press_plain(&mut plain, rules, key);
    session.frame.mode = plain.mode;
    session.put_pending(plain.pending);
    session.insert_plain(&insert)?;
    Ok(then)
}

// Does what a key of the plain state does behind its insertion. Most keys do nothing, and need none of its room.
#[inline(never)]
#[tactic(auto, using(crate::proofs::Words::words, crate::proofs::Saying::says))]
fn apply_plain<C: Caller>(
    session: &mut Session,
    alloc: Global,
    rules: &Rules,
    then: PlainThen,
    caller: &mut C,
) -> Result<(), Memory>
    ensures { Says (plain_effect rules.now session.old (then)) (after result session.new)
        (spoken C.number C.said caller.old) (spoken C.number C.said caller.new) }
{
    match then {
        PlainThen::Stay => {}
        PlainThen::DeleteLast => session.shorten(),
        PlainThen::Newline => return put_return(session, alloc, caller),
        PlainThen::OpenReading(None) => session.put_state(FrameState::Reading(Reading::new(alloc))),
        PlainThen::OpenReading(Some(letter)) => {
            let key = Key::Char(letter);
            return press_in_reading(session, alloc, rules, Reading::new(alloc), key, caller);
        }
        PlainThen::OpenAbbrev => session.put_state(FrameState::Reading(Reading::abbrev(alloc))),
        PlainThen::Cancel => cancel(session),
        PlainThen::AskUndo => undo(session, alloc, caller),
    }
    Ok(())
}

// Gives a key to an open reading.
#[tactic(auto, using(crate::proofs::Saying::says))]
fn press_in_reading<C: Caller>(
    session: &mut Session,
    alloc: Global,
    rules: &Rules,
    reading: Reading,
    key: Key,
    caller: &mut C,
) -> Result<(), Memory>
    ensures { Says (reading_pressed rules.now session.old reading key) (after result session.new)
        (spoken C.number C.said caller.old) (spoken C.number C.said caller.new) }
{
    let mut reading = reading;
    let ReadingDo { notice, then } = press_reading(alloc, &mut reading, rules, key)?;
    session.note(notice);
    apply_reading(session, alloc, reading, then, caller)
}

// Does what a key of the reading state does.
#[tactic(auto, using(crate::proofs::Saying::says))]
fn apply_reading<C: Caller>(
    session: &mut Session,
    alloc: Global,
    reading: Reading,
    then: ReadingThen,
    caller: &mut C,
) -> Result<(), Memory>
    requires { then ≡ effects.Convert → reading.text ≢ [] }
    ensures { Says (reading_effect session.old reading (then)) (after result session.new)
        (spoken C.number C.said caller.old) (spoken C.number C.said caller.new) }
{
    match then {
        ReadingThen::Stay => session.put_state(FrameState::Reading(reading)),
        ReadingThen::Convert => return convert(session, alloc, reading, caller),
        ReadingThen::AskCompletions => return complete(session, alloc, reading, caller),
        ReadingThen::Drop => {}
        ReadingThen::Confirm { other, then } => {
            return confirm(session, alloc, reading, other, then, caller);
        }
    }
    Ok(())
}

// Gives a key to the candidates.
#[tactic(auto, using(crate::proofs::Saying::says))]
fn press_in_picking<C: Caller>(
    session: &mut Session,
    alloc: Global,
    rules: &Rules,
    conversion: Conversion,
    key: Key,
    caller: &mut C,
) -> Result<(), Memory>
    ensures { Says (picking_pressed rules.now session.old conversion key) (after result session.new)
        (spoken C.number C.said caller.old) (spoken C.number C.said caller.new) }
{
    if opens_note(&conversion.picking, key) {
        return register(session, alloc, Waiting::Note(conversion));
    }
    read_in_picking(session, alloc, rules, conversion, key, caller)
}

// Gives a key to the candidates that opens no note line.
#[tactic(auto, using(crate::proofs::Saying::says))]
fn read_in_picking<C: Caller>(
    session: &mut Session,
    alloc: Global,
    rules: &Rules,
    conversion: Conversion,
    key: Key,
    caller: &mut C,
) -> Result<(), Memory>
    ensures { Says (picking_read rules.now session.old conversion key) (after result session.new)
        (spoken C.number C.said caller.old) (spoken C.number C.said caller.new) }
{
    let mut conversion = conversion;
    let done = press_cands(&mut conversion.picking, key);
    apply_picking(session, alloc, rules, conversion, done, caller)
}

// Does what a key of the candidate state does.
#[tactic(auto, using(crate::proofs::Saying::says))]
fn apply_picking<C: Caller>(
    session: &mut Session,
    alloc: Global,
    rules: &Rules,
    conversion: Conversion,
    done: CandsDo,
    caller: &mut C,
) -> Result<(), Memory>
    requires { (place : ℕ) (after : AfterChoose) → done ≡ CandsDo.Choose place after
        → place < length conversion.picking.shown }
    ensures { Says (picking_effect rules.now session.old conversion (done)) (after result session.new)
        (spoken C.number C.said caller.old) (spoken C.number C.said caller.new) }
{
    match done {
        CandsDo::Stay(notice) => {
            session.put_state(FrameState::Picking(conversion));
            session.note(notice);
            Ok(())
        }
        CandsDo::Back => {
            session.put_state(FrameState::Reading(conversion.into_reading()));
            Ok(())
        }
        CandsDo::Register => register(session, alloc, Waiting::Picking(conversion)),
        CandsDo::Purge => purge(session, alloc, conversion, caller),
        CandsDo::Choose { place, then } => {
            choose(session, alloc, rules, conversion, place, then, caller)
        }
    }
}
