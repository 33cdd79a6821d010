ghost use Rattle.std.specs.Prelude.{◌≡◌, Some, true, false, IfOk};
ghost use Rattle.std.specs.Option.{option_map_or};
ghost use Rattle.std.specs.Str.{chars};
ghost use Rattle.skk_text.specs.Lists.{is_empty};
ghost use Rattle.skk_calls.specs.Rows.{is_note, is_note_char};
ghost use Rattle.skk_calls.specs.declared.call.Call.TheVariants as calls;
ghost use Rattle.session_machine.specs.Notes.{note_fits, noted, opens_note};
ghost use Rattle.session_machine.specs.Registrations.{annotated, innermost, note_ended, return_effect};

use crate::answered::notice_of;
use crate::frame::{Conversion, OuterFrame};
use crate::returning::Return;
use crate::session::Session;
use crate::session_notice::SessionNotice;
use candidate_state::Picking;
use skk_calls::{Answer, Call, Cand, RowKey, WORD_LIMIT};
use skk_text::{Copies, Key, Memory, Notice, Text};
use std::alloc::Global;

// Whether a key opens a note line.
pub(crate) fn opens_note(picking: &Picking, key: Key) -> bool
    ensures { result ≡ opens_note picking.now key }
{
    key == Key::Char(b'^') && picking.is_single() && !picking.is_asked()
}

// What a return does in a note line whose text is not empty, and which stands over these candidates.
pub(crate) fn note_return(
    alloc: Global,
    session: &Session,
    frame: &OuterFrame,
    conversion: &Conversion,
) -> Result<Return, Memory>
    requires inner { innermost session.now.outer ≡ Some frame.now }
    requires text { is_empty session.now.frame.text ≡ false }
    ensures { IfOk result (λ done. note_ended session.now frame.now conversion.now ≡ return_effect session.now done) }
{
    let text = &session.frame.text;
    if !is_note(text.as_str()) {
        return Ok(Return::Stay(SessionNotice::BadNote));
    }
    let picking = &conversion.picking;
    let shown = picking.shown_list().at(picking.place());
    if !note_fits(shown.cand, text) {
        return Ok(Return::Stay(SessionNotice::Step(Notice::Limit)));
    }
    let cand = noted(alloc, shown.cand, text)?;
    let call = annotation(alloc, session.book, shown.key, &cand)?;
    Ok(Return::Annotate { call, cand })
}

// Whether a note may hold a text.
fn is_note(text: &str) -> bool
    ensures { result ≡ is_note (chars text.now) }
{
    text.chars().all(is_note_char)
}

// Whether a note may hold a character.
fn is_note_char(c: char) -> bool
    ensures { result ≡ is_note_char c }
{
    c != '/' && c != '\r' && c != '\n'
}

// Whether the word of a candidate, the `*` and a text are not too long together.
fn note_fits(found: &Cand, text: &Text) -> bool
    ensures { result ≡ note_fits found.now text.now }
{
    text.byte_len() < WORD_LIMIT - found.word().byte_len()
}

// A candidate with its word as it was found, and a text behind a `*` for its note.
#[tactic(auto, using(crate::proofs::NoteParts::noted_valid))]
fn noted(alloc: Global, found: &Cand, text: &Text) -> Result<Cand, Memory>
    requires note { is_note text.now ≡ true }
    requires fits { note_fits found.now text.now ≡ true }
    ensures { IfOk result (λ cand. cand ≡ noted found.now text.now) }
{
    let mut note = Text::new(alloc);
    note.push('*')?;
    note.push_str(text.as_str())?;
    Ok(Cand::of_parts(found.word().copy(alloc)?, note))
}

// The call that gives a candidate of a key its note.
fn annotation(alloc: Global, book: u16, key: &RowKey, cand: &Cand) -> Result<Call, Memory>
    ensures { IfOk result (λ call. call ≡ calls.Annotate book key.now cand.now) }
{
    Ok(Call::Annotate {
        book,
        key: key.copy(alloc)?,
        cand: cand.copy(alloc)?,
    })
}

// Takes the answer to the annotation of a candidate: its candidates stand again where the note line stood.
pub(crate) fn take_annotation(session: &mut Session, alloc: Global, cand: Cand, answer: &Answer)
    ensures { session.new ≡ option_map_or (λ frame. annotated session.old frame cand answer.now)
        (innermost session.old.outer) session.old }
{
    let Some(frame) = session.outer.pop() else {
        return;
    };
    session.put_frame(frame.with_note(alloc, cand, answer));
    session.notice = notice_of(answer);
}
