#![tactic(auto, using(crate::proofs::Forms::kept))]

ghost use Rattle.std.specs.Prelude.{◌≡◌, ◌+◌, ◌-◌, ◌<◌, ◌⊎◌, [], ◌∷◌, ◌++◌, OnOk, drop, length};
ghost use Rattle.std.specs.List.{repeat};
ghost use Rattle.std.specs.Option.{option_map_or};
ghost use Rattle.std.specs.Fmt.{decimal};
ghost use Rattle.std.specs.Io.{StartsWith};
ghost use Rattle.std.specs.Str.{chars};
ghost use Rattle.skk_text.specs.Characters.{code};
ghost use Rattle.skk_text.specs.Modes.{in_kana_of};
ghost use Rattle.skk_calls.specs.declared.answer.Refusal.TheVariants as refusals;
ghost use Rattle.candidate_state.specs.Picking.{page_size};
ghost use Rattle.session_machine.specs.Display.{display, first_note, first_text, indicator, lettered, line, note_text};
ghost use Rattle.session_machine.specs.Display.{notice, okuri_shown, page_letters, page_shown, picking_shown};
ghost use Rattle.session_machine.specs.Display.{printed_form, prompt, prompt_name, prompt_text, question_shown};
ghost use Rattle.session_machine.specs.Display.{reading_asked, reading_shown, refusal_text, single_shown, state_note};
ghost use Rattle.session_machine.specs.Display.{state_shown, step_text};
ghost use Rattle.session_machine.specs.ReadingParts.{kana_begun};
ghost use Rattle.session_machine.specs.Registrations.{innermost};

use crate::escaping::push_printed;
use crate::frame::{Conversion, FrameState, OuterFrame, Waiting};
use crate::kana::in_kana_of;
use crate::reading_parts::registered_text;
use crate::session::Session;
use crate::session_notice::SessionNotice;
use candidate_state::{Picking, Shown, ShownList};
use reading_state::Reading;
use romaji_rules::Pending;
use skk_calls::Refusal;
use skk_text::{Memory, Mode, Notice, Text, to_katakana};
use std::alloc::Global;

/// The most characters of a text that are shown.
const SHOWN: usize = 64;

/// The letters that choose the candidates of a page, in order.
const LETTERS: [char; 7] = ['A', 'S', 'D', 'F', 'J', 'K', 'L'];

// Adds the line of a session behind a page.
pub(crate) fn push_line(alloc: Global, page: &mut Text, session: &Session) -> Result<(), Memory>
    ensures ok { OnOk result (page.new ≡ page.old ++ line session.now) }
    ensures kept { StartsWith page.new page.old }
{
    page.push_str(indicator(session.frame.mode))?;
    page.push('\t')?;
    push_display(alloc, page, session)?;
    page.push('\t')?;
    push_notice(page, session)?;
    page.push('\n')
}

// Adds the display of a session.
pub(crate) fn push_display(alloc: Global, page: &mut Text, session: &Session) -> Result<(), Memory>
    ensures ok { OnOk result (page.new ≡ page.old ++ display session.now) }
    ensures kept { StartsWith page.new page.old }
{
    push_prompt(alloc, page, &session.outer)?;
    let frame = &session.frame;
    push_printed(page, frame.text.last(SHOWN))?;
    push_state(alloc, page, frame.mode, &frame.state)
}

// Adds the prompt of the innermost registration or note line, where there is one.
fn push_prompt(alloc: Global, page: &mut Text, outer: &[OuterFrame]) -> Result<(), Memory>
    ensures ok { OnOk result (page.new ≡ page.old
        ++ printed_form (option_map_or (prompt (length outer.now)) (innermost outer.now) [])) }
    ensures kept { StartsWith page.new page.old }
{
    let Some(frame) = outer.last() else {
        return Ok(());
    };
    push_brackets(alloc, page, "[", outer.len())?;
    page.push_str(prompt_name(&frame.waiting))?;
    push_brackets(alloc, page, "]", outer.len())?;
    page.push(' ')?;
    push_prompt_text(alloc, page, frame.mode, &frame.waiting)?;
    page.push_str(": ")
}

// The name of a line that is typed inside a frame.
#[tactic(auto, using(crate::proofs::Words::words))]
fn prompt_name(waiting: &Waiting) -> &'static str
    ensures { chars result.now ≡ printed_form (prompt_name waiting.now) }
{
    match waiting {
        Waiting::Reading(_) | Waiting::Picking(_) => "辞書登録",
        Waiting::Note(_) => "注釈登録",
    }
}

// Adds what a line that is typed inside a frame is for.
fn push_prompt_text(
    alloc: Global,
    page: &mut Text,
    mode: Mode,
    waiting: &Waiting,
) -> Result<(), Memory>
    ensures ok { OnOk result (page.new ≡ page.old ++ printed_form (prompt_text mode waiting.now)) }
    ensures kept { StartsWith page.new page.old }
{
    match waiting {
        Waiting::Reading(_) | Waiting::Picking(_) => {
            push_reading_asked(alloc, page, mode, waiting.reading())
        }
        Waiting::Note(conversion) => push_printed(
            page,
            picked_cand(&conversion.picking).text.as_str(),
        ),
    }
}

// Adds the reading that a word is waited for, as it is learnt, with its okurigana.
fn push_reading_asked(
    alloc: Global,
    page: &mut Text,
    mode: Mode,
    reading: &Reading,
) -> Result<(), Memory>
    ensures ok { OnOk result (page.new ≡ page.old ++ printed_form (reading_asked mode reading.now)) }
    ensures kept { StartsWith page.new page.old }
{
    push_kana(alloc, page, mode, &registered_text(alloc, reading)?)?;
    push_okuri(alloc, page, mode, reading)
}

// Adds a bracket so many times.
#[tactic(auto, using(crate::proofs::Forms::kept, crate::proofs::Forms::chars_repeat))]
fn push_brackets(alloc: Global, page: &mut Text, bracket: &str, times: usize) -> Result<(), Memory>
    ensures ok { OnOk result (page.new ≡ page.old ++ printed_form (repeat times (chars bracket.now))) }
    ensures kept { StartsWith page.new page.old }
{
    push_printed(page, bracket.repeat(alloc, times)?.as_str())
}

// Adds what is shown of a state.
fn push_state(alloc: Global, page: &mut Text, mode: Mode, state: &FrameState) -> Result<(), Memory>
    ensures ok { OnOk result (page.new ≡ page.old ++ printed_form (state_shown mode state.now)) }
    ensures kept { StartsWith page.new page.old }
{
    match state {
        FrameState::Plain(pending) => push_pending(page, pending),
        FrameState::Reading(reading) => push_reading(alloc, page, mode, reading),
        FrameState::Picking(conversion) => push_picking(alloc, page, mode, conversion),
    }
}

// Adds an open reading.
fn push_reading(alloc: Global, page: &mut Text, mode: Mode, reading: &Reading) -> Result<(), Memory>
    ensures ok { OnOk result (page.new ≡ page.old ++ printed_form (reading_shown mode reading.now)) }
    ensures kept { StartsWith page.new page.old }
{
    page.push('▽')?;
    push_kana(alloc, page, mode, reading.text())?;
    push_okuri(alloc, page, mode, reading)?;
    push_pending(page, reading.pending())
}

// Adds the letters that wait for more.
#[tactic(auto, using(crate::proofs::Forms::kept, crate::proofs::Forms::ascii))]
fn push_pending(page: &mut Text, pending: &Pending) -> Result<(), Memory>
    ensures ok { OnOk result (page.new ≡ page.old ++ printed_form pending.now) }
    ensures kept { StartsWith page.new page.old }
{
    push_printed(page, pending.as_str())
}

// Adds the okurigana of a reading behind a star, where one was begun.
fn push_okuri(alloc: Global, page: &mut Text, mode: Mode, reading: &Reading) -> Result<(), Memory>
    ensures ok { OnOk result (page.new ≡ page.old ++ printed_form (okuri_shown mode reading.now.okuri)) }
    ensures kept { StartsWith page.new page.old }
{
    match reading.begun_text() {
        Some(okuri) => {
            page.push('*')?;
            push_kana(alloc, page, mode, okuri)
        }
        None => Ok(()),
    }
}

// Adds the kana of an okurigana, where one was begun.
fn push_begun(alloc: Global, page: &mut Text, mode: Mode, reading: &Reading) -> Result<(), Memory>
    ensures ok { OnOk result (page.new ≡ page.old ++ printed_form (in_kana_of mode (kana_begun reading.now.okuri))) }
    ensures kept { StartsWith page.new page.old }
{
    match reading.begun_text() {
        Some(okuri) => push_kana(alloc, page, mode, okuri),
        None => Ok(()),
    }
}

// Adds a text in the kana of a mode.
fn push_kana(alloc: Global, page: &mut Text, mode: Mode, text: &Text) -> Result<(), Memory>
    ensures ok { OnOk result (page.new ≡ page.old ++ printed_form (in_kana_of mode text.now)) }
    ensures kept { StartsWith page.new page.old }
{
    match mode {
        Mode::Kata => push_printed(page, to_katakana(alloc, text)?.as_str()),
        Mode::Hira | Mode::Ascii | Mode::Wide => push_printed(page, text.as_str()),
    }
}

// Adds the candidates that are shown.
fn push_picking(
    alloc: Global,
    page: &mut Text,
    mode: Mode,
    conversion: &Conversion,
) -> Result<(), Memory>
    ensures ok { OnOk result (page.new ≡ page.old ++ printed_form (picking_shown mode conversion.now)) }
    ensures kept { StartsWith page.new page.old }
{
    if conversion.picking.is_single() {
        push_single(alloc, page, mode, conversion)
    } else {
        push_page(page, &conversion.picking)
    }
}

// Adds a single candidate.
fn push_single(
    alloc: Global,
    page: &mut Text,
    mode: Mode,
    conversion: &Conversion,
) -> Result<(), Memory>
    ensures ok { OnOk result (page.new ≡ page.old ++ printed_form (single_shown mode conversion.now)) }
    ensures kept { StartsWith page.new page.old }
{
    page.push('▼')?;
    push_printed(page, picked_cand(&conversion.picking).text.as_str())?;
    push_begun(alloc, page, mode, conversion.reading.reading())?;
    push_question(page, conversion.picking.is_asked())
}

// The candidate that is picked.
#[tactic(auto, using(crate::proofs::Forms::first_shown))]
fn picked_cand(picking: &Picking) -> Shown<'_>
    ensures text { first_text (drop picking.now.place picking.now.shown) ≡ result.text.now }
    ensures note { first_note (drop picking.now.place picking.now.shown) ≡ result.cand.now.note }
{
    picking.shown_list().at(picking.place())
}

// Adds the question of a purge, where it is asked.
#[tactic(auto, using(crate::proofs::Forms::kept, crate::proofs::Words::words))]
fn push_question(page: &mut Text, asked: bool) -> Result<(), Memory>
    ensures ok { OnOk result (page.new ≡ page.old ++ printed_form (question_shown asked)) }
    ensures kept { StartsWith page.new page.old }
{
    if asked {
        page.push_str("[削除 Y/N]")
    } else {
        Ok(())
    }
}

// Adds a page of candidates.
fn push_page(page: &mut Text, picking: &Picking) -> Result<(), Memory>
    ensures ok { OnOk result (page.new ≡ page.old ++ printed_form (page_shown picking.now)) }
    ensures kept { StartsWith page.new page.old }
{
    page.push_str("▼[")?;
    push_lettered(page, picking.shown_list(), picking.place())?;
    page.push_str("残り ")?;
    push_count_behind(page, picking)?;
    page.push(']')
}

// Adds how many candidates come behind a page.
fn push_count_behind(page: &mut Text, picking: &Picking) -> Result<(), Memory>
    ensures ok { OnOk result (page.new
        ≡ page.old ++ printed_form (decimal (length picking.now.shown - (picking.now.place + page_size)))) }
    ensures kept { StartsWith page.new page.old }
{
    let count = (picking.shown_list().len() - picking.place()).saturating_sub(LETTERS.len());
    push_number(page, count as u64)
}

// Adds the candidates from a place on behind their letters, as far as there are both.
fn push_lettered(page: &mut Text, shown: &ShownList, first: usize) -> Result<(), Memory>
    requires { first < length shown.now }
    ensures ok { OnOk result (page.new ≡ page.old ++ printed_form (lettered page_letters (drop first shown.now))) }
    ensures kept { StartsWith page.new page.old }
{
    for (count, letter) in LETTERS.iter().enumerate() {
        if count >= shown.len() - first {
            return Ok(());
        }
        push_behind_letter(page, *letter, shown.at(first + count).text)?;
    }
    Ok(())
}

// Adds the text of a candidate behind its letter.
fn push_behind_letter(page: &mut Text, letter: char, text: &Text) -> Result<(), Memory>
    ensures ok { OnOk result (page.new ≡ page.old ++ letter ∷ code ":" ∷ printed_form text.now ++ code " " ∷ []) }
    ensures kept { StartsWith page.new page.old }
{
    page.push(letter)?;
    page.push(':')?;
    push_printed(page, text.as_str())?;
    page.push(' ')
}

// Adds the notice of a session.
#[tactic(auto, using(crate::proofs::Forms::kept, crate::proofs::Words::words))]
pub(crate) fn push_notice(page: &mut Text, session: &Session) -> Result<(), Memory>
    ensures ok { OnOk result (page.new ≡ page.old ++ notice session.now) }
    ensures kept { StartsWith page.new page.old }
{
    match session.notice {
        SessionNotice::Step(Notice::Empty) => push_state_note(page, &session.frame.state),
        SessionNotice::Step(notice) => page.push_str(step_text(notice)),
        SessionNotice::Refused(refusal) => push_refusal(page, refusal),
        SessionNotice::Purged => page.push_str("purged"),
        SessionNotice::Annotated => page.push_str("annotated"),
        SessionNotice::Unchanged => page.push_str("unchanged"),
        SessionNotice::Undone => page.push_str("undone"),
        SessionNotice::Overtaken(stamp) => push_numbered(page, "overtaken ", stamp),
        SessionNotice::TooBig(length) => push_numbered(page, "too-big ", length),
        SessionNotice::StampsEnd => page.push_str("stamps-end"),
        SessionNotice::Depth => page.push_str("depth 8"),
        SessionNotice::BadNote => page.push_str("note"),
    }
}

// Adds a word that ends in a space, and a number behind it.
fn push_numbered(page: &mut Text, word: &str, number: u64) -> Result<(), Memory>
    requires { printed_form (chars word.now) ≡ chars word.now }
    ensures ok { OnOk result (page.new ≡ page.old ++ printed_form (chars word.now ++ decimal number)) }
    ensures kept { StartsWith page.new page.old }
{
    page.push_str(word)?;
    push_number(page, number)
}

// Adds the note of a state: that of a single candidate.
fn push_state_note(page: &mut Text, state: &FrameState) -> Result<(), Memory>
    ensures ok { OnOk result (page.new ≡ page.old ++ printed_form (state_note state.now)) }
    ensures kept { StartsWith page.new page.old }
{
    match state {
        FrameState::Picking(conversion) if conversion.picking.is_single() => push_note(
            page,
            picked_cand(&conversion.picking).cand.note(),
        ),
        FrameState::Plain(_) | FrameState::Reading(_) | FrameState::Picking(_) => Ok(()),
    }
}

// Adds a note behind a semicolon, where there is one.
fn push_note(page: &mut Text, note: &Text) -> Result<(), Memory>
    ensures ok { OnOk result (page.new ≡ page.old ++ printed_form (note_text note.now)) }
    ensures kept { StartsWith page.new page.old }
{
    if note.is_empty() {
        return Ok(());
    }
    page.push(';')?;
    push_printed(page, note.as_str())
}

// Adds the text of a refusal.
#[tactic(auto, using(crate::proofs::Forms::kept, crate::proofs::Words::words))]
fn push_refusal(page: &mut Text, refusal: Refusal) -> Result<(), Memory>
    ensures ok { OnOk result (page.new ≡ page.old ++ printed_form (refusal_text refusal)) }
    ensures kept { StartsWith page.new page.old }
{
    match refusal {
        Refusal::Memory => page.push_str("refused memory"),
        Refusal::Disk => page.push_str("refused disk"),
        Refusal::JournalFull { end, need, limit } => push_full(page, end, need, limit),
    }
}

// Adds the text of a refusal because of a full journal.
fn push_full(page: &mut Text, end: u64, need: u64, limit: u64) -> Result<(), Memory>
    ensures ok { OnOk result (page.new
        ≡ page.old ++ printed_form (refusal_text (refusals.JournalFull end need limit))) }
    ensures kept { StartsWith page.new page.old }
{
    page.push_str("refused full ")?;
    push_number(page, end)?;
    page.push(' ')?;
    push_number(page, need)?;
    page.push(' ')?;
    push_number(page, limit)
}

// Adds a number in decimal, as it is printed.
#[tactic(auto, using(crate::proofs::Forms::kept, crate::proofs::Forms::numbers))]
fn push_number(page: &mut Text, number: u64) -> Result<(), Memory>
    ensures ok { OnOk result (page.new ≡ page.old ++ printed_form (decimal number)) }
    ensures kept { StartsWith page.new page.old }
{
    page.push_number(number)
}

// A mode's indicator.
#[tactic(auto, using(crate::proofs::Words::words))]
fn indicator(mode: Mode) -> &'static str
    ensures { chars result.now ≡ indicator mode }
{
    match mode {
        Mode::Hira => "かな",
        Mode::Kata => "カナ",
        Mode::Ascii => "SKK",
        Mode::Wide => "全英",
    }
}

// The text of a step's notice.
#[tactic(auto, using(crate::proofs::Words::words))]
fn step_text(notice: Notice) -> &'static str
    ensures { chars result.now ≡ printed_form (step_text notice) }
{
    match notice {
        Notice::Empty => "",
        Notice::Limit => "limit",
        Notice::Reading => "reading",
        Notice::NoMore => "no-more",
        Notice::NoCompletion => "no-completion",
        Notice::NoUndo => "no-undo",
        Notice::NoCandidate => "no-candidate",
    }
}
