ghost use Rattle.std.specs.Prelude.{◌≡◌, ◌+◌, ◌<◌, ℕ, true, false, length};
ghost use Rattle.candidate_state.specs.Picking.{begins_view, is_single, picking_step, question_step, single_step};
ghost use Rattle.candidate_state.specs.Picking.{single_char_step, single_back, page_step, page_char_step, page_back};
ghost use Rattle.candidate_state.specs.Picking.{next_step, choose_named, place_named, says_yes};

use crate::cands_do::{AfterChoose, CandsDo};
use crate::picking::{PAGE_SIZE, Picking, SINGLES};
use skk_text::{Key, Notice};

/// Reads a key in the candidate state. Takes no memory and constant time.
pub fn press_cands(picking: &mut Picking, key: Key) -> CandsDo
    ensures step { picking_step picking.old key ≡ record { picking = picking.new; done = result } }
    ensures chooses { (place : ℕ) (after : AfterChoose) → result ≡ CandsDo.Choose place after
        → place < length picking.new.shown }
{
    if picking.is_asked() {
        answer(picking, key)
    } else if picking.is_single() {
        press_single(picking, key)
    } else {
        press_page(picking, key)
    }
}

// Reads the answer to the question of a purge.
fn answer(picking: &mut Picking, key: Key) -> CandsDo
    ensures { question_step picking.old key ≡ record { picking = picking.new; done = result } }
{
    picking.end_question();
    if says_yes(key) {
        CandsDo::Purge
    } else {
        CandsDo::Stay(Notice::Empty)
    }
}

// Whether a key says yes to the question of a purge.
fn says_yes(key: Key) -> bool
    ensures { result ≡ says_yes key }
{
    matches!(key, Key::Char(b'y' | b'Y'))
}

// Reads a key where a single candidate is shown.
fn press_single(picking: &mut Picking, key: Key) -> CandsDo
    requires single { is_single picking.old.place ≡ true }
    requires unasked { picking.old.question ≡ false }
    ensures { single_step picking.old key ≡ record { picking = picking.new; done = result } }
{
    let place = picking.place();
    match key {
        Key::Char(c) => press_single_char(picking, c),
        Key::Cj => choose(place, AfterChoose::Nothing),
        Key::Cg => CandsDo::Back,
        Key::Bs => choose(place, AfterChoose::Delete),
        Key::Ret => choose(place, AfterChoose::Newline),
        Key::Tab | Key::Undo => CandsDo::Stay(Notice::Empty),
    }
}

// Reads a character where a single candidate is shown.
fn press_single_char(picking: &mut Picking, c: u8) -> CandsDo
    requires single { is_single picking.old.place ≡ true }
    requires unasked { picking.old.question ≡ false }
    ensures { single_char_step picking.old c ≡ record { picking = picking.new; done = result } }
{
    let place = picking.place();
    match c {
        b' ' => go_on(picking, 1),
        b'x' => go_back_single(picking),
        b'X' => {
            picking.ask();
            CandsDo::Stay(Notice::Empty)
        }
        b'>' => choose(place, AfterChoose::OpenSuffix),
        _ => choose(place, AfterChoose::Read(Key::Char(c))),
    }
}

// Goes back to the candidate before, or from the first one to the reading.
fn go_back_single(picking: &mut Picking) -> CandsDo
    requires single { is_single picking.old.place ≡ true }
    requires unasked { picking.old.question ≡ false }
    ensures { single_back picking.old picking.old.place ≡ record { picking = picking.new; done = result } }
{
    let place = picking.place();
    if place == 0 {
        return CandsDo::Back;
    }
    picking.go_to(place - 1);
    CandsDo::Stay(Notice::Empty)
}

// Reads a key on a page.
fn press_page(picking: &mut Picking, key: Key) -> CandsDo
    requires page { is_single picking.old.place ≡ false }
    requires view { begins_view picking.old.place ≡ true }
    requires unasked { picking.old.question ≡ false }
    ensures { page_step picking.old key ≡ record { picking = picking.new; done = result } }
{
    match key {
        Key::Char(c) => press_page_char(picking, c),
        Key::Cg => CandsDo::Back,
        Key::Bs => go_back_page(picking),
        Key::Cj | Key::Ret | Key::Tab | Key::Undo => CandsDo::Stay(Notice::Empty),
    }
}

// Reads a character on a page.
fn press_page_char(picking: &mut Picking, c: u8) -> CandsDo
    requires page { is_single picking.old.place ≡ false }
    requires view { begins_view picking.old.place ≡ true }
    requires unasked { picking.old.question ≡ false }
    ensures { page_char_step picking.old c (place_named c) ≡ record { picking = picking.new; done = result } }
{
    if let Some(place) = place_named(c) {
        return choose_named(picking, place);
    }
    match c {
        b' ' => go_on(picking, PAGE_SIZE),
        b'x' => go_back_page(picking),
        _ => CandsDo::Stay(Notice::Empty),
    }
}

// The place on a page that a character names.
fn place_named(c: u8) -> Option<usize>
    ensures { result ≡ place_named c }
{
    match c {
        b'a' => Some(0),
        b's' => Some(1),
        b'd' => Some(2),
        b'f' => Some(3),
        b'j' => Some(4),
        b'k' => Some(5),
        b'l' => Some(6),
        _ => None,
    }
}

// Goes back from a page: to the page before, or to the last single candidate.
fn go_back_page(picking: &mut Picking) -> CandsDo
    requires page { is_single picking.old.place ≡ false }
    requires unasked { picking.old.question ≡ false }
    ensures { page_back picking.old ≡ record { picking = picking.new; done = result } }
{
    let place = picking.place();
    if place == SINGLES {
        picking.go_to(SINGLES - 1);
    } else {
        picking.go_to(place - PAGE_SIZE);
    }
    CandsDo::Stay(Notice::Empty)
}

// Goes on by so many places, or opens a registration where no candidate is left there.
fn go_on(picking: &mut Picking, count: usize) -> CandsDo
    requires view { begins_view (picking.old.place + count) ≡ true }
    requires unasked { picking.old.question ≡ false }
    ensures { next_step picking.old (picking.old.place + count) ≡ record { picking = picking.new; done = result } }
{
    let place = picking.place();
    if count >= picking.shown_list().len() - place {
        return CandsDo::Register;
    }
    picking.go_to(place + count);
    CandsDo::Stay(Notice::Empty)
}

// Chooses the candidate so many places behind the first of the page, where there is one.
fn choose_named(picking: &Picking, count: usize) -> CandsDo
    ensures { choose_named picking.now (picking.now.place + count) ≡ record { picking = picking.now; done = result } }
{
    let place = picking.place();
    if count < picking.shown_list().len() - place {
        choose(place + count, AfterChoose::Nothing)
    } else {
        CandsDo::Stay(Notice::NoCandidate)
    }
}

// Chooses the candidate of a place, and does more then.
fn choose(place: usize, then: AfterChoose) -> CandsDo
    ensures { result ≡ CandsDo.Choose place (then) }
{
    CandsDo::Choose { place, then }
}
