ghost use Rattle.std.specs.Prelude.{◌≡◌, ◌==◌, nat_lt, false};
ghost use Rattle.std.specs.Option.{option_map_or};
ghost use Rattle.std.specs.Str.{chars};
ghost use Rattle.session_machine.specs.Session.{fits_behind, without_chars};

use crate::frame::{Choice, Frame, FrameState};
use crate::session::Session;
use crate::session_notice::SessionNotice;
use kana_input::Insertion;
use romaji_rules::Pending;
use skk_text::{Memory, Notice, Text};
use std::mem;

/// The most bytes of a frame's text.
const TEXT_LIMIT: usize = 1_048_576;

impl Session {
    ghost use Rattle.std.specs.Prelude.{◌≡◌, None, MatchOption, OnOk};
    ghost use Rattle.std.specs.Str.{chars};
    ghost use Rattle.skk_text.specs.Text.{byte_len};
    ghost use Rattle.session_machine.specs.Session.{before_key, choice_at, has_room, noting, shortened, telling};
    ghost use Rattle.session_machine.specs.declared.frame.FrameState.TheVariants.{Plain};
    ghost use Rattle.session_machine.specs.Session.{with_choice, with_frame, with_insertion, with_state};

    // Takes the state of the frame out, which is plain then, and the notice of the key before away.
    pub(crate) fn take_state(&mut self) -> FrameState
        ensures state { result ≡ self.old.frame.state }
        ensures left { self.new ≡ before_key self.old }
    {
        self.notice = SessionNotice::Step(Notice::Empty);
        mem::replace(&mut self.frame.state, FrameState::Plain(Pending::new()))
    }

    // Takes the letters that wait out of a frame in the plain state, and the notice of the key before away: what
    // `take_state` does, without a move of the whole state.
    pub(crate) fn take_pending(&mut self) -> Option<Pending>
        ensures { MatchOption result (self.new ≡ self.old)
            (λ pending. (self.old.frame.state ≡ Plain pending) × (self.new ≡ before_key self.old)) }
    {
        let FrameState::Plain(pending) = &mut self.frame.state else {
            return None;
        };
        let taken = mem::replace(pending, Pending::new());
        self.notice = SessionNotice::Step(Notice::Empty);
        Some(taken)
    }

    // Puts letters that wait into the frame, which is in the plain state then.
    pub(crate) fn put_pending(&mut self, pending: Pending)
        ensures { self.new ≡ with_state self.old (Plain pending) }
    {
        match &mut self.frame.state {
            FrameState::Plain(waiting) => *waiting = pending,
            state => drop(mem::replace(state, FrameState::Plain(pending))),
        }
    }

    // Puts another frame into the place of the one that takes the keys.
    pub(crate) fn put_frame(&mut self, frame: Frame)
        ensures { self.new ≡ with_frame self.old frame }
    {
        drop(mem::replace(&mut self.frame, frame));
    }

    // Puts another state into the frame.
    pub(crate) fn put_state(&mut self, state: FrameState)
        ensures { self.new ≡ with_state self.old state }
    {
        drop(mem::replace(&mut self.frame.state, state));
    }

    // Notes what a step tells, where it tells something.
    pub(crate) fn note(&mut self, notice: Notice)
        ensures { self.new ≡ noting self.old notice }
    {
        if notice != Notice::Empty {
            self.notice = SessionNotice::Step(notice);
        }
    }

    // Tells what an answer tells, where it tells something.
    pub(crate) fn tell(&mut self, notice: SessionNotice)
        ensures { self.new ≡ telling self.old notice }
    {
        match notice {
            SessionNotice::Step(notice) => self.note(notice),
            notice => self.notice = notice,
        }
    }

    // Takes the last character of the frame's text off. What was chosen last is given up where the text gets shorter
    // than it was behind it.
    pub(crate) fn shorten(&mut self)
        ensures { self.new ≡ shortened self.old }
    {
        self.frame.text.delete_last();
        let bytes = self.frame.text.byte_len();
        if is_behind(&self.frame.last_choice, bytes) {
            self.frame.last_choice = None;
        }
    }

    // Takes what was chosen last out of the frame, where the text is as long as it was behind it.
    pub(crate) fn take_choice(&mut self) -> Option<Choice>
        ensures choice { result ≡ choice_at (byte_len self.old.frame.text) self.old.frame.last_choice }
        ensures left { MatchOption result (self.new ≡ self.old) (λ _. self.new ≡ with_choice self.old None) }
    {
        let bytes = self.frame.text.byte_len();
        if ends_at(&self.frame.last_choice, bytes) {
            self.frame.last_choice.take()
        } else {
            None
        }
    }

    // Whether a piece fits behind the text of the frame.
    pub(crate) fn has_room(&self, piece: &str) -> bool
        ensures { result ≡ has_room self.now (chars piece.now) }
    {
        fits_behind(&self.frame.text, piece)
    }

    // Whether what a key of the plain state inserts fits behind the text of the frame.
    fn has_plain_room(&self, insert: &Insertion<'_>) -> bool
        ensures { result ≡ has_room self.now insert.now }
    {
        match TEXT_LIMIT.checked_sub(self.frame.text.byte_len()) {
            Some(room) => insert.fits_in(room),
            None => false,
        }
    }

    // Inserts what a key of the plain state inserts, or notes that it does not fit.
    pub(crate) fn insert_plain(&mut self, insert: &Insertion<'_>) -> Result<(), Memory>
        ensures { OnOk result (self.new ≡ with_insertion self.old insert.now) }
    {
        if !self.has_plain_room(insert) {
            self.note(Notice::Limit);
            return Ok(());
        }
        insert.push_to(&mut self.frame.text)
    }

    // Inserts a piece at the end of the frame's text, or notes that it does not fit.
    pub(crate) fn insert(&mut self, piece: &str) -> Result<(), Memory>
        ensures { OnOk result (self.new ≡ with_insertion self.old (chars piece.now)) }
    {
        if !self.has_room(piece) {
            self.note(Notice::Limit);
            return Ok(());
        }
        self.frame.text.push_str(piece)
    }
}

// Whether a piece fits behind a text.
pub(crate) fn fits_behind(text: &Text, piece: &str) -> bool
    ensures { result ≡ fits_behind text.now (chars piece.now) }
{
    piece.len() <= TEXT_LIMIT && text.byte_len() <= TEXT_LIMIT - piece.len()
}

// Whether a text of so many bytes is shorter than it was behind a choice.
fn is_behind(choice: &Option<Choice>, bytes: usize) -> bool
    ensures { result ≡ option_map_or (λ c. nat_lt bytes c.end) choice.now false }
{
    match choice {
        Some(choice) => bytes < choice.end,
        None => false,
    }
}

// Whether a text of so many bytes is as long as it was behind a choice.
fn ends_at(choice: &Option<Choice>, bytes: usize) -> bool
    ensures { result ≡ option_map_or (λ c. bytes == c.end) choice.now false }
{
    match choice {
        Some(choice) => bytes == choice.end,
        None => false,
    }
}

// Takes so many characters off the end of a text.
pub(crate) fn delete_chars(text: &mut Text, count: usize)
    ensures { text.new ≡ without_chars count text.old }
{
    for _ in 0..count {
        text.delete_last();
    }
}
