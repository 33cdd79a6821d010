use crate::asking::replay;
use crate::escaping::push_printed;
use crate::frame::{Frame, OuterFrame};
use crate::pressing::press_key;
use crate::printing::{push_display, push_line, push_notice};
use crate::replay::Replayed;
use crate::session_notice::SessionNotice;
use romaji_rules::Rules;
use skk_calls::{Answers, Call, Caller};
use skk_text::{Key, Memory, Mode, Notice, Text};
use std::alloc::Global;
use std::marker::Model;

/// A typist's session: a stack of frames, of which the innermost takes the keys.
pub struct Session {
    pub(crate) typist: u16,
    pub(crate) book: u16,
    pub(crate) frame: Frame,
    // The frames outside registrations, each inside the one before it.
    pub(crate) outer: Vec<OuterFrame>,
    pub(crate) notice: SessionNotice,
}

// Written out, so that whatever drops a session makes one call:
// a proof of it need not go through all that a session holds.
impl Drop for Session {
    fn drop(self) {
        let Session {
            typist: _,
            book: _,
            frame: _,
            outer,
            notice: _,
        } = self;
        drop(outer);
    }
}

impl Model for Session {
    ghost use Rattle.std.specs.Prelude.{◌≡◌, true};
    ghost use Rattle.session_machine.specs.Session.{Session, may_learn_in};

    ghost Value = { Session };

    ghost view = { λ s.
        record { typist = s.typist; book = s.book; frame = s.frame; outer = s.outer.items; notice = s.notice } };

    ghost invariant = { λ s. may_learn_in s.typist s.book ≡ true };
}

impl Session {
    ghost use Rattle.std.specs.Prelude.{◌≡◌, ◌⊎◌, ◌++◌, true, IfOk, IfSome, OnOk};
    ghost use Rattle.std.specs.Io.{StartsWith};
    ghost use Rattle.skk_calls.specs.Dictionary.{is_fit};
    ghost use Rattle.skk_calls.specs.Interactions.{end_of};
    ghost use Rattle.session_machine.specs.Display.{display, notice, line, text_printed};
    ghost use Rattle.session_machine.specs.NextAsked.{may_answer_all, next_asked};
    ghost use Rattle.session_machine.specs.Pressed.{pressed, all_pressed};
    ghost use Rattle.session_machine.specs.Said.{Says, after, spoken};
    ghost use Rattle.session_machine.specs.Session.{new_session, text_of};

    /// A new session of a typist, who learns in a book: hiragana mode, and an empty text. Takes no memory.
    pub fn new(alloc: Global, typist: u16, book: u16) -> Session
        requires { (book ≡ 0) ⊎ (book ≡ typist) }
        ensures { result ≡ new_session typist book }
    {
        Session {
            typist,
            book,
            frame: Frame::new(alloc),
            outer: Vec::new(alloc),
            notice: SessionNotice::Step(Notice::Empty),
        }
    }

    /// Presses a key, and asks the caller what the key asks. Where memory is out the session is gone, and
    /// what was asked is the first of what the key asks.
    pub fn press<C: Caller>(
        self,
        alloc: Global,
        rules: &Rules,
        key: Key,
        caller: &mut C,
    ) -> Result<Session, Memory>
        ensures { Says (pressed rules.now self key) result
            (spoken C.number C.said caller.old) (spoken C.number C.said caller.new) }
    {
        let mut session = self;
        press_key(&mut session, alloc, rules, key, caller)?;
        Ok(session)
    }

    /// Presses the keys in order where the session stands, and asks the caller what they ask. Where memory is out
    /// nothing is said of the session, and what was asked is the first of what the keys ask.
    pub fn press_keys<C: Caller>(
        &mut self,
        alloc: Global,
        rules: &Rules,
        keys: &[Key],
        caller: &mut C,
    ) -> Result<(), Memory>
        ensures { Says (all_pressed rules.now self.old keys.now) (after result self.new)
            (spoken C.number C.said caller.old) (spoken C.number C.said caller.new) }
    {
        for key in keys {
            press_key(self, alloc, rules, *key, caller)?;
        }
        Ok(())
    }

    /// Presses the keys in order. Where memory is out the session is gone, and
    /// what was asked is the first of what the keys ask.
    pub fn play<C: Caller>(
        self,
        alloc: Global,
        rules: &Rules,
        keys: &[Key],
        caller: &mut C,
    ) -> Result<Session, Memory>
        ensures { Says (all_pressed rules.now self keys.now) result
            (spoken C.number C.said caller.old) (spoken C.number C.said caller.new) }
    {
        let mut session = self;
        session.press_keys(alloc, rules, keys, caller)?;
        Ok(session)
    }

    /// The call that a key asks next where the calls before it got these answers, one after another: none where it asks
    /// none. The session stays as it is.
    pub fn next_call(
        &self,
        alloc: Global,
        rules: &Rules,
        key: Key,
        answers: &Answers,
    ) -> Result<Option<Call>, Memory>
        requires { may_answer_all (pressed rules.now self.now key) answers.now ≡ true }
        ensures next { IfOk result (λ call. call ≡ next_asked (pressed rules.now self.now key) answers.now) }
        ensures fit { IfOk result (λ call. IfSome call (λ c. is_fit c ≡ true)) }
    {
        let Replayed { next, .. } = replay(self, alloc, rules, key, answers)?;
        Ok(next)
    }

    /// The session after a key, where just these answers, one after another, lead to its end. The session stays as it
    /// is.
    pub fn end_by(
        &self,
        alloc: Global,
        rules: &Rules,
        key: Key,
        answers: &Answers,
    ) -> Result<Option<Session>, Memory>
        requires { may_answer_all (pressed rules.now self.now key) answers.now ≡ true }
        ensures { IfOk result (λ end. end ≡ end_of (pressed rules.now self.now key) answers.now) }
    {
        let Replayed { next, end } = replay(self, alloc, rules, key, answers)?;
        drop(next);
        Ok(end)
    }

    /// The mode of the frame that takes the keys.
    pub fn mode(&self) -> Mode
        ensures { result ≡ self.now.frame.mode }
    {
        self.frame.mode
    }

    /// The typist's text: that of the outermost frame.
    pub fn text(&self) -> &Text
        ensures { result.now ≡ text_of self.now }
    {
        if self.outer.is_empty() {
            return &self.frame.text;
        }
        &self.outer[0].text
    }

    /// What is shown of the session, as it is printed: the last 64 characters of the text of the frame that takes the
    /// keys, and its state. Takes time in what is shown, not in the text's length nor in the number of candidates.
    pub fn display(&self, alloc: Global) -> Result<Text, Memory>
        ensures { IfOk result (λ text. text ≡ display self.now) }
    {
        let mut text = Text::new(alloc);
        push_display(alloc, &mut text, self)?;
        Ok(text)
    }

    /// What the last key tells the typist, as it is printed: its notice, or where it gave none the note of a single
    /// candidate behind a `;`.
    pub fn notice(&self, alloc: Global) -> Result<Text, Memory>
        ensures { IfOk result (λ text. text ≡ notice self.now) }
    {
        let mut text = Text::new(alloc);
        push_notice(&mut text, self)?;
        Ok(text)
    }

    /// Adds the session's line behind a page: the indicator of the mode, the display and the notice, with a TAB between
    /// two, and LF. Takes time in what is shown.
    pub fn push_line(&self, alloc: Global, page: &mut Text) -> Result<(), Memory>
        ensures ok { OnOk result (page.new ≡ page.old ++ line self.now) }
        ensures kept { StartsWith page.new page.old }
    {
        push_line(alloc, page, self)
    }

    /// Adds the typist's whole text behind a page, as it is printed.
    pub fn push_text(&self, page: &mut Text) -> Result<(), Memory>
        ensures ok { OnOk result (page.new ≡ page.old ++ text_printed self.now) }
        ensures kept { StartsWith page.new page.old }
    {
        push_printed(page, self.text().as_str())
    }
}
