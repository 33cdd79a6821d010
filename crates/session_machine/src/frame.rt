ghost use Rattle.std.specs.Prelude.{◌≡◌, ◌≢◌, [], IfOk};
ghost use Rattle.session_machine.specs.Notes.{after_annotation};
ghost use Rattle.session_machine.specs.Registrations.{as_before, outside, state_noted, waiting_reading, waiting_state};
ghost use Rattle.session_machine.specs.Registrations.{with_word};
ghost use Rattle.session_machine.specs.Session.{new_frame};

use crate::answered::says_annotated;
use crate::headword::Headword;
use candidate_state::Picking;
use reading_state::Reading;
use romaji_rules::Pending;
use skk_calls::{Answer, Cand, Learned};
use skk_text::{Memory, Mode, Text};
use std::alloc::Global;

/// A text that keys are typed into: the typist's line, a word that is being registered, or a note.
pub struct Frame {
    pub text: Text,
    pub mode: Mode,
    pub state: FrameState,
    /// What was chosen last, while it can be taken back.
    pub last_choice: Option<Choice>,
}

// Written out, as are those of the types below, so that whatever lets one go makes one call.
impl Drop for Frame {
    fn drop(self) {
        let Frame {
            text: _,
            mode: _,
            state,
            last_choice: _,
        } = self;
        drop(state);
    }
}

/// What a frame's next key goes to.
#[derive(Drop)]
pub enum FrameState {
    /// The plain state, with the letters that wait for more.
    Plain(Pending),
    /// ▽: a reading is open.
    Reading(Reading),
    /// ▼: candidates are shown.
    Picking(Conversion),
}

/// Candidates that are shown for a reading.
pub struct Conversion {
    /// As it was when it was converted.
    pub reading: Headword,
    pub picking: Picking,
}

impl Drop for Conversion {
    fn drop(self) {
        let Conversion { reading, picking } = self;
        drop(reading);
        drop(picking);
    }
}

/// What was chosen of candidates, and what it takes to take it back.
pub struct Choice {
    /// How many characters were put at the end of the text.
    pub inserted: usize,
    /// How many bytes the text had behind them.
    pub end: usize,
    /// The mode in which it was chosen.
    pub mode: Mode,
    /// The candidates, as they were shown.
    pub conversion: Conversion,
    /// What was learnt of it, unless the learning was refused.
    pub learned: Option<Learned>,
}

impl Drop for Choice {
    fn drop(self) {
        let Choice {
            inserted: _,
            end: _,
            mode: _,
            conversion: _,
            learned,
        } = self;
        drop(learned);
    }
}

/// A frame outside a registration (辞書登録) or a note line (注釈登録), which waits for the word of its reading or for the
/// note of its candidate.
pub struct OuterFrame {
    pub text: Text,
    pub mode: Mode,
    pub waiting: Waiting,
    pub last_choice: Option<Choice>,
}

impl Drop for OuterFrame {
    fn drop(self) {
        let OuterFrame {
            text: _,
            mode: _,
            waiting,
            last_choice: _,
        } = self;
        drop(waiting);
    }
}

/// What a registration or a note line was opened for, and what stands there again where it is cancelled.
#[derive(Drop)]
pub enum Waiting {
    /// ▽: no candidate was found for the reading.
    Reading(Headword),
    /// ▼: none of the candidates was chosen.
    Picking(Conversion),
    /// ▼: the candidate that is picked gets a note.
    Note(Conversion),
}

impl Frame {
    // A new frame: hiragana mode, an empty text, and nothing chosen. Takes no memory.
    pub(crate) fn new(alloc: Global) -> Frame
        ensures { result ≡ new_frame }
    {
        Frame {
            text: Text::new(alloc),
            mode: Mode::Hira,
            state: FrameState::Plain(Pending::new()),
            last_choice: None,
        }
    }

    // The frame as it waits for a word. Its own state goes.
    pub(crate) fn outside(self, waiting: Waiting) -> OuterFrame
        ensures { result ≡ outside self waiting }
    {
        let Frame {
            text,
            mode,
            state,
            last_choice,
        } = self;
        drop(state);
        OuterFrame {
            text,
            mode,
            waiting,
            last_choice,
        }
    }
}

impl OuterFrame {
    // The frame as it was before it waited.
    pub(crate) fn as_before(self) -> Frame
        ensures { result ≡ as_before self }
    {
        let OuterFrame {
            text,
            mode,
            waiting,
            last_choice,
        } = self;
        Frame {
            text,
            mode,
            state: waiting.into_state(),
            last_choice,
        }
    }

    // The frame as it was before it waited for the note of a candidate, which has it as the answer to its annotation
    // says.
    pub(crate) fn with_note(self, alloc: Global, cand: Cand, answer: &Answer) -> Frame
        ensures { result ≡ record (as_before self) { state = state_noted self.waiting cand answer.now } }
    {
        let OuterFrame {
            text,
            mode,
            waiting,
            last_choice,
        } = self;
        Frame {
            text,
            mode,
            state: waiting.into_noted(alloc, cand, answer),
            last_choice,
        }
    }

    // The frame with the piece of its word inserted, for which it waits no more. Nothing is chosen last then.
    pub(crate) fn with_word(self, piece: &Text) -> Result<Frame, Memory>
        ensures { IfOk result (λ frame. frame ≡ with_word self piece.now) }
    {
        let OuterFrame {
            mut text,
            mode,
            waiting,
            last_choice: _,
        } = self;
        drop(waiting);
        text.push_str(piece.as_str())?;
        Ok(Frame {
            text,
            mode,
            state: FrameState::Plain(Pending::new()),
            last_choice: None,
        })
    }
}

impl Conversion {
    // The reading that was converted. The candidates go.
    pub(crate) fn into_reading(self) -> Reading
        ensures { result ≡ self.reading }
    {
        let Conversion { reading, picking } = self;
        drop(picking);
        reading.into_reading()
    }

    // The candidates behind the answer to an annotation: the one that is picked has its new note, unless that was
    // refused.
    fn annotated(self, alloc: Global, cand: Cand, answer: &Answer) -> Conversion
        ensures { result ≡ after_annotation self cand answer.now }
    {
        let Conversion {
            reading,
            mut picking,
        } = self;
        if says_annotated(answer) {
            picking.annotate(alloc, cand);
        }
        Conversion { reading, picking }
    }
}

impl Choice {
    // The candidates, and what was learnt.
    pub(crate) fn into_parts(self) -> (Conversion, Option<Learned>)
        ensures { result ≡ (self.conversion, self.learned) }
    {
        let Choice {
            inserted: _,
            end: _,
            mode: _,
            conversion,
            learned,
        } = self;
        (conversion, learned)
    }
}

impl Waiting {
    // The reading that a word is waited for, or for whose candidate a note is.
    pub(crate) fn reading(&self) -> &Reading
        ensures value { result.now ≡ waiting_reading self.now }
        ensures some { (waiting_reading self.now).text ≢ [] }
    {
        match self {
            Waiting::Reading(reading) => reading.reading(),
            Waiting::Picking(conversion) | Waiting::Note(conversion) => {
                conversion.reading.reading()
            }
        }
    }

    // The state that stands there once nothing is waited for.
    pub(crate) fn into_state(self) -> FrameState
        ensures { result ≡ waiting_state self }
    {
        match self {
            Waiting::Reading(reading) => FrameState::Reading(reading.into_reading()),
            Waiting::Picking(conversion) | Waiting::Note(conversion) => {
                FrameState::Picking(conversion)
            }
        }
    }

    // The state that stands there once the annotation of a candidate was answered.
    fn into_noted(self, alloc: Global, cand: Cand, answer: &Answer) -> FrameState
        ensures { result ≡ state_noted self cand answer.now }
    {
        match self {
            Waiting::Note(conversion) => {
                FrameState::Picking(conversion.annotated(alloc, cand, answer))
            }
            Waiting::Reading(reading) => FrameState::Reading(reading.into_reading()),
            Waiting::Picking(conversion) => FrameState::Picking(conversion),
        }
    }
}
