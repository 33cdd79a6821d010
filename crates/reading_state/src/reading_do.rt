ghost use Rattle.std.specs.Prelude.{◌≡◌};

use skk_text::Notice;

/// What is done with a reading behind a key.
#[derive(Clone, Copy, Debug, PartialEq, Eq)]
pub struct ReadingDo {
    /// What the key tells the typist.
    pub notice: Notice,
    pub then: ReadingThen,
}

impl ReadingDo {
    // A notice, and what is done then.
    pub(crate) fn new(notice: Notice, then: ReadingThen) -> ReadingDo
        ensures { result ≡ record { notice = notice; then = then } }
    {
        ReadingDo { notice, then }
    }
}

/// What a key of the reading state does beside what it puts.
#[derive(Clone, Copy, Debug, PartialEq, Eq)]
pub enum ReadingThen {
    /// Nothing: the reading stays open.
    Stay,
    /// The reading is converted.
    Convert,
    /// The readings that go on from this one are asked for.
    AskCompletions,
    /// The reading is closed, and nothing is inserted.
    Drop,
    /// The reading and its okurigana are inserted, in the frame's kana or in the other, and the reading is closed.
    Confirm { other: bool, then: AfterConfirm },
}

/// What a key does behind a reading that it confirmed.
#[derive(Clone, Copy, Debug, PartialEq, Eq)]
pub enum AfterConfirm {
    /// Nothing.
    Nothing,
    /// The mode is ASCII.
    ToAscii,
    /// The mode is wide ASCII.
    ToWide,
    /// A reading opens.
    OpenReading,
    /// A newline is inserted, or a registration ends.
    Newline,
}
