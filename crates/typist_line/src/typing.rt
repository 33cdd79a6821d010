use cut_input::{Begun, Ending};
use session_machine::Session;
use std::alloc::Global;
use std::marker::Model;

/// How a typist's connection stands behind the lines that were read.
#[derive(Drop)]
pub enum Typist {
    /// No line was read.
    New,
    /// Keys come for this session.
    Typing(Session),
    /// It is over, and nothing is read any more.
    Over,
}

impl Typist {
    ghost use Rattle.std.specs.Prelude.{◌≡◌};
    ghost use Rattle.typist_line.specs.Typings.{going_of, is_over};

    /// Whether nothing is read any more.
    pub fn is_over(&self) -> bool
        ensures { result ≡ is_over self.now }
    {
        match self {
            Typist::New => false,
            Typist::Typing(_) => false,
            Typist::Over => true,
        }
    }

    /// Whether it goes on.
    pub fn going(&self) -> Going
        ensures { result ≡ going_of self.now }
    {
        if self.is_over() {
            Going::Over
        } else {
            Going::More
        }
    }
}

/// A typist's connection: how it stands, and the bytes of the line that has not ended, at most 4,096.
#[derive(Drop)]
pub struct Typing {
    // None where memory was out.
    pub(crate) typist: Option<Typist>,
    pub(crate) begun: Begun,
}

impl Model for Typing {
    ghost use Rattle.typist_line.specs.Typings.{TypingView};

    ghost Value = { TypingView };

    ghost view = { λ t. record { typist = t.typist; begun = t.begun } };
}

impl Typing {
    ghost use Rattle.std.specs.Prelude.{◌≡◌, [], Some};

    /// A connection of which nothing was read. Takes no memory: it keeps the allocator for what comes.
    pub fn new(alloc: Global) -> Typing
        ensures { result ≡ record { typist = Some Typist.New; begun = [] } }
    {
        Typing {
            typist: Some(Typist::New),
            begun: Begun::new(alloc),
        }
    }
}

/// Whether a connection goes on.
#[derive(Clone, Copy, Debug, PartialEq, Eq)]
pub enum Going {
    /// More lines are read.
    More,
    /// It is over.
    Over,
}

/// The most bytes of a line, without its LF.
pub const LINE: usize = 4096;

/// A line, which ends at an LF.
pub struct TypedLine;

impl Ending for TypedLine {
    ghost use Rattle.exact_readers.specs.Lines.{is_line_feed};
    ghost use Rattle.typist_line.specs.TypedLines.{longest_line};

    ghost ends = { is_line_feed };

    ghost limit = { longest_line };

    fn ends(byte: u8) -> bool {
        byte == b'\n'
    }

    fn limit() -> usize {
        LINE
    }
}
