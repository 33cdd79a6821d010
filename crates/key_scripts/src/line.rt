ghost use Rattle.std.specs.Prelude.{◌≡◌, ◌≢◌, ◌≤◌, ◌⊎◌, ◌++◌, ◌∷◌, ℕ, Option, IfOk, IsErrOf, IfSome, IsNone};
ghost use Rattle.std.specs.Fmt.{decimal};
ghost use Rattle.std.specs.Int.{IsInRange};
ghost use Rattle.key_scripts.specs.Script.{Spells, Follows, IsTypist};
ghost use Rattle.key_scripts.specs.declared.line.Line.{Line};

use crate::number::{number, number_then};
use skk_text::{KeyFault, Keys, Memory, read_keys};
use std::alloc::Global;
use thiserror::Error;

/// The greatest number of a session.
pub const SESSIONS: u32 = 64;

/// A line of a script that says something.
#[derive(Debug, Drop)]
pub enum Line {
    /// Keys for a session.
    Keys { session: u8, keys: Keys },
    /// That a session is a typist's, with a book.
    Opening { session: u8, typist: u16, book: u16 },
}

impl Line {
    ghost use Rattle.std.specs.Prelude.{◌≡◌};
    ghost use Rattle.key_scripts.specs.Script.{session_of};

    /// The number of the session that it names.
    pub fn session(&self) -> u8
        ensures { result ≡ session_of self.now }
    {
        match self {
            Line::Keys { session, keys: _ } => *session,
            Line::Opening {
                session,
                typist: _,
                book: _,
            } => *session,
        }
    }
}

/// Why no line was read.
#[derive(Clone, Copy, Debug, PartialEq, Eq, Error)]
pub enum ScriptLineFault {
    /// The text is no line.
    #[error("no line")]
    NoLine,
    /// Out of memory.
    #[error("out of memory")]
    Memory,
}

impl From<Memory> for ScriptLineFault {
    ghost use Rattle.std.specs.Prelude.{◌≡◌};
    ghost use Rattle.key_scripts.specs.declared.line.ScriptLineFault.TheVariants as faults;

    ghost from_gives = { λ _ fault. fault ≡ faults.Memory };

    fn from(_memory: Memory) -> ScriptLineFault {
        ScriptLineFault::Memory
    }
}

/// Reads what a text says, which is nothing where it is empty or a comment. Whether its session was named before is
/// not looked at.
pub fn read_line(alloc: Global, text: &[u8]) -> Result<Option<Line>, ScriptLineFault>
    ensures ok { IfOk result (λ said. Spells text.now said) }
    ensures none { IsErrOf result ScriptLineFault.NoLine → (said : Option Line) → ¬ Spells text.now said }
{
    if text.is_empty() {
        return Ok(None);
    }
    if text[0] == b'#' {
        if text.contains(&b'\r') {
            return Err(ScriptLineFault::NoLine);
        }
        return Ok(None);
    }
    let Some((session, mark, rest)) = number_then(text) else {
        return Err(ScriptLineFault::NoLine);
    };
    if session < 1 || session > SESSIONS {
        return Err(ScriptLineFault::NoLine);
    }
    let line = read_behind(alloc, session as u8, mark, rest)?;
    Ok(Some(line))
}

// Reads what stands behind a session's number: the byte next to it, and the rest.
fn read_behind(alloc: Global, session: u8, mark: u8, rest: &[u8]) -> Result<Line, ScriptLineFault>
    ensures ok { IfOk result (Follows session mark rest.now) }
    ensures none { IsErrOf result ScriptLineFault.NoLine → (line : Line) → ¬ Follows session mark rest.now line }
{
    match mark {
        b':' => match read_keys(alloc, rest) {
            Ok(keys) => Ok(Line::Keys { session, keys }),
            Err(KeyFault::Memory) => Err(ScriptLineFault::Memory),
            Err(KeyFault::BadName { at: _ } | KeyFault::NotAscii { at: _ }) => Err(
                ScriptLineFault::NoLine,
            ),
        },
        b'=' => match typist_and_book(rest, b',') {
            Some((typist, book)) => Ok(Line::Opening {
                session,
                typist,
                book,
            }),
            None => Err(ScriptLineFault::NoLine),
        },
        _ => Err(ScriptLineFault::NoLine),
    }
}

/// The typist and the book that a text writes, with a byte between them that is no digit. The book is the shared one
/// or the typist's.
pub fn typist_and_book(text: &[u8], between: u8) -> Option<(u16, u16)>
    requires { ¬ IsInRange 48 57 between }
    ensures some { IfSome result (λ found. IsTypist found.0 × ((found.1 ≡ 0) ⊎ (found.1 ≡ found.0))
        × (text.now ≡ decimal found.0 ++ between ∷ decimal found.1)) }
    ensures none { IsNone result → (typist book : ℕ) → IsTypist typist → ((book ≡ 0) ⊎ (book ≡ typist))
        → text.now ≢ decimal typist ++ between ∷ decimal book }
{
    let (typist, mark, rest) = number_then(text)?;
    if typist > 65535 || mark != between {
        return None;
    }
    let book = number(rest)?;
    if book != 0 && book != typist {
        return None;
    }
    Some((typist as u16, book as u16))
}
