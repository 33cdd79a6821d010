ghost use Rattle.std.specs.Prelude.{◌≡◌, ◌∷◌, ◌++◌, ℕ, Option, List, [], IsErrOf, IsTrue, OnOk, Some, false};
ghost use Rattle.key_scripts.specs.Marks.{Mark};
ghost use Rattle.key_scripts.specs.Script.{IsSession, Spells, MayFollow, session_of, with_said};

use crate::line::{Line, ScriptLineFault, read_line};
use exact_readers::first_byte_line;
use skk_text::{Sequence, one_list_of_keys};
use std::alloc::Global;
use std::marker::Model;
use thiserror::Error;

/// Why bytes are no script.
#[derive(Clone, Copy, Debug, PartialEq, Eq, Error)]
pub enum ScriptFault {
    /// The first bad line, counted from 1.
    #[error("line {number} is no line of a script")]
    BadLine { number: usize },
    /// Out of memory.
    #[error("out of memory")]
    Memory,
}

/// A script that was checked whole: contracts see its lines, of which each opening line has a book that may be and
/// stands in front of all others of its session. Nothing is held of the texts that are skipped.
#[derive(Debug, Drop)]
pub struct Script {
    lines: Sequence<Line>,
}

impl Model for Script {
    ghost use Rattle.std.specs.Prelude.{◌≡◌, List, true};
    ghost use Rattle.std.specs.List.{list_all};
    ghost use Rattle.key_scripts.specs.Script.{OpenFirst, opens_well};
    ghost use Rattle.key_scripts.specs.declared.line.Line.{Line};

    ghost Value = { List Line };

    ghost view = { λ s. s.lines };

    ghost invariant = { λ s. (list_all opens_well s.lines ≡ true) × OpenFirst s.lines };
}

impl Script {
    ghost use Rattle.std.specs.Prelude.{◌≡◌, ℕ, [], true, IfOk, IsErrOf};
    ghost use Rattle.std.specs.List.{list_all};
    ghost use Rattle.skk_text.specs.Lines.{lines_of};
    ghost use Rattle.key_scripts.specs.Script.{OpenFirst, Says, IsFirstBad, opens_well};

    /// Reads a script, and checks it whole. Whether a session was named before costs constant time a line.
    pub fn read(alloc: Global, bytes: &[u8]) -> Result<Script, ScriptFault>
        ensures ok { IfOk result (λ lines. Says [] (lines_of bytes.now) lines) }
        ensures bad { (number : ℕ) → IsErrOf result (ScriptFault.BadLine number)
            → IsFirstBad (lines_of bytes.now) number }
    {
        let mut lines = Sequence::new(alloc);
        let mut named = [false; 65];
        let mut number: usize = 0;
        let mut rest = bytes;
        while let Some((text, behind)) = first_byte_line(rest) {
            number += 1;
            match push_line(alloc, text, &mut named, &mut lines) {
                Ok(()) => rest = behind,
                Err(ScriptLineFault::NoLine) => return Err(ScriptFault::BadLine { number }),
                Err(ScriptLineFault::Memory) => return Err(ScriptFault::Memory),
            }
        }
        Ok(Script { lines })
    }

    /// Its lines, in order.
    pub fn lines(&self) -> &[Line]
        ensures value { result.now ≡ self.now }
        ensures valid { list_all opens_well self.now ≡ true }
    {
        self.lines.as_slice()
    }

    /// Its lines, moved out. Takes no memory.
    pub fn into_lines(self) -> Vec<Line>
        ensures value { result.items ≡ self }
        ensures valid { list_all opens_well self ≡ true }
        ensures first { OpenFirst self }
    {
        self.lines.into_vec()
    }
}

// Reads a text behind lines whose sessions are marked: adds the line that it says, and marks its session.
fn push_line(
    alloc: Global,
    text: &[u8],
    named: &mut [bool; 65],
    lines: &mut Sequence<Line>,
) -> Result<(), ScriptLineFault>
    requires { Mark named.old lines.old }
    ensures marked { OnOk result (Mark named.new lines.new) }
    ensures ok { OnOk result ((said : Option Line) × Spells text.now said × MayFollow lines.old said
        × (lines.new ≡ with_said lines.old said)) }
    ensures none { IsErrOf result ScriptLineFault.NoLine → (said : Option Line) → Spells text.now said
        → ¬ MayFollow lines.old said }
{
    one_list_of_keys();
    let Some(line) = read_line(alloc, text)? else {
        return Ok(());
    };
    if !mark(named, &line) {
        return Err(ScriptLineFault::NoLine);
    }
    lines.push(line)?;
    Ok(())
}

// Marks the session of a line. False, where the line opens a session that is marked.
fn mark(named: &mut [bool; 65], line: &Line) -> bool
    requires { IsSession (session_of line.now) }
    ensures yes { IsTrue result → (lines : List Line) → Mark named.old lines
        → MayFollow lines (Some line.now) × Mark named.new (lines ++ line.now ∷ []) }
    ensures no { result ≡ false → (lines : List Line) → Mark named.old lines → ¬ MayFollow lines (Some line.now) }
{
    match line {
        Line::Keys { session, keys: _ } => {
            named[*session as usize] = true;
            true
        }
        Line::Opening {
            session,
            typist: _,
            book: _,
        } => {
            if named[*session as usize] {
                return false;
            }
            named[*session as usize] = true;
            true
        }
    }
}
