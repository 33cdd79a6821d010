ghost use Rattle.std.specs.Prelude.{◌≡◌};
ghost use Rattle.dict_format.specs.FileLines.{part_behind};

use crate::file_lines::{LineKind, kind_of};
use exact_readers::{first_line, trimmed_line, without_mark};
use skk_calls::Part;
use std::marker::Model;

/// A line of a dictionary file.
#[derive(Clone, Copy, Debug)]
pub struct FileLine<'t> {
    /// Its number, counted from 1 over all lines of the file.
    pub number: usize,
    /// The part in which it stands.
    pub part: Part,
    /// What it is.
    pub kind: LineKind,
    /// Where it begins, in bytes of the file.
    pub start: usize,
    /// What is read of it: not the CR at its end, nor the spaces and TABs before that.
    pub text: &'t str,
}

/// The lines of a dictionary file's text that are not gone over yet.
#[derive(Drop)]
pub struct FileLines<'t> {
    text: &'t str,
    rest: &'t str,
    number: usize,
    part: Part,
}

impl<'t> Model for FileLines<'t> {
    ghost use Rattle.skk_text.specs.Lines.{lines_of};
    ghost use Rattle.dict_format.specs.LeftLines.{IsReadTo, LeftLines};

    ghost Value = { LeftLines };

    ghost view = { λ l.
        record { text = l.text.now; lines = lines_of l.rest.now; number = l.number; part = l.part } };

    ghost invariant = { λ l. IsReadTo l.text.now l.rest.now l.number };
}

impl<'t> FileLines<'t> {
    ghost use Rattle.std.specs.Prelude.{◌≡◌, ◌<◌, ◌++◌, [], length, IfSome, MatchOption};
    ghost use Rattle.exact_readers.specs.Lines.{StandsAt};
    ghost use Rattle.dict_format.specs.FileLines.{entries_of};
    ghost use Rattle.dict_format.specs.LeftLines.{entries_at, entries_left};

    /// All lines of a text.
    pub fn of(text: &'t str) -> FileLines<'t>
        ensures text { result.text ≡ text.now }
        ensures entries { entries_left result ≡ entries_of text.now }
    {
        FileLines {
            text,
            rest: without_mark(text),
            number: 0,
            part: Part::Nasi,
        }
    }

    /// The next line, if there is one. Takes time in its length, and no memory.
    pub fn next_line(&mut self) -> Option<FileLine<'t>>
        ensures text { self.new.text ≡ self.old.text }
        ensures line { MatchOption result (entries_left self.old ≡ [])
            (λ line. entries_left self.old ≡ entries_at line ++ entries_left self.new) }
        ensures less { IfSome result (λ line. length self.new.lines < length self.old.lines) }
        ensures place { IfSome result (λ line. StandsAt self.old.text line.start line.text.now) }
    {
        let (line, behind) = first_line(self.rest)?;
        let text = trimmed_line(line);
        let next = FileLine {
            number: self.number + 1,
            part: self.part,
            kind: kind_of(text),
            start: self.text.len() - self.rest.len(),
            text,
        };
        self.rest = behind;
        self.number = next.number;
        self.part = part_behind(next.kind, next.part);
        Some(next)
    }
}

// The part in which the lines behind a line of a kind stand, where that line stands in the other.
fn part_behind(kind: LineKind, part: Part) -> Part
    ensures { result ≡ part_behind kind part }
{
    match kind {
        LineKind::Opening(opened) => opened,
        LineKind::Entry | LineKind::Skipped => part,
    }
}
