use crate::reason::LineReason;
use skk_calls::Book;
use skk_text::{Sequence, TextFault};
use thiserror::Error;

/// A line of a file that gives no row.
#[derive(Clone, Copy, Debug, PartialEq, Eq)]
pub struct BadLine {
    /// Its number, counted from 1 over all lines of the file.
    pub line: usize,
    /// Why it gives none.
    pub reason: LineReason,
}

/// Bad lines in order.
pub type BadLines = Sequence<BadLine>;

/// What a file lists.
#[derive(Debug, Drop)]
pub struct Listed {
    /// The rows of its good lines, in order.
    pub book: Book,
    /// Its bad lines, in order.
    pub bad: BadLines,
}

/// Why a file is not read.
#[derive(Clone, Copy, Debug, PartialEq, Eq, Error)]
pub enum FileFault {
    /// It is no text of at most `FILE_LIMIT` bytes.
    #[error("{0}")]
    NoText(TextFault),
    /// Out of memory.
    #[error("out of memory")]
    Memory,
}
