use skk_text::{Memory, TextFault};
use thiserror::Error;

/// Why a rule file is not read: it is no text, or else the first of its lines that is bad or comes twice is told, or
/// else the first with a bad next text. Lines are counted from 1 over all lines of the file.
#[derive(Clone, Copy, Debug, PartialEq, Eq, Error)]
pub enum RuleFault {
    /// It is no text of at most `RULE_FILE_LIMIT` bytes.
    #[error("{0}")]
    NoText(TextFault),
    /// The line spells no rule, or there are as many as `RULE_LIMIT` before it.
    #[error("line {line} is no rule")]
    BadLine { line: usize },
    /// A line before it has the same input.
    #[error("line {line} has an input that came before")]
    Twice { line: usize },
    /// The next text of the line begins no input, or stands behind an input that begins another.
    #[error("line {line} has a bad next text")]
    BadNext { line: usize },
    /// Out of memory.
    #[error("out of memory")]
    Memory,
}

impl From<Memory> for RuleFault {
    ghost use Rattle.std.specs.Prelude.{◌≡◌};
    ghost use Rattle.romaji_rules.specs.declared.rule_fault.RuleFault.TheVariants as faults;

    ghost from_gives = { λ _ fault. fault ≡ faults.Memory };

    fn from(_memory: Memory) -> RuleFault {
        RuleFault::Memory
    }
}
