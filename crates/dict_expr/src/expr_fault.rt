use skk_text::Memory;
use thiserror::Error;

/// Why a result is not printed.
#[derive(Clone, Copy, Debug, PartialEq, Eq, Error)]
pub enum ExprFault {
    /// The line of a row has so many bytes, which are more than the 65,535 that are read again. It is the first such
    /// row in printing order; 2^64 - 1 stands for more bytes than that.
    #[error("row too big {bytes}")]
    RowTooBig { bytes: u64 },
    /// Out of memory.
    #[error("out of memory")]
    Memory,
}

impl From<Memory> for ExprFault {
    ghost use Rattle.std.specs.Prelude.{◌≡◌};
    ghost use Rattle.dict_expr.specs.declared.expr_fault.ExprFault.TheVariants as faults;

    ghost from_gives = { λ _ fault. fault ≡ faults.Memory };

    fn from(_memory: Memory) -> ExprFault {
        ExprFault::Memory
    }
}
