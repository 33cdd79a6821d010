//! Formats that are made of smaller ones, and readers that are exact: what they read is what the format spells.
//!
//! It stands on `skk_text`. A format is written once, as definitions: what spells a value, and a step that reads one
//! from the front of tokens, which are characters, bytes or texts. `specs/Formats.antt` and `specs/Cuts.antt` have the
//! ways to make formats of smaller ones, `specs/Exact.antt` what it is that a step is exact and that what a printer
//! prints is read again, `specs/Numbers.antt` numbers in bytes, and the laws say that each way keeps it. The code has
//! the loops over repeated pieces, what cuts characters, what cuts a file into its lines, and what reads numbers.
#![tactic(auto)]

mod cut;
mod lines;
mod numbers;
mod printing;
mod reading;
mod trimming;

pub use cut::{behind_spaces, cut_at, past, past_char};
pub use lines::{cut_line, first_byte_line, first_line, without_return};
pub use numbers::{read_u16, read_u32, read_u64};
pub use printing::{Printer, print_each};
pub use reading::{Reader, read_many};
pub use trimming::{trimmed_line, without_mark};
