//! Pieces of input that come cut at any byte: what stands before a byte that ends it, up to a limit.
//!
//! It stands on `skk_text` and `exact_readers`. A piece and its end are a format, and what is spelled before is taken
//! off whatever comes behind; so only what stands behind the last whole piece is kept, as bytes (`Begun`). How it goes
//! on with more bytes is told by `piece_end`, which looks at these alone. The laws say that what is kept decides all
//! that is read later: how the input was cut does not matter.
#![tactic(auto)]

mod begun;
mod ending;
mod piece;

pub use begun::Begun;
pub use ending::Ending;
pub use piece::{PieceEnd, piece_end};
