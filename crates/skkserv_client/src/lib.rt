//! A client of an SKK server: it asks for the candidates of a reading, or for the readings that go on from a prefix,
//! and tells what the server says, or what exactly is wrong with its reply.
//!
//! It stands on `skk_text`, `exact_readers`, `cut_input`, `skk_outside`, `skk_calls`, `word_sets`, `dict_format` and
//! `skkserv_proto`. What the bytes of a server tell is said of all of them at once (`told_by` in the specs), by formats
//! that are made of smaller ones. `ask` sends the request, and is proved to tell that, however the bytes come. A law
//! says that what the project's own server sends for candidates tells these candidates.
#![tactic(auto)]

mod asking;
mod gathering;
mod hearing;
mod laws;
mod question;
mod reply;
mod told;

pub use asking::ask;
pub use laws::found_candidates_are_told;
pub use question::{Ask, is_askable};
pub use told::{AskFault, Told};
