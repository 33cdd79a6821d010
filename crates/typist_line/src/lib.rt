//! The lines of a typist's connection: a session whose keys come as bytes in any pieces.
//!
//! It stands on `skk_text`, `exact_readers`, `cut_input`, `skk_calls`, `romaji_rules`, `session_machine` and
//! `key_scripts`. The first line names the typist and the book, and each further line is key text. What the lines of a
//! whole list of bytes ask and print is one interaction (`Converses` in the specs), and `run_typist` is proved to go
//! along it, however the bytes were cut.
#![tactic(auto)]

mod first_line;
mod key_line;
mod laws;
mod replies;
mod running;
mod typing;

pub use laws::{bytes_lead_a_typist, conversation_of_a_front, over_stays_over};
pub use running::run_typist;
pub use typing::{Going, Typing};
