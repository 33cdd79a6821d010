//! Scripts of keys: what each line of a script says.
//!
//! It stands on `skk_text` and `exact_readers`. A script is lines of text: one gives keys to a session by its number,
//! one opens a session for a typist with a book, and empty lines and comments are skipped. `Script::read` checks a
//! script whole: it gives the lines that the texts say, of which each opening line stands in front of all others of its
//! session, or the number of the first that is no line. Both are exact, and a script has one meaning: these are laws
//! beside the definitions.
#![tactic(auto)]

mod laws;
mod line;
mod number;
mod script;

pub use laws::{no_bad_line_in_a_script, one_bad_line, one_script, one_typist_and_book};
pub use line::{Line, typist_and_book};
pub use script::{Script, ScriptFault};
