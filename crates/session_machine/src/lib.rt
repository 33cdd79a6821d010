//! A typist's session: the mode machine over keys and a dictionary.
//!
//! It stands on the plain state, the reading state ▽ and the candidate state ▼, each in a crate of its own, and does
//! what they ask for: it inserts, opens and closes readings, looks them up with a `Caller`, shows the candidates,
//! learns the one that is chosen or purges it, and takes the last choice back; and where no word is found, or none is
//! chosen, it opens a registration, whose text is learnt and inserted outside. A note line opens in the same way over a
//! candidate, which its text is a note of. What a key means is a tree of questions
//! (`pressed` in the specs): it ends with the session after the key, or makes a call and goes on by the answer.
//! `Session::press` promises that the session is the one that the tree comes to by the answers that its caller gave,
//! and that the calls it made are those that the tree asks, none more. `printing` shows a session as it is printed.

// A value that holds much is let go by name, as in `drop(answer)`, or by a `drop` that is written out beside its type:
// its letting go is proved once then, and not at each place.
#![tactic(auto)]

mod annotating;
mod answer_kinds;
mod answered;
mod asking;
mod choosing;
mod completing;
mod confirming;
mod converting;
mod copying;
mod editing;
mod escaping;
mod first_words;
mod frame;
mod headword;
mod kana;
mod known_answers;
mod laws;
mod opening;
mod pressing;
mod printing;
mod purging;
mod reading_parts;
mod registering;
mod replay;
mod returning;
mod session;
mod session_notice;
mod undoing;

pub use copying::{copy_answer, copy_call};
pub use frame::{Choice, Conversion, Frame, FrameState, OuterFrame, Waiting};
pub use headword::Headword;
pub use laws::{calls_are_own, registrations_have_a_limit, texts_have_a_limit};
pub use replay::Replayed;
pub use session::Session;
pub use session_notice::SessionNotice;
