//! What is typed for a script: what its lines ask and print, by one caller or by a caller for each session.
//!
//! It stands on `skk_text`, `skk_outside` for its gate, `skk_calls`, `dict_laws` and `tally_laws` for its own laws,
//! `romaji_rules`, `key_scripts` and `session_machine`. What the lines of a script ask and print is one interaction
//! (`typing` in the specs), whose calls one caller makes; where nothing is to be printed it is `playing`, which comes
//! to the sessions. `play_line` plays one line for both: what a line does in its session is written once, for workers
//! too. Where each session has a caller of its own, `cut_script` cuts the lines among the sessions, and
//! `type_tasks` lets an office admit a caller for each, and types each session's own lines by a worker, in a thread of
//! its own where one can be started. What is then printed is `woven`: the output lines in the order of the script.
//! Where the typists are apart, callers of their own print, or play, what one caller does: two laws say so, and a
//! third says when sessions are.
#![tactic(auto)]

mod cutting;
mod host;
mod laws;
mod office;
mod pages;
mod playing;
mod printing;
mod typed;
mod worker;
mod working;

pub use cutting::{Cut, cut_lines, cut_script};
pub use host::Host;
pub use laws::{
    callers_have_asked, callers_have_ended, pages_are_woven, sessions_of_their_own_are_apart,
    typists_apart_play_alone, typists_apart_type_alone,
};
pub use office::type_tasks;
pub use pages::Pages;
pub use playing::{play_line, play_lines};
pub use printing::{push_closing_line, push_output_line};
pub use typed::Typed;
