//! The law of what callers come to, whatever the order in which they are answered.
//!
//! It stands on `skk_text`, on the definitions of `skk_calls` and on those of own calls in `dict_laws`. As there, the
//! law is a function without a body that does anything: its contract is the law, and a crate above calls it where its
//! proof needs it.
#![tactic(auto)]

mod laws;

pub use laws::callers_who_say_the_same_come_to_one_tally;
