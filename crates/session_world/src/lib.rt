//! Many sessions over one dictionary, without a thread or a disk.
//!
//! It stands on `session_machine`, whose sessions are driven by `next_call` and `end_by`, and on `learn_index` and
//! `dict_layers`, which are the dictionary. A `World` has seats, each with a session and at most one key under way,
//! and one history. Events move it: a key is started, the call that it asks is served or refused, or all stops and is
//! opened anew. `World::step` says what each event makes of a world, and that it hands the world back where an event
//! may not come now. `worlds_stand` is the law of all that may happen: whatever the events, each session is what its
//! ended keys leave of a new one by its part of the history, its key under way has asked the rest of that part, the
//! dictionary is the state after the history, and the history is legal.
#![tactic(auto)]

mod dictionary;
mod doubt;
mod event;
mod laws;
mod places;
mod seat;
mod steps;
mod world;

pub use event::Event;
pub use laws::worlds_stand;
pub use world::{World, WorldFault};
