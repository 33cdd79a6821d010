//! Tests of worlds of sessions, of the readings of a key that they are driven by, and of what a session leaves in the
//! learned books.
//!
//! They stand above those crates, so that none of these is proved once with its tests and once without. It has no
//! public item.
#![tactic(auto)]

#[cfg(test)]
mod registered;
#[cfg(test)]
mod worlds;
