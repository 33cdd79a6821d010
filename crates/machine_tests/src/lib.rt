//! Tests of the public calls of the crates of the mode machine, lowest first: rules, plain kana, the reading state,
//! numbers in entries, the candidate state, and sessions.
//!
//! They stand above those crates, so that none of these is proved once with its tests and once without. It has no
//! public item.
#![tactic(auto)]

#[cfg(test)]
mod candidates;
#[cfg(test)]
mod making;
#[cfg(test)]
mod numbers;
#[cfg(test)]
mod plain;
#[cfg(test)]
mod reading;
#[cfg(test)]
mod rules;
#[cfg(test)]
mod sessions;
