//! Tests of the public calls of the outside and of the top call.
//!
//! They stand above the crates of the program, so that none of these is proved once with its tests and once without. It
//! has no public item.
#![tactic(auto)]

#[cfg(test)]
mod asked;
#[cfg(test)]
mod imported;
#[cfg(test)]
mod making;
#[cfg(test)]
mod outside;
#[cfg(test)]
mod runs;
#[cfg(test)]
mod served;
#[cfg(test)]
mod side_by_side;
#[cfg(test)]
mod sockets;
#[cfg(test)]
mod statuses;
