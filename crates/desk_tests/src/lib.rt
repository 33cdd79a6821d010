//! Tests of a learned dictionary that many callers share: what one learns another finds, and two callers work in
//! threads of their own, also over a disk that fails.
//!
//! They stand above `shared_desk`, so that it is not proved once with its tests and once without. It has no public
//! item.
#![tactic(auto)]

#[cfg(test)]
mod calling;
#[cfg(test)]
mod changes;
#[cfg(test)]
mod desks;
#[cfg(test)]
mod left;
#[cfg(test)]
mod sharing;
#[cfg(test)]
mod shift;
#[cfg(test)]
mod worker;
