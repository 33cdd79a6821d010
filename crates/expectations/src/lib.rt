//! What tests compare: what was found with what is wanted.
//!
//! A test says `same(found, wanted).expect(&rt, "as wanted")`, and ends where they differ. It is a crate of its own, so
//! that the comparing and the message are proved once, and not at each of some two hundred places. It stands on
//! nothing.
#![tactic(auto)]

use std::fmt::Debug;

/// What was found and what is wanted, which differ, and of which case of several that was: `()` where it is none.
#[derive(Debug)]
pub struct Differ<T, C> {
    found: T,
    wanted: T,
    case: C,
}

/// Tells what was found and what is wanted, where they differ.
pub fn same<T: PartialEq + Drop>(found: T, wanted: T) -> Result<(), Differ<T, ()>> {
    same_at(found, wanted, ())
}

/// The same for a case of several, which is told too.
pub fn same_at<T: PartialEq + Drop, C: Drop>(
    found: T,
    wanted: T,
    case: C,
) -> Result<(), Differ<T, C>> {
    if found == wanted {
        return Ok(());
    }
    Err(Differ {
        found,
        wanted,
        case,
    })
}
