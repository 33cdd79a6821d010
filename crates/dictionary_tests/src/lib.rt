//! Tests of the public calls of the crates of the dictionary, lowest first: texts and keys, traces, calls, sets of
//! words, rows, dictionary files, layers, completion, learning, the format of a dictionary file, and sums and
//! differences of dictionaries.
//!
//! They stand above those crates, so that none of these is proved once with its tests and once without. It has no
//! public item.
//!
//! A value of several kinds, as a call, a reply or an option, is let go by `drop`: where it is let go at the end of a
//! function, the proof goes through its kinds there.
#![tactic(auto)]

#[cfg(test)]
mod calls;
#[cfg(test)]
mod completion;
#[cfg(test)]
mod files;
#[cfg(test)]
mod format;
#[cfg(test)]
mod layers;
#[cfg(test)]
mod learning;
#[cfg(test)]
mod making;
#[cfg(test)]
mod rows;
#[cfg(test)]
mod sums;
#[cfg(test)]
mod texts;
#[cfg(test)]
mod traces;
#[cfg(test)]
mod words;
