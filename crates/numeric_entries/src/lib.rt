//! Numbers in entries: the key under which a reading with numbers is looked up, and what numbers make of a word of such
//! an entry.
//!
//! It stands on `skk_text`. `number_key` puts a `#` in the place of each number of a reading, and gives the numbers.
//! `fill` writes them in a word, where forms of `#` and a digit stand for them, and `asks_lookup` tells whether one of
//! these forms stands for a word that is first to be looked up. The definitions cut a text into its runs of digits, a
//! word into its parts, and a number into its groups of digits, and what they come to is exact; each call takes time in
//! the texts that it reads and gives.
#![tactic(auto)]

mod characters;
mod digits;
mod filling;
mod form;
mod keys;
mod numerals;
mod places;

pub use filling::{asks_lookup, fill};
pub use keys::{NumberKey, number_key};
