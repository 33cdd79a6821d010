//! The input of `load`: lines of keys that are drawn, and a dictionary that has a row for each word that is drawn.
//!
//! It stands on `skk_text`, `skk_calls` and `key_scripts`. A word is two of sixteen syllables. Numbers are drawn by a
//! generator that begins with a seed: for each line two syllables, and the kind of the line, which says what the keys
//! do with the word. The lines are drawn one of each session after another, and this again and again. The dictionary
//! has the 256 words, each with three candidates.
#![tactic(auto)]

mod dictionary;
mod draws;
mod kind;
mod lines;
mod syllable;

pub use dictionary::load_dictionary;
pub use lines::draw_lines;
