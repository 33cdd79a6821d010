//! The laws of the dictionary: what a typist relies on, said of the definitions of `skk_calls`.
//!
//! Each law is a function without a body that does anything, whose contract is the law. A crate above calls it where
//! its proof needs the law. There is no code here that could be wrong: the promises are of the definitions, and an edit
//! of a body has nothing to break. Laws that a proof of a crate above cites by name stand in `specs/`: those of changed
//! and of valid states, and of what asks a typist's own calls alone.
#![tactic(auto)]

mod laws;
mod own_books;

pub use laws::{
    annotations_are_told_to_change_what_they_change, annotations_keep_the_order,
    answers_depend_on_the_books_read, changed_rows_are_rows, changes_keep_states_valid,
    changes_leave_other_rows, changes_leave_what_is_found_of_other_keys, changes_make_states,
    completions_go_on_and_differ, counting_comes_to_the_tally, found_words_differ,
    learning_keeps_own_notes, learning_twice_is_learning_once, no_book_is_read_twice,
    no_row_hides_its_own_words, prefixes_of_legal_histories_are_legal,
    purges_are_told_to_change_what_they_change, the_next_reading_is_the_least_above,
    unlearning_gives_the_row_back,
};
pub use own_books::{
    each_typist_is_answered_alone, own_calls_are_given_own_learnings, own_calls_leave_other_books,
    own_calls_look_at_own_books,
};
