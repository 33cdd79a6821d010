//! The learned index and the learned files joined: a dictionary whose changes each stand on a disk, and its history.
//!
//! It stands on `skk_text`, `exact_readers`, `skk_outside`, `skk_trace`, `skk_calls`, `dict_laws`, `dict_rows`,
//! `skk_disk`, `skk_journal`, `dict_format`, `dict_layers` and `learn_index`. A record puts a row into a book, takes a
//! row out, gives a candidate of a row its note, or gives a book its count; each of them sets the count. Or it gives a
//! typist a list of books. What a record says is defined from its values to its bytes, and a payload says nothing where
//! no values have these bytes. The records of a file, one after another, lead from no books to a state, or the first of
//! them that says nothing stands at a place: `Store::open` gives that state, or the least place that is refused. A
//! compaction writes the records of a state alone: each row of each book is put, where a book has no row its count is
//! set, and behind the books each list of a typist is given.
//!
//! A `Store` answers calls as the dictionary of one thread. It takes the memory of a change and of its record first,
//! then closes a record in doubt, adds the record, and only then changes the index, so that a stop at any moment leaves
//! the state before the call, the one after it, or one that was in doubt. It keeps what look-ups of the readings that
//! were used last found, up to the next change of theirs or of any typist's list. `Noting` keeps the history of a
//! store: what a stop at a moment might have left is opened as a state that a part of the history may leave, which has
//! each entry that was made by then. `Alone` is the one caller of a store, with no lock. `into_parts` takes a store
//! apart for a layer that writes several records at once: `put_record` gives the payload that puts a row,
//! `live_records` what a compaction writes of a state, and `tight_end` where a file ends that has just that.
//!
//! Laws say that a file is opened in one way at most, that the record of a change may be written and leaves the state
//! that the change leaves, that it needs what the change needs, that the records of a compaction leave their state and
//! end where a file of that state ends at least, and what the images of a store are opened as.
#![tactic(auto)]

mod alone;
mod changing;
mod closed;
mod committing;
mod compacting;
mod form;
mod gathered;
mod kept_answer;
mod kept_answers;
mod laws;
mod learned_name;
mod list_payload;
mod noting;
mod opening;
mod parts;
mod payload;
mod placed_row;
mod plain_row;
mod recovery;
mod room;
mod row_place;
mod sizes;
mod stamped_row;
mod store;
mod writing;

pub use alone::Alone;
pub use closed::Closed;
pub use committing::{settle, shrink};
pub use compacting::{live_records, push_put};
pub use form::{NEWEST, PayloadForm};
pub use laws::{
    changes_keep_the_tight_end, changes_need_their_records, changes_tell_what_may_be_written,
    compacted_records_leave_their_state, files_are_recovered_in_one_way, kept_states_are_recovered,
    plans_tell_what_their_changes_tell, records_leave_what_changes_leave, sound_records_fit,
    the_tight_end_is_least,
};
pub use learned_name::LearnedName;
pub use noting::{NoDesk, Noting};
pub use parts::Parts;
pub use sizes::tight_end;
pub use store::Store;
pub use writing::put_record;
