ghost use Rattle.std.specs.Prelude.{◌≡◌, ◌≤◌, ◌+◌, ◌&&◌, ℕ, nat_le, All, true, List, Option, Some, map};
ghost use Rattle.std.specs.List.{list_all};
ghost use Rattle.skk_calls.specs.BookLists.{is_book_list};
ghost use Rattle.skk_calls.specs.declared.answer.Reply.{Reply};
ghost use Rattle.skk_calls.specs.declared.call.Call.{Call};
ghost use Rattle.skk_calls.specs.Dictionary.{after, is_call, is_fit, moves};
ghost use Rattle.skk_calls.specs.Histories.{need, tight};
ghost use Rattle.skk_calls.specs.Rows.{RowKey, Cand, Row, is_cand, is_row_key};
ghost use Rattle.skk_calls.specs.States.{State, fits_count, is_valid};
ghost use Rattle.skk_disk.specs.Image.{Image};
ghost use Rattle.skk_journal.specs.Contents.{Contents};
ghost use Rattle.skk_journal.specs.Images.{Each};
ghost use Rattle.skk_journal.specs.Journal.{OpenJournal};
ghost use Rattle.skk_journal.specs.Records.{IsSized, end_of, need as record_need};
ghost use Rattle.learned_store.specs.declared.form.PayloadForm.{PayloadForm};
ghost use Rattle.learned_store.specs.declared.form.PayloadForm.TheVariants.{Put, Drop, Note, SetList};
ghost use Rattle.learn_index.specs.declared.plan.Plan.TheVariants.{Move};
ghost use Rattle.learn_index.specs.Plans.{IsPlanned};
ghost use Rattle.learned_store.specs.Compacted.{compacted, is_written};
ghost use Rattle.learned_store.specs.Payloads.{CountsOn, Says, counted_by, may_follow, newest_version, payload_of};
ghost use Rattle.learned_store.specs.Payloads.{is_sound};
ghost use Rattle.learned_store.specs.Payloads.{state_told, change_told};
ghost use Rattle.learned_store.specs.Recovered.{BreakAt, Leave, Recovery, IsRecovered};
ghost use Rattle.learned_store.specs.Stores.{Keeps, RecoversOneOf, with_doubt};
ghost use Rattle.learned_store.specs.Written.{noted_in, planned_told};

use dict_format::{good_rows_are_read_again, lines_spell_one_row};
use dict_laws::changes_keep_states_valid;
use skk_disk::Disk;

/// What a change needs in the learned file is what the record of what it says needs there.
pub fn changes_need_their_records()
    ensures { (state : State) (call : Call) (form : PayloadForm) → change_told state call ≡ Some form
        → need state call ≡ record_need (payload_of form) }
{}

/// The record of a change leaves the state that the change leaves.
pub fn records_leave_what_changes_leave()
    ensures { (state : State) (call : Call) (form : PayloadForm) → is_valid state ≡ true → is_call call ≡ true
        → moves state call ≡ true → change_told state call ≡ Some form → state_told state form ≡ after state call }
{}

/// What the record of a change says may be written, as far as no type tells it: a row may stand in a book of the count,
/// a key is valid, and so is a candidate with its note, whose row is there and is not too long with it; the books of a
/// typist are a list of books; and the count, where there is one, is not below that of its book.
pub fn changes_tell_what_may_be_written()
    ensures put { (state : State) (call : Call) (book count : ℕ) (row : Row) → is_valid state ≡ true
        → is_call call ≡ true → is_fit call ≡ true → moves state call ≡ true
        → change_told state call ≡ Some (Put book count row) → fits_count count row ≡ true }
    ensures drop { (state : State) (call : Call) (book count : ℕ) (key : RowKey) → is_call call ≡ true
        → change_told state call ≡ Some (Drop book count key) → is_row_key key ≡ true }
    ensures note { (state : State) (call : Call) (book count : ℕ) (key : RowKey) (cand : Cand) → is_call call ≡ true
        → change_told state call ≡ Some (Note book count key cand)
        → (nat_le 1 count && (is_row_key key && is_cand cand)) ≡ true }
    ensures list { (state : State) (call : Call) (typist : ℕ) (books : List ℕ) → is_call call ≡ true
        → change_told state call ≡ Some (SetList typist books) → is_book_list books ≡ true }
    ensures follows { (state : State) (call : Call) (form : PayloadForm) → is_valid state ≡ true
        → is_call call ≡ true → is_fit call ≡ true → moves state call ≡ true → change_told state call ≡ Some form
        → may_follow state form ≡ true }
    ensures count { (state : State) (call : Call) (form : PayloadForm) → change_told state call ≡ Some form
        → CountsOn state (counted_by form) }
{
    changes_keep_states_valid();
}

/// A payload says one thing at most, whatever the version and the state; records leave one state at most, and none
/// where one of them says nothing; and an image is opened in one way at most.
pub fn files_are_recovered_in_one_way()
    ensures form { (version other_version : ℕ) (state later : State) (payload : List ℕ) (form other : PayloadForm)
        → Says version state payload form → Says other_version later payload other → form ≡ other }
    ensures state { (contents : Contents) (one two : State) → Leave contents one → Leave contents two → one ≡ two }
    ensures whole { (contents : Contents) (at : ℕ) (state : State) → Leave contents state → BreakAt contents at → ⊥ }
    ensures image { (image : Image) (one two : Recovery) → IsRecovered image one → IsRecovered image two → one ≡ two }
{
    good_rows_are_read_again();
    lines_spell_one_row();
}

/// What records leave, the records of its compaction leave: it is a valid state that may be written, and of any such
/// state they leave it. Each of them may be written and fits a record.
pub fn compacted_records_leave_their_state()
    ensures again { (contents : Contents) (state : State) → Leave contents state
        → Leave (record { version = newest_version; records = map payload_of (compacted state) }) state }
    ensures left { (contents : Contents) (state : State) → Leave contents state
        → (is_valid state ≡ true) × (is_written state ≡ true) }
    ensures leave { (state : State) → is_valid state ≡ true → is_written state ≡ true
        → Leave (record { version = newest_version; records = map payload_of (compacted state) }) state }
    ensures sound { (state : State) → is_written state ≡ true → list_all is_sound (compacted state) ≡ true }
    ensures sized { (state : State) → is_written state ≡ true → All IsSized (map payload_of (compacted state)) }
{}

/// The records of a compaction end at the tight end of their state, and no records leave a state and end before that.
pub fn the_tight_end_is_least()
    ensures compacted { (state : State) → end_of (map payload_of (compacted state)) ≡ tight state }
    ensures least { (contents : Contents) (state : State) → Leave contents state
        → tight state ≤ end_of contents.records }
{}

/// What a plan changes is what the record of its call says: of an annotation whose row is there the candidate with its
/// note, and else the row.
pub fn plans_tell_what_their_changes_tell()
    ensures { (state : State) (call : Call) (book count : ℕ) (key : RowKey) (row : Option Row) (reply : Reply)
        → is_call call ≡ true → IsPlanned state call (Move book count key row reply)
        → change_told state call ≡ Some (planned_told (noted_in state call) book count key row) }
{}

/// The payload of what may be written fits a record.
pub fn sound_records_fit()
    ensures { (form : PayloadForm) → is_sound form ≡ true → IsSized (payload_of form) }
{}

/// A change makes the tight end of a state at most so much greater as it needs.
pub fn changes_keep_the_tight_end()
    ensures { (state : State) (call : Call) → tight (after state call) ≤ tight state + need state call }
{}

/// Where a journal keeps a state, each image that a stop now may leave is opened as that state, or as the one in doubt.
pub fn kept_states_are_recovered<D: Disk>()
    ensures { (journal : OpenJournal D) (state : State) (doubt : Option State)
        → Keeps D.Disk journal state doubt
        → Each (D.left_since journal.disk (D.time journal.disk)) (RecoversOneOf (with_doubt state doubt)) }
{}
