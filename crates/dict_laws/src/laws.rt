ghost use Rattle.std.specs.Prelude.{◌≡◌, ◌≢◌, ◌≤◌, ◌+◌, ℕ, List, [], ◌∷◌, ◌++◌, Option, Some, None, length, not, true};
ghost use Rattle.std.specs.Prelude.{All, false, if◌then◌else◌};
ghost use Rattle.std.specs.List.{list_all};
ghost use Rattle.std.specs.Option.{IfSome};
ghost use Rattle.skk_calls.specs.declared.call.Call.{Call};
ghost use Rattle.skk_calls.specs.declared.call.Call.TheVariants.{Lookup, Complete, Learn, Unlearn};
ghost use Rattle.skk_calls.specs.declared.answer.Reply.TheVariants.{Learned as learned_reply, Restored};
ghost use Rattle.skk_calls.specs.declared.entry.Entry.{Entry};
ghost use Rattle.skk_calls.specs.BookLists.{twice_at};
ghost use Rattle.skk_calls.specs.Completions.{completions, completion_limit, goes_on_from};
ghost use Rattle.skk_calls.specs.Dictionary.{answer, after, is_call, is_fit, is_okuri_or_none, is_row_or_none};
ghost use Rattle.skk_calls.specs.Dictionary.{is_share, is_stamped, speaks_of};
ghost use Rattle.skk_calls.specs.Found.{found, merged, note_of, ordered};
ghost use Rattle.skk_calls.specs.Histories.{Opening, IsLegal, state_after, changes, after_calls};
ghost use Rattle.skk_calls.specs.Learning.{learnt, purged, purge_changes, annotated, annotation_changes};
ghost use Rattle.skk_calls.specs.Learning.{is_own_note, row_or_empty};
ghost use Rattle.skk_calls.specs.Orders.{text_less};
ghost use Rattle.skk_calls.specs.Rows.{RowKey, Cand, Row, Learned, has_text, same_text, texts_differ, words_of};
ghost use Rattle.skk_calls.specs.Rows.{is_cand, is_row, is_row_key};
ghost use Rattle.skk_calls.specs.States.{State, books_read, count_of, is_valid, row_at, rows_of, shared_books};
ghost use Rattle.dict_laws.specs.ReadBooks.{SameRows};
ghost use Rattle.skk_calls.specs.Tallies.{empty_tally, tally_with, tally_of};
ghost use Rattle.skk_calls.specs.Walks.{texts_ascend, next_above, is_least_above};

/// Whatever call is made, a valid state stays valid.
pub fn changes_keep_states_valid()
    ensures { (state : State) (call : Call) → is_valid state ≡ true → is_call call ≡ true → is_fit call ≡ true
        → is_valid (after state call) ≡ true }
{}

/// A call changes one row of one book at most: every other row is as it was, and so is the count of every other book.
pub fn changes_leave_other_rows()
    ensures count { (state : State) (call : Call) (book : ℕ) → ((key : RowKey) → speaks_of call book key ≡ false) →
        count_of (after state call) book ≡ count_of state book }
    ensures row { (state : State) (call : Call) (book : ℕ) (key : RowKey) → is_call call ≡ true
        → speaks_of call book key ≡ false →
        row_at (after state call) book key ≡ row_at state book key }
{}

/// What is found of a key stays as it was after a call that speaks of no row of it and gives no list of books.
pub fn changes_leave_what_is_found_of_other_keys()
    ensures { (files : List (List Row)) (state : State) (call : Call) (who : ℕ) (key : RowKey) (okuri : Option (List ℕ))
        → is_call call ≡ true → is_share call ≡ false → ((book : ℕ) → speaks_of call book key ≡ false) →
        found files (after state call) who key okuri ≡ found files state who key okuri }
{}

/// What was learnt is restored when it is taken back in any state in which the row still has the stamp of the learning,
/// as it has at once. The row, its blocks and its stamp are then as before the learning, and the book's count stays.
pub fn unlearning_gives_the_row_back()
    ensures at_once { (files : List (List Row)) (state : State) (book : ℕ) (key : RowKey) (okuri : Option (List ℕ))
        (cand : Cand) (learned : Learned) →
        answer files state (Learn book key okuri cand) ≡ learned_reply learned →
        is_stamped learned.stamp (row_at (after state (Learn book key okuri cand)) book key) ≡ true }
    ensures reply { (files : List (List Row)) (state : State) (book : ℕ) (key : RowKey) (okuri : Option (List ℕ))
        (cand : Cand) (learned : Learned) →
        answer files state (Learn book key okuri cand) ≡ learned_reply learned →
        (later : State) → is_stamped learned.stamp (row_at later book key) ≡ true
        → answer files later (Unlearn learned) ≡ Restored }
    ensures row { (files : List (List Row)) (state : State) (book : ℕ) (key : RowKey) (okuri : Option (List ℕ))
        (cand : Cand) (learned : Learned) →
        answer files state (Learn book key okuri cand) ≡ learned_reply learned →
        (later : State) → is_stamped learned.stamp (row_at later book key) ≡ true →
        row_at (after later (Unlearn learned)) book key ≡ row_at state book key }
    ensures count { (files : List (List Row)) (state : State) (book : ℕ) (key : RowKey) (okuri : Option (List ℕ))
        (cand : Cand) (learned : Learned) →
        answer files state (Learn book key okuri cand) ≡ learned_reply learned →
        (later : State) → is_stamped learned.stamp (row_at later book key) ≡ true →
        count_of (after later (Unlearn learned)) book ≡ count_of later book }
{}

/// A candidate that is learnt twice leaves the row that it leaves when learnt once, but for the stamp.
pub fn learning_twice_is_learning_once()
    ensures { (before : Option Row) (key : RowKey) (okuri : Option (List ℕ)) (cand : Cand) (first second : ℕ) →
        learnt (Some (learnt before key okuri cand first)) key okuri cand second ≡ learnt before key okuri cand second }
{}

/// A note of the user's own stays with its word, whatever is learnt.
pub fn learning_keeps_own_notes()
    ensures { (before : Option Row) (key : RowKey) (okuri : Option (List ℕ)) (cand : Cand) (stamp : ℕ) →
        is_own_note (note_of (row_or_empty key before).cands cand.word) ≡ true →
        note_of (learnt before key okuri cand stamp).cands cand.word
        ≡ note_of (row_or_empty key before).cands cand.word }
{}

/// What is made of a row, or of none, by a candidate that is learnt or annotated or a word that is purged keeps what a
/// row keeps.
pub fn changed_rows_are_rows()
    ensures learnt { (before : Option Row) (key : RowKey) (okuri : Option (List ℕ)) (cand : Cand) (stamp : ℕ) →
        is_row_key key ≡ true → IfSome before (λ row. row.key ≡ key) → is_row_or_none before ≡ true →
        is_okuri_or_none okuri ≡ true → is_cand cand ≡ true → is_row (learnt before key okuri cand stamp) ≡ true }
    ensures purged { (before : Option Row) (key : RowKey) (word : List ℕ) (stamp : ℕ) →
        is_row_key key ≡ true → IfSome before (λ row. row.key ≡ key) → is_row_or_none before ≡ true →
        is_row (purged before key word stamp) ≡ true }
    ensures annotated { (before : Option Row) (key : RowKey) (cand : Cand) (stamp : ℕ) →
        is_row_key key ≡ true → IfSome before (λ row. row.key ≡ key) → is_row_or_none before ≡ true →
        is_cand cand ≡ true → is_row (annotated before key cand stamp) ≡ true }
{}

/// A purge is told to change something exactly where it makes another row.
pub fn purges_are_told_to_change_what_they_change()
    ensures leaves { (row : Row) (word : List ℕ) → is_row row ≡ true → purge_changes (Some row) row.key word ≡ false
        → purged (Some row) row.key word row.stamp ≡ row }
    ensures alters { (row : Row) (word : List ℕ) → purge_changes (Some row) row.key word ≡ true
        → purged (Some row) row.key word row.stamp ≢ row }
{}

/// An annotation is told to change something exactly where it makes another row.
pub fn annotations_are_told_to_change_what_they_change()
    ensures leaves { (row : Row) (cand : Cand) → is_row row ≡ true → annotation_changes (Some row) row.key cand ≡ false
        → annotated (Some row) row.key cand row.stamp ≡ row }
    ensures alters { (row : Row) (cand : Cand) → annotation_changes (Some row) row.key cand ≡ true
        → annotated (Some row) row.key cand row.stamp ≢ row }
{}

/// An annotation keeps the order of the candidates, with a new one at the end; its word has the note and is hidden no
/// more, and every other word keeps its note.
pub fn annotations_keep_the_order()
    ensures order { (before : Option Row) (key : RowKey) (cand : Cand) (stamp : ℕ) →
        words_of (annotated before key cand stamp).cands
        ≡ if has_text (words_of (row_or_empty key before).cands) cand.word
        then words_of (row_or_empty key before).cands
        else words_of (row_or_empty key before).cands ++ cand.word ∷ [] }
    ensures note { (before : Option Row) (key : RowKey) (cand : Cand) (stamp : ℕ) →
        note_of (annotated before key cand stamp).cands cand.word ≡ cand.note }
    ensures others { (before : Option Row) (key : RowKey) (cand : Cand) (stamp : ℕ) (word : List ℕ) →
        same_text cand.word word ≡ false →
        note_of (annotated before key cand stamp).cands word ≡ note_of (row_or_empty key before).cands word }
    ensures shown { (before : Option Row) (key : RowKey) (cand : Cand) (stamp : ℕ) →
        has_text (annotated before key cand stamp).hides cand.word ≡ false }
{}

/// A row hides no word of its own: of the first layer every candidate is found, in its order.
pub fn no_row_hides_its_own_words()
    ensures { (row : Row) (below : List Row) (okuri : Option (List ℕ)) → is_row row ≡ true →
        (rest : List Cand) × (merged (row ∷ below) okuri ≡ ordered row okuri ++ rest) }
{}

/// What a typist's look-up and completion are answered depends on the rows of the books that the typist reads, and on
/// the system files, alone: who does not read a book is not answered from it.
pub fn answers_depend_on_the_books_read()
    ensures lookup { (files : List (List Row)) (state other : State) (who : ℕ) →
        shared_books other who ≡ shared_books state who → All (SameRows state other) (books_read state who) →
        (key : RowKey) (okuri : Option (List ℕ)) →
        answer files other (Lookup who key okuri) ≡ answer files state (Lookup who key okuri) }
    ensures complete { (files : List (List Row)) (state other : State) (who : ℕ) →
        shared_books other who ≡ shared_books state who → All (SameRows state other) (books_read state who) →
        (prefix : List ℕ) → answer files other (Complete who prefix) ≡ answer files state (Complete who prefix) }
{}

/// No book is read twice: neither the typist's own, which a list may name too, nor another.
pub fn no_book_is_read_twice()
    ensures { (state : State) (who : ℕ) → is_valid state ≡ true → twice_at (books_read state who) ≡ None }
{}

/// No word is found twice.
pub fn found_words_differ()
    ensures { (files : List (List Row)) (state : State) (who : ℕ) (key : RowKey) (okuri : Option (List ℕ)) →
        texts_differ (words_of (found files state who key okuri)) ≡ true }
{}

/// Completions are at most 256 readings, all different, and each goes on from the prefix.
pub fn completions_go_on_and_differ()
    ensures few { (files : List (List Row)) (state : State) (who : ℕ) (prefix : List ℕ)
        → length (completions files state who prefix) ≤ completion_limit }
    ensures differ { (files : List (List Row)) (state : State) (who : ℕ) (prefix : List ℕ)
        → texts_differ (completions files state who prefix) ≡ true }
    ensures go_on { (files : List (List Row)) (state : State) (who : ℕ) (prefix : List ℕ)
        → list_all (goes_on_from prefix) (completions files state who prefix) ≡ true }
{}

/// The next reading of a file is one of its readings, is greater, and is the least that is so; where there is none, no
/// reading is greater.
pub fn the_next_reading_is_the_least_above()
    ensures some { (texts : List (List ℕ)) (low next : List ℕ) → texts_ascend texts ≡ true
        → next_above texts low ≡ Some next →
        (has_text texts next ≡ true) × (text_less low next ≡ true) × (list_all (is_least_above low next) texts ≡ true) }
    ensures none { (texts : List (List ℕ)) (low : List ℕ) → next_above texts low ≡ None
        → list_all (λ text. not (text_less low text)) texts ≡ true }
{}

/// A prefix of a legal history is legal.
pub fn prefixes_of_legal_histories_are_legal()
    ensures { (opening : Opening) (prefix rest : List Entry) → IsLegal opening (prefix ++ rest)
        → IsLegal opening prefix }
{}

/// The changes of a legal history make its state.
pub fn changes_make_states()
    ensures { (opening : Opening) (history : List Entry) → IsLegal opening history →
        state_after opening.state history ≡ after_calls opening.state (changes history) }
{}

/// Answers that are counted one by one come to the tally of their history.
pub fn counting_comes_to_the_tally()
    ensures none { (state : State) → record (tally_of state []) { rows = 0 } ≡ empty_tally }
    ensures more { (state : State) (history : List Entry) (entry : Entry) →
        tally_with (tally_of state history) entry.answer
        ≡ record (tally_of state (history ++ entry ∷ [])) { rows = (tally_of state history).rows } }
{}
