ghost use Rattle.std.specs.Prelude.{◌≡◌, ℕ, List, true, false};
ghost use Rattle.std.specs.List.{list_all};
ghost use Rattle.skk_calls.specs.declared.call.Call.{Call};
ghost use Rattle.skk_calls.specs.BookLists.{has_number};
ghost use Rattle.skk_calls.specs.Dictionary.{answer, after};
ghost use Rattle.skk_calls.specs.declared.entry.Entry.{Entry};
ghost use Rattle.skk_calls.specs.Histories.{Opening, IsLegal, dialog, state_after, after_calls};
ghost use Rattle.skk_calls.specs.Interactions.{IsAnsweredAlone, calls_of};
ghost use Rattle.skk_calls.specs.Openings.{is_reply};
ghost use Rattle.skk_calls.specs.Rows.{Row};
ghost use Rattle.skk_calls.specs.States.{State, books_read};
ghost use Rattle.dict_laws.specs.OwnBooks.{GivesOwn, LookAlike, is_apart, is_own, is_own_entry};

/// What a typist's own call is answered depends on the books that the typist reads and on the system files alone, and
/// so does what it leaves of these books.
pub fn own_calls_look_at_own_books()
    ensures reply { (files : List (List Row)) (typist : ℕ) (state other : State) (call : Call)
        → LookAlike typist state other → is_own typist call ≡ true
        → answer files other call ≡ answer files state call }
    ensures state { (typist : ℕ) (state other : State) (call : Call)
        → LookAlike typist state other → is_own typist call ≡ true
        → LookAlike typist (after state call) (after other call) }
{}

/// A typist's own call leaves the books that another typist reads, where the typist's own is none of them.
pub fn own_calls_leave_other_books()
    ensures { (writer typist : ℕ) (state : State) (call : Call) → is_own writer call ≡ true
        → has_number (books_read state typist) writer ≡ false → LookAlike typist state (after state call) }
{}

/// Whatever others call in between, a caller is answered as if it called alone, and its typist's book is what its own
/// calls made of it: where each caller's calls are its typist's own, the caller's typist reads no book that is another
/// caller's own, and the caller was refused nothing.
pub fn each_typist_is_answered_alone()
    ensures answers { (opening : Opening) (history : List Entry) (typist_of : ℕ → ℕ) (number : ℕ)
        → IsLegal opening history → list_all (is_own_entry typist_of) history ≡ true
        → list_all (is_apart opening.state typist_of number) history ≡ true
        → list_all (λ pair. is_reply pair.1) (dialog history number) ≡ true
        → IsAnsweredAlone opening.files opening.state (dialog history number) }
    ensures book { (state : State) (history : List Entry) (typist_of : ℕ → ℕ) (number : ℕ)
        → list_all (is_own_entry typist_of) history ≡ true
        → list_all (is_apart state typist_of number) history ≡ true
        → list_all (λ pair. is_reply pair.1) (dialog history number) ≡ true
        → LookAlike (typist_of number) (state_after state history)
        (after_calls state (calls_of (dialog history number))) }
{}

/// Whoever else calls in a legal history, a typist's own calls are given learnings of the typist's own book alone.
pub fn own_calls_are_given_own_learnings()
    ensures { (opening : Opening) (history : List Entry) (typist number : ℕ)
        → IsLegal opening history → GivesOwn typist (dialog history number) }
{}
