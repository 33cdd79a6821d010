ghost use Rattle.std.specs.Prelude.{◌≡◌, ◌≢◌, ℕ, List, [], true};
ghost use Rattle.std.specs.List.{list_all};
ghost use Rattle.skk_calls.specs.declared.entry.Entry.{Entry};
ghost use Rattle.skk_calls.specs.Histories.{dialog};
ghost use Rattle.skk_calls.specs.Openings.{is_reply};
ghost use Rattle.skk_calls.specs.States.{State};
ghost use Rattle.skk_calls.specs.Tallies.{tally_of};
ghost use Rattle.dict_laws.specs.OwnBooks.{is_own_entry};

/// Two histories in which each caller says the same come to one tally, in whatever order the callers are answered:
/// where no call is refused, each caller's calls are its typist's own, and each has a typist of its own.
pub fn callers_who_say_the_same_come_to_one_tally()
    ensures { (state : State) (typist_of : ℕ → ℕ) (history other : List Entry)
        → ((number : ℕ) → dialog other number ≡ dialog history number)
        → list_all (is_own_entry typist_of) history ≡ true
        → ((first second : ℕ) → dialog history first ≢ [] → dialog history second ≢ []
        → typist_of first ≡ typist_of second → first ≡ second)
        → list_all (λ entry. is_reply entry.answer) history ≡ true
        → tally_of state other ≡ tally_of state history }
{}
