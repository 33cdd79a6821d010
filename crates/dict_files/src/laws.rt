ghost use Rattle.std.specs.Prelude.{◌≡◌, ℕ, true, List, map};
ghost use Rattle.std.specs.List.{filter};
ghost use Rattle.skk_calls.specs.Completions.{ascending_readings, goes_on_from, reading_of};
ghost use Rattle.ordered_lists.specs.Orders.{sort_by};
ghost use Rattle.skk_calls.specs.Orders.{text_less};
ghost use Rattle.skk_calls.specs.Rows.{Row, keys_differ};
ghost use Rattle.dict_files.specs.Walked.{is_walked, walked_readings};

/// The readings that a walk goes over in a file, in which no two rows have one key, are those of its rows without
/// okurigana that have a candidate, ascending; and those of them that go on from a prefix are the readings that
/// complete it.
pub fn walks_go_over_completions()
    ensures readings { (rows : List Row) → keys_differ rows ≡ true
        → walked_readings rows ≡ sort_by text_less (map reading_of (filter is_walked rows)) }
    ensures completions { (prefix : List ℕ) (rows : List Row) → keys_differ rows ≡ true
        → filter (goes_on_from prefix) (walked_readings rows) ≡ ascending_readings prefix rows }
{}
