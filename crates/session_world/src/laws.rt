ghost use Rattle.std.specs.Prelude.{◌≡◌, ℕ, Some, List};
ghost use Rattle.romaji_rules.specs.declared.rule.Rule.{Rule};
ghost use Rattle.skk_calls.specs.Rows.{Row};
ghost use Rattle.session_world.specs.Stands.{Stands};
ghost use Rattle.session_world.specs.Worlds.{World, all_stepped, new_world};
ghost use Rattle.session_world.specs.declared.event.Event.{Event};

/// Whatever the events, where each may come at its time: each session is what its ended keys leave of a new one by its
/// part of the history, its key under way has asked the rest of that part, the dictionary is the state after the
/// history, and the history is legal.
pub fn worlds_stand()
    ensures { (sessions : List (ℕ × ℕ)) (rules : List Rule) (files : List (List Row)) (happened : List Event)
        (world : World) → all_stepped (new_world sessions rules files) happened ≡ Some world → Stands world }
{}
