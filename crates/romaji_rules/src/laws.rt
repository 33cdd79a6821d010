ghost use Rattle.std.specs.Prelude.{◌≡◌, ◌↔◌, ℕ, List, true};
ghost use Rattle.romaji_rules.specs.declared.out.Out.{Out};
ghost use Rattle.romaji_rules.specs.declared.rule.Rule.{Rule};
ghost use Rattle.romaji_rules.specs.Fed.{Fed, Flushed};
ghost use Rattle.romaji_rules.specs.Typed.{fed, flushed};
ghost use Rattle.romaji_rules.specs.Fitting.{inputs_differ};

/// Where no two rules have one input, exactly one step is that of the rules: the one that is computed.
pub fn one_step()
    ensures { (rules : List Rule) (pending : List ℕ) (c : ℕ) (next : List ℕ) (out : Out) → inputs_differ rules ≡ true →
        (Fed rules pending c next out ↔ (fed rules pending c ≡ record { pending = next; out = out })) }
{}

/// In the same way exactly one output is that of what is pending.
pub fn one_flush()
    ensures { (rules : List Rule) (pending : List ℕ) (out : Out) → inputs_differ rules ≡ true →
        (Flushed rules pending out ↔ (flushed rules pending ≡ out)) }
{}
