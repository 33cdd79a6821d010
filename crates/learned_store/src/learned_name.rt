use skk_calls::OpeningName;
use std::marker::Brand;

/// Names what a store was opened as, for the proof alone: a call at `Brand` picks it.
pub trait LearnedName: OpeningName {
    ghost use Rattle.std.specs.Prelude.{ℕ};
    ghost use Rattle.skk_disk.specs.Image.{Image};

    /// What a stop since a moment might have left, when the store was opened.
    ghost past: { ℕ → Image → Type 0 };
}

impl LearnedName for Brand {
    ghost past = { λ _ _. ⊥ };
}
