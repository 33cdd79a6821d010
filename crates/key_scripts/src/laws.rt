ghost use Rattle.std.specs.Prelude.{◌≡◌, ◌⊎◌, ◌++◌, ◌∷◌, ℕ, List, []};
ghost use Rattle.std.specs.Fmt.{decimal};
ghost use Rattle.std.specs.Int.{IsInRange};
ghost use Rattle.key_scripts.specs.Script.{IsTypist, Says, IsFirstBad};
ghost use Rattle.key_scripts.specs.declared.line.Line.{Line};

use skk_text::one_list_of_keys;

/// Texts say one list of lines at most.
pub fn one_script()
    ensures { (texts : List (List ℕ)) (lines others : List Line) → Says [] texts lines → Says [] texts others
        → lines ≡ others }
{
    one_list_of_keys();
}

/// Texts that say lines have no first bad line.
pub fn no_bad_line_in_a_script()
    ensures { (texts : List (List ℕ)) (lines : List Line) (number : ℕ) → Says [] texts lines
        → ¬ IsFirstBad texts number }
{
    one_list_of_keys();
}

/// One line at most is the first bad one.
pub fn one_bad_line()
    ensures { (texts : List (List ℕ)) (number other : ℕ) → IsFirstBad texts number → IsFirstBad texts other
        → number ≡ other }
{
    one_list_of_keys();
}

/// A text writes one typist and one book at most, with a byte between them that is no digit.
pub fn one_typist_and_book()
    ensures { (between typist book other other_book : ℕ) → ¬ IsInRange 48 57 between → IsTypist typist
        → (book ≡ 0) ⊎ (book ≡ typist) → IsTypist other → (other_book ≡ 0) ⊎ (other_book ≡ other)
        → decimal typist ++ between ∷ decimal book ≡ decimal other ++ between ∷ decimal other_book
        → (typist ≡ other) × (book ≡ other_book) }
{}
