ghost use Rattle.std.specs.Prelude.{◌≡◌};
ghost use Rattle.numeric_entries.specs.Forms.{form_named};

/// What stands for a number in a word: a `#`, and the digit that names the form.
#[derive(Clone, Copy, Debug, PartialEq, Eq)]
pub enum NumberForm {
    /// `#0`: the digits.
    Digits,
    /// `#1`: the digits, each in its wide form.
    Wide,
    /// `#2`: the digits, each in kanji.
    Kanji,
    /// `#3`: the number in kanji with places.
    Places,
    /// `#4`: the word that is found for the digits.
    Lookup,
    /// `#5`: the number in the kanji of legal documents (大字) with places.
    Formal,
    /// `#8`: the digits in groups of three.
    Commas,
    /// `#9`: two digits as a square of a shogi board.
    Square,
}

// The form that a character names.
pub fn form_named(c: char) -> Option<NumberForm>
    ensures { result ≡ form_named c }
{
    match c {
        '0' => Some(NumberForm::Digits),
        '1' => Some(NumberForm::Wide),
        '2' => Some(NumberForm::Kanji),
        '3' => Some(NumberForm::Places),
        '4' => Some(NumberForm::Lookup),
        '5' => Some(NumberForm::Formal),
        '8' => Some(NumberForm::Commas),
        '9' => Some(NumberForm::Square),
        _ => None,
    }
}
