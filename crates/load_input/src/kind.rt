use skk_text::Key;

/// What the keys of a line do with its word.
#[derive(Clone, Copy, Debug, PartialEq, Eq)]
pub enum Kind {
    /// They type it.
    Typed,
    /// They convert it, and take its first candidate.
    First,
    /// They convert it, and take its second candidate.
    Second,
    /// They convert it, take its first candidate, and take that back.
    TakenBack,
}

impl Kind {
    ghost use Rattle.std.specs.Prelude.{◌≡◌};
    ghost use Rattle.load_input.specs.Lines.{kind_of, keys_behind};

    /// The kind of a number below 4.
    pub fn of(number: u64) -> Kind
        ensures { result ≡ kind_of number }
    {
        match number {
            0 => Kind::Typed,
            1 => Kind::First,
            2 => Kind::Second,
            _ => Kind::TakenBack,
        }
    }

    /// The keys behind the word.
    pub fn keys_behind(self) -> &'static [Key]
        ensures { result.now ≡ keys_behind self }
    {
        match self {
            Kind::Typed => &[],
            Kind::First => &[Key::Char(b' '), Key::Cj],
            Kind::Second => &[Key::Char(b' '), Key::Char(b' '), Key::Cj],
            Kind::TakenBack => &[Key::Char(b' '), Key::Cj, Key::Undo, Key::Cg, Key::Cg],
        }
    }
}
