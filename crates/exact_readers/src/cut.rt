ghost use Rattle.std.specs.Prelude.{◌≡◌, ◌==◌, ◌∷◌, []};
ghost use Rattle.std.specs.Option.{option_map};
ghost use Rattle.std.specs.Str.{chars};
ghost use Rattle.exact_readers.specs.Cuts.{cut, without_spaces};
ghost use Rattle.exact_readers.specs.Formats.{past};

/// What stands before the first such character and what stands behind it, where there is one.
pub fn cut_at(text: &str, end: char) -> Option<(&str, &str)>
    ensures { option_map (λ parts. (chars parts.0.now, chars parts.1.now)) result
        ≡ cut (λ c. c == end) (chars text.now) }
{
    text.split_once(end)
}

/// What stands behind a character, where the text begins with it.
pub fn past_char(text: &str, c: char) -> Option<&str>
    ensures { option_map (λ rest. chars rest.now) result ≡ past (c ∷ []) (chars text.now) }
{
    text.strip_prefix(c)
}

/// The text behind its leading spaces.
pub fn behind_spaces(text: &str) -> &str
    ensures { chars result.now ≡ without_spaces (chars text.now) }
{
    let mut rest = text;
    while let Some(behind) = past_char(rest, ' ') {
        rest = behind;
    }
    rest
}

/// What stands behind a word, where the text begins with it.
pub fn past<'t>(text: &'t [char], word: &[char]) -> Option<&'t [char]>
    ensures { option_map (λ rest. rest.now) result ≡ past word.now text.now }
{
    text.strip_prefix(word)
}
