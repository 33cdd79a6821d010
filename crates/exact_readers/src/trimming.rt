ghost use Rattle.std.specs.Prelude.{◌≡◌, ◌∷◌, ◌++◌, [], ℕ, true, MatchOption};
ghost use Rattle.exact_readers.specs.Trimming.{without_mark, without_blanks, is_blank, trimmed_line};

use crate::lines::without_return;

/// A text without the mark U+FEFF with which it may begin.
pub fn without_mark(text: &str) -> &str
    ensures { result.now ≡ without_mark text.now }
{
    match text.strip_prefix('\u{FEFF}') {
        Some(behind) => behind,
        None => text,
    }
}

/// A line without the CR at its end, nor the spaces and TABs before that.
pub fn trimmed_line(line: &str) -> &str
    ensures { result.now ≡ trimmed_line line.now }
{
    without_blanks(without_return(line))
}

// A line without the spaces and TABs with which it ends.
fn without_blanks(line: &str) -> &str
    ensures { result.now ≡ without_blanks line.now }
{
    let mut rest = line;
    while let Some(shorter) = without_blank(rest) {
        rest = shorter;
    }
    rest
}

// A line without the space or TAB at its end; nothing where neither is there.
fn without_blank(line: &str) -> Option<&str>
    ensures { MatchOption result (without_blanks line.now ≡ line.now)
        (λ shorter. (blank : ℕ) × (is_blank blank ≡ true) × (line.now ≡ shorter.now ++ blank ∷ [])) }
{
    match line.strip_suffix(' ') {
        Some(shorter) => Some(shorter),
        None => line.strip_suffix('\t'),
    }
}
