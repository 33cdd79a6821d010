ghost use Rattle.std.specs.Prelude.{◌≡◌};
ghost use Rattle.dict_format.specs.FileLines.{kind_of};

use skk_calls::Part;

/// What a line of a file is.
#[derive(Clone, Copy, Debug, PartialEq, Eq)]
pub enum LineKind {
    /// A part line, which opens this part.
    Opening(Part),
    /// An entry.
    Entry,
    /// Empty, or a comment.
    Skipped,
}

/// What a line is, by what is read of it.
pub fn kind_of(line: &str) -> LineKind
    ensures { result ≡ kind_of line.now }
{
    if line == ";; okuri-ari entries." {
        LineKind::Opening(Part::Ari)
    } else if line == ";; okuri-nasi entries." {
        LineKind::Opening(Part::Nasi)
    } else if line.is_empty() || line.starts_with(';') {
        LineKind::Skipped
    } else {
        LineKind::Entry
    }
}
