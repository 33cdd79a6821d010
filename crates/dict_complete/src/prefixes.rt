ghost use Rattle.std.specs.Prelude.{◌≡◌, nat_eq};
ghost use Rattle.std.specs.List.{starts_with};

use skk_text::Text;

/// Whether a text begins with a prefix. Takes no memory, and time in the length of the prefix.
pub fn begins_with(text: &Text, prefix: &Text) -> bool
    ensures { result ≡ starts_with nat_eq text.now prefix.now }
{
    let bytes = text.as_str().as_bytes();
    bytes.starts_with(prefix.as_str().as_bytes())
}
