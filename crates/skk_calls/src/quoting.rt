ghost use Rattle.std.specs.Prelude.{◌≡◌, ◌||◌, nat_eq, nat_lt, true};
ghost use Rattle.std.specs.List.{list_all, list_any, starts_with};
ghost use Rattle.std.specs.Str.{chars};
ghost use Rattle.skk_calls.specs.Canonical.{begins_form, is_special};

use skk_text::Text;

/// Whether a word could not be read as it is on a line of a dictionary, so that it is written there as a string. Takes
/// no memory, and time in the word's length.
pub fn needs_quotes(word: &Text) -> bool
    ensures { result ≡ (list_any is_special word.now || begins_form word.now) }
{
    is_quoted(word.as_str())
}

// Whether a word is written as a string.
pub(crate) fn is_quoted(word: &str) -> bool
    ensures { result ≡ (list_any is_special (chars word.now) || begins_form (chars word.now)) }
{
    holds_special(word) || begins_form(word)
}

// Whether a text holds a character that no plain word has.
fn holds_special(text: &str) -> bool
    ensures { result ≡ list_any is_special (chars text.now) }
{
    text.chars().any(is_special)
}

// Whether no plain word holds a character.
fn is_special(c: char) -> bool
    ensures { result ≡ is_special c }
{
    matches!(c, '/' | ';' | '"' | '\\' | '\r' | '\n')
}

// Whether no plain word begins so.
fn begins_form(word: &str) -> bool
    ensures { result ≡ begins_form (chars word.now) }
{
    begins(word, b"[")
        || begins(word, b"]")
        || begins(word, b"(concat ")
        || begins(word, b"(skk-ignore-dic-word ")
}

// Whether a word begins with ASCII text.
fn begins(word: &str, prefix: &[u8]) -> bool
    requires { list_all (λ c. nat_lt c 128) prefix.now ≡ true }
    ensures { result ≡ starts_with nat_eq (chars word.now) prefix.now }
{
    word.as_bytes().starts_with(prefix)
}
