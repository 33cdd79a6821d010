ghost use Rattle.std.specs.Prelude.{◌≡◌, ◌<◌, ◌≤◌, ◌++◌, ℕ, true, false, OnOk, IsNone, IfSome, length, slice_index};
ghost use Rattle.std.specs.Io.{StartsWith};
ghost use Rattle.std.specs.List.{flat_map};
ghost use Rattle.std.specs.Str.{chars};
ghost use Rattle.session_machine.specs.Display.{escaped, has_escape, printed_form};

use skk_text::{Memory, Text};

// Adds a text as it is printed. A run of characters that need no escape is added whole.
#[tactic(auto, using(crate::proofs::Forms::kept))]
pub(crate) fn push_printed(page: &mut Text, text: &str) -> Result<(), Memory>
    ensures ok { OnOk result (page.new ≡ page.old ++ printed_form (chars text.now)) }
    ensures kept { StartsWith page.new page.old }
{
    let mut rest = text;
    while let Some((run, escape, behind)) = next_escape(rest) {
        page.push_str(run)?;
        page.push_str(escape)?;
        rest = behind;
    }
    page.push_str(rest)
}

// The run of characters before the first that has an escape, that escape, and what follows; nothing where no
// character has one.
fn next_escape(text: &str) -> Option<(&str, &'static str, &str)>
    ensures found { IfSome result (λ found. flat_map escaped (chars text.now)
        ≡ chars found.0.now ++ (chars found.1.now ++ flat_map escaped (chars found.2.now))) }
    ensures shorter { IfSome result (λ found. length found.2.now < length text.now) }
    ensures none { IsNone result → flat_map escaped (chars text.now) ≡ chars text.now }
{
    let place = first_escape(text)?;
    let escape = escape_of(text.as_bytes()[place])?;
    Some((&text[..place], escape, &text[place + 1..]))
}

// Where the first byte stands that has an escape.
fn first_escape(text: &str) -> Option<usize>
    ensures within { IfSome result (λ place. place < length text.now) }
    ensures plain { IfSome result (λ place. (k : ℕ) → k < place → has_escape (slice_index text.now k) ≡ false) }
    ensures ends { IfSome result (λ place. has_escape (slice_index text.now place) ≡ true) }
    ensures none { IsNone result → (k : ℕ) → k < length text.now → has_escape (slice_index text.now k) ≡ false }
{
    text.bytes().position(|byte| escape_of(byte).is_some())
}

// The escape of a byte, where it has one.
#[tactic(auto, using(crate::proofs::Words::words))]
fn escape_of(byte: u8) -> Option<&'static str>
    ensures some { IfSome result (λ escape. (has_escape byte ≡ true) × (chars escape.now ≡ escaped byte)) }
    ensures none { IsNone result → has_escape byte ≡ false }
{
    match byte {
        b'\n' => Some("\\n"),
        b'\r' => Some("\\r"),
        b'\t' => Some("\\t"),
        b'\\' => Some("\\\\"),
        _ => None,
    }
}
