ghost use Rattle.std.specs.Prelude.{◌≡◌, ◌≢◌, ◌≤◌, ◌<◌, ◌++◌, ◌∷◌, ℕ, List, length, slice_index, IfSome, IsNone};
ghost use Rattle.std.specs.Fmt.{decimal};
ghost use Rattle.std.specs.Int.{IsInRange};

/// The number that the text begins with, the byte behind it, which is no digit, and what follows that.
/// Nothing where no such number stands there, or it has more than five digits.
pub fn number_then(text: &[u8]) -> Option<(u32, u8, &[u8])>
    ensures some { IfSome result (λ found. (found.0 ≤ 99999) × (¬ IsInRange 48 57 found.1)
        × (text.now ≡ decimal found.0 ++ found.1 ∷ found.2.now)) }
    ensures none { IsNone result → (number mark : ℕ) (rest : List ℕ) → number ≤ 99999 → (¬ IsInRange 48 57 mark)
        → text.now ≢ decimal number ++ mark ∷ rest }
{
    let end = digits_len(text);
    if end == text.len() {
        return None;
    }
    let value = number(&text[..end])?;
    Some((value, text[end], &text[end + 1..]))
}

/// The number that the text writes, without a sign and without leading zeros. Nothing where it writes none, or
/// has more than five digits.
pub fn number(text: &[u8]) -> Option<u32>
    ensures some { IfSome result (λ found. (found ≤ 99999) × (text.now ≡ decimal found)) }
    ensures none { IsNone result → (number : ℕ) → number ≤ 99999 → text.now ≢ decimal number }
{
    if text.is_empty() || text.len() > 5 {
        return None;
    }
    if text.len() > 1 && text[0] == b'0' {
        return None;
    }
    let mut value: u32 = 0;
    for digit in text {
        if !digit.is_ascii_digit() {
            return None;
        }
        value = value * 10 + u32::from(*digit - b'0');
    }
    Some(value)
}

// How many digits the text begins with.
fn digits_len(text: &[u8]) -> usize
    ensures within { result ≤ length text.now }
    ensures digits { (k : ℕ) → k < result → IsInRange 48 57 (slice_index text.now k) }
    ensures ends { result < length text.now → ¬ IsInRange 48 57 (slice_index text.now result) }
{
    for (place, byte) in text.iter().enumerate() {
        if !byte.is_ascii_digit() {
            return place;
        }
    }
    text.len()
}
