ghost use Rattle.std.specs.Prelude.{◌≡◌, ◌≢◌, ◌<◌, ◌^◌, ℕ, MatchOption};
ghost use Rattle.std.specs.Fmt.{decimal};
ghost use Rattle.std.specs.Str.{chars};
ghost use Rattle.command_line.specs.Words.{number_within};

use itoa::Buffer;

/// The number that the text writes, without a sign and without leading zeros, where it is within the bounds.
pub fn number_within(text: &str, least: u64, most: u64) -> Option<u64>
    ensures { result ≡ number_within least most (chars text.now) }
{
    let number = long_number(text)?;
    if number < least || most < number {
        return None;
    }
    Some(number)
}

// The number that the text writes, without a sign and without leading zeros. Nothing where it writes none, or one that
// no `u64` has.
fn long_number(text: &str) -> Option<u64>
    ensures { MatchOption result ((number : ℕ) → number < 2 ^ 64
        → text.now ≢ decimal number) (λ found. text.now ≡ decimal found) }
{
    let number = text.parse::<u64>().ok()?;
    if Buffer::new().format(number) != text {
        return None;
    }
    Some(number)
}
