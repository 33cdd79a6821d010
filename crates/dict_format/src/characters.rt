ghost use Rattle.std.specs.Prelude.{◌≡◌, ◌<◌};
ghost use Rattle.std.specs.Option.{option_map};
ghost use Rattle.dict_format.specs.Words.{digit_below, octal, escaped, string_character};

// The character that the front of a string spells, and what stands behind that.
pub fn string_character(text: &[char]) -> Option<(char, &[char])>
    ensures { option_map (λ parts. (parts.0, parts.1.now)) result ≡ string_character.step text.now }
{
    match text {
        [] | ['"', ..] => None,
        ['\\', rest @ ..] => escaped(rest),
        [c, rest @ ..] => Some((*c, rest)),
    }
}

// The character that a backslash with a text behind it spells.
fn escaped(text: &[char]) -> Option<(char, &[char])>
    ensures { option_map (λ parts. (parts.0, parts.1.now)) result ≡ escaped.step text.now }
{
    match text {
        ['"', rest @ ..] => Some(('"', rest)),
        ['\\', rest @ ..] => Some(('\\', rest)),
        ['n', rest @ ..] => Some(('\n', rest)),
        ['r', rest @ ..] => Some(('\r', rest)),
        _ => octal(text),
    }
}

// The character of three octal digits, and what stands behind those.
fn octal(text: &[char]) -> Option<(char, &[char])>
    ensures { option_map (λ parts. (parts.0, parts.1.now)) result ≡ octal.step text.now }
{
    let [high, middle, low, rest @ ..] = text else {
        return None;
    };
    let high = digit_below(2, *high)?;
    let middle = digit_below(8, *middle)?;
    let low = digit_below(8, *low)?;
    let c = char::from_u32(high * 64 + middle * 8 + low)?;
    Some((c, rest))
}

// The value of a digit below a bound.
fn digit_below(bound: u32, c: char) -> Option<u32>
    requires { bound < 11 }
    ensures { result ≡ digit_below bound c }
{
    let number = c as u32;
    if 0x30 <= number && number < 0x30 + bound {
        Some(number - 0x30)
    } else {
        None
    }
}
