ghost use Rattle.std.specs.Prelude.{◌≡◌, ◌<◌, [], length, position, IfSome, MatchOption};
ghost use Rattle.std.specs.Option.{option_map};
ghost use Rattle.exact_readers.specs.Cuts.{cut};
ghost use Rattle.exact_readers.specs.Lines.{is_line_feed, IsFirstLine, without_return};

/// What stands before the first LF and what stands behind it, where there is one.
pub fn cut_line(text: &str) -> Option<(&str, &str)>
    ensures { option_map (λ parts. (parts.0.now, parts.1.now)) result ≡ cut is_line_feed text.now }
{
    text.split_once('\n')
}

/// The first line without its LF, and what follows it; nothing where there is no line.
pub fn first_line(text: &str) -> Option<(&str, &str)>
    ensures { MatchOption result (text.now ≡ []) (λ p. IsFirstLine text.now p.0.now p.1.now) }
{
    if text.is_empty() {
        return None;
    }
    match cut_line(text) {
        Some((line, behind)) => Some((line, behind)),
        None => Some((text, "")),
    }
}

/// The first line of bytes without its LF, and what follows it; nothing where there is no line.
pub fn first_byte_line(bytes: &[u8]) -> Option<(&[u8], &[u8])>
    ensures { MatchOption result (bytes.now ≡ []) (λ p. IsFirstLine bytes.now p.0.now p.1.now) }
{
    if bytes.is_empty() {
        return None;
    }
    match cut_byte_line(bytes) {
        Some((line, behind)) => Some((line, behind)),
        None => Some((bytes, &[])),
    }
}

// What stands before the first LF of bytes and what stands behind it, where there is one.
fn cut_byte_line(bytes: &[u8]) -> Option<(&[u8], &[u8])>
    ensures { option_map (λ parts. (parts.0.now, parts.1.now)) result ≡ cut is_line_feed bytes.now }
{
    match line_end(bytes) {
        Some(end) => Some((&bytes[..end], &bytes[end + 1..])),
        None => None,
    }
}

// Where the first LF of bytes stands.
fn line_end(bytes: &[u8]) -> Option<usize>
    ensures value { result ≡ position is_line_feed bytes.now }
    ensures within { IfSome result (λ end. end < length bytes.now) }
{
    bytes.iter().position(|byte| *byte == b'\n')
}

/// A line without the CR with which it may end.
pub fn without_return(line: &str) -> &str
    ensures { result.now ≡ without_return line.now }
{
    match line.strip_suffix('\r') {
        Some(shorter) => shorter,
        None => line,
    }
}
