ghost use Rattle.std.specs.Prelude.{◌≡◌, ◌<◌, ◌==◌, ◌∷◌, ◌++◌, [], None, ℕ, List, length, IfOk, MatchOption};
ghost use Rattle.std.specs.List.{list_all, slice_split};
ghost use Rattle.std.specs.Str.{chars};
ghost use Rattle.std.specs.Option.{option_map};
ghost use Rattle.skk_text.specs.Lines.{line_feed, lines_of};
ghost use Rattle.romaji_rules.specs.Fitting.{is_input_char, is_input_text};
ghost use Rattle.romaji_rules.specs.RuleFiles.{without_returns, says_rule, is_output_char, is_output, fields_fit};
ghost use Rattle.romaji_rules.specs.RuleFiles.{rule_of_line};
ghost use Rattle.romaji_rules.specs.RuleLines.{rule_said, IsOneLine};

use crate::out::Out;
use crate::rule::Rule;
use skk_text::{Bytes, Memory, Text};
use std::alloc::Global;

/// The fields of a line that spells a rule.
#[derive(Clone, Copy)]
pub struct RuleFields<'a> {
    pub input: &'a str,
    pub next: &'a str,
    pub hira: &'a str,
    pub kata: &'a str,
}

impl<'a> RuleFields<'a> {
    /// The rule of these fields.
    pub fn rule(self, alloc: Global) -> Result<Rule, Memory>
        ensures { IfOk result (λ rule. rule ≡ rule_said self.entry) }
    {
        let mut out = Out::nothing(alloc);
        out.hira.push_str(self.hira)?;
        out.kata.push_str(self.kata)?;
        Ok(Rule {
            input: Bytes::of(Vec::from_slice(alloc, self.input.as_bytes())?),
            next: Bytes::of(Vec::from_slice(alloc, self.next.as_bytes())?),
            out,
        })
    }
}

/// The first line and what follows it: without its LF and the CR before that, or as it stands where it lacks LF.
/// Nothing where there is no line.
pub fn next_line(text: &str) -> Option<(&str, &str)>
    ensures { MatchOption result (text.now ≡ [])
        (λ p. (lines_of (without_returns text.now) ≡ p.0.now ∷ lines_of (without_returns p.1.now))
        × (length p.1.now < length text.now)) }
{
    if text.is_empty() {
        return None;
    }
    match text.split_once('\n') {
        Some((line, behind)) => Some((without_return(line), behind)),
        None => Some((text, "")),
    }
}

// A line without the CR with which it may end.
fn without_return(line: &str) -> &str
    ensures { (behind : List ℕ) → IsOneLine line.now
        → lines_of (without_returns (line.now ++ line_feed ∷ behind)) ≡ result.now ∷ lines_of (without_returns behind) }
{
    match line.strip_suffix('\r') {
        Some(shorter) => shorter,
        None => line,
    }
}

/// Whether a line says a rule: it is neither empty nor a comment.
pub fn says_rule(line: &str) -> bool
    ensures { result ≡ says_rule line.now }
{
    !line.is_empty() && !line.starts_with('#')
}

/// The fields of a line, where it spells a rule.
pub fn fields_of(line: &str) -> Option<RuleFields<'_>>
    ensures { option_map rule_said result ≡ rule_of_line line.now }
{
    let fields = four_fields(line)?;
    if are_fit(fields) { Some(fields) } else { None }
}

// The four fields of a line between TABs.
fn four_fields(line: &str) -> Option<RuleFields<'_>>
    ensures { MatchOption result (rule_of_line line.now ≡ None)
        (λ f. slice_split (λ c. c == 9) line.now ≡ f.input.now ∷ f.next.now ∷ f.hira.now ∷ f.kata.now ∷ []) }
{
    let (input, behind_input) = first_field(line)?;
    let (next, behind_next) = first_field(behind_input)?;
    let (hira, kata) = first_field(behind_next)?;
    match first_field(kata) {
        Some(_) => None,
        None => Some(RuleFields {
            input,
            next,
            hira,
            kata,
        }),
    }
}

// The first field and what stands behind the TAB that ends it; nothing where there is no TAB.
fn first_field(text: &str) -> Option<(&str, &str)>
    ensures { MatchOption result (slice_split (λ c. c == 9) text.now ≡ text.now ∷ [])
        (λ p. slice_split (λ c. c == 9) text.now ≡ p.0.now ∷ slice_split (λ c. c == 9) p.1.now) }
{
    text.split_once('\t')
}

// Whether the fields may be those of a rule.
fn are_fit(fields: RuleFields<'_>) -> bool
    ensures { result
        ≡ fields_fit fields.entry.input.now fields.entry.next.now fields.entry.hira.now fields.entry.kata.now }
{
    is_input(fields.input)
        && fields.next.len() <= 8
        && is_output(fields.hira)
        && is_output(fields.kata)
}

// Whether a field may be an input.
fn is_input(text: &str) -> bool
    ensures { result ≡ is_input_text text.now }
{
    1 <= text.len() && text.len() <= 8 && are_input_chars(text.as_bytes())
}

// Whether each character may stand in an input.
fn are_input_chars(text: &[u8]) -> bool
    ensures { result ≡ list_all is_input_char text.now }
{
    text.iter().all(|c| 0x21 <= *c && *c <= 0x7E && !(0x41 <= *c && *c <= 0x5A))
}

// Whether a field may be an output.
fn is_output(text: &str) -> bool
    ensures { result ≡ is_output text.now }
{
    text.len() <= 24 && are_output_chars(text)
}

// Whether each character may stand in an output.
fn are_output_chars(text: &str) -> bool
    ensures { result ≡ list_all is_output_char (chars text.now) }
{
    text.chars().all(|c| c > ' ' && c != '\u{7F}')
}
