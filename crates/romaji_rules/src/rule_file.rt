ghost use Rattle.std.specs.Prelude.{◌≡◌, ◌⊎◌, ◌∷◌, ◌++◌, [], true, None, Some, ℕ, List, slice_get, IfOk, IfErr};
ghost use Rattle.std.specs.Option.{option_map};
ghost use Rattle.skk_text.specs.Results.{AnswersUnless};
ghost use Rattle.romaji_rules.specs.declared.rule.Rule.{Rule};
ghost use Rattle.romaji_rules.specs.Fitting.{inputs_differ, is_rule_set};
ghost use Rattle.romaji_rules.specs.RuleFiles.{entries_of, says_rule, rule_of_line, numbered_rules, fault_behind};
ghost use Rattle.romaji_rules.specs.RuleFiles.{first_own_fault, first_next_fault, rules_in};
ghost use Rattle.romaji_rules.specs.RuleLines.{AreNumbered, TakesLine};
ghost use Rattle.romaji_rules.specs.Typed.{rule_of};

use crate::rule::Rule;
use crate::rule_fault::RuleFault;
use crate::rule_line::{fields_of, next_line, says_rule};
use crate::rule_list::RuleList;
use skk_text::Memory;
use std::alloc::Global;

/// The most bytes that a rule file may have.
pub const RULE_FILE_LIMIT: usize = 1_048_576;

/// The most rules that a rule file may have.
pub const RULE_LIMIT: usize = 4096;

/// The rules of lines, and the numbers of these lines.
#[derive(Drop)]
pub struct NumberedRules {
    rules: RuleList,
    numbers: Vec<usize>,
}

/// The rules of a file that is not too long and is UTF-8.
pub fn read_rules(alloc: Global, text: &str) -> Result<RuleList, RuleFault>
    ensures exact { AnswersUnless RuleFault.Memory result (rules_in text.now) }
    ensures rule_set { IfOk result (λ rules. is_rule_set rules ≡ true) }
{
    let lines = read_lines(alloc, text)?;
    match lines.bad_next() {
        Some(line) => Err(RuleFault::BadNext { line }),
        None => Ok(lines.rules),
    }
}

// The rules of the lines of a text, of which none has a fault by itself.
fn read_lines(alloc: Global, text: &str) -> Result<NumberedRules, RuleFault>
    ensures ok { IfOk result (λ lines. (first_own_fault (entries_of text.now) ≡ None)
        × AreNumbered lines.rules lines.numbers.items (numbered_rules (entries_of text.now))) }
    ensures err { IfErr result (λ fault. (fault ≡ RuleFault.Memory)
        ⊎ (first_own_fault (entries_of text.now) ≡ Some fault)) }
{
    let mut lines = NumberedRules::new(alloc)?;
    let mut number: usize = 0;
    let mut rest = text;
    while let Some((line, behind)) = next_line(rest) {
        number += 1;
        lines = lines.with_line(alloc, number, line)?;
        rest = behind;
    }
    Ok(lines)
}

impl NumberedRules {
    // None.
    fn new(alloc: Global) -> Result<NumberedRules, Memory>
        ensures { IfOk result (λ lines. (lines.rules ≡ []) × (lines.numbers.items ≡ [])) }
    {
        Ok(NumberedRules {
            rules: RuleList::new(alloc)?,
            numbers: Vec::new(alloc),
        })
    }

    // These and the rule of one line more, where it says one.
    fn with_line(self, alloc: Global, number: usize, line: &str) -> Result<NumberedRules, RuleFault>
        ensures ok { IfOk result (TakesLine self number line.now) }
        ensures err { IfErr result (λ fault. (fault ≡ RuleFault.Memory)
            ⊎ ((says_rule line.now ≡ true) × (fault_behind self.rules number (rule_of_line line.now) ≡ Some fault))) }
    {
        if !says_rule(line) {
            return Ok(self);
        }
        let rule = read_rule(alloc, &self.rules, number, line)?;
        Ok(self.with(number, rule)?)
    }

    // These and one rule more, of the line of this number.
    fn with(self, number: usize, rule: Rule) -> Result<NumberedRules, Memory>
        requires { rule_of self.rules rule.input ≡ None }
        ensures rules { IfOk result (λ lines. lines.rules ≡ self.rules ++ rule ∷ []) }
        ensures numbers { IfOk result (λ lines. lines.numbers.items ≡ self.numbers.items ++ number ∷ []) }
    {
        let NumberedRules { rules, mut numbers } = self;
        numbers.push(number)?;
        Ok(NumberedRules {
            rules: rules.with(rule)?,
            numbers,
        })
    }

    // The number of the first line whose next text is bad among all rules.
    fn bad_next(&self) -> Option<usize>
        ensures differ { inputs_differ self.now.rules ≡ true }
        ensures first { (numbered : List (ℕ × Rule)) → AreNumbered self.now.rules self.now.numbers.items numbered
            → option_map (λ line. RuleFault.BadNext line) result ≡ first_next_fault numbered }
    {
        let place = self.rules.bad_next()?;
        self.number_at(place)
    }

    // The number of the line of the rule at a place.
    fn number_at(&self, place: usize) -> Option<usize>
        ensures { result ≡ slice_get self.now.numbers.items place }
    {
        self.numbers.get(place).copied()
    }
}

// The rule of a line, where it has no fault behind these rules.
fn read_rule(alloc: Global, before: &RuleList, number: usize, line: &str) -> Result<Rule, RuleFault>
    ensures ok { IfOk result (λ rule. (rule_of_line line.now ≡ Some rule)
        × (fault_behind before.now number (rule_of_line line.now) ≡ None)) }
    ensures err { IfErr result (λ fault. (fault ≡ RuleFault.Memory)
        ⊎ (fault_behind before.now number (rule_of_line line.now) ≡ Some fault)) }
{
    let Some(fields) = fields_of(line) else {
        return Err(RuleFault::BadLine { line: number });
    };
    if before.len() >= RULE_LIMIT {
        return Err(RuleFault::BadLine { line: number });
    }
    if before.rule_of(fields.input.as_bytes()).is_some() {
        return Err(RuleFault::Twice { line: number });
    }
    Ok(fields.rule(alloc)?)
}
