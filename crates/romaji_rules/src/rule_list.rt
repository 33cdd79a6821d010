ghost use Rattle.std.specs.Prelude.{◌≡◌, ◌∷◌, ◌++◌, [], true, None, length, position};
ghost use Rattle.std.specs.Prelude.{IfOk};
ghost use Rattle.std.specs.Option.{option_copied};
ghost use Rattle.romaji_rules.specs.Fitting.{inputs_differ};
ghost use Rattle.romaji_rules.specs.RuleFiles.{has_bad_next};
ghost use Rattle.romaji_rules.specs.Standing.{IsStanding};
ghost use Rattle.romaji_rules.specs.Typed.{rule_of, begins_input};

use crate::rule::Rule;
use crate::rule_trie::RuleTrie;
use crate::standing::Standing;
use skk_text::Memory;
use std::alloc::Global;
use std::marker::Model;

/// Rules in the order in which they came, of which no two have one input. Beside them stands a trie that holds just
/// these, so that a text is looked for letter by letter.
#[derive(Debug, Drop)]
pub struct RuleList {
    rules: Vec<Rule>,
    trie: RuleTrie,
}

impl Model for RuleList {
    ghost use Rattle.std.specs.Prelude.{List};
    ghost use Rattle.romaji_rules.specs.declared.rule.Rule.{Rule};
    ghost use Rattle.romaji_rules.specs.RuleTries.{IsRuleTrie};

    ghost Value = { List Rule };

    ghost view = { λ l. l.rules.items };

    ghost invariant = { λ l. IsRuleTrie l.rules.items l.trie };
}

impl RuleList {
    /// No rules.
    pub fn new(alloc: Global) -> Result<RuleList, Memory>
        ensures { IfOk result (λ list. list ≡ []) }
    {
        Ok(RuleList {
            rules: Vec::new(alloc),
            trie: RuleTrie::new(alloc)?,
        })
    }

    /// These rules. Takes time in the letters of their inputs.
    pub fn of(alloc: Global, rules: Vec<Rule>) -> Result<RuleList, Memory>
        requires { inputs_differ rules.items ≡ true }
        ensures { IfOk result (λ list. list ≡ rules.items) }
    {
        let trie = RuleTrie::of(alloc, &rules)?;
        Ok(RuleList { rules, trie })
    }

    /// The rules and one more behind them.
    pub fn with(self, rule: Rule) -> Result<RuleList, Memory>
        requires { rule_of self rule.input ≡ None }
        ensures { IfOk result (λ list. list ≡ self ++ rule ∷ []) }
    {
        let RuleList {
            mut rules,
            mut trie,
        } = self;
        trie.add(&rules, &rule)?;
        rules.push(rule)?;
        Ok(RuleList { rules, trie })
    }

    /// The rule whose input is the text. Takes time in its letters.
    pub fn rule_of(&self, text: &[u8]) -> Option<&Rule>
        ensures { option_copied result ≡ rule_of self.now text.now }
    {
        self.trie.look_up(&self.rules, text).0
    }

    /// Whether some input begins with the text and goes on. Takes time in its letters.
    pub fn begins_input(&self, text: &[u8]) -> bool
        ensures { result ≡ begins_input self.now text.now }
    {
        self.trie.look_up(&self.rules, text).1
    }

    /// What the text with the letter behind it is among the inputs. Takes time in its letters.
    pub fn standing(&self, text: &[u8], letter: u8) -> Standing<'_>
        ensures { IsStanding self.now (text.now ++ letter ∷ []) result }
    {
        match self.trie.look_up_behind(&self.rules, text, letter) {
            (_, true) => Standing::Begins,
            (Some(rule), false) => Standing::Input(rule),
            (None, false) => Standing::Neither,
        }
    }

    /// How many rules there are.
    pub fn len(&self) -> usize
        ensures { result ≡ length self.now }
    {
        self.rules.len()
    }

    /// The place of the first rule whose next text is bad among all. Takes time in the letters of all.
    pub fn bad_next(&self) -> Option<usize>
        ensures differ { inputs_differ self.now ≡ true }
        ensures place { result ≡ position (has_bad_next self.now) self.now }
    {
        self.rules.iter().position(|rule| self.has_bad_next(rule))
    }

    // Whether the next text of a rule is bad among these.
    fn has_bad_next(&self, rule: &Rule) -> bool
        ensures { result ≡ has_bad_next self.now rule.now }
    {
        let next = rule.next.as_slice();
        !next.is_empty() && (!self.begins_input(next) || self.begins_input(rule.input.as_slice()))
    }
}
