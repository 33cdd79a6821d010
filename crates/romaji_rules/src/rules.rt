ghost use Rattle.std.specs.Prelude.{◌≡◌, ◌↔◌, ◌⊎◌, IsTrue, true, false, [], ◌∷◌, ◌++◌, Ok, Err};
ghost use Rattle.std.specs.Prelude.{is_some, IfOk, IfErr, IfSome, IsSome, IsNone};
ghost use Rattle.skk_text.specs.Results.{AnswersUnless};
ghost use Rattle.skk_text.specs.TextFiles.{IsTextFault};
ghost use Rattle.skk_text.specs.declared.text_file.TextFault.{TextFault};
ghost use Rattle.romaji_rules.specs.RuleFiles.{MayBeRules, file_limit, is_of_line, rules_in};
ghost use Rattle.romaji_rules.specs.Standing.{IsStanding};
ghost use Rattle.romaji_rules.specs.Typed.{goes_on, extends_pending, flushed, fed, fed_alone};
ghost use Rattle.romaji_rules.specs.Fed.{Fed, Flushed, GoesOn, BeginsInput};
ghost use Rattle.romaji_rules.specs.Fitting.{is_rule_set};
ghost use Rattle.romaji_rules.specs.Pieces.{piece_out};
ghost use Rattle.romaji_rules.specs.Standard.{standard};

use crate::out_ref::OutRef;
use crate::pending::Pending;
use crate::piece::Piece;
use crate::rule_fault::RuleFault;
use crate::rule_file::{RULE_FILE_LIMIT, read_rules};
use crate::rule_list::RuleList;
use crate::standard::standard_rules;
use crate::standing::Standing;
use skk_text::{Memory, text_within};
use std::alloc::Global;
use std::marker::Model;

/// A rule set.
#[derive(Debug, Drop)]
pub struct Rules {
    rules: RuleList,
}

impl Model for Rules {
    ghost use Rattle.std.specs.Prelude.{◌≡◌, true, List};
    ghost use Rattle.romaji_rules.specs.declared.rule.Rule.{Rule};
    ghost use Rattle.romaji_rules.specs.Fitting.{is_rule_set};

    ghost Value = { List Rule };

    ghost view = { λ r. r.rules };

    ghost invariant = { λ r. is_rule_set r.rules ≡ true };
}

impl Rules {
    /// The standard table.
    pub fn standard(alloc: Global) -> Result<Rules, Memory>
        ensures { IfOk result (λ rules. rules ≡ standard) }
    {
        let rules = standard_rules(alloc)?;
        Ok(Rules {
            rules: RuleList::of(alloc, rules)?,
        })
    }

    /// Reads a rule file: the rules of its lines, in their order. Takes time in its bytes.
    pub fn read(alloc: Global, bytes: &[u8]) -> Result<Rules, RuleFault>
        ensures ok { IfOk result (λ rules. rules_in bytes.now ≡ Ok rules) }
        ensures may { IfOk result (λ rules. MayBeRules bytes.now) }
        ensures exact { MayBeRules bytes.now → AnswersUnless RuleFault.Memory result (rules_in bytes.now) }
        ensures only_lines { IfErr result (λ fault. is_of_line fault ≡ true
            → MayBeRules bytes.now × (rules_in bytes.now ≡ Err fault)) }
        ensures no_text { (fault : TextFault)
            → (result ≡ Err (RuleFault.NoText fault)) ↔ IsTextFault file_limit bytes.now fault }
    {
        match text_within(bytes, RULE_FILE_LIMIT) {
            Ok(text) => Rules::of_text(alloc, text),
            Err(fault) => Err(RuleFault::NoText(fault)),
        }
    }

    // The rules of a file that is not too long and is UTF-8.
    fn of_text(alloc: Global, text: &str) -> Result<Rules, RuleFault>
        ensures { AnswersUnless RuleFault.Memory result (rules_in text.now) }
    {
        match read_rules(alloc, text) {
            Ok(rules) => Ok(Rules { rules }),
            Err(fault) => Err(fault),
        }
    }

    /// Whether what is pending, followed by `c`, is an input or begins one. Takes time in the number of the letters.
    pub fn goes_on(&self, pending: &Pending, c: u8) -> bool
        ensures exact { IsTrue result ↔ GoesOn self.now (pending.now ++ c ∷ []) }
        ensures computed { result ≡ goes_on self.now (pending.now ++ c ∷ []) }
    {
        match self.standing(pending, c) {
            Standing::Begins | Standing::Input(_) => true,
            Standing::Neither => false,
        }
    }

    /// Reads a character: what is pending changes, and the output comes out. Takes no memory, and time in the number of
    /// the letters that are pending.
    pub fn feed(&self, pending: &mut Pending, c: u8) -> OutRef<'_>
        ensures exact { Fed self.now pending.old c pending.new result }
        ensures computed { fed self.now pending.old c ≡ record { pending = pending.new; out = result } }
        ensures waits { (pending.new ≡ []) ⊎ BeginsInput self.now pending.new }
    {
        match self.go_on(pending, c) {
            Some(piece) => OutRef::of(piece),
            None => self.begin_anew(pending, c),
        }
    }

    /// Reads a character as `feed` does, where something is pending and it goes on with that. Where it does not,
    /// there is no output, and then the same is pending as before. Takes no memory, and time in the number of the
    /// letters that are pending.
    pub fn extend(&self, pending: &mut Pending, c: u8) -> Option<OutRef<'_>>
        ensures exact { is_some result ≡ extends_pending self.now pending.old c }
        ensures computed { IfSome result (λ o. fed self.now pending.old c
            ≡ record { pending = pending.new; out = o }) }
        ensures waits { IsSome result → (pending.new ≡ []) ⊎ BeginsInput self.now pending.new }
        ensures none { IsNone result → pending.new ≡ pending.old }
    {
        if pending.is_empty() {
            return None;
        }
        match self.go_on(pending, c) {
            Some(piece) => Some(OutRef::of(piece)),
            None => None,
        }
    }

    /// Reads a character as `feed` does, where `extend` gave no output for it. Takes no memory, and time in the number
    /// of the letters that are pending.
    pub fn feed_anew(&self, pending: &mut Pending, c: u8) -> OutRef<'_>
        requires { extends_pending self.now pending.old c ≡ false }
        ensures computed { fed self.now pending.old c ≡ record { pending = pending.new; out = result } }
        ensures waits { (pending.new ≡ []) ⊎ BeginsInput self.now pending.new }
    {
        if pending.is_empty() {
            return OutRef::of(self.feed_alone(pending, c));
        }
        self.begin_anew(pending, c)
    }

    // Reads a character as `feed` does, where it goes on with what is pending. Where it does not, there is no
    // output, and then the same is pending as before.
    fn go_on(&self, pending: &mut Pending, c: u8) -> Option<Piece<'_>>
        ensures exact { is_some result ≡ goes_on self.now (pending.old ++ c ∷ []) }
        ensures computed { IfSome result (λ o. fed self.now pending.old c
            ≡ record { pending = pending.new; out = piece_out o }) }
        ensures waits { IsSome result → (pending.new ≡ []) ⊎ BeginsInput self.now pending.new }
        ensures none { IsNone result → pending.new ≡ pending.old }
    {
        match self.standing(pending, c) {
            Standing::Begins => {
                pending.push(c);
                Some(Piece::Nothing)
            }
            Standing::Input(rule) => {
                *pending = Pending::of(rule.next.as_slice());
                Some(Piece::Rule(&rule.out))
            }
            Standing::Neither => None,
        }
    }

    // Reads a character as `feed` does, where it does not go on with what is pending: that is flushed, and
    // the character is read alone.
    fn begin_anew(&self, pending: &mut Pending, c: u8) -> OutRef<'_>
        requires { goes_on self.now (pending.old ++ c ∷ []) ≡ false }
        ensures computed { fed self.now pending.old c ≡ record { pending = pending.new; out = result } }
        ensures waits { (pending.new ≡ []) ⊎ BeginsInput self.now pending.new }
    {
        if pending.is_empty() {
            return OutRef::of(Piece::Itself(c));
        }
        let flushed = self.pending_output(pending);
        let mut alone = Pending::new();
        let fed = self.feed_alone(&mut alone, c);
        *pending = alone;
        OutRef::behind(flushed, fed)
    }

    /// Gives out what is pending: its output where it is an input, else nothing. Nothing is pending then. Takes no
    /// memory, and time in the number of the letters.
    pub fn flush(&self, pending: &mut Pending) -> OutRef<'_>
        ensures exact { Flushed self.now pending.old result }
        ensures computed { result ≡ flushed self.now pending.old }
        ensures empty { pending.new ≡ [] }
    {
        let out = self.pending_output(pending);
        *pending = Pending::new();
        OutRef::of(out)
    }

    // Reads a character with nothing pending.
    fn feed_alone(&self, pending: &mut Pending, c: u8) -> Piece<'_>
        requires { pending.old ≡ [] }
        ensures computed { fed_alone self.now c ≡ record { pending = pending.new; out = piece_out result } }
        ensures waits { (pending.new ≡ []) ⊎ BeginsInput self.now pending.new }
    {
        match self.go_on(pending, c) {
            Some(piece) => piece,
            None => Piece::Itself(c),
        }
    }

    // The output of what is pending, where that is an input.
    fn pending_output(&self, pending: &Pending) -> Piece<'_>
        ensures { piece_out result ≡ flushed self.now pending.now }
    {
        match self.rules.rule_of(pending.as_slice()) {
            Some(rule) => Piece::Rule(&rule.out),
            None => Piece::Nothing,
        }
    }

    // What the letters that wait are among the inputs, with a character behind them.
    fn standing(&self, pending: &Pending, c: u8) -> Standing<'_>
        ensures standing { IsStanding self.now (pending.now ++ c ∷ []) result }
        ensures fits { is_rule_set self.now ≡ true }
    {
        self.rules.standing(pending.as_slice(), c)
    }
}
