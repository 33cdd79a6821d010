ghost use Rattle.std.specs.Prelude.{◌≡◌, ◌↔◌, ◌++◌, ℕ, List, true};
ghost use Rattle.romaji_rules.specs.declared.rule.Rule.{Rule};
ghost use Rattle.skk_calls.specs.Interactions.{ends, Leads};
ghost use Rattle.typist_line.specs.Conversations.{Conversation, Converses, IsClosed};
ghost use Rattle.typist_line.specs.Firsts.{IsFirstOf};
ghost use Rattle.typist_line.specs.Typings.{StandsSo, Talk, is_over};
ghost use Rattle.typist_line.specs.declared.typing.Typist.{Typist};

use key_scripts::one_typist_and_book;
use skk_text::{one_fault_of_key_text, one_list_of_keys};

/// However a typist's connection stands behind bytes, its talk is that of what the bytes come to, up to there; and it
/// is over exactly where they end it.
pub fn bytes_lead_a_typist()
    ensures talk { (rules : List Rule) (bytes : List ℕ) (talk : Talk) (typist : Typist) (begun : List ℕ)
        → StandsSo rules bytes talk typist begun
        → (meaning : Conversation) × Converses rules bytes meaning
        × Leads meaning talk.dialog talk.text (ends typist) }
    ensures over { (rules : List Rule) (bytes : List ℕ) (talk : Talk) (typist : Typist) (begun : List ℕ)
        → StandsSo rules bytes talk typist begun → (is_over typist ≡ true) ↔ IsClosed bytes }
{}

/// A typist's connection that is over stays so, with the same talk, whatever bytes come behind.
pub fn over_stays_over()
    ensures { (rules : List Rule) (bytes more : List ℕ) (talk : Talk) (begun later : List ℕ)
        → StandsSo rules bytes talk Typist.Over begun → StandsSo rules (bytes ++ more) talk Typist.Over later }
{}

/// What a front of the bytes of a typist's connection comes to is the first of what all of them come to.
pub fn conversation_of_a_front()
    ensures { (rules : List Rule) (front rest : List ℕ) (meaning whole : Conversation) → Converses rules front meaning
        → Converses rules (front ++ rest) whole → IsFirstOf meaning whole }
{
    one_list_of_keys();
    one_fault_of_key_text();
    one_typist_and_book();
}
