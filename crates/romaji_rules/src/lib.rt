//! The romaji automaton: a rule set turns the letters that are typed into kana.
//!
//! It stands on `skk_text`. A rule set is seen as the list of its rules. `Rules::standard` is the standard table, and
//! `Rules::read` reads a rule file to the rules of its lines, or refuses it by its first fault; what a file comes to is
//! `rules_in`, in `specs/RuleFiles`. `Rules::feed` makes exactly the step that the rules define, which `one_step` says
//! is the only one, and `Rules::flush` gives out what is pending, of which `one_flush` says the same. `feed` is two
//! calls, which may be made one by one: `Rules::extend` reads a letter that goes on with what is pending, and
//! `Rules::feed_anew` one that does not. `Rules::goes_on` is the test of that alone. Each of them looks for a text
//! letter by letter in a trie of the inputs, and takes no memory: an `OutRef` is what comes out, where it stands in the
//! rules, and is copied in the kana that it is asked for.
#![tactic(auto)]

mod kana;
mod laws;
mod out;
mod out_ref;
mod pending;
mod piece;
mod rule;
mod rule_fault;
mod rule_file;
mod rule_line;
mod rule_list;
mod rule_trie;
mod rules;
mod standard;
mod standing;

pub use kana::Kana;
pub use laws::{one_flush, one_step};
pub use out::Out;
pub use out_ref::OutRef;
pub use pending::Pending;
pub use rule::Rule;
pub use rule_fault::RuleFault;
pub use rule_file::{RULE_FILE_LIMIT, RULE_LIMIT};
pub use rules::Rules;
