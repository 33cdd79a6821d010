ghost use Rattle.std.specs.Prelude.{◌++◌, ℕ, List};
ghost use Rattle.romaji_rules.specs.declared.rule.Rule.{Rule};
ghost use Rattle.typist_line.specs.Firsts.{IsFirstOf};
ghost use Rattle.skk_server.specs.Connections.{Exchange, Means};

use skkserv_proto::requests_of_a_front;
use typist_line::conversation_of_a_front;

/// What a front of the bytes of a connection comes to is the first of what all of them come to.
pub(crate) fn exchange_of_a_front()
    ensures { (rules : List Rule) (front rest : List ℕ) (exchange whole : Exchange) → Means rules front exchange
        → Means rules (front ++ rest) whole → IsFirstOf exchange whole }
{
    conversation_of_a_front();
    requests_of_a_front();
}
