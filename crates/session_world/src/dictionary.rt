ghost use Rattle.std.specs.Prelude.{◌≡◌, true, false, IfOk};
ghost use Rattle.skk_calls.specs.Dictionary.{is_fit, moves};
ghost use Rattle.learn_index.specs.Plans.{is_question};

use learn_index::{Index, Plan};
use skk_calls::Call;
use skk_text::Memory;
use std::alloc::Global;

// Whether a call would change the learned books, which stay as they are.
pub(crate) fn moves(alloc: Global, index: &mut Index, call: &Call) -> Result<bool, Memory>
    requires { is_fit call.now ≡ true }
    ensures moves { IfOk result (λ told. told ≡ moves index.old.state call.now) }
    ensures state { index.new.state ≡ index.old.state }
{
    match call {
        Call::Lookup { .. } | Call::Complete { .. } => Ok(false),
        Call::Learn { .. }
        | Call::Purge { .. }
        | Call::Annotate { .. }
        | Call::Share { .. }
        | Call::Unlearn { .. } => change_moves(alloc, index, call),
    }
}

// Whether a change would change the learned books.
fn change_moves(alloc: Global, index: &mut Index, call: &Call) -> Result<bool, Memory>
    requires change { is_question call.now ≡ false }
    requires fit { is_fit call.now ≡ true }
    ensures moves { IfOk result (λ told. told ≡ moves index.old.state call.now) }
    ensures state { index.new.state ≡ index.old.state }
{
    match index.plan(alloc, call)? {
        Plan::Still(_) => Ok(false),
        Plan::Move { .. } | Plan::Lists { .. } => Ok(true),
    }
}
