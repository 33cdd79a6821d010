ghost use Rattle.std.specs.Prelude.{◌≡◌, ◌++◌, ◌∷◌, [], All, IfOk, OnOk};
ghost use Rattle.skk_journal.specs.Records.{framed};
ghost use Rattle.batch_store.specs.Groups.{PutsCharacters, PutsGood, PutsHeld, put_payloads};

use learn_index::Plan;
use learned_store::push_put;
use skk_text::{Bytes, Memory};
use std::alloc::Global;

// The byte of a closed gate.
const CLOSED: u8 = 0;

// The records of plans of learnings: one for each row that they put, in order, each behind an open gate, and a closed
// gate behind them. Takes time in their bytes.
pub(crate) fn group_records(alloc: Global, plans: &[Plan]) -> Result<Bytes, Memory>
    requires { All PutsGood plans.now }
    ensures records { IfOk result (λ bytes. bytes ≡ framed (put_payloads plans.now) ++ 0 ∷ []) }
    ensures characters { OnOk result (All PutsCharacters plans.now) }
    ensures held { OnOk result (All PutsHeld plans.now) }
{
    let mut records = Vec::new(alloc);
    for plan in plans {
        push_plan(alloc, &mut records, plan)?;
    }
    records.push(CLOSED)?;
    Ok(Bytes::of(records))
}

// Adds the record of a plan that puts a row.
fn push_plan(alloc: Global, records: &mut Vec<u8>, plan: &Plan) -> Result<(), Memory>
    requires { PutsGood plan.now }
    ensures records { OnOk result
        (records.new.items ≡ records.old.items ++ framed (put_payloads (plan.now ∷ []))) }
    ensures characters { OnOk result (PutsCharacters plan.now) }
    ensures held { OnOk result (PutsHeld plan.now) }
{
    match plan {
        Plan::Move {
            book,
            count,
            row: Some(row),
            ..
        } => push_put(alloc, records, *book, *count, row.row()),
        _ => Ok(()),
    }
}
