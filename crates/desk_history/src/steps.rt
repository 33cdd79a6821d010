// The steps of a history's table.
use crate::view::View;
use atomic_table::{Join, Play, Split};
use std::marker::{Brand, PhantomData};

// The roll leaves the pen for a seat of its own.
pub(crate) struct RollLeaves;

impl Split<View> for RollLeaves {
    ghost use Rattle.desk_history.specs.Steps.{without_roll, roll_alone};

    ghost left = { without_roll };

    ghost right = { roll_alone };
}

// The roll draws a number, whose caller gets a seat.
pub(crate) struct RollDraws;

impl Split<View> for RollDraws {
    ghost use Rattle.desk_history.specs.Steps.{with_draw, newcomer};

    ghost left = { with_draw };

    ghost right = { newcomer };
}

// A seat that is lent hands all that it knows over to a new one.
pub(crate) struct HandsOver;

impl Split<View> for HandsOver {
    ghost use Rattle.desk_history.specs.Views.{empty_view};

    ghost left = { λ _. empty_view };

    ghost right = { λ seat. seat };
}

// A caller comes to the pen, to call or to end.
pub(crate) struct CallerComes;

impl Join<View> for CallerComes {
    ghost use Rattle.desk_history.specs.Steps.{with_accounts_of};
    ghost use Rattle.desk_history.specs.Views.{empty_view};

    ghost both = { with_accounts_of };

    ghost spent = { empty_view };
}

// The pen looks at the table.
pub(crate) struct PenLooks;

impl Play<(), View> for PenLooks {
    ghost use Rattle.std.specs.Prelude.{◌≡◌};
    ghost use Rattle.desk_history.specs.Keeping.{IsTold};

    ghost then = { λ _ before _ after. (after ≡ before) × IsTold before.0 };
}

// The entry that a step makes, for the proof alone. A call at `Brand` picks it.
pub(crate) trait NamedEntry {
    ghost use Rattle.skk_calls.specs.declared.entry.Entry.{Entry};

    ghost entry: { Entry };
}

impl NamedEntry for Brand {
    ghost use Rattle.std.specs.Prelude.{[]};
    ghost use Rattle.skk_calls.specs.declared.answer.Answer.TheVariants.{Refused};
    ghost use Rattle.skk_calls.specs.declared.answer.Refusal.TheVariants.{Memory};
    ghost use Rattle.skk_calls.specs.declared.call.Call.TheVariants.{Complete};

    ghost entry = { record { number = 0; call = Complete 0 []; answer = Refused Memory } };
}

// The entry that `N` names is made, of the caller that came last.
pub(crate) struct CallEntered<N> {
    named: PhantomData<N>,
}

impl<N: NamedEntry> Play<(), View> for CallEntered<N> {
    ghost use Rattle.std.specs.Prelude.{◌≡◌};
    ghost use Rattle.desk_history.specs.Steps.{entered};

    ghost then = { λ _ before _ after. after ≡ (entered N.entry before.0, before.1) };
}

// The caller that came last leaves the pen for a seat of its own.
pub(crate) struct CallerLeaves;

impl Split<View> for CallerLeaves {
    ghost use Rattle.desk_history.specs.Steps.{without_first, first_alone};

    ghost left = { without_first };

    ghost right = { first_alone };
}

// The roll returns to the pen.
pub(crate) struct RollReturns;

impl Join<View> for RollReturns {
    ghost use Rattle.desk_history.specs.Steps.{with_roll_of};
    ghost use Rattle.desk_history.specs.Views.{empty_view};

    ghost both = { with_roll_of };

    ghost spent = { empty_view };
}
