use crate::view::View;
use atomic_table::TableRule;

// The rule of a history's table, whose first seat is the pen's, with the roll.
pub(crate) struct OneHistory;

impl TableRule<(), View, ()> for OneHistory {
    ghost use Rattle.std.specs.Prelude.{[], Some};
    ghost use Rattle.desk_history.specs.Keeping.{IsHistory};
    ghost use Rattle.desk_history.specs.Views.{view_of};

    ghost holds = { λ _ state. IsHistory state };

    ghost first = { λ _. view_of [] [] (Some 0) };
}
