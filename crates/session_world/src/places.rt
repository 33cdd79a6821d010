ghost use Rattle.std.specs.Prelude.{◌≡◌, ◌<◌, true, [], length, slice_get, slice_set, IsSomeAnd, OnOk, Some};
ghost use Rattle.std.specs.Option.{option_and_then};
ghost use Rattle.std.specs.List.{All};
ghost use Rattle.skk_calls.specs.Dictionary.{may_answer};
ghost use Rattle.session_world.specs.Keeping.{IsSeat};
ghost use Rattle.session_world.specs.Seats.{answered, asked_in, with_answers};
ghost use Rattle.session_world.specs.declared.seat.Seat.{Seat};

use crate::seat::Seat;
use romaji_rules::Rules;
use skk_calls::Answer;
use skk_text::{Key, Memory};
use std::alloc::Global;

// Starts a key in the seat of a place.
pub(crate) fn start_in(
    seats: &mut Vec<Seat>,
    alloc: Global,
    rules: &Rules,
    place: usize,
    key: Key,
) -> Result<(), Memory>
    requires within { place < length seats.old.items }
    requires seats { All (IsSeat rules.now) seats.old.items }
    ensures count { length seats.new.items ≡ length seats.old.items }
    ensures seats { All (IsSeat rules.now) seats.new.items }
    ensures started { OnOk result ((seat : Seat) → slice_get seats.old.items place ≡ Some seat
        → seats.new.items ≡ slice_set seats.old.items place (with_answers rules.now seat key [])) }
{
    let seat = &mut seats[place];
    seat.start(alloc, rules, key)?;
    Ok(())
}

// Gives an answer to the key under way in the seat of a place.
pub(crate) fn take_in(
    seats: &mut Vec<Seat>,
    alloc: Global,
    rules: &Rules,
    place: usize,
    answer: Answer,
) -> Result<(), Memory>
    requires seats { All (IsSeat rules.now) seats.old.items }
    requires asked { IsSomeAnd (option_and_then (asked_in rules.now) (slice_get seats.old.items place))
        (λ call. may_answer call answer ≡ true) }
    ensures count { length seats.new.items ≡ length seats.old.items }
    ensures seats { All (IsSeat rules.now) seats.new.items }
    ensures answered { OnOk result ((seat : Seat) → slice_get seats.old.items place ≡ Some seat
        → seats.new.items ≡ slice_set seats.old.items place (answered rules.now seat answer)) }
{
    let seat = &mut seats[place];
    seat.take(alloc, rules, answer)?;
    Ok(())
}
