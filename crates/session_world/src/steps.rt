ghost use Rattle.std.specs.Prelude.{◌≡◌, ◌<◌, true, false, not, [], is_some, length, slice_get, IfOk, IfSome, None};
ghost use Rattle.std.specs.Prelude.{OnOk, Some, if◌then◌else◌};
ghost use Rattle.std.specs.Option.{option_and_then, option_map, option_map_or};
ghost use Rattle.skk_calls.specs.Dictionary.{after, answer, is_fit, may_answer, may_reply};
ghost use Rattle.skk_calls.specs.Histories.{in_doubt};
ghost use Rattle.session_world.specs.Keeping.{asked_at};
ghost use Rattle.session_world.specs.Seats.{with_answers};
ghost use Rattle.session_world.specs.Steps.{KeepsDoubt, StepsTo, noted};
ghost use Rattle.session_world.specs.Worlds.{answered_by, last_of, refusal_of, reopened, started, with_seat};
ghost use Rattle.session_world.specs.declared.seat.Seat.{Seat};

use crate::dictionary::moves;
use crate::doubt::last_in_doubt;
use crate::places::{start_in, take_in};
use crate::seat::renewed_seats;
use crate::world::{OpenedBooks, World, WorldFault};
use session_machine::copy_answer;
use skk_calls::{Answer, Call, Entry, Refusal, Reply};
use skk_text::{Key, Memory};
use skk_trace::Trace;
use std::alloc::Global;

// Starts a key in a place.
pub(crate) fn start(
    world: World,
    alloc: Global,
    place: usize,
    key: Key,
) -> Result<World, WorldFault>
    ensures { StepsTo (option_and_then (started world place key) (slice_get world.seats place)) world result }
{
    if !is_idle(&world, place) {
        return Err(WorldFault::NotNow { world });
    }
    let mut world = world;
    start_key(&mut world, alloc, place, key)?;
    Ok(world)
}

// Whether there is a seat in a place, and no key is under way there.
fn is_idle(world: &World, place: usize) -> bool
    ensures { result ≡ option_map_or (λ seat. not (is_some seat.under_way)) (slice_get world.now.seats place) false }
{
    match world.seats.get(place) {
        Some(seat) => seat.under_way.is_none(),
        None => false,
    }
}

// Starts a key in a seat that there is.
fn start_key(world: &mut World, alloc: Global, place: usize, key: Key) -> Result<(), Memory>
    requires { place < length world.old.seats }
    ensures { OnOk result ((seat : Seat) → slice_get world.old.seats place ≡ Some seat
        → world.new ≡ with_seat world.old place (with_answers world.old.rules seat key [])) }
{
    start_in(&mut world.seats, alloc, &world.rules, place, key)?;
    Ok(())
}

// Serves the call that a place asks.
pub(crate) fn serve(world: World, alloc: Global, place: usize) -> Result<World, WorldFault>
    ensures { StepsTo (option_and_then
        (answered_by (λ call. Some (Answer.Done (answer world.files world.state call))) world place)
        (slice_get world.seats place)) world result }
{
    let mut world = world;
    let Some(call) = asked(&world, alloc, place)? else {
        return Err(WorldFault::NotNow { world });
    };
    let reply = serve_call(&mut world, alloc, &call)?;
    enter(&mut world, alloc, place, call, Answer::Done(reply))?;
    Ok(world)
}

// Serves a call from the dictionary of a world.
fn serve_call(world: &mut World, alloc: Global, call: &Call) -> Result<Reply, Memory>
    requires { is_fit call.now ≡ true }
    ensures reply { IfOk result (λ reply. reply ≡ answer world.old.files world.old.state call.now) }
    ensures may { IfOk result (λ reply. may_reply call.now reply ≡ true) }
    ensures served { OnOk result (world.new ≡ record world.old { state = after world.old.state call.now }) }
{
    let reply = world.index.serve(alloc, &world.system, call)?;
    Ok(reply)
}

// Refuses the call that a place asks.
pub(crate) fn refuse(
    world: World,
    alloc: Global,
    place: usize,
    refusal: Refusal,
) -> Result<World, WorldFault>
    ensures { StepsTo (option_and_then (answered_by (refusal_of world.state refusal) world place)
        (slice_get world.seats place)) world result }
{
    let mut world = world;
    let Some(call) = asked(&world, alloc, place)? else {
        return Err(WorldFault::NotNow { world });
    };
    if !may_refuse(&mut world, alloc, &call, refusal)? {
        return Err(WorldFault::NotNow { world });
    }
    enter(&mut world, alloc, place, call, Answer::Refused(refusal))?;
    Ok(world)
}

// Whether a call may be refused for a cause: as out of memory always, and for another where it would change something.
fn may_refuse(
    world: &mut World,
    alloc: Global,
    call: &Call,
    refusal: Refusal,
) -> Result<bool, Memory>
    requires { is_fit call.now ≡ true }
    ensures may { IfOk result (λ may. refusal_of world.old.state refusal call.now
        ≡ (if may then Some (Answer.Refused refusal) else None)) }
    ensures same { world.new ≡ world.old }
{
    match refusal {
        Refusal::Memory => Ok(true),
        Refusal::Disk | Refusal::JournalFull { .. } => moves(alloc, &mut world.index, call),
    }
}

// The call that the key under way of a place asks.
fn asked(world: &World, alloc: Global, place: usize) -> Result<Option<Call>, Memory>
    ensures asked { IfOk result (λ call. call ≡ asked_at world.now place) }
    ensures fit { IfOk result (λ call. IfSome call (λ c. is_fit c ≡ true)) }
{
    match world.seats.get(place) {
        Some(seat) => seat.asked(alloc, &world.rules),
        None => Ok(None),
    }
}

// Gives an answer to the key under way of a place, and enters the call with it.
fn enter(
    world: &mut World,
    alloc: Global,
    place: usize,
    call: Call,
    answer: Answer,
) -> Result<(), Memory>
    requires asked { asked_at world.old place ≡ Some call }
    requires fit { is_fit call ≡ true }
    requires may { may_answer call answer ≡ true }
    ensures { OnOk result ((seat : Seat) → slice_get world.old.seats place ≡ Some seat
        → world.new ≡ noted world.old place seat call answer) }
{
    let copy = copy_answer(alloc, &answer)?;
    take_in(&mut world.seats, alloc, &world.rules, place, copy)?;
    let number = place as u32;
    world.history.push(Entry {
        number,
        call,
        answer,
    })?;
    Ok(())
}

// Opens a world anew with what its dictionary has.
pub(crate) fn crash(world: World, alloc: Global) -> Result<World, WorldFault>
    ensures { StepsTo (Some (reopened world world.state)) world result }
{
    Ok(reopen(world, alloc)?)
}

// Opens a world anew with what its dictionary has, and with the change too that was last refused for the disk.
pub(crate) fn crash_keeping(world: World, alloc: Global) -> Result<World, WorldFault>
    ensures { StepsTo (option_map (λ call. reopened world (after world.state call))
        (last_of (in_doubt [] world.history))) world result }
{
    let mut world = world;
    if !keep_doubt(&mut world, alloc)? {
        return Err(WorldFault::NotNow { world });
    }
    Ok(reopen(world, alloc)?)
}

// Makes the change that was last refused for the disk, and answers whether there is one.
fn keep_doubt(world: &mut World, alloc: Global) -> Result<bool, Memory>
    ensures { IfOk result (λ kept. KeepsDoubt kept world.old world.new) }
{
    let Some(call) = last_in_doubt(&world.history) else {
        return Ok(false);
    };
    world.index.serve(alloc, &world.system, call)?;
    Ok(true)
}

// Opens a world anew, with new sessions and a new history.
fn reopen(world: World, alloc: Global) -> Result<World, Memory>
    ensures { IfOk result (λ new. new ≡ reopened world world.state) }
{
    let opened = Trace::new(
        alloc,
        &OpenedBooks {
            index: &world.index,
        },
    )?;
    let seats = renewed_seats(alloc, &world.seats)?;
    let mut world = world;
    world.seats = seats;
    world.history = Vec::new(alloc);
    world.opened = opened;
    Ok(world)
}
