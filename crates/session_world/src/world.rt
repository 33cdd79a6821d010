use crate::event::Event;
use crate::seat::{Seat, new_seats};
use crate::steps::{crash, crash_keeping, refuse, serve, start};
use dict_layers::System;
use learn_index::Index;
use romaji_rules::Rules;
use session_machine::Session;
use skk_calls::{Entry, State};
use skk_text::Memory;
use skk_trace::{Shows, Trace};
use std::alloc::Global;
use std::marker::Model;

/// Sessions over one dictionary, with one history of their calls. Contracts see its seats, its history, the state that
/// this was opened with, and the state of the dictionary.
pub struct World {
    pub(crate) rules: Rules,
    pub(crate) system: System,
    pub(crate) index: Index,
    pub(crate) seats: Vec<Seat>,
    pub(crate) history: Vec<Entry>,
    // The state that the history was opened with, for contracts alone.
    pub(crate) opened: Trace<State>,
}

// Written out, as is that of a seat, so that whatever lets one go makes one call.
impl Drop for World {
    fn drop(self) {
        let World {
            rules,
            system,
            index,
            seats,
            history,
            opened: _,
        } = self;
        drop(rules);
        drop(system);
        drop(index);
        drop(seats);
        drop(history);
    }
}

impl Model for World {
    ghost use Rattle.session_world.specs.Keeping.{Keeps, opened_with};
    ghost use Rattle.session_world.specs.Worlds.{World};

    ghost Value = { World };

    ghost view = { λ w. record {
      rules = w.rules;
      files = w.system;
      seats = w.seats.items;
      opened = opened_with w.opened;
      history = w.history.items;
      state = w.index.state;
    } };

    ghost invariant = { λ w. Keeps w.rules w.seats.items w.history.items };
}

/// Why an event made nothing of a world.
#[derive(Drop)]
pub enum WorldFault {
    /// The event may not come now: this is the world, as it was.
    NotNow { world: World },
    /// Out of memory: the world is gone.
    Memory,
}

impl From<Memory> for WorldFault {
    ghost use Rattle.std.specs.Prelude.{◌≡◌};
    ghost use Rattle.session_world.specs.declared.world.WorldFault.TheVariants as faults;

    ghost from_gives = { λ _ fault. fault ≡ faults.Memory };

    fn from(_memory: Memory) -> WorldFault {
        WorldFault::Memory
    }
}

impl World {
    ghost use Rattle.std.specs.Prelude.{◌≡◌, ◌⊎◌, ◌≤◌, ℕ, length, IfOk, slice_get};
    ghost use Rattle.std.specs.List.{All};
    ghost use Rattle.std.specs.Option.{option_copied, option_map};
    ghost use Rattle.session_world.specs.Steps.{StepsTo};
    ghost use Rattle.session_world.specs.Worlds.{new_world, stepped};

    /// A world of sessions over these system files, each of a typist and a book. Nothing was learnt.
    pub fn new(
        alloc: Global,
        sessions: &[(u16, u16)],
        rules: Rules,
        system: System,
    ) -> Result<World, Memory>
        requires count { length sessions.now ≤ 64 }
        requires books { All (λ (session : ℕ × ℕ). (session.1 ≡ 0) ⊎ (session.1 ≡ session.0)) sessions.now }
        ensures { IfOk result (λ world. world ≡ new_world sessions.now rules system) }
    {
        let index = Index::new(alloc);
        let opened = Trace::new(alloc, &OpenedBooks { index: &index })?;
        Ok(World {
            rules,
            system,
            index,
            seats: new_seats(alloc, sessions)?,
            history: Vec::new(alloc),
            opened,
        })
    }

    /// The world after an event. Where the event may not come now the world is handed back as it was: there is no such
    /// session, a key is started where one is under way, a call is served or refused where none is, a call that would
    /// change nothing is refused for another cause than memory, or a change that was refused for the disk is to be kept
    /// where there is none since the last change that was accepted and the last crash. May take time in the history.
    pub fn step(self, alloc: Global, event: Event) -> Result<World, WorldFault>
        ensures { StepsTo (stepped self event) self result }
    {
        match event {
            Event::Key(place, key) => start(self, alloc, place, key),
            Event::Serve(place) => serve(self, alloc, place),
            Event::Refuse(place, refusal) => refuse(self, alloc, place, refusal),
            Event::Crash(false) => crash(self, alloc),
            Event::Crash(true) => crash_keeping(self, alloc),
        }
    }

    /// The session of a place, counted from 0, where there is one.
    pub fn session(&self, place: usize) -> Option<&Session>
        ensures { option_copied result ≡ option_map (λ seat. seat.session) (slice_get self.now.seats place) }
    {
        match self.seats.get(place) {
            Some(seat) => Some(&seat.session),
            None => None,
        }
    }
}

// The state that learned books stand for.
#[derive(Drop)]
pub(crate) struct OpenedBooks<'a> {
    pub(crate) index: &'a Index,
}

impl Shows<State> for OpenedBooks<'_> {
    ghost shows = { λ opened. opened.index.now.state };
}
