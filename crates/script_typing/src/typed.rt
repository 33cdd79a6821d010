ghost use Rattle.std.specs.Prelude.{◌≡◌, [], true, ◌&&◌, OnOk};
ghost use Rattle.std.specs.BTreeMap.{insert_entry};
ghost use Rattle.std.specs.Ordering.{nat_cmp};
ghost use Rattle.script_typing.specs.Pages.{pages_at, first_page, without_first};
ghost use Rattle.script_typing.specs.Workers.{is_whole};

use crate::pages::Pages;
use session_machine::Session;
use skk_text::{Memory, Text};
use std::alloc::Global;
use std::collections::BTreeMap;

/// What workers left: of each session the pages that it printed and that are not taken yet, and the session behind its
/// lines.
#[derive(Drop)]
pub struct Typed {
    /// The pages of each session.
    pub pages: BTreeMap<u8, Pages>,
    /// The sessions.
    pub sessions: BTreeMap<u8, Session>,
    /// Whether all lines of all sessions were typed.
    pub whole: bool,
}

impl Typed {
    /// What no worker left. Takes no memory.
    pub fn new(alloc: Global) -> Typed
        ensures pages { result.pages.entries ≡ [] }
        ensures sessions { result.sessions.entries ≡ [] }
        ensures whole { result.whole ≡ true }
    {
        Typed {
            pages: BTreeMap::new(alloc),
            sessions: BTreeMap::new(alloc),
            whole: true,
        }
    }

    /// Adds what a worker left of the session of a number.
    pub fn add(
        &mut self,
        number: u8,
        pages: Pages,
        session: Session,
        ended: Result<(), Memory>,
    ) -> Result<(), Memory>
        ensures pages { OnOk result (self.new.pages.entries
            ≡ insert_entry nat_cmp self.old.pages.entries number pages) }
        ensures sessions { OnOk result (self.new.sessions.entries
            ≡ insert_entry nat_cmp self.old.sessions.entries number session) }
        ensures whole { OnOk result (self.new.whole ≡ self.old.whole && is_whole ended) }
    {
        self.whole = self.whole && ended.is_ok();
        self.pages.insert(number, pages)?;
        self.sessions.insert(number, session)?;
        Ok(())
    }

    /// Takes the next page of a session, where it has one. Takes no memory, and time in the logarithm of the number of
    /// sessions.
    #[tactic(auto, using(crate::specs::MapLaws::unset_none))]
    pub fn next_page(&mut self, number: u8) -> Option<Text>
        ensures page { result ≡ first_page (pages_at self.old.pages.entries number) }
        ensures rest { self.new.pages.entries ≡ without_first self.old.pages.entries number }
        ensures sessions { self.new.sessions.entries ≡ self.old.sessions.entries }
        ensures whole { self.new.whole ≡ self.old.whole }
    {
        self.pages.get_mut(&number)?.take_first()
    }
}
