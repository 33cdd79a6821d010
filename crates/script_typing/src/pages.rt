use skk_text::{Memory, Text};
use std::alloc::Global;
use std::collections::VecDeque;
use std::marker::Model;

/// Output lines that wait to be printed, each a page of its own, in order.
#[derive(Drop)]
pub struct Pages {
    waiting: VecDeque<Text>,
}

impl Model for Pages {
    ghost use Rattle.script_typing.specs.Pages.{PageList};

    ghost Value = { PageList };

    ghost view = { λ pages. pages.waiting.items };
}

impl Pages {
    ghost use Rattle.std.specs.Prelude.{◌≡◌, [], ◌∷◌, ◌++◌, length, OnOk, OnErr};
    ghost use Rattle.script_typing.specs.Pages.{first_page, behind_first};

    /// No pages. Takes no memory.
    pub fn new(alloc: Global) -> Pages
        ensures { result ≡ [] }
    {
        Pages {
            waiting: VecDeque::new(alloc),
        }
    }

    /// How many pages wait.
    pub fn len(&self) -> usize
        ensures { result ≡ length self.now }
    {
        self.waiting.len()
    }

    /// Adds a page behind the others.
    pub fn push(&mut self, page: Text) -> Result<(), Memory>
        ensures ok { OnOk result (self.new ≡ self.old ++ page ∷ []) }
        ensures err { OnErr result (self.new ≡ self.old) }
    {
        self.waiting.push_back(page)?;
        Ok(())
    }

    /// Takes the first page, where there is one. Takes no memory, and constant time.
    pub fn take_first(&mut self) -> Option<Text>
        ensures page { result ≡ first_page self.old }
        ensures rest { self.new ≡ behind_first self.old }
    {
        self.waiting.pop_front()
    }
}
