ghost use Rattle.std.specs.Prelude.{◌≡◌, ◌↔◌, ◌<◌, ◌≤◌, ◌+◌, [], ◌∷◌, ◌++◌, None, Some, Err, IsErr, IfOk, OnOk, OnErr};
ghost use Rattle.skk_outside.specs.Faults.{Rose};
ghost use Rattle.skk_outside.specs.Listeners.{Accepts, Dials, out_after};
ghost use Rattle.skk_outside.specs.Memory.{no_call_yet, after_success, after_failure, FailsNext};

use crate::calls::Calls;
use crate::listener::Listener;
use crate::mem_link::MemLink;
use crate::outside::Failed;
use std::alloc::Global;
use std::collections::VecDeque;
use std::marker::Model;

/// A listener in memory: links that are to come, those that were taken back, and a list of calls that are to fail.
#[derive(Debug, Drop)]
pub struct MemListener {
    coming: VecDeque<MemLink>,
    // It has room for each link that is out.
    over: Vec<MemLink>,
    out: usize,
    opened: Option<u16>,
    calls: Calls,
}

impl Model for MemListener {
    ghost use Rattle.std.specs.Prelude.{◌≤◌, ◌+◌, vec_len, vec_capacity};
    ghost use Rattle.skk_outside.specs.Memory.{ListenerState};

    ghost Value = { ListenerState };

    ghost view = { λ l. record {
      coming = l.coming.items;
      over = l.over.items;
      out = l.out;
      opened = l.opened;
      count = l.calls;
    } };

    ghost invariant = { λ l. vec_len l.over + l.out ≤ vec_capacity l.over };
}

impl MemListener {
    /// A listener to which these links come, in their order, and whose calls with these numbers fail: they count from 1
    /// over all calls that open it, accept a link or dial one. Takes no memory.
    pub fn new(alloc: Global, coming: Vec<MemLink>, fails: Vec<u64>) -> MemListener
        ensures coming { result.coming ≡ coming.items }
        ensures over { result.over ≡ [] }
        ensures out { result.out ≡ 0 }
        ensures opened { result.opened ≡ None }
        ensures count { result.count ≡ no_call_yet fails.items }
    {
        MemListener {
            coming: VecDeque::from_vec(coming),
            over: Vec::new(alloc),
            out: 0,
            opened: None,
            calls: Calls::new(fails),
        }
    }

    /// The links that were taken back, in order.
    pub fn over(&self) -> &[MemLink]
        ensures { result.now ≡ self.now.over }
    {
        self.over.as_slice()
    }
}

impl Listener for MemListener {
    type Link = MemLink;

    ghost faults = { λ l. l.count.faults };

    ghost coming = { λ l. Some l.coming };

    ghost over = { λ l. Some l.over };

    ghost out = { λ l. l.out };

    ghost opened = { λ l. l.opened };

    fn open(&mut self, port: u16) -> Result<(), Failed>
        ensures opened { OnOk result (self.new.opened ≡ Some port) }
        ensures stays { OnErr result (self.new.opened ≡ self.old.opened) }
        ensures coming { self.new.coming ≡ self.old.coming }
        ensures over { self.new.over ≡ self.old.over }
        ensures out { self.new.out ≡ self.old.out }
        ensures failed { OnErr result (Rose self.old.count.faults self.new.count.faults) }
        ensures counted { self.old.count.faults ≤ self.new.count.faults }
        ensures fails { IsErr result ↔ FailsNext self.old.count }
        ensures ok { OnOk result (self.new.count ≡ after_success self.old.count) }
        ensures err { OnErr result (self.new.count ≡ after_failure self.old.count) }
    {
        self.calls.next()?;
        self.opened = Some(port);
        Ok(())
    }

    /// Fails also where it is out of memory for the link when it comes back.
    fn accept(&mut self) -> Result<Option<MemLink>, Failed>
        ensures coming { Accepts (Some self.old.coming) (Some self.new.coming) result }
        ensures over { self.new.over ≡ self.old.over }
        ensures out { self.new.out ≡ out_after self.old.out result }
        ensures opened { self.new.opened ≡ self.old.opened }
        ensures failed { OnErr result (Rose self.old.count.faults self.new.count.faults) }
        ensures counted { self.old.count.faults ≤ self.new.count.faults }
        ensures fails { FailsNext self.old.count → IsErr result }
        ensures ok { OnOk result (self.new.count ≡ after_success self.old.count) }
        ensures err { OnErr result (self.new.count ≡ after_failure self.old.count) }
    {
        self.calls.next()?;
        if self.over.reserve(self.out + 1).is_err() {
            return Err(self.calls.fail());
        }
        let link = self.coming.pop_front();
        if link.is_some() {
            self.out += 1;
        }
        Ok(link)
    }

    /// Takes the first of the links that are to come, and fails where there is none. Fails also where it is out of
    /// memory for the link when it comes back.
    fn dial(&mut self, _port: u16) -> Result<MemLink, Failed>
        ensures coming { Dials (Some self.old.coming) (Some self.new.coming) result }
        ensures over { self.new.over ≡ self.old.over }
        ensures dialled { OnOk result (self.new.out ≡ self.old.out + 1) }
        ensures none { OnErr result (self.new.out ≡ self.old.out) }
        ensures opened { self.new.opened ≡ self.old.opened }
        ensures failed { OnErr result (Rose self.old.count.faults self.new.count.faults) }
        ensures counted { self.old.count.faults ≤ self.new.count.faults }
        ensures fails { FailsNext self.old.count → IsErr result }
        ensures ok { OnOk result (self.new.count ≡ after_success self.old.count) }
        ensures err { OnErr result (self.new.count ≡ after_failure self.old.count) }
    {
        self.calls.next()?;
        if self.over.reserve(self.out + 1).is_err() {
            return Err(self.calls.fail());
        }
        let Some(link) = self.coming.pop_front() else {
            return Err(self.calls.fail());
        };
        self.out += 1;
        Ok(link)
    }

    fn done(&mut self, link: MemLink)
        requires { 0 < self.old.out }
        ensures out { self.new.out + 1 ≡ self.old.out }
        ensures opened { self.new.opened ≡ self.old.opened }
        ensures over { self.new.over ≡ self.old.over ++ link ∷ [] }
        ensures coming { self.new.coming ≡ self.old.coming }
        ensures count { self.new.count ≡ self.old.count }
    {
        self.out -= 1;
        self.over.push_reserved(link);
    }
}
