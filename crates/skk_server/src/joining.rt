ghost use Rattle.std.specs.Prelude.{◌≡◌, ◌≤◌, ◌<◌, length};
ghost use Rattle.skk_server.specs.Stages.{HasPlaces, JoinsSome, most_workers};

use crate::ended::Ended;
use crate::hall::{Hall, WORKERS};
use skk_calls::Caller;
use skk_outside::Link;
use std::sync::Wait;
use std::thread::Threads;

impl<L: Link, C: Caller, S> Hall<L, C, S> {
    /// Joins the workers that have ended, wherever their connections stand. Where there are as many workers as may be,
    /// it waits until one of them ends.
    pub(crate) fn join_ended<R: Threads + Wait>(&mut self, rt: &R, ended: &Ended)
        requires places { HasPlaces self.old }
        ensures joins { JoinsSome L.Outside C.Caller self.old self.new }
        ensures places { HasPlaces self.new }
        ensures room { self.new.running < most_workers }
    {
        self.join_told(rt, ended);
        self.join_next(rt, ended);
    }

    // Joins the workers that have told their end.
    fn join_told<R: Threads + Wait>(&mut self, rt: &R, ended: &Ended)
        requires places { HasPlaces self.old }
        ensures joins { JoinsSome L.Outside C.Caller self.old self.new }
        ensures places { HasPlaces self.new }
    {
        for _ in 0..WORKERS {
            let Some(number) = ended.next(rt) else {
                return;
            };
            self.join(rt, number);
        }
    }

    // Joins the workers that end next, until there are fewer than may be.
    fn join_next<R: Threads + Wait>(&mut self, rt: &R, ended: &Ended)
        requires places { HasPlaces self.old }
        ensures joins { JoinsSome L.Outside C.Caller self.old self.new }
        ensures places { HasPlaces self.new }
        ensures room { self.new.running < most_workers }
    {
        for _ in rt.forever() {
            if self.running < WORKERS {
                return;
            }
            // Where nobody tells any more it is the oldest.
            let number = ended.wait(rt).unwrap_or(self.ends.len());
            self.join(rt, number);
        }
        unreachable!()
    }

    // Joins the worker of a connection, where it has one, and keeps in its place what that hands back.
    fn join<R: Threads>(&mut self, rt: &R, number: usize)
        requires places { HasPlaces self.old }
        ensures joins { JoinsSome L.Outside C.Caller self.old self.new }
        ensures places { HasPlaces self.new }
    {
        let Some(place) = number.checked_sub(self.ends.len()) else {
            return;
        };
        let Some(work) = self.works.get_mut(place) else {
            return;
        };
        let running = work.running();
        work.join(rt);
        self.running -= running;
    }
}
