ghost use Rattle.std.specs.Prelude.{◌≡◌, ◌≤◌, ◌<◌, ◌+◌, ◌++◌, [], ◌∷◌};
ghost use Rattle.std.specs.Prelude.{vec_len, vec_capacity};
ghost use Rattle.std.specs.VecDeque.{deque_len, deque_capacity};
ghost use Rattle.skk_server.specs.Stages.{GivesBack, HasPlaces, CountsStay, Stage};

use crate::end::End;
use crate::hall::Hall;
use crate::promised::WorkerResult;
use crate::server::Server;
use crate::start::Start;
use crate::work::Accepted;
use skk_calls::{Caller, Kept, Office};
use skk_outside::{Link, Listener};
use std::thread::Threads;

impl<L: Link, C: Caller, S: Kept> Hall<L, C, S> {
    /// Waits until every connection under way has ended, and gives their links back.
    pub(crate) fn see_all_off<R: Threads, N: Listener<Link = L>, W: Office<Pass = C, Slip = S>, G>(
        &mut self,
        server: &Server<'_, R, W, G>,
        net: &mut N,
        start: &Start<N>,
    )
        requires places { HasPlaces self.old }
        requires stage { Stage N.Listener L.Outside C.Caller S.Kept start.now net.old self.old }
        ensures none { deque_len self.new.works ≡ 0 }
        ensures counts { CountsStay self.old self.new }
        ensures coming { N.coming net.new ≡ N.coming net.old }
        ensures faults { N.faults net.new ≡ N.faults net.old }
        ensures stage { Stage N.Listener L.Outside C.Caller S.Kept start.now net.new self.new }
    {
        for _ in 0..self.works.len() {
            self.see_oldest_off(server, net, start);
        }
    }

    /// Gives the links of the oldest connections back, up to the first that a worker serves.
    pub(crate) fn see_ended_off<
        R: Threads,
        N: Listener<Link = L>,
        W: Office<Pass = C, Slip = S>,
        G,
    >(&mut self, server: &Server<'_, R, W, G>, net: &mut N, start: &Start<N>)
        requires places { HasPlaces self.old }
        requires stage { Stage N.Listener L.Outside C.Caller S.Kept start.now net.old self.old }
        ensures places { HasPlaces self.new }
        ensures running { self.new.running ≤ self.old.running }
        ensures counts { CountsStay self.old self.new }
        ensures coming { N.coming net.new ≡ N.coming net.old }
        ensures faults { N.faults net.new ≡ N.faults net.old }
        ensures stage { Stage N.Listener L.Outside C.Caller S.Kept start.now net.new self.new }
    {
        for _ in 0..self.works.len() {
            match self.works.front() {
                Some(work) if work.running() == 0 => self.see_oldest_off(server, net, start),
                _ => return,
            }
        }
    }

    /// Waits until the oldest connection under way has ended, and gives its link back.
    pub(crate) fn see_oldest_off<
        R: Threads,
        N: Listener<Link = L>,
        W: Office<Pass = C, Slip = S>,
        G,
    >(&mut self, server: &Server<'_, R, W, G>, net: &mut N, start: &Start<N>)
        requires some { 0 < deque_len self.old.works }
        requires places { HasPlaces self.old }
        requires stage { Stage N.Listener L.Outside C.Caller S.Kept start.now net.old self.old }
        ensures one_less { deque_len self.new.works + 1 ≡ deque_len self.old.works }
        ensures running { self.new.running ≤ self.old.running }
        ensures places { HasPlaces self.new }
        ensures counts { CountsStay self.old self.new }
        ensures coming { N.coming net.new ≡ N.coming net.old }
        ensures faults { N.faults net.new ≡ N.faults net.old }
        ensures stage { Stage N.Listener L.Outside C.Caller S.Kept start.now net.new self.new }
    {
        let Some(work) = self.works.pop_front() else {
            unreachable!();
        };
        self.running -= work.running();
        match work {
            Accepted::Running(handle, _was) => self.part_from(
                net,
                server.office,
                handle.join(server.rt),
            ),
            Accepted::Done(worked, _was) => self.part_from(net, server.office, worked),
            Accepted::Refused(link, _was) => self.give_back(net, link, End::Memory),
        }
    }

    // Takes apart what a worker hands back: rests the caller, and gives the link back.
    fn part_from<N: Listener<Link = L>, W: Office<Pass = C, Slip = S>>(
        &mut self,
        net: &mut N,
        office: &W,
        worked: WorkerResult<L, C>,
    )
        requires out { 0 < N.out net.old }
        requires passes_fit { vec_len self.old.passes < vec_capacity self.old.passes }
        requires ends_fit { vec_len self.old.ends < vec_capacity self.old.ends }
        ensures slip { (slip : _) × (self.new.passes.items ≡ self.old.passes.items ++ slip ∷ [])
            × (S.number slip ≡ C.number worked.pass) × (S.said slip ≡ C.said worked.pass) }
        ensures ends { self.new.ends.items ≡ self.old.ends.items ++ worked.end ∷ [] }
        ensures gives_back { GivesBack N.Listener net.old net.new worked.link }
        ensures works { self.new.works ≡ self.old.works }
        ensures running { self.new.running ≡ self.old.running }
        ensures passes_kept { vec_capacity self.new.passes ≡ vec_capacity self.old.passes }
        ensures ends_kept { vec_capacity self.new.ends ≡ vec_capacity self.old.ends }
    {
        let WorkerResult { link, pass, end } = worked;
        self.passes.push_reserved(office.rest(pass));
        self.give_back(net, link, end);
    }

    // Gives a link back whose connection ended so.
    fn give_back<N: Listener<Link = L>>(&mut self, net: &mut N, link: L, end: End)
        requires out { 0 < N.out net.old }
        requires fits { vec_len self.old.ends < vec_capacity self.old.ends }
        ensures ends { self.new.ends.items ≡ self.old.ends.items ++ end ∷ [] }
        ensures gives_back { GivesBack N.Listener net.old net.new link }
        ensures works { self.new.works ≡ self.old.works }
        ensures running { self.new.running ≡ self.old.running }
        ensures passes { self.new.passes ≡ self.old.passes }
        ensures kept { vec_capacity self.new.ends ≡ vec_capacity self.old.ends }
    {
        net.done(link);
        self.ends.push_reserved(end);
    }
}
