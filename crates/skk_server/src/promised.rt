use crate::end::End;
use romaji_rules::Rules;
use skk_calls::Caller;
use skk_outside::Link;
use std::snapshot::Snapshot;
use std::thread::Promise;

/// What a worker hands back: its link, its caller, and the end of its connection.
#[derive(Drop)]
pub(crate) struct WorkerResult<L, C> {
    pub(crate) link: L,
    pub(crate) pass: C,
    pub(crate) end: End,
}

/// The rules, the link and the caller that a worker began with, for the proof alone.
#[derive(Drop)]
pub(crate) struct Promised<L, C> {
    pub(crate) rules: Snapshot<Rules>,
    pub(crate) link: Snapshot<L>,
    pub(crate) pass: Snapshot<C>,
}

impl<L: Link, C: Caller> Promise<WorkerResult<L, C>> for Promised<L, C> {
    ghost use Rattle.skk_server.specs.Visits.{HasWorked};

    ghost kept_by = { λ p w. HasWorked L.Outside C.Caller
        p.rules.value p.link.value p.pass.value w.link w.pass w.end };
}
