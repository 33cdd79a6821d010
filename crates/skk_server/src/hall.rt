ghost use Rattle.std.specs.Prelude.{◌≡◌, []};
ghost use Rattle.std.specs.Prelude.{IfOk};
ghost use Rattle.skk_server.specs.Stages.{HasPlaces};

use crate::end::End;
use crate::work::Accepted;
use skk_calls::Caller;
use skk_outside::Link;
use skk_text::Memory;
use std::alloc::Global;
use std::collections::VecDeque;

/// How many connections are served at once.
pub(crate) const WORKERS: usize = 32;

/// The connections whose links are not given back yet, oldest first, with the number of workers that serve them, and
/// what is left of the connections before them: slips of their callers, and ends.
#[derive(Drop)]
pub(crate) struct Hall<L: Link, C: Caller, S> {
    pub(crate) works: VecDeque<Accepted<L, C>>,
    pub(crate) running: usize,
    pub(crate) passes: Vec<S>,
    pub(crate) ends: Vec<End>,
}

impl<L: Link, C: Caller, S> Hall<L, C, S> {
    /// No connection yet, with room for those under way.
    pub(crate) fn new(alloc: Global) -> Result<Hall<L, C, S>, Memory>
        ensures empty { IfOk result (λ hall. (hall.works.items ≡ []) × (hall.passes.items ≡ [])
            × (hall.ends.items ≡ [])) }
        ensures places { IfOk result (λ hall. HasPlaces hall) }
    {
        Ok(Hall {
            works: VecDeque::with_capacity(alloc, WORKERS)?,
            running: 0,
            passes: Vec::new(alloc),
            ends: Vec::new(alloc),
        })
    }
}
