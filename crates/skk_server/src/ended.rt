use crate::hall::WORKERS;
use crossbeam_channel::{Receiver, Sender, bounded};
use skk_text::Memory;
use std::alloc::Global;
use std::sync::Wait;

/// Where a worker tells, as its last act, that it ends: the numbers of the connections, counted from 0.
#[derive(Drop)]
pub(crate) struct Ended {
    tell: Sender<usize>,
    told: Receiver<usize>,
}

impl Ended {
    /// None has told anything yet. There is room for as many as there may be at once.
    pub(crate) fn new(alloc: Global) -> Result<Ended, Memory> {
        let (tell, told) = bounded(alloc, WORKERS)?;
        Ok(Ended { tell, told })
    }

    /// Tells that the worker of a connection ends.
    pub(crate) fn tell<R: Wait>(&self, rt: &R, number: usize) {
        // It comes back only where nobody asks any more.
        let _unheard = self.tell.send(rt, number);
    }

    /// The connection of a worker that has told its end, if there is one.
    pub(crate) fn next<R: Wait>(&self, rt: &R) -> Option<usize> {
        self.told.try_recv(rt).ok()
    }

    /// Waits until a worker tells its end, and answers its connection.
    pub(crate) fn wait<R: Wait>(&self, rt: &R) -> Option<usize> {
        self.told.recv(rt).ok()
    }
}
