use crate::callers::{told_alone, told_from_file, told_refused};
use crate::clients::answered;
use crate::connections::served;
use crate::passes::told_on_desk;
use crate::questions::{completed, looked_up};
use crate::requests::{asked, called};
use crate::typists::typed;
use skk_calls::Caller;
use skk_text::Bytes;
use std::alloc::Global;
use std::process::Abort;
use std::sync::Wait;

// Who reads what comes in pieces, and what is told of it.
#[derive(Clone, Copy)]
pub(crate) enum Way {
    // A feeder: the requests.
    Feeder,
    // A feeder: the calls of the requests.
    Calls,
    // A feeder and the dictionary: what is sent for the requests.
    Client,
    // The same, where the dictionary is a file that is read as it lies.
    File,
    // A typist's lines, over the dictionary: what is sent for them.
    Typist,
    // A connection over the dictionary: what is sent, and how it ends.
    Link,
    // A connection that a pass answers.
    Pass,
    // A connection whose calls are refused.
    Refused,
    // A client that asks a server for candidates: what is sent, and what the client tells.
    LookUp,
    // A client that asks a server for readings.
    Completion,
}

// What comes in pieces, and which call of the link fails, counted from 1; none does where that is 0.
#[derive(Drop)]
pub(crate) struct Coming {
    pub(crate) pieces: Vec<Bytes>,
    pub(crate) fail: u64,
}

impl Way {
    // What is told of what comes.
    pub(crate) fn told<R: Wait + Abort + Copy + Drop + Send + Sync>(
        self,
        rt: R,
        alloc: Global,
        coming: Coming,
    ) -> Vec<u8> {
        match self {
            Way::Feeder => asked(&rt, alloc, coming.pieces),
            Way::Calls => called(&rt, alloc, coming.pieces),
            Way::LookUp => looked_up(&rt, alloc, coming),
            Way::Completion => completed(&rt, alloc, coming),
            Way::Refused => told_refused(&rt, alloc, coming),
            Way::Pass => told_on_desk(rt, alloc, coming),
            Way::File => told_from_file(&rt, alloc, coming),
            Way::Client | Way::Typist | Way::Link => told_alone(&rt, alloc, self, coming),
        }
    }

    // What is told of what comes to a caller.
    pub(crate) fn told_by<R: Abort, C: Caller>(
        self,
        rt: &R,
        alloc: Global,
        caller: &mut C,
        coming: Coming,
    ) -> Vec<u8> {
        match self {
            Way::Client | Way::File => answered(rt, alloc, caller, coming.pieces),
            Way::Typist => typed(rt, alloc, caller, coming.pieces),
            _ => served(rt, alloc, caller, coming),
        }
    }
}
