ghost use Rattle.std.specs.Prelude.{◌≡◌, ◌++◌, true, IfOk, OnOk, OnErr};
ghost use Rattle.skk_calls.specs.Dictionary.{is_fit};
ghost use Rattle.typist_line.specs.Conversations.{refusal};
ghost use Rattle.typist_line.specs.Typings.{heard};
ghost use Rattle.typist_line.specs.declared.typing.Going.{Going};
ghost use Rattle.skk_server.specs.Turns.{AnswersBytes, BreaksBytes, AnswersRequests, BreaksRequests, AnswersRequest};
ghost use Rattle.skk_server.specs.Turns.{BreaksRequest, AnswersCall, BreaksCall, RefusesBehind};

use crate::page::Page;
use skk_calls::{Answer, Call, Caller};
use skk_text::Memory;
use skkserv_proto::{FeedFault, Feeder, Request, reply_bytes, request_call, requests_of_a_front};
use std::alloc::Global;
use typist_line::Going;

/// Answers the next bytes of a client.
pub(crate) fn answer_client<C: Caller>(
    alloc: Global,
    feeder: &mut Feeder,
    bytes: &[u8],
    caller: &mut C,
    page: &mut Page,
) -> Result<Going, Memory>
    ensures ok { IfOk result (AnswersBytes bytes.now feeder.old feeder.new
        (heard C.said caller.old page.old.bytes.items) (heard C.said caller.new page.new.bytes.items)) }
    ensures err { OnErr result (BreaksBytes bytes.now feeder.old
        (heard C.said caller.old page.old.bytes.items) (heard C.said caller.new page.new.bytes.items)) }
    ensures number { C.number caller.new ≡ C.number caller.old }
{
    requests_of_a_front();
    let mut requests = Vec::new(alloc);
    match feeder.feed(alloc, bytes, &mut requests) {
        Ok(()) => answer_requests(alloc, &requests, caller, page),
        Err(FeedFault::Bad { at: _ }) => answer_and_refuse(alloc, &requests, caller, page),
        Err(FeedFault::Memory) => Err(Memory),
    }
}

// Answers requests, and refuses the byte behind them, unless they end the connection.
fn answer_and_refuse<C: Caller>(
    alloc: Global,
    requests: &[Request],
    caller: &mut C,
    page: &mut Page,
) -> Result<Going, Memory>
    ensures ok { IfOk result (RefusesBehind requests.now
        (heard C.said caller.old page.old.bytes.items) (heard C.said caller.new page.new.bytes.items)) }
    ensures err { OnErr result (BreaksRequests requests.now
        (heard C.said caller.old page.old.bytes.items) (heard C.said caller.new page.new.bytes.items)) }
    ensures number { C.number caller.new ≡ C.number caller.old }
{
    match answer_requests(alloc, requests, caller, page)? {
        Going::More => refuse(page),
        Going::Over => Ok(Going::Over),
    }
}

// Refuses what comes next.
fn refuse(page: &mut Page) -> Result<Going, Memory>
    ensures ok { IfOk result (λ going. (going ≡ Going.Over)
        × (page.new.bytes.items ≡ page.old.bytes.items ++ refusal)) }
    ensures err { OnErr result (page.new.bytes.items ≡ page.old.bytes.items) }
{
    page.push(b"0\n")?;
    Ok(Going::Over)
}

// Answers requests, up to the end.
fn answer_requests<C: Caller>(
    alloc: Global,
    requests: &[Request],
    caller: &mut C,
    page: &mut Page,
) -> Result<Going, Memory>
    ensures ok { IfOk result (AnswersRequests requests.now
        (heard C.said caller.old page.old.bytes.items) (heard C.said caller.new page.new.bytes.items)) }
    ensures err { OnErr result (BreaksRequests requests.now
        (heard C.said caller.old page.old.bytes.items) (heard C.said caller.new page.new.bytes.items)) }
    ensures number { C.number caller.new ≡ C.number caller.old }
{
    for request in requests {
        if let Request::End = request {
            return Ok(Going::Over);
        }
        answer_request(alloc, request, caller, page)?;
    }
    Ok(Going::More)
}

// Answers a request that is not the end.
fn answer_request<C: Caller>(
    alloc: Global,
    request: &Request,
    caller: &mut C,
    page: &mut Page,
) -> Result<(), Memory>
    ensures ok { OnOk result (AnswersRequest request.now
        (heard C.said caller.old page.old.bytes.items) (heard C.said caller.new page.new.bytes.items)) }
    ensures err { OnErr result (BreaksRequest request.now
        (heard C.said caller.old page.old.bytes.items) (heard C.said caller.new page.new.bytes.items)) }
    ensures number { C.number caller.new ≡ C.number caller.old }
{
    match request_call(alloc, request)? {
        Some(call) => answer_call(alloc, request, &call, caller, page),
        None => page.push(&reply_bytes(alloc, request, None)?),
    }
}

// Answers a request that is a call.
fn answer_call<C: Caller>(
    alloc: Global,
    request: &Request,
    call: &Call,
    caller: &mut C,
    page: &mut Page,
) -> Result<(), Memory>
    requires { is_fit call.now ≡ true }
    ensures ok { OnOk result (AnswersCall request.now call.now
        (heard C.said caller.old page.old.bytes.items) (heard C.said caller.new page.new.bytes.items)) }
    ensures err { OnErr result (BreaksCall request.now call.now
        (heard C.said caller.old page.old.bytes.items) (heard C.said caller.new page.new.bytes.items)) }
    ensures number { C.number caller.new ≡ C.number caller.old }
{
    match caller.call(alloc, call) {
        Answer::Done(reply) => page.push(&reply_bytes(alloc, request, Some(&reply))?),
        Answer::Refused(_) => Err(Memory),
    }
}
