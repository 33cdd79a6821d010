ghost use Rattle.std.specs.Prelude.{◌≡◌, true};
ghost use Rattle.skk_calls.specs.Dictionary.{is_fit};

use crate::expected::{expect, expect_rows};
use crate::pieces::push;
use crate::requests::requests_of;
use crate::tables::{bytes_of, pieces_of};
use crate::ways::Way;
use skk_calls::{Answer, Call, Caller, Reply};
use skk_text::{Bytes, Text, Texts};
use skkserv_proto::{Request, reply_bytes, request_call};
use std::alloc::Global;
use std::process::Abort;

// What is sent for the requests of pieces, each of which is a call of the caller or none.
pub(crate) fn answered<R: Abort, C: Caller>(
    rt: &R,
    alloc: Global,
    caller: &mut C,
    pieces: Vec<Bytes>,
) -> Vec<u8> {
    let mut sent = Vec::new(alloc);
    let requests = requests_of(rt, alloc, pieces, &mut sent);
    for request in requests.as_slice() {
        push_answer(rt, alloc, caller, &mut sent, request);
    }
    drop(requests);
    sent
}

fn push_answer<R: Abort, C: Caller>(
    rt: &R,
    alloc: Global,
    caller: &mut C,
    sent: &mut Vec<u8>,
    request: &Request,
) {
    match request_call(alloc, request).expect(rt, "memory") {
        Some(call) => {
            let answer = answer_to(alloc, caller, call);
            push_done(rt, alloc, sent, request, &answer);
            drop(answer);
        }
        None => push_reply(rt, alloc, sent, request, None),
    }
}

// The answer to a call, which is let go.
fn answer_to<C: Caller>(alloc: Global, caller: &mut C, call: Call) -> Answer
    requires { is_fit call ≡ true }
{
    let answer = caller.call(alloc, &call);
    drop(call);
    answer
}

fn push_done<R: Abort>(
    rt: &R,
    alloc: Global,
    sent: &mut Vec<u8>,
    request: &Request,
    answer: &Answer,
) {
    match answer {
        Answer::Done(reply) => push_reply(rt, alloc, sent, request, Some(reply)),
        Answer::Refused(_) => push(rt, sent, b"refused\n"),
    }
}

fn push_reply<R: Abort>(
    rt: &R,
    alloc: Global,
    sent: &mut Vec<u8>,
    request: &Request,
    reply: Option<&Reply>,
) {
    let bytes = reply_bytes(alloc, request, reply).expect(rt, "memory");
    push(rt, sent, &bytes);
}

// What a client sends, and what it is sent.
const ANSWERED: &str = "\
|
0|
1%E3%81^%8Bんじ |1/漢字/幹事;宴会の/感じ/~
1かん%E3%81^%98 |1/漢字/幹事;宴会の/感じ/~
1か^んじ|
2^3^0^2|skk-desk-1.0 localhost:127.0.0.1: ";

#[test]
fn clients_are_answered(rt: HostRuntime) {
    expect_rows(rt, rt.alloc(), Way::Client, ANSWERED, &[]);
}

// What a client of a file sends, and what it is sent: a line's candidates as a row is written, whether they stand so in
// the line or not.
const FROM_FILE: &str = "\
1かんじ |1/漢字/幹事;宴会の/感じ/~
1みぎ |1/右/~
1はし |1/橋;a;b/端/~
1ひだり |4ひだり ~
// quoted where there is a need and nowhere else
1くぎり |1/(concat \"a\\057b\")/乙/~
1えん |1/円/縁/~
1かぎ |1/(concat \"a\\\"b\")/鍵/~
1かっこ |1/(concat \"[\")/(concat \"]\")/括弧/~
// blocks and marks are no candidates
1うごk |1/動/~
1にわ |1/庭;a/~
// the first of each word, and no empty word or note
1くり |1/栗/庫裏/~
1しか |1/鹿/歯科/~
1せみ |1/蝉/蟬/~
// long
1なが |1/{200 長}/短/~";

#[test]
fn lines_of_a_file_are_answered(rt: HostRuntime) {
    expect_rows(rt, rt.alloc(), Way::File, FROM_FILE, &[]);
}

// A request, the readings that its call is replied with, and what is sent: the readings as they come, whatever their
// order and how often each does, without those that hold a slash.
const LISTED: &str = "\
4か |かう,かい,かう|1/かう/かい/かう/~
4か |か/く,かう,か/|1/かう/~
4か |か/く|4か ~
4か ||4か ~
4か |;か,か;|1/;か/か;/~
// readings are no candidates, and where no call is made no reply counts
1か |かう|4か ~
2|かう|skk-desk-1.0 \n\
3|かう|localhost:127.0.0.1: \n\
0|かう|";

fn expect_lists<R: Abort>(rt: &R, alloc: Global) {
    for row in LISTED.split('\n') {
        if !row.starts_with("//") {
            expect_list(rt, alloc, row);
        }
    }
}

fn expect_list<R: Abort>(rt: &R, alloc: Global, row: &str) {
    let (comes, others) = row.split_once('|').expect(rt, "a bar");
    let (readings, wanted) = others.split_once('|').expect(rt, "two bars");
    let mut sent = Vec::new(alloc);
    let requests = requests_of(rt, alloc, pieces_of(rt, alloc, comes), &mut sent);
    let reply = Reply::Readings(readings_of(rt, alloc, readings));
    for request in requests.as_slice() {
        push_reply(rt, alloc, &mut sent, request, Some(&reply));
    }
    drop(reply);
    drop(requests);
    expect(rt, &sent, &bytes_of(rt, alloc, wanted), row);
}

// The readings of a field, which are cut by commas: none of an empty one.
fn readings_of<R: Abort>(rt: &R, alloc: Global, field: &str) -> Texts {
    let mut readings = Texts::new(alloc);
    if !field.is_empty() {
        for reading in field.split(',') {
            push_reading(rt, alloc, &mut readings, reading);
        }
    }
    readings
}

fn push_reading<R: Abort>(rt: &R, alloc: Global, readings: &mut Texts, reading: &str) {
    let text = String::from_str(alloc, reading).expect(rt, "memory");
    readings.push(Text::of(text)).expect(rt, "memory");
}

#[test]
fn readings_are_listed(rt: HostRuntime) {
    expect_lists(&rt, rt.alloc());
}
