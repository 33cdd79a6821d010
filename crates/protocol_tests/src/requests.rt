use crate::expected::{expect, expect_rows};
use crate::pieces::{SIZES, push, push_piece};
use crate::ways::Way;
use skk_calls::Call;
use skk_text::Bytes;
use skkserv_proto::{FeedFault, Feeder, Request, request_call};
use std::alloc::Global;
use std::process::Abort;

// The requests of pieces, each by its command with its reading, and an LF; in front of them the bad byte.
pub(crate) fn asked<R: Abort>(rt: &R, alloc: Global, pieces: Vec<Bytes>) -> Vec<u8> {
    let mut told = Vec::new(alloc);
    let requests = requests_of(rt, alloc, pieces, &mut told);
    for request in requests.as_slice() {
        push_request(rt, &mut told, request);
    }
    drop(requests);
    told
}

// The requests of pieces. What a feeder answers to a piece is told where it is another answer than before.
pub(crate) fn requests_of<R: Abort>(
    rt: &R,
    alloc: Global,
    pieces: Vec<Bytes>,
    told: &mut Vec<u8>,
) -> Vec<Request> {
    let mut feeder = Feeder::new();
    let mut requests = Vec::new(alloc);
    let mut fault = None;
    let mut fed: u64 = 0;
    for piece in pieces.as_slice() {
        let answer = feeder.feed(alloc, piece.as_slice(), &mut requests).err();
        if answer != fault {
            push_fault(rt, alloc, told, answer, fed);
        }
        fault = answer;
        fed = fed.saturating_add(piece.as_slice().len() as u64);
    }
    drop(feeder);
    drop(pieces);
    requests
}

// Adds what a feeder answers from now on: its fault, and where no byte of the piece is bad that it does so too late.
fn push_fault<R: Abort>(
    rt: &R,
    alloc: Global,
    told: &mut Vec<u8>,
    fault: Option<FeedFault>,
    fed: u64,
) {
    let text = match fault {
        Some(FeedFault::Bad { at }) if at < fed => format!(in alloc; "bad byte at {at}, late\n"),
        Some(fault) => format!(in alloc; "{fault}\n"),
        None => format!(in alloc; "no fault\n"),
    };
    push(rt, told, text.expect(rt, "memory").as_str().as_bytes());
}

fn push_request<R: Abort>(rt: &R, told: &mut Vec<u8>, request: &Request) {
    let none: &[u8] = &[];
    let (command, reading) = match request {
        Request::End => (b"0", none),
        Request::Look(reading) => (b"1", reading.as_slice()),
        Request::Version => (b"2", none),
        Request::Host => (b"3", none),
        Request::Complete(prefix) => (b"4", prefix.as_slice()),
    };
    push(rt, told, command);
    push(rt, told, reading);
    push(rt, told, b"\n");
}

// What comes, and the requests that it asks.
const FED: &str = "\
// a character that is cut, and a reading of which no byte, one or more stand there
1%E3|
1%E3%81^%8Bんじ |1かんじ~
1^a^b^ |1ab~
4^^\r|4~
// what ends in each place
|
^|
\r|
\r~~\r2\r~|2~
3|3~
1a 1|1a~
4a 4b|4a~
1a\r|1a~
// a reading ends at a space, a CR and an LF, and may have any other byte
1a 1b\r1c~4d 4e\r4f~|1a~1b~1c~4d~4e~4f~
1a\r~4b\r~|1a~4b~
1 1\r1~4 |1~1~1~4~
101234 40\t\0/;\u{7F}%FFT |101234~40\t\0/;\u{7F}%FFT~
// what stands behind the end is ignored
2023|2~0~
~0^9^1a ^0|0~
10 0T|10~0~
// a bad byte counts from the first byte that was fed, and stays
9|bad byte at 0~
1ぬ 4か 239|bad byte at 12~1ぬ~4か~2~3~
29^2^^0|bad byte at 1~2~
1a^b \r^~2x2^y|bad byte at 7~1ab~2~
2^2^a^b|bad byte at 2~2~2~
// no space stands between requests, and no typist's line behind the first byte
2 |bad byte at 1~2~
1a  |bad byte at 3~1a~
1\r |bad byte at 2~1~
T1 1~|bad byte at 0~
3T1 1~|bad byte at 1~3~
// what is no bad byte behind the version
2\r|2~
2~|2~
20|2~0~
21|2~
22|2~2~
23|2~3~
24|2~
// a reading of 255 bytes is at the limit; the byte behind it is bad where it doesn't end the reading
1{254 a} |1{254 a}~
1{255 a} |1{255 a}~
4{255 a}\r|4{255 a}~
\r~31{255 a}~|3~1{255 a}~
1{255 a}|
1{256 a}|bad byte at 256~
1{256 a} |bad byte at 256~
4{256 a}~|bad byte at 256~
1{255 a}%E3 |bad byte at 256~
2\r~4b 1{256 a} 2|bad byte at 262~2~4b~
1{600 a} 2|bad byte at 256~";

#[test]
fn what_is_fed_asks_requests(rt: HostRuntime) {
    expect_rows(rt, rt.alloc(), Way::Feeder, FED, SIZES);
}

// The bytes that are commands, or stand in front of one.
const COMMANDS: &[u8] = b"\r\n01234";

// Each other byte in a command's place, behind the version.
#[test]
fn other_bytes_are_bad(rt: HostRuntime) {
    expect_bad(&rt, rt.alloc());
}

fn expect_bad<R: Abort>(rt: &R, alloc: Global) {
    for byte in 0..=255 {
        if !COMMANDS.contains(&byte) {
            expect_bad_byte(rt, alloc, byte);
        }
    }
}

fn expect_bad_byte<R: Abort>(rt: &R, alloc: Global, byte: u8) {
    let mut pieces = Vec::new(alloc);
    push_piece(rt, alloc, &mut pieces, &[b'2', byte]);
    expect(
        rt,
        &asked(rt, alloc, pieces),
        b"bad byte at 1\n2\n",
        "no command",
    );
}

// The calls of the requests of pieces, each with an LF.
pub(crate) fn called<R: Abort>(rt: &R, alloc: Global, pieces: Vec<Bytes>) -> Vec<u8> {
    let mut told = Vec::new(alloc);
    let requests = requests_of(rt, alloc, pieces, &mut told);
    for request in requests.as_slice() {
        push_call(rt, alloc, &mut told, request);
    }
    drop(requests);
    told
}

fn push_call<R: Abort>(rt: &R, alloc: Global, told: &mut Vec<u8>, request: &Request) {
    let call = request_call(alloc, request).expect(rt, "memory");
    let text = text_of(rt, alloc, &call);
    drop(call);
    push(rt, told, text.as_str().as_bytes());
}

// A call: the part of the key, or `C` for completions, the number of the typist and the reading.
fn text_of<R: Abort>(rt: &R, alloc: Global, call: &Option<Call>) -> String {
    let text = match call {
        None => format!(in alloc; "none\n"),
        Some(
            Call::Lookup {
                who,
                key,
                okuri: None,
            },
        ) => format!(in alloc; "{:?} {who} {}\n", key.part(), key.reading().as_str()),
        Some(Call::Complete { who, prefix }) => {
            format!(in alloc; "C {who} {}\n", prefix.as_str())
        }
        _ => format!(in alloc; "another call\n"),
    };
    text.expect(rt, "memory")
}

const CALLS: &str = "\
0|none~
2|none~
3|none~
1かんじ |Nasi 0 かんじ~
// the letters from `a` to `z` behind what begins past ASCII
1おおk |Ari 0 おおk~
1んa |Ari 0 んa~
1んz |Ari 0 んz~
1\u{80}z |Ari 0 \u{80}z~
1ん` |Nasi 0 ん`~
1ん%7B |Nasi 0 ん%7B~
1んZ |Nasi 0 んZ~
1んｋ |Nasi 0 んｋ~
1aak |Nasi 0 aak~
1aんk |Nasi 0 aんk~
1k |Nasi 0 k~
1か/ |Nasi 0 か/~
// no valid readings
1 |none~
1;a |none~
1\u{7F} |none~
1a\u{1F} |none~
// prefixes
4か |C 0 か~
4おおk |C 0 おおk~
4 |C 0 ~
4;\u{7F} |C 0 ;\u{7F}~
// bytes that are no text
1%FF |none~
1%E3%81 |none~
4%FF |none~
4a%E3%81 |none~
4%ED%A0%80 |none~";

#[test]
fn requests_are_calls(rt: HostRuntime) {
    expect_rows(rt, rt.alloc(), Way::Calls, CALLS, &[]);
}
