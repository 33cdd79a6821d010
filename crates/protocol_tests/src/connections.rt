use crate::expected::expect_rows;
use crate::pieces::push;
use crate::ways::{Coming, Way};
use romaji_rules::Rules;
use skk_calls::Caller;
use skk_outside::{Gate, MemLink};
use skk_server::{End, serve_connection};
use std::alloc::Global;
use std::cell::Cell;
use std::process::Abort;

// A gate that counts how often a caller comes with its number and the right turn; more than any where one was wrong.
#[derive(Drop)]
struct Turns {
    caller: u32,
    count: Cell<u64>,
}

impl Gate for Turns {
    fn at(&self, caller: u32, turn: u64) {
        let is_next = caller == self.caller && turn == self.count.get();
        let count = if is_next {
            turn.saturating_add(1)
        } else {
            u64::MAX
        };
        self.count.set(count);
    }
}

// What is sent on a connection of a caller; and behind it how the connection ended, how often it came to the gate, and
// whether it was left open.
pub(crate) fn served<R: Abort, C: Caller>(
    rt: &R,
    alloc: Global,
    caller: &mut C,
    coming: Coming,
) -> Vec<u8> {
    let rules = Rules::standard(alloc).expect(rt, "memory");
    let fails = vec![in alloc; coming.fail].expect(rt, "memory");
    let mut link = MemLink::new(alloc, coming.pieces, fails);
    let turns = Turns {
        caller: caller.number(),
        count: Cell::new(0),
    };
    let end = serve_connection(alloc, &mut link, &rules, caller, &turns);
    drop(rules);
    told_of(rt, alloc, link, end, turns.count.get())
}

fn told_of<R: Abort>(rt: &R, alloc: Global, link: MemLink, end: End, count: u64) -> Vec<u8> {
    let open = if link.is_closed() { "" } else { " open" };
    let text = format!(in alloc; ";{end:?} {count}{open}").expect(rt, "memory");
    let mut told = Vec::new(alloc);
    push(rt, &mut told, link.written());
    push(rt, &mut told, text.as_str().as_bytes());
    drop(link);
    told
}

const SERVED: &str = "\
|;Closed 0
1ぬ |4ぬ ~;Closed 1
// a reading that is cut inside a character, and a byte that is no command
1%E3%81^%8Bんじ ^4か ^2^3^92|1/漢字/幹事;宴会の/感じ/~1/かんじ/~skk-desk-1.0 localhost:127.0.0.1: 0~;Closed 5
// nothing is answered behind the end, nor a reading that the input ends in
202^2|skk-desk-1.0 ;Closed 1
21a|skk-desk-1.0 ;Closed 1
// a typist's connection has `T` as its first byte
T1 1~^Kanji ~<zz>~|かな\t\t~かな\t▼漢字\t~?0~;Closed 3
T^1 1~Ka|かな\t\t~;Closed 1
T1 2~a~^a~|0~;Closed 1
~T1 1~|0~;Closed 1
2T1 1~|skk-desk-1.0 0~;Closed 2
// a reading and a typist's first line that are too long, and a reading that is no text
1{256 a}|0~;Closed 1
T{4096 a}|0~;Closed 1
1%FF |4%FF ~;Closed 1
// two turns with a reply, of three calls each, and the read of the end
2^3|;LinkFault 0|1
2^3|;LinkFault 1|2
2^3|skk-desk-1.0 ;LinkFault 1|3
2^3|skk-desk-1.0 ;LinkFault 1|4
2^3|skk-desk-1.0 ;LinkFault 2|5
2^3|skk-desk-1.0 localhost:127.0.0.1: ;LinkFault 2|6
2^3|skk-desk-1.0 localhost:127.0.0.1: ;LinkFault 2|7
2^3|skk-desk-1.0 localhost:127.0.0.1: ;Closed 2|8
T1 1~^a~|かな\t\t~;LinkFault 1|4
T1 1~^a~|かな\t\t~;LinkFault 2|5
// what comes at once is answered by one write, and a turn without a reply has none
232|skk-desk-1.0 localhost:127.0.0.1: skk-desk-1.0 ;LinkFault 3|4
232|skk-desk-1.0 localhost:127.0.0.1: skk-desk-1.0 ;Closed 3|5
1a^ |;LinkFault 1|3
1a^ |;LinkFault 0|2
// a write that fails where the connection is over
9|;LinkFault 1|2
0|;Closed 0|2
// at most 4,096 bytes are read at once: the second read, the third call or the write behind it fails
{4095 ~}2|;LinkFault 1|2
{4095 ~}2|skk-desk-1.0 ;LinkFault 1|3
{4096 ~}2|;LinkFault 0|2
{4096 ~}2|;LinkFault 1|3
{4096 ~}2|skk-desk-1.0 ;LinkFault 1|5
{8192 ~}2|;LinkFault 0|3
{8192 ~}2|;LinkFault 1|4";

#[test]
fn connections_are_served(rt: HostRuntime) {
    expect_rows(rt, rt.alloc(), Way::Link, SERVED, &[]);
}

#[test]
fn passes_serve_connections(rt: HostRuntime) {
    expect_rows(rt, rt.alloc(), Way::Pass, SERVED, &[]);
}

// A request whose call is refused has no reply, and nothing is answered behind it; what is sent before it is.
const REFUSED: &str = "\
21a 2|skk-desk-1.0 ;Memory 1
4a |;Memory 0
1; 31a |4; ~localhost:127.0.0.1: ;Memory 2
202|skk-desk-1.0 ;Closed 1";

#[test]
fn a_refused_request_ends_a_connection(rt: HostRuntime) {
    expect_rows(rt, rt.alloc(), Way::Refused, REFUSED, &[]);
}
