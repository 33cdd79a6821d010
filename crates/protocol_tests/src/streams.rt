use crate::expected::{expect_cuts, expect_sizes};
use crate::pieces::{SIZES, push};
use crate::tables::bytes_of;
use crate::ways::Way;
use std::alloc::Global;
use std::process::Abort;
use std::sync::Wait;

// Requests of every kind: what an SKK client sends, the request that it asks, and what is sent for it. The bytes in
// front of a command and those that end a reading vary.
const PARTS: &str = "\
1かんじ |1かんじ~|1/漢字/幹事;宴会の/感じ/~
1ぬ |1ぬ~|4ぬ ~
4か |4か~|1/かんじ/~
2|2~|skk-desk-1.0 \n\
3|3~|localhost:127.0.0.1: \n\
// a reading that begins past ASCII and ends in a letter has an okurigana
\r1おおk\r~|1おおk~|1/大/多/~
~~1いt~|1いt~|1/言/行/~
1うごk\r\r~|1うごk~|1/動/~
1かんじt |1かんじt~|4かんじt ~
// and others have none
1おおK |1おおK~|4おおK ~
1おお |1おお~|4おお ~
1k |1k~|4k ~
1p# |1p#~|1/#4/~
1#ねん |1#ねん~|1/#1年/#3年/#0年/~
1125 |1125~|1/東京都葛飾区/~
1ちょう>~|1ちょう>~|1/超/~
// candidates with notes, and such as are written by their numbers
1こう |1こう~|1/甲;note/~
1くぎり |1くぎり~|1/(concat \"a\\057b\")/(concat \"[x\")/乙/~
1せみ |1せみ~|1/(concat \"a\\073b\");宴会の/~
// completions, in the order of their bytes, without the prefix itself and those that hold a slash
4ちょ\r~|4ちょ~|1/ちょう>/~
4わ |4わ~|1/わ;b/わん/~
4わ/ |4わ/~|4わ/ ~
4かんじ |4かんじ~|4かんじ ~
4 |4~|1/#ねん/125/p#/かんじ/くぎり/こう/せみ/ちょう>/わ;b/わん/~
42 |42~|42 ~
4お |4お~|4お ~
// no valid readings
1 |1~|4 ~
1;か |1;か~|4;か ~
1\u{7F}か\r|1\u{7F}か~|4\u{7F}か ~
1\t\0~|1\t\0~|4\t\0 ~
// bytes that are no text
1%FF |1%FF~|4%FF ~
4%E3%81 |4%E3%81~|4%E3%81 ~";

// A reading of 252 bytes, which no row of the dictionary has.
const LONG_PART: &str = "1{84 あ} |1{84 あ}~|4{84 あ} ~";

// Requests one behind another: what is sent, which requests it asks, and what is sent for them.
#[derive(Drop)]
struct Stream {
    bytes: Vec<u8>,
    asked: Vec<u8>,
    sent: Vec<u8>,
}

impl Stream {
    // No requests.
    fn new(alloc: Global) -> Stream {
        Stream {
            bytes: Vec::new(alloc),
            asked: Vec::new(alloc),
            sent: Vec::new(alloc),
        }
    }

    // Six rounds of all parts but the long one, and that one: 193 requests.
    fn long<R: Abort>(rt: &R, alloc: Global) -> Stream {
        let mut stream = Stream::new(alloc);
        for _ in 0..6 {
            stream.push_round(rt, alloc);
        }
        stream.push(rt, alloc, LONG_PART);
        stream
    }

    // Adds all parts but the long one.
    fn push_round<R: Abort>(&mut self, rt: &R, alloc: Global) {
        for row in PARTS.split('\n') {
            if !row.starts_with("//") {
                self.push(rt, alloc, row);
            }
        }
    }

    // Adds a part.
    fn push<R: Abort>(&mut self, rt: &R, alloc: Global, row: &str) {
        let (bytes, others) = row.split_once('|').expect(rt, "a bar");
        let (asked, sent) = others.split_once('|').expect(rt, "two bars");
        push(rt, &mut self.bytes, &bytes_of(rt, alloc, bytes));
        push(rt, &mut self.asked, &bytes_of(rt, alloc, asked));
        push(rt, &mut self.sent, &bytes_of(rt, alloc, sent));
    }

    // What is told of it in a way.
    fn told<R: Abort>(self, rt: &R, way: Way) -> Vec<u8> {
        let Stream {
            asked,
            mut sent,
            ..
        } = self;
        match way {
            Way::Feeder => return asked,
            Way::Client => {}
            _ => push(rt, &mut sent, b";Closed 193"),
        }
        sent
    }
}

// Tells that the same is told of the long stream where it comes whole, where it is cut at each place, and where it
// comes in pieces of each size.
fn expect_stream<R: Wait + Abort + Copy + Drop + Send + Sync>(rt: R, alloc: Global, way: Way) {
    let bytes = Stream::long(&rt, alloc).bytes;
    let wanted = Stream::long(&rt, alloc).told(&rt, way);
    expect_cuts(rt, alloc, way, &bytes, &wanted);
    expect_sizes(rt, alloc, way, &bytes, &wanted, SIZES);
}

#[test]
fn requests_may_be_cut_anywhere(rt: HostRuntime) {
    expect_stream(rt, rt.alloc(), Way::Feeder);
}

#[test]
fn replies_may_be_cut_anywhere(rt: HostRuntime) {
    expect_stream(rt, rt.alloc(), Way::Client);
}

#[test]
fn a_connection_may_be_cut_anywhere(rt: HostRuntime) {
    expect_stream(rt, rt.alloc(), Way::Link);
}

#[test]
fn a_connection_of_a_pass_may_be_cut_anywhere(rt: HostRuntime) {
    expect_stream(rt, rt.alloc(), Way::Pass);
}

// Tells which request each part asks, and what is sent for it.
fn expect_parts<R: Wait + Abort + Copy + Drop + Send + Sync>(rt: R, alloc: Global) {
    for row in PARTS.split('\n') {
        if !row.starts_with("//") {
            expect_part(rt, alloc, row);
        }
    }
}

fn expect_part<R: Wait + Abort + Copy + Drop + Send + Sync>(rt: R, alloc: Global, row: &str) {
    let mut part = Stream::new(alloc);
    part.push(&rt, alloc, row);
    expect_sizes(rt, alloc, Way::Feeder, &part.bytes, &part.asked, SIZES);
    expect_sizes(rt, alloc, Way::Client, &part.bytes, &part.sent, SIZES);
}

#[test]
fn each_request_is_answered(rt: HostRuntime) {
    expect_parts(rt, rt.alloc());
}
