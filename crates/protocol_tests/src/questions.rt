ghost use Rattle.std.specs.Prelude.{◌≡◌, true};
ghost use Rattle.skkserv_client.specs.Questions.{are_askable, bytes_asked};

use crate::expected::expect_rows;
use crate::pieces::{SIZES, push};
use crate::ways::{Coming, Way};
use dict_format::print_item;
use skk_calls::Cands;
use skk_outside::MemLink;
use skk_text::{Text, Texts};
use skkserv_client::{Ask, AskFault, Told, ask, is_askable};
use std::alloc::Global;
use std::process::Abort;

// What a client sends that asks a link for the candidates of か, and behind it what it tells.
pub(crate) fn looked_up<R: Abort>(rt: &R, alloc: Global, coming: Coming) -> Vec<u8> {
    let reading = Text::from_str(alloc, "か").expect(rt, "memory");
    told_of(rt, alloc, coming, Ask::Look(reading))
}

// The same of the readings that go on from か.
pub(crate) fn completed<R: Abort>(rt: &R, alloc: Global, coming: Coming) -> Vec<u8> {
    let prefix = Text::from_str(alloc, "か").expect(rt, "memory");
    told_of(rt, alloc, coming, Ask::Complete(prefix))
}

fn told_of<R: Abort>(rt: &R, alloc: Global, coming: Coming, what: Ask) -> Vec<u8> {
    let fails = vec![in alloc; coming.fail].expect(rt, "memory");
    let mut link = MemLink::new(alloc, coming.pieces, fails);
    assert!(rt; is_askable(what.text().as_str()), "か can be asked");
    let answer = ask(alloc, &mut link, &what);
    let mut told = Vec::new(alloc);
    push(rt, &mut told, link.written());
    push(rt, &mut told, b";");
    drop(link);
    drop(what);
    push_answer(rt, alloc, &mut told, answer);
    told
}

fn push_answer<R: Abort>(
    rt: &R,
    alloc: Global,
    told: &mut Vec<u8>,
    answer: Result<Told, AskFault>,
) {
    match answer {
        Ok(Told::Cands(cands)) => push_cands(rt, alloc, told, &cands),
        Ok(Told::Readings(readings)) => push_readings(rt, told, &readings),
        Err(fault) => push_fault(rt, alloc, told, fault),
    }
}

fn push_fault<R: Abort>(rt: &R, alloc: Global, told: &mut Vec<u8>, fault: AskFault) {
    let text = format!(in alloc; "{fault}").expect(rt, "memory");
    push(rt, told, text.as_str().as_bytes());
}

fn push_cands<R: Abort>(rt: &R, alloc: Global, told: &mut Vec<u8>, cands: &Cands) {
    for cand in cands.as_slice() {
        let item = print_item(alloc, cand).expect(rt, "memory");
        push(rt, told, item.as_str().as_bytes());
        push(rt, told, b"\n");
    }
}

fn push_readings<R: Abort>(rt: &R, told: &mut Vec<u8>, readings: &Texts) {
    for reading in readings.as_slice() {
        push(rt, told, reading.as_str().as_bytes());
        push(rt, told, b"\n");
    }
}

// What a server sends, and what a client sends and tells that asks it for candidates.
const LOOKED_UP: &str = "\
1/漢字/幹事;宴会の/~|1か ;漢字~幹事;宴会の~
1漢~|1か ;reply bad at 1
4か ~|1か ;
4~|1か ;
|1か ;reply ended at 0
1/a/|1か ;reply ended at 4
4か |1か ;reply ended at 5
0|1か ;reply ended at 1
~|1か ;reply bad at 0
%0D~|1か ;reply bad at 0
0~|1か ;reply refused
0か%FF~|1か ;reply refused
9~|1か ;reply bad at 0
2%FF~|1か ;reply bad at 0
 1/a/~|1か ;reply bad at 0
// a CR at the end is not part of a line, and only the first line counts
1/a/%0D~|1か ;a~
1/a/%0D%0D~|1か ;reply bad at 1
1/a/~1/b/~|1か ;a~
0~1/b/~|1か ;reply refused
// a list begins and ends with a slash, and these are two
1~|1か ;reply bad at 1
1/~|1か ;reply bad at 1
1//~|1か ;
1/a~|1か ;reply bad at 1
1a/~|1か ;reply bad at 1
1か/a/~|1か ;reply bad at 1
// the first of each word that is not empty is told
1/a;x/b/a;y/~|1か ;a;x~b~
1/;x//b/~|1か ;b~
1/a/b/c//~|1か ;a~b~c~
// what a dictionary writes in Lisp: words are read, and what hides words is plain text
1/(concat \"a\\057b\\073c\")/~|1か ;(concat \"a\\057b\\073c\")~
1/(skk-ignore-dic-word \"x\")/~|1か ;(concat \"(skk-ignore-dic-word \\\"x\\\")\")~
1/[/a/]/~|1か ;(concat \"[\")~a~(concat \"]\")~
// bytes that are no text
1%FF/~|1か ;reply bad at 1
1/%E6%BC/~|1か ;reply bad at 2
1/a/%E6%BC%0D~|1か ;reply bad at 4
1a%FF~|1か ;reply bad at 2
// items that are too long: the first stands behind `1/` and those before it
1/{4095 a}/~|1か ;{4095 a}~
1/{4096 a}/~|1か ;reply bad at 2
1/a/{4096 a}/{4096 b}/~|1か ;reply bad at 4
1/あ/{4094 a};bb/~|1か ;reply bad at 6
1/{4093 a};bb/~|1か ;{4093 a};bb~
1/;{4096 a}/~|1か ;reply bad at 2
1/{4096 a}~|1か ;reply bad at 1";

// Lines about the limit.
const LONG: &str = "\
4{4194302 a}~|1か ;
4{4194302 a}|1か ;reply ended at 4194303
4{4194303 a}|1か ;reply too long
4{4194303 a}~|1か ;reply too long
{4194304 0}~|1か ;reply too long";

// A link of which one call fails: its write, its flush, and its reads.
const FAILING: &str = "\
1/a/~|;the link failed|1
1/a/~|1か ;the link failed|2
1/a/~|1か ;the link failed|3
1/a^/~|1か ;the link failed|4
1/a/~|1か ;a~|4
1/a/|1か ;the link failed|4";

// What a server sends, and what a client sends and tells that asks it for readings.
const COMPLETED: &str = "\
1/かんじ/か;/かんじ/~|4か ;かんじ~か;~
1//か/~|4か ;か~
1/{4096 a}/~|4か ;{4096 a}~
1/(concat \"a\")/~|4か ;(concat \"a\")~
4か ~|4か ;
0~|4か ;reply refused
1か~|4か ;reply bad at 1
1/か|4か ;reply ended at 5";

#[test]
fn servers_are_asked(rt: HostRuntime) {
    expect_rows(rt, rt.alloc(), Way::LookUp, LOOKED_UP, SIZES);
    expect_rows(rt, rt.alloc(), Way::LookUp, LONG, &[]);
    expect_rows(rt, rt.alloc(), Way::LookUp, FAILING, &[]);
    expect_rows(rt, rt.alloc(), Way::Completion, COMPLETED, SIZES);
}
