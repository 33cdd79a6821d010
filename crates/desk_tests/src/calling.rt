ghost use Rattle.std.specs.Prelude.{◌≡◌, true};
ghost use Rattle.skk_calls.specs.Dictionary.{is_fit};

use skk_calls::{Answer, Call, Caller, Cand, FoundCands, Part, Refusal, Reply, RowKey};
use skk_text::{Copies, Text};
use std::alloc::Global;
use std::process::Abort;

// The reading for which all is learnt and found.
const READING: &str = "かんじ";

// The call that learns a word in a book.
pub(crate) fn learning<R: Abort>(rt: &R, alloc: Global, book: u16, word: &str) -> Call
    ensures { is_fit result ≡ true }
{
    let key = key(rt, alloc);
    let cand = cand(rt, alloc, word);
    Call::Learn {
        book,
        key,
        okuri: None,
        cand,
    }
}

// The call that finds the words for a typist.
pub(crate) fn finding<R: Abort>(rt: &R, alloc: Global, who: u16) -> Call
    ensures { is_fit result ≡ true }
{
    let key = key(rt, alloc);
    Call::Lookup {
        who,
        key,
        okuri: None,
    }
}

fn key<R: Abort>(rt: &R, alloc: Global) -> RowKey {
    RowKey::new(Part::Nasi, text(rt, alloc, READING)).expect(rt, "a reading")
}

fn cand<R: Abort>(rt: &R, alloc: Global, word: &str) -> Cand {
    Cand::new(text(rt, alloc, word), Text::new(alloc)).expect(rt, "a word")
}

fn text<R: Abort>(rt: &R, alloc: Global, content: &str) -> Text {
    Text::from_str(alloc, content).expect(rt, "memory")
}

// The answer to a caller's call, which is let go.
pub(crate) fn answer_to<C: Caller>(alloc: Global, caller: &mut C, call: Call) -> Answer
    requires { is_fit call ≡ true }
{
    caller.call(alloc, &call)
}

// The stamp that an answer tells of what was learnt, or nothing where the disk failed. No other answer is given.
pub(crate) fn stamp_of<R: Abort>(rt: &R, answer: &Answer) -> Option<u64> {
    match answer {
        Answer::Done(Reply::Learned(learned)) => Some(learned.stamp()),
        Answer::Refused(Refusal::Disk) => None,
        _ => panic!(rt; "{answer:?}"),
    }
}

// The candidates that an answer tells, each as its word, a semicolon, its note, and a space.
pub(crate) fn words_of<R: Abort>(rt: &R, alloc: Global, answer: &Answer) -> String {
    match answer {
        Answer::Done(Reply::Found(found)) => cands_text(rt, alloc, found),
        _ => panic!(rt; "{answer:?}"),
    }
}

fn cands_text<R: Abort>(rt: &R, alloc: Global, found: &FoundCands) -> String {
    let found = found.copy(alloc).expect(rt, "memory");
    let found = found.into_distinct(alloc).expect(rt, "memory");
    let mut told = String::new(alloc);
    for cand in found.cands().as_slice() {
        let word = cand.word().as_str();
        let note = cand.note().as_str();
        write!(told, "{word};{note} ").expect(rt, "memory");
    }
    told
}
