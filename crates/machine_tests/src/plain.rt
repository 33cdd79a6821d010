use crate::making::name_of;
use expectations::{same, same_at};
use kana_input::{Plain, PlainThen, press_plain};
use romaji_rules::Rules;
use skk_text::{Text, read_keys};
use std::alloc::Global;
use std::process::Abort;

// What is typed in hiragana mode; `=`; and then all that is inserted, what waits, the mode, and
// what the last key does besides.
static CASES: &str = "
kan=か:n:Hira:Stay kana=かな::Hira:Stay kany=か:ny:Hira:Stay kan1=かん1::Hira:Stay kanq=かん::Kata:Stay
qkan<cj>=カン::Kata:Stay zl=→::Hira:Stay kal=か::Ascii:Stay laA/=aA/::Ascii:Stay La=ａ::Wide:Stay
La<cj>=ａ::Hira:Stay kanQ=かん::Hira:OpenReading(None) n/=ん::Hira:OpenAbbrev kanK=かん::Hira:OpenReading(Some(107))
ky<bs>=:k:Hira:Stay ka<bs>=か::Hira:DeleteLast k<cg>=::Hira:Stay ka<cg>=か::Hira:Cancel n<ret>=ん::Hira:Newline
n<tab>=:n:Hira:Stay n<undo>=:n:Hira:AskUndo l<ret>=::Ascii:Newline l<cg>=::Ascii:Stay l<bs>=::Ascii:DeleteLast
";

// What keys come to that are typed in hiragana mode, as a case has it.
fn outcome_of(rt: &impl Abort, alloc: Global, rules: &Rules, keys: &str) -> String {
    let mut plain = Plain::new();
    let mut inserted = Text::new(alloc);
    let mut then = PlainThen::Stay;
    let keys = read_keys(alloc, keys.as_bytes()).expect(rt, "keys");
    for key in keys.iter() {
        let done = press_plain(&mut plain, rules, *key);
        done.insert.push_to(&mut inserted).expect(rt, "memory");
        then = done.then;
    }
    outcome_text(rt, alloc, &plain, inserted.as_str(), then)
}

// An outcome, as the cases have it.
fn outcome_text(
    rt: &impl Abort,
    alloc: Global,
    plain: &Plain,
    inserted: &str,
    then: PlainThen,
) -> String {
    let mode = name_of(rt, alloc, plain.mode);
    let then = name_of(rt, alloc, then);
    [
        inserted,
        plain.pending.as_str(),
        mode.as_str(),
        then.as_str(),
    ]
    .join(alloc, ":")
    .expect(rt, "memory")
}

#[test]
fn keys_are_read_in_the_plain_state(rt: HostRuntime) {
    let alloc = rt.alloc();
    let rules = Rules::standard(alloc).expect(&rt, "memory");
    same(CASES.split_whitespace().count(), 24).expect(&rt, "as wanted");
    for case in CASES.split_whitespace() {
        expect_case(&rt, alloc, &rules, case);
    }
}

fn expect_case<R: Abort>(rt: &R, alloc: Global, rules: &Rules, case: &str) {
    let (keys, wanted) = case.split_once('=').expect(rt, "no `=`");
    let outcome = outcome_of(rt, alloc, rules, keys);
    same_at(outcome.as_str(), wanted, keys).expect(rt, "as wanted");
}

#[test]
fn what_a_key_inserts_fits_where_its_bytes_do(rt: HostRuntime) {
    let alloc = rt.alloc();
    let rules = Rules::standard(alloc).expect(&rt, "memory");
    expect_bytes(&rt, alloc, &rules, "a", 3);
    expect_bytes(&rt, alloc, &rules, "kk", 3);
    expect_bytes(&rt, alloc, &rules, "n ", 4);
    expect_bytes(&rt, alloc, &rules, "kya", 6);
    expect_bytes(&rt, alloc, &rules, "lA", 1);
    expect_bytes(&rt, alloc, &rules, "LA", 3);
    expect_bytes(&rt, alloc, &rules, "<tab>", 0);
}

// The last key inserts so many bytes in UTF-8, and fits into no smaller room.
fn expect_bytes<R: Abort>(rt: &R, alloc: Global, rules: &Rules, keys: &str, bytes: usize) {
    let mut plain = Plain::new();
    let keys = read_keys(alloc, keys.as_bytes()).expect(rt, "keys");
    let (last, first) = keys.as_slice().split_last().expect(rt, "a key");
    for key in first {
        drop(press_plain(&mut plain, rules, *key));
    }
    let insert = press_plain(&mut plain, rules, *last).insert;
    same(insert.fits_in(bytes), true).expect(rt, "fits");
    same(bytes > 0 && insert.fits_in(bytes - 1), false).expect(rt, "fits in less");
}
