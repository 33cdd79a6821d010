ghost use Rattle.std.specs.Prelude.{◌≡◌, true};
ghost use Rattle.skk_calls.specs.Dictionary.{is_fit};

use crate::making::{key, long_text, text};
use expectations::{same, same_at};
use skk_calls::{
    Answer, Call, Caller, Cand, CandFault, Chronicle, DialogTrace, Noted, Okuri, OkuriFault, Part,
    Refusal, Reply, RowKey, RowKeyFault, Tally, needs_quotes,
};
use skk_trace::{Shows, Trace};
use std::alloc::Global;
use std::process::Abort;

// The parts of a key whose reading is a text so many times and an end, and why it is none.
type ReadingRow = (Part, &'static str, usize, &'static str, Option<RowKeyFault>);

// The readings of 254 and 255 bytes are at the limits; 84 times あ, of 3 bytes, are 252 bytes.
static READINGS: [ReadingRow; 10] = [
    (Part::Nasi, "かんじ", 1, "", None),
    (Part::Nasi, "a", 1, "\u{80}b\u{3000};", None),
    (Part::Nasi, "", 0, "", Some(RowKeyFault::Invalid)),
    (Part::Nasi, "a", 1, "\u{7F}", Some(RowKeyFault::Invalid)),
    (Part::Nasi, "a", 254, "", None),
    (Part::Nasi, "a", 255, "", Some(RowKeyFault::Invalid)),
    (Part::Ari, "おおk", 1, "", None),
    (Part::Ari, "おおK", 1, "", Some(RowKeyFault::Invalid)),
    (Part::Ari, "あ", 84, "aaz", None),
    (Part::Ari, "あ", 84, "aaaz", Some(RowKeyFault::Invalid)),
];

#[test]
fn readings_of_keys_are_checked(rt: HostRuntime) {
    for row in &READINGS {
        expect_reading(&rt, rt.alloc(), row);
    }
}

fn expect_reading(rt: &impl Abort, alloc: Global, row: &ReadingRow) {
    let (part, unit, count, end, fault) = *row;
    let reading = long_text(rt, alloc, "", unit, count, end);
    same_at(RowKey::new(part, reading).err(), fault, row).expect(rt, "as wanted");
}

// An okurigana that is a text so many times, and why it is none.
type OkuriRow = (&'static str, usize, Option<OkuriFault>);

// 20 times く, of 3 bytes, are the 60 bytes of the limit.
static OKURIGANA: [OkuriRow; 5] = [
    ("ったーゝゞゖ", 1, None),
    ("", 0, Some(OkuriFault::Invalid)),
    ("クa", 1, Some(OkuriFault::Invalid)),
    ("く", 20, None),
    ("く", 21, Some(OkuriFault::Invalid)),
];

#[test]
fn okurigana_are_checked(rt: HostRuntime) {
    for row in &OKURIGANA {
        expect_okuri(&rt, rt.alloc(), row);
    }
}

fn expect_okuri(rt: &impl Abort, alloc: Global, row: &OkuriRow) {
    let (unit, count, fault) = *row;
    let okuri = long_text(rt, alloc, "", unit, count, "");
    same_at(Okuri::new(okuri).err(), fault, row).expect(rt, "as wanted");
}

// A candidate whose word has so many letters, with a note, and why it is none.
type CandRow = (usize, &'static str, Option<CandFault>);

// The word and the note of 4,095 bytes together are at the limit.
static CANDS: [CandRow; 6] = [
    (0, "a/b", Some(CandFault::Empty)),
    (1, "宴\rb/", Some(CandFault::BadNote { at: 3 })),
    (4_095, "x\ny/", Some(CandFault::BadNote { at: 1 })),
    (4_095, "x", Some(CandFault::TooLong { bytes: 4_096 })),
    (4_094, "x", None),
    (4_095, "", None),
];

#[test]
fn candidates_are_checked(rt: HostRuntime) {
    for row in &CANDS {
        expect_cand(&rt, rt.alloc(), row);
    }
}

fn expect_cand(rt: &impl Abort, alloc: Global, row: &CandRow) {
    let (count, note, fault) = *row;
    let word = long_text(rt, alloc, "", "a", count, "");
    let note = text(rt, alloc, note);
    same_at(Cand::new(word, note).err(), fault, row).expect(rt, "as wanted");
}

static QUOTES: [(&str, bool); 14] = [
    ("漢字", false),
    ("a/b", true),
    ("a;b", true),
    ("\"", true),
    ("\\", true),
    ("a\r", true),
    ("a\n", true),
    ("[x", true),
    ("]", true),
    ("x[]", false),
    ("(concat x", true),
    ("(concatx", false),
    ("(skk-ignore-dic-word x", true),
    ("(skk-ignore-dic-word", false),
];

#[test]
fn words_need_quotes(rt: HostRuntime) {
    for (word, needed) in &QUOTES {
        let text = text(&rt, rt.alloc(), word);
        same_at(needs_quotes(&text), *needed, word).expect(&rt, "as wanted");
    }
}

// Counts an answer that is done, and one that is refused.
fn count(tally: &mut Tally) {
    tally.count(&Answer::Done(Reply::Restored));
    tally.count(&Answer::Refused(Refusal::Disk));
}

#[test]
fn tallies_count_answers_and_show_their_fields(rt: HostRuntime) {
    let mut tally = Tally::none();
    same(tally, Tally::new(0, 0, 0, false, false, false)).expect(&rt, "as wanted");
    tally = Tally::new(4, 18_446_744_073_709_551_615, 7, true, false, false);
    count(&mut tally);
    same(tally.learned(), 4).expect(&rt, "as wanted");
    same(tally.restored(), 18_446_744_073_709_551_615).expect(&rt, "as wanted");
    same(tally.rows(), 7).expect(&rt, "as wanted");
    assert!(rt; tally.memory());
    assert!(rt; tally.disk());
    assert!(rt; !tally.full());
}

// A dictionary that was just opened, over nothing.
#[derive(Drop)]
struct AnyOpening;

impl Shows<Noted> for AnyOpening {
    ghost use Rattle.std.specs.Prelude.{[]};
    ghost use Rattle.skk_calls.specs.declared.chronicle.Noted.TheVariants.{Opened};

    ghost shows = { λ _. Opened [] (record { books = []; lists = [] }) 0 16777216 0 0 };
}

#[test]
fn chronicles_begin_with_an_opening(rt: HostRuntime) {
    let _nothing = Chronicle::none();
    let _opened = Chronicle::of(Trace::new(rt.alloc(), &AnyOpening).expect(&rt, "memory"));
}

// A caller whose calls are all refused as out of memory.
#[derive(Drop)]
struct Lacking {
    calls: u32,
    said: DialogTrace,
}

impl Caller for Lacking {
    ghost number = { λ _. 7 };

    ghost said = { λ caller. caller.said };

    fn number(&self) -> u32 {
        7
    }

    fn call(&mut self, _alloc: Global, call: &Call) -> Answer {
        self.calls = self.calls.saturating_add(1);
        let answer = Answer::Refused(Refusal::Memory);
        self.said.note(call, &answer);
        answer
    }
}

// Looks the key か up, and tells whether the call is refused as out of memory.
fn is_refused(rt: &impl Abort, alloc: Global, caller: &mut impl Caller) -> bool {
    let call = look_up(rt, alloc);
    let answer = caller.call(alloc, &call);
    let refused = matches!(answer, Answer::Refused(Refusal::Memory));
    drop(answer);
    drop(call);
    refused
}

// The call that looks the key か up.
fn look_up(rt: &impl Abort, alloc: Global) -> Call
    ensures { is_fit result ≡ true }
{
    Call::Lookup {
        who: 1,
        key: key(rt, alloc, "か"),
        okuri: None,
    }
}

#[test]
fn a_caller_is_answered(rt: HostRuntime) {
    let alloc = rt.alloc();
    let said = DialogTrace::new(alloc).expect(&rt, "memory");
    let mut caller = Lacking { calls: 0, said };
    same(caller.number(), 7).expect(&rt, "as wanted");
    let refused = is_refused(&rt, alloc, &mut caller);
    assert!(rt; refused);
    same(caller.calls, 1).expect(&rt, "as wanted");
}
