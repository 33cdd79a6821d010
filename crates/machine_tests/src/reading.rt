ghost use Rattle.std.specs.Prelude.{◌≢◌, []};

use crate::making::{listed_readings, name_of};
use expectations::{same, same_at};
use reading_state::{AfterConfirm, Reading, ReadingDo, ReadingThen, press_reading};
use romaji_rules::Rules;
use skk_text::{Key, Notice, Texts, read_keys};
use std::alloc::Global;
use std::process::Abort;

// What is typed into a new reading, where `_` is the space; `=`; the reading, with `*` before the kana of an okurigana
// that was begun; `:` and what is pending; and then what the last key tells, and what it does.
static CASES: &str = "
kanj=かん:j:Empty:stay kanji=かんじ::Empty:stay a1;-=あ1;ー::Empty:stay ;=::Reading:stay
Kanji_=かんじ::Empty:convert kan_=かん::Empty:convert _=::Empty:drop k_=::Empty:drop
ugoK_=うご::Empty:stay YoN_=よ*ん::Empty:convert
kanq=かん::Empty:other kal=か::Empty:ascii kazl=か→::Empty:stay kanL=かん::Empty:wide kakQ=か::Empty:open
cho>=ちょ>::Empty:convert n>=ん>::Empty:convert k>=>::Empty:stay ooK>=おお*::Reading:stay
ITta=い*った::Empty:convert ItTa=い*った::Empty:convert ItT=い*っ:t:Empty:stay
UgoKu=うご*く::Empty:convert UgoK=うご*:k:Empty:stay OoK1=おお*::Reading:stay
YoNde=よ*んで::Empty:convert KanJi=かん*じ::Empty:convert kK=:k:Empty:stay KaI=か*い::Empty:convert
kan<cj>=かん::Empty:confirm kan<ret>=かん::Empty:newline kan<cg>=か:n:Empty:drop kan<undo>=か:n:NoUndo:stay
kan<tab>=かん::Empty:complete ugoK<tab>=うご*:k:NoCompletion:stay
kany<bs>=か:n:Empty:stay kana<bs>=か::Empty:stay ItTa<bs>=い*っ::Empty:stay ItTa<bs><bs>=い::Empty:stay
UgoK<bs>=うご::Empty:stay OoK1<bs>=お::Empty:stay <bs>=::Empty:drop
";

// What is done with a reading, in a word.
fn word_of(then: ReadingThen) -> &'static str {
    match then {
        ReadingThen::Stay => "stay",
        ReadingThen::Convert => "convert",
        ReadingThen::AskCompletions => "complete",
        ReadingThen::Drop => "drop",
        ReadingThen::Confirm { other, then } => {
            if other {
                return "other";
            }
            match then {
                AfterConfirm::Nothing => "confirm",
                AfterConfirm::ToAscii => "ascii",
                AfterConfirm::ToWide => "wide",
                AfterConfirm::OpenReading => "open",
                AfterConfirm::Newline => "newline",
            }
        }
    }
}

// A reading and what is done with it, as the cases have it.
fn case_text(rt: &impl Abort, alloc: Global, reading: &Reading, done: ReadingDo) -> String {
    let text = reading.text().as_str();
    let pending = reading.pending().as_str();
    let then = word_of(done.then);
    let notice = done.notice;
    let told = match reading.begun_text() {
        Some(kana) => format!(in alloc; "{text}*{}:{pending}:{notice:?}:{then}", kana.as_str()),
        None => format!(in alloc; "{text}:{pending}:{notice:?}:{then}"),
    };
    told.expect(rt, "memory")
}

// Presses keys, and gives what the last one gives.
fn press_keys(
    rt: &impl Abort,
    alloc: Global,
    reading: &mut Reading,
    rules: &Rules,
    keys: &str,
) -> ReadingDo {
    let mut done = ReadingDo {
        notice: Notice::Empty,
        then: ReadingThen::Stay,
    };
    let keys = read_keys(alloc, keys.as_bytes()).expect(rt, "keys");
    for key in keys.as_slice() {
        let key = match *key {
            Key::Char(b'_') => Key::Char(b' '),
            other => other,
        };
        done = press_reading(alloc, reading, rules, key).expect(rt, "memory");
    }
    done
}

#[test]
fn keys_make_a_reading(rt: HostRuntime) {
    let alloc = rt.alloc();
    let rules = Rules::standard(alloc).expect(&rt, "memory");
    same(CASES.split_whitespace().count(), 42).expect(&rt, "as wanted");
    for case in CASES.split_whitespace() {
        expect_case(&rt, alloc, &rules, case, "");
    }
}

// Types the keys of a case into a new reading, or into one in which these keys were completed.
fn expect_case<R: Abort>(rt: &R, alloc: Global, rules: &Rules, case: &str, completed: &str) {
    let (keys, wanted) = case.split_once('=').expect(rt, "no `=`");
    let outcome = outcome_of(rt, alloc, rules, keys, completed);
    same_at(outcome.as_str(), wanted, keys).expect(rt, "as wanted");
}

fn outcome_of<R: Abort>(
    rt: &R,
    alloc: Global,
    rules: &Rules,
    keys: &str,
    completed: &str,
) -> String {
    let mut reading = Reading::new(alloc);
    if !completed.is_empty() {
        press_keys(rt, alloc, &mut reading, rules, completed);
        complete(rt, alloc, &mut reading);
    }
    let done = press_keys(rt, alloc, &mut reading, rules, keys);
    case_text(rt, alloc, &reading, done)
}

// Completes か.
fn complete<R: Abort>(rt: &R, alloc: Global, reading: &mut Reading) {
    let readings = listed_readings(rt, alloc, "かん,かんじ,かき");
    let notice = reading.complete(alloc, readings).expect(rt, "memory");
    same(notice, Notice::Empty).expect(rt, "as wanted");
}

// What is typed where か was completed, and the reading after it.
static COMPLETED: &str = "
.=かんじ::Empty:stay .<tab>=かき::Empty:stay ..<tab>=かき::NoMore:stay ,=かん::NoMore:stay .,=かん::Empty:stay
.n.=かんじん。::Empty:stay .,n=かん:n:Empty:stay ._=かんじ::Empty:convert .<undo>=かんじ::NoUndo:stay
..<bs>,=か、::Empty:stay .Ku=かんじ*く::Empty:convert .<cg>=かんじ::Empty:drop
";

#[test]
fn completions_are_gone_over(rt: HostRuntime) {
    let alloc = rt.alloc();
    let rules = Rules::standard(alloc).expect(&rt, "memory");
    same(COMPLETED.split_whitespace().count(), 12).expect(&rt, "as wanted");
    for case in COMPLETED.split_whitespace() {
        expect_case(&rt, alloc, &rules, case, "ka");
    }
    let notice = notice_of_none(&rt, alloc);
    same(notice, Notice::NoCompletion).expect(&rt, "as wanted");
}

// What a reading tells that nothing completes.
fn notice_of_none(rt: &impl Abort, alloc: Global) -> Notice {
    let mut reading = Reading::new(alloc);
    reading
        .complete(alloc, Texts::new(alloc))
        .expect(rt, "memory")
}

// The part and the text of the key that a reading is converted by.
fn key_of(rt: &impl Abort, alloc: Global, reading: &Reading) -> String
    requires { reading.now.text ≢ [] }
{
    let key = reading.key(alloc).expect(rt, "memory");
    let part = name_of(rt, alloc, key.part());
    [part.as_str(), key.reading().as_str()]
        .join(alloc, " ")
        .expect(rt, "memory")
}

// The kana of the okurigana that a reading is converted by, or `-` where there is none.
fn okuri_of(rt: &impl Abort, alloc: Global, reading: &Reading) -> String {
    let okuri = reading.okuri(alloc).expect(rt, "memory");
    let kana = match &okuri {
        Some(okuri) => okuri.text().as_str(),
        None => "-",
    };
    let kana = String::from_str(alloc, kana).expect(rt, "memory");
    drop(okuri);
    kana
}

// Tells the key and the okurigana that a reading is converted by behind these keys.
fn expect_key<R: Abort>(
    rt: &R,
    alloc: Global,
    reading: &mut Reading,
    keys: &str,
    wanted: (&str, &str),
) {
    let rules = Rules::standard(alloc).expect(rt, "memory");
    press_keys(rt, alloc, reading, &rules, keys);
    assert!(rt; reading.text().byte_len() > 0);
    let found = (key_of(rt, alloc, reading), okuri_of(rt, alloc, reading));
    same((found.0.as_str(), found.1.as_str()), wanted).expect(rt, "as wanted");
}

// A reading is converted by its text, with the letter of an okurigana.
#[test]
fn readings_are_converted_by_their_keys(rt: HostRuntime) {
    let mut reading = Reading::new(rt.alloc());
    expect_key(&rt, rt.alloc(), &mut reading, "ugoKu", ("Ari うごk", "く"))
}

// An abbreviation is converted as it was typed.
#[test]
fn abbreviations_are_converted_by_themselves(rt: HostRuntime) {
    let mut reading = Reading::abbrev(rt.alloc());
    expect_key(&rt, rt.alloc(), &mut reading, "Vim9_", ("Nasi Vim9", "-"))
}
