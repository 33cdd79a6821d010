ghost use Rattle.std.specs.Prelude.{◌≡◌, true};
ghost use Rattle.numeric_entries.specs.Numbers.{are_numbers};

use crate::making::text;
use expectations::same;
use numeric_entries::{NumberKey, asks_lookup, fill, number_key};
use skk_text::{Text, Texts};
use std::alloc::Global;
use std::process::Abort;

// The words of a string.
fn words(rt: &impl Abort, alloc: Global, content: &str) -> Texts {
    let mut words = Texts::new(alloc);
    for word in content.split_whitespace() {
        words.push(text(rt, alloc, word)).expect(rt, "memory");
    }
    words
}

// The key of a reading, a word of its entry, whether that asks for a look-up, the first words of the numbers, and the
// word as it is filled.
type Filling = (
    &'static str,
    &'static str,
    &'static str,
    bool,
    &'static str,
    &'static str,
);

static FILLINGS: [Filling; 7] = [
    (
        "1995ねん12",
        "#ねん#",
        "#3年#1#2",
        false,
        "1995 12",
        "千九百九十五年１２#2",
    ),
    ("だい34", "だい#", "第#4", true, "三四", "第三四"),
    ("a#007", "a##", "##0#6", false, "x", "#007#6"),
    ("11000x", "#x", "#5円", false, "x", "壱萬壱阡円"),
    ("34ぎん", "#ぎん", "#9銀", false, "x", "３四銀"),
    ("0012345", "#", "#8円", false, "x", "0,012,345円"),
    ("10:", "#:", "#2#", false, "x", "一〇#"),
];

#[test]
fn numbers_of_a_reading_fill_a_word(rt: HostRuntime) {
    for filling in &FILLINGS {
        expect_filling(&rt, rt.alloc(), filling);
    }
    let key = key_of(&rt, rt.alloc(), "かんじ");
    assert!(rt; key.is_none());
    drop(key);
}

fn expect_filling<R: Abort>(rt: &R, alloc: Global, filling: &Filling) {
    let (reading, key, word, asks, firsts, wanted) = *filling;
    let found = key_of(rt, alloc, reading).expect(rt, "no number");
    same(found.key().as_str(), key).expect(rt, "as wanted");
    let (_, numbers) = found.into_parts();
    let firsts = words(rt, alloc, firsts);
    let word = text(rt, alloc, word);
    same(asks_lookup(&word), asks).expect(rt, "as wanted");
    expect_filled(rt, alloc, &word, &numbers, &firsts, wanted)
}

// Tells how a word is filled by numbers and their first words.
fn expect_filled<R: Abort>(
    rt: &R,
    alloc: Global,
    word: &Text,
    numbers: &Texts,
    firsts: &Texts,
    wanted: &str,
)
    requires { are_numbers numbers.now ≡ true }
{
    assert_eq!(rt; firsts.len(), numbers.len());
    let filled = fill(alloc, word, numbers, firsts).expect(rt, "memory");
    same(filled.as_str(), wanted).expect(rt, "as wanted");
}

fn key_of(rt: &impl Abort, alloc: Global, reading: &str) -> Option<NumberKey> {
    number_key(alloc, &text(rt, alloc, reading)).expect(rt, "memory")
}
