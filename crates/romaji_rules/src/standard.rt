ghost use Rattle.std.specs.Prelude.{◌≡◌, ◌++◌, ◌∷◌, [], ℕ, List, map, IfOk, OnOk, codes};
ghost use Rattle.std.specs.List.{flat_map};
ghost use Rattle.std.specs.Str.{chars};
ghost use Rattle.romaji_rules.specs.Standard.{standard, vowel_rows, contracted_rows, single_rules, doubled_rules};
ghost use Rattle.romaji_rules.specs.Standard.{row_rules, rule, doubled};
ghost use Rattle.romaji_rules.specs.Table.{texts, row_of, contracted_of, single_of};
ghost use Rattle.romaji_rules.specs.Output.{of_hiragana};

use crate::out::Out;
use crate::rule::Rule;
use skk_text::{Bytes, Memory, Text};
use std::alloc::Global;

// What stands before the vowel, and the outputs for a, i, u, e and o.
static VOWEL_ROWS: [(&str, [&str; 5]); 25] = [
    ("", ["あ", "い", "う", "え", "お"]),
    ("k", ["か", "き", "く", "け", "こ"]),
    ("s", ["さ", "し", "す", "せ", "そ"]),
    ("t", ["た", "ち", "つ", "て", "と"]),
    ("n", ["な", "に", "ぬ", "ね", "の"]),
    ("h", ["は", "ひ", "ふ", "へ", "ほ"]),
    ("m", ["ま", "み", "む", "め", "も"]),
    ("y", ["や", "い", "ゆ", "いぇ", "よ"]),
    ("r", ["ら", "り", "る", "れ", "ろ"]),
    ("w", ["わ", "うぃ", "う", "うぇ", "を"]),
    ("g", ["が", "ぎ", "ぐ", "げ", "ご"]),
    ("z", ["ざ", "じ", "ず", "ぜ", "ぞ"]),
    ("d", ["だ", "ぢ", "づ", "で", "ど"]),
    ("b", ["ば", "び", "ぶ", "べ", "ぼ"]),
    ("p", ["ぱ", "ぴ", "ぷ", "ぺ", "ぽ"]),
    ("f", ["ふぁ", "ふぃ", "ふ", "ふぇ", "ふぉ"]),
    ("j", ["じゃ", "じ", "じゅ", "じぇ", "じょ"]),
    ("v", ["ゔぁ", "ゔぃ", "ゔ", "ゔぇ", "ゔぉ"]),
    ("sh", ["しゃ", "し", "しゅ", "しぇ", "しょ"]),
    ("ch", ["ちゃ", "ち", "ちゅ", "ちぇ", "ちょ"]),
    ("ts", ["つぁ", "つぃ", "つ", "つぇ", "つぉ"]),
    ("th", ["てぁ", "てぃ", "てゅ", "てぇ", "てょ"]),
    ("dh", ["でゃ", "でぃ", "でゅ", "でぇ", "でょ"]),
    ("fy", ["ふゃ", "ふぃ", "ふゅ", "ふぇ", "ふょ"]),
    ("x", ["ぁ", "ぃ", "ぅ", "ぇ", "ぉ"]),
];

// What stands before the vowel, and the kana before `SMALL`.
static CONTRACTED_ROWS: [(&str, &str); 14] = [
    ("ky", "き"),
    ("sy", "し"),
    ("ty", "ち"),
    ("cy", "ち"),
    ("ny", "に"),
    ("hy", "ひ"),
    ("my", "み"),
    ("ry", "り"),
    ("gy", "ぎ"),
    ("zy", "じ"),
    ("jy", "じ"),
    ("dy", "ぢ"),
    ("by", "び"),
    ("py", "ぴ"),
];

// What follows the kana of a contracted row for a, i, u, e and o.
static SMALL: [&str; 5] = ["ゃ", "ぃ", "ゅ", "ぇ", "ょ"];

static SINGLE_RULES: [(&str, &str); 26] = [
    ("n", "ん"),
    ("nn", "ん"),
    ("n'", "ん"),
    ("xya", "ゃ"),
    ("xyu", "ゅ"),
    ("xyo", "ょ"),
    ("xtu", "っ"),
    ("xtsu", "っ"),
    ("xwa", "ゎ"),
    ("xwi", "ゐ"),
    ("xwe", "ゑ"),
    ("xka", "ゕ"),
    ("xke", "ゖ"),
    ("-", "ー"),
    (",", "、"),
    (".", "。"),
    ("[", "「"),
    ("]", "」"),
    ("z/", "・"),
    ("z.", "…"),
    ("zh", "←"),
    ("zj", "↓"),
    ("zk", "↑"),
    ("zl", "→"),
    ("z[", "『"),
    ("z]", "』"),
];

// The letters that give っ where they are doubled.
static DOUBLED: [u8; 17] = *b"bcdfghjkprstvwxyz";

static VOWELS: [u8; 5] = *b"aiueo";

/// The rules of the standard table.
pub fn standard_rules(alloc: Global) -> Result<Vec<Rule>, Memory>
    ensures { IfOk result (λ rules. rules.items ≡ standard) }
{
    let mut rules = Vec::new(alloc);
    add_vowel_rows(alloc, &mut rules)?;
    add_contracted_rows(alloc, &mut rules)?;
    add_single_rules(alloc, &mut rules)?;
    add_doubled_rules(alloc, &mut rules)?;
    Ok(rules)
}

fn add_vowel_rows(alloc: Global, rules: &mut Vec<Rule>) -> Result<(), Memory>
    ensures { OnOk result (rules.new.items ≡ rules.old.items ++ vowel_rows) }
{
    add_rows(alloc, rules, &VOWEL_ROWS)
}

fn add_contracted_rows(alloc: Global, rules: &mut Vec<Rule>) -> Result<(), Memory>
    ensures { OnOk result (rules.new.items ≡ rules.old.items ++ contracted_rows) }
{
    add_stems(alloc, rules, &CONTRACTED_ROWS, &SMALL)
}

fn add_single_rules(alloc: Global, rules: &mut Vec<Rule>) -> Result<(), Memory>
    ensures { OnOk result (rules.new.items ≡ rules.old.items ++ single_rules) }
{
    add_singles(alloc, rules, &SINGLE_RULES)
}

fn add_doubled_rules(alloc: Global, rules: &mut Vec<Rule>) -> Result<(), Memory>
    ensures { OnOk result (rules.new.items ≡ rules.old.items ++ doubled_rules) }
{
    for letter in &DOUBLED {
        rules.push(doubled_rule(alloc, *letter)?)?;
    }
    Ok(())
}

// A row for each line.
fn add_rows(alloc: Global, rules: &mut Vec<Rule>, lines: &[(&str, [&str; 5])]) -> Result<(), Memory>
    ensures { OnOk result (rules.new.items ≡ rules.old.items ++ flat_map row_of lines.now) }
{
    for (before, endings) in lines {
        add_row(alloc, rules, before, "", endings)?;
    }
    Ok(())
}

// A contracted row for each line.
fn add_stems(
    alloc: Global,
    rules: &mut Vec<Rule>,
    lines: &[(&str, &str)],
    small: &[&str; 5],
) -> Result<(), Memory>
    ensures { OnOk result (rules.new.items ≡ rules.old.items ++ flat_map (contracted_of small.now) lines.now) }
{
    for (before, kana) in lines {
        add_row(alloc, rules, before, kana, small)?;
    }
    Ok(())
}

// A rule for each line.
fn add_singles(alloc: Global, rules: &mut Vec<Rule>, lines: &[(&str, &str)]) -> Result<(), Memory>
    ensures { OnOk result (rules.new.items ≡ rules.old.items ++ map single_of lines.now) }
{
    for (input, kana) in lines {
        rules.push(single(alloc, input, kana)?)?;
    }
    Ok(())
}

// A row: each vowel behind what stands before it, and each ending behind the stem.
fn add_row(
    alloc: Global,
    rules: &mut Vec<Rule>,
    before: &str,
    stem: &str,
    endings: &[&str; 5],
) -> Result<(), Memory>
    ensures { OnOk result (rules.new.items
        ≡ rules.old.items ++ row_rules before.now (chars stem.now) (codes "aiueo") (texts endings.now)) }
{
    for (place, ending) in endings.iter().enumerate() {
        let input = bytes_of(alloc, before.as_bytes(), &[VOWELS[place]])?;
        rules.push(rule(alloc, input, stem, ending)?)?;
    }
    Ok(())
}

// A rule with an empty next text, whose output is the stem and the ending.
fn rule(alloc: Global, input: Bytes, stem: &str, ending: &str) -> Result<Rule, Memory>
    ensures { IfOk result (λ r. r ≡ rule input (chars stem.now ++ chars ending.now)) }
{
    let mut hira = Text::new(alloc);
    hira.push_str(stem)?;
    hira.push_str(ending)?;
    Ok(Rule {
        input,
        next: Bytes::of(Vec::new(alloc)),
        out: Out::of_hiragana(alloc, hira)?,
    })
}

// A rule of its own: an input and its kana.
fn single(alloc: Global, input: &str, kana: &str) -> Result<Rule, Memory>
    ensures { IfOk result (λ r. r ≡ rule input.now (chars kana.now)) }
{
    let input = bytes_of(alloc, input.as_bytes(), &[])?;
    rule(alloc, input, kana, "")
}

// A doubled consonant gives っ and leaves its second letter pending.
fn doubled_rule(alloc: Global, letter: u8) -> Result<Rule, Memory>
    ensures { IfOk result (λ r. r ≡ doubled letter) }
{
    let mut hira = Text::new(alloc);
    hira.push('っ')?;
    Ok(Rule {
        input: bytes_of(alloc, &[letter, letter], &[])?,
        next: bytes_of(alloc, &[letter], &[])?,
        out: Out::of_hiragana(alloc, hira)?,
    })
}

// The bytes of both slices.
fn bytes_of(alloc: Global, first: &[u8], second: &[u8]) -> Result<Bytes, Memory>
    ensures { IfOk result (λ bytes. bytes ≡ first.now ++ second.now) }
{
    let mut bytes = Vec::new(alloc);
    bytes.extend_from_slice(first)?;
    bytes.extend_from_slice(second)?;
    Ok(Bytes::of(bytes))
}
