ghost use Rattle.std.specs.Prelude.{◌≡◌};
ghost use Rattle.std.specs.Option.{option_copied, IfSome};

use crate::making::{self, key, text};
use dict_format::print_line;
use dict_rows::{learn_row, line_length, purge_row};
use expectations::{same, same_at};
use skk_calls::{Cand, Row, RowKey};
use skk_text::{Copies, Text};
use std::alloc::Global;
use std::process::Abort;

// A key; what is learnt, behind a `+`, with its note behind a `|` and its okurigana behind a `*`, and what is purged,
// behind a `-`, with the stamps 1, 2 and so on; and behind the `=` the stamp and the line. In words `~` is CR and `^`
// is LF.
static CHANGES: &str = r#"
かんじ +漢字 = 1 かんじ /漢字/
かんじ -漢字 -漢字 = 1 かんじ /(skk-ignore-dic-word "漢字")/
かんじ -漢字 -幹事 -漢字 = 2 かんじ /(skk-ignore-dic-word "漢字" "幹事")/
かんじ -漢字 +幹事 -漢字 = 2 かんじ /幹事/(skk-ignore-dic-word "漢字")/
かんじ +幹事|宴会の +漢字 +幹事 = 3 かんじ /幹事;宴会の/漢字/
かんじ +幹事|宴会の +幹事|x = 2 かんじ /幹事;x/
かんじ +漢字 -漢字 +漢字 = 3 かんじ /漢字/
かんじ +漢字*い = 1 かんじ /漢字/
おおk +大 = 1 おおk /大/
おおk +大*き = 1 おおk /大/[き/大/]/
おおk +大*き +多*く +覆*き = 3 おおk /覆/多/大/[き/覆/大/]/[く/多/]/
おおk +大*き +覆*き +多*く +大*き = 4 おおk /大/多/覆/[き/大/覆/]/[く/多/]/
おおk +大*き +大*く +覆*く -大 = 4 おおk /覆/[く/覆/]/(skk-ignore-dic-word "大")/
おおk +大*き -大 -大 = 2 おおk /(skk-ignore-dic-word "大")/
あ +漢字|xy = 1 あ /漢字;xy/
あ +a/b = 1 あ /(concat "a\057b")/
あ +a;b = 1 あ /(concat "a\073b")/
あ +and/or;x = 1 あ /(concat "and\057or\073x")/
あ +a/b;c"d\~^ = 1 あ /(concat "a\057b\073c\"d\\\r\n")/
あ -漢字 = 1 あ /(skk-ignore-dic-word "漢字")/
あ -漢字 -"/ = 2 あ /(skk-ignore-dic-word "漢字" "\"\057")/
おおk +a/b*き +大*き = 2 おおk /大/(concat "a\057b")/[き/大/(concat "a\057b")/]/
"#;

// The text of a string of the table, with the characters that stand for others there.
fn table_text(rt: &impl Abort, alloc: Global, content: &str) -> Text {
    let content = content.replace(alloc, "~", "\r").expect(rt, "memory");
    Text::of(content.replace(alloc, "^", "\n").expect(rt, "memory"))
}

// The candidate of a word, which has its note behind a `|`.
fn cand(rt: &impl Abort, alloc: Global, entry: &str) -> Cand {
    let (word, note) = entry.split_once('|').unwrap_or((entry, ""));
    let word = table_text(rt, alloc, word);
    Cand::new(word, text(rt, alloc, note)).expect(rt, "a candidate")
}

// The row after a candidate is learnt, which may have its okurigana behind a `*`.
fn learnt_row(
    rt: &impl Abort,
    alloc: Global,
    row: Option<&Row>,
    key: &RowKey,
    entry: &str,
    stamp: u64,
) -> Row
    requires { IfSome (option_copied row) (λ before. before.key ≡ key.now) }
    ensures { result.key ≡ key.now }
{
    let (entry, okuri) = entry.split_once('*').unwrap_or((entry, ""));
    let cand = cand(rt, alloc, entry);
    let okuri = making::okuri(rt, alloc, okuri);
    let learnt = learn_row(alloc, row, key, okuri.as_ref(), &cand, stamp).expect(rt, "memory");
    drop(okuri);
    learnt
}

// The row after a word is purged, or none where nothing changes.
#[tactic(auto, using(skk_calls::specs::RowLaws::cand_word))]
fn purged_row(
    rt: &impl Abort,
    alloc: Global,
    row: Option<&Row>,
    key: &RowKey,
    word: &str,
    stamp: u64,
) -> Option<Row>
    requires { IfSome (option_copied row) (λ before. before.key ≡ key.now) }
    ensures { IfSome result (λ after. after.key ≡ key.now) }
{
    let cand = cand(rt, alloc, word);
    purge_row(alloc, row, key, cand.word(), stamp).expect(rt, "memory")
}

// The row after a change of the tables, or none where nothing changes.
fn changed_row(
    rt: &impl Abort,
    alloc: Global,
    row: Option<&Row>,
    key: &RowKey,
    change: &str,
    stamp: u64,
) -> Option<Row>
    requires { IfSome (option_copied row) (λ before. before.key ≡ key.now) }
    ensures { IfSome result (λ after. after.key ≡ key.now) }
{
    match change.strip_prefix('-') {
        Some(word) => purged_row(rt, alloc, row, key, word, stamp),
        None => {
            let entry = change.strip_prefix('+').expect(rt, "no change");
            Some(learnt_row(rt, alloc, row, key, entry, stamp))
        }
    }
}

// The row of a key after changes of the tables.
fn row_after(rt: &impl Abort, alloc: Global, key: &RowKey, changes: &str) -> Option<Row> {
    let mut row = None;
    let mut stamp = 0u64;
    for change in changes.split_whitespace() {
        stamp = stamp.saturating_add(1);
        if let Some(after) = changed_row(rt, alloc, row.as_ref(), key, change, stamp) {
            row = Some(after);
        }
    }
    row
}

// The row that a case of the tables makes.
fn row_of(rt: &impl Abort, alloc: Global, case: &str) -> Row {
    let (reading, changes) = case.split_once(' ').expect(rt, "no changes");
    let key = key(rt, alloc, reading);
    let row = row_after(rt, alloc, &key, changes);
    row.expect(rt, "no row")
}

#[test]
fn changes_make_rows(rt: HostRuntime) {
    same(CHANGES.trim().lines().count(), 22).expect(&rt, "as wanted");
    for line in CHANGES.trim().lines() {
        expect_changes(&rt, rt.alloc(), line);
    }
}

fn expect_changes(rt: &impl Abort, alloc: Global, line: &str) {
    let (case, wanted) = line.split_once(" = ").expect(rt, "no ` = `");
    let row = row_of(rt, alloc, case);
    expect_row(rt, alloc, &row, wanted);
}

// Tells the stamp and the line of a row's copy, and that the line has as many bytes as are told of the row.
fn expect_row(rt: &impl Abort, alloc: Global, row: &Row, wanted: &str) {
    let (stamp, wanted) = wanted.split_once(' ').expect(rt, "no stamp");
    let copy = row.copy(alloc).expect(rt, "memory");
    let stamp = stamp.parse().expect(rt, "a number");
    same_at(copy.stamp(), stamp, wanted).expect(rt, "as wanted");
    let line = print_line(alloc, &copy).expect(rt, "memory");
    same(line.as_str(), wanted).expect(rt, "as wanted");
    same_at(line_length(row), line.byte_len() as u64, wanted).expect(rt, "as wanted");
}
