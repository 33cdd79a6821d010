use crate::making::{long_text, text};
use dict_expr::{ExprFault, expr_text, minus, plus};
use dict_format::read_file;
use expectations::same;
use skk_calls::Book;
use skk_text::Text;
use std::alloc::Global;
use std::process::Abort;

// Two files, their sum, and the difference, on a line each. `@` is the line of the okuri-ari part, `%` that of the
// okuri-nasi part, and `~` is LF.
static CASES: &str = r#"
かんじ /漢字/幹事;宴会の/
かんじ /感じ/漢字;字/
@%かんじ /漢字/幹事;宴会の/感じ/~
@%かんじ /幹事;宴会の/~

かんじ /感じ/漢字;字/
かんじ /漢字/幹事;宴会の/
@%かんじ /感じ/漢字;字/幹事;宴会の/~
@%かんじ /感じ/~

かんじ /漢字/幹事;宴会の/
かんじ /漢字/幹事;宴会の/
@%かんじ /漢字/幹事;宴会の/~
@%

あ /亜;x/
あ /亜;y/
@%あ /亜;x/~
@%

あ /亜/
;
@%あ /亜/~
@%あ /亜/~

;
あ /亜/
@%あ /亜/~
@%

;
;
@%
@%

う /鵜/~あ /亜/
い /胃/~@うごk /動/~おおk /大/
@おおk /大/~うごk /動/~%あ /亜/~い /胃/~う /鵜/~
@%あ /亜/~う /鵜/~

いt /胃/
@いt /行/
@いt /行/~%いt /胃/~
@%いt /胃/~

@おおk /大/[く/多/大/]/[き/大/]/
@おおk /多/[け/毛/]/[く/多/巨/]/
@おおk /大/多/[く/多/大/巨/]/[き/大/]/[け/毛/]/~%
@おおk /大/[く/大/]/[き/大/]/~%

@おおk /多/[け/毛/]/[く/多/巨/]/
@おおk /大/[く/多/大/]/[き/大/]/
@おおk /多/大/[け/毛/]/[く/多/巨/大/]/[き/大/]/~%
@おおk /多/[け/毛/]/[く/巨/]/~%

@おおk /大/[く/多/]/
@おおk /広/[く/多/]/
@おおk /大/広/[く/多/]/~%
@おおk /大/~%

@おおk /大/[き/大/]/
@おおk /大/
@おおk /大/[き/大/]/~%
@おおk /[き/大/]/~%

う /甲/(skk-ignore-dic-word "乙" "丙")/
う /丁/(skk-ignore-dic-word "丙" "戊")/
@%う /甲/丁/(skk-ignore-dic-word "乙" "丙" "戊")/~
@%う /甲/(skk-ignore-dic-word "乙")/~

う /(skk-ignore-dic-word "乙")/
う /乙/(skk-ignore-dic-word "乙")/
@%う /乙/(skk-ignore-dic-word "乙")/~
@%

う /鵜/
う /(skk-ignore-dic-word "鵜")/
@%う /鵜/(skk-ignore-dic-word "鵜")/~
@%う /鵜/~

う /(skk-ignore-dic-word "鵜")/
う /鵜/
@%う /鵜/(skk-ignore-dic-word "鵜")/~
@%う /(skk-ignore-dic-word "鵜")/~

あ /(concat "a\057b");x/
あ /(concat "a\057b")/c/
@%あ /(concat "a\057b");x/c/~
@%

かんじ~あ /亜/~あ /唖/
い 胃~い /医/
@%あ /亜/~い /医/~
@%あ /亜/~
"#;

// The text of a file of the table.
fn file_text(rt: &impl Abort, alloc: Global, content: &str) -> Text {
    let ari = content
        .replace(alloc, "@", ";; okuri-ari entries.~")
        .expect(rt, "memory");
    let both = ari
        .replace(alloc, "%", ";; okuri-nasi entries.~")
        .expect(rt, "memory");
    Text::of(both.replace(alloc, "~", "\n").expect(rt, "memory"))
}

// The rows of a file.
fn book(rt: &impl Abort, alloc: Global, content: &str) -> Book {
    let file = file_text(rt, alloc, content);
    let listed = read_file(alloc, file.as_str().as_bytes()).expect(rt, "a file");
    listed.book
}

#[test]
fn files_are_added_and_taken_away(rt: HostRuntime) {
    same(CASES.trim().split("\n\n").count(), 19).expect(&rt, "as wanted");
    for case in CASES.trim().split("\n\n") {
        expect_case(&rt, rt.alloc(), case);
    }
}

fn expect_case(rt: &impl Abort, alloc: Global, case: &str) {
    let (first, rest) = case.split_once('\n').expect(rt, "no second file");
    let (second, rest) = rest.split_once('\n').expect(rt, "no sum");
    let (sum, difference) = rest.split_once('\n').expect(rt, "no difference");
    let first = book(rt, alloc, first);
    let second = book(rt, alloc, second);
    expect_text(
        rt,
        alloc,
        &plus(alloc, &first, &second).expect(rt, "memory"),
        sum,
    );
    expect_text(
        rt,
        alloc,
        &minus(alloc, &first, &second).expect(rt, "memory"),
        difference,
    );
}

fn expect_text(rt: &impl Abort, alloc: Global, book: &Book, wanted: &str) {
    let text = expr_text(alloc, book).expect(rt, "a text");
    let wanted = file_text(rt, alloc, wanted);
    same(text.as_str(), wanted.as_str()).expect(rt, "as wanted");
}

// A file with one row: behind this start of its line 16 words of 4,094 letters each, with their slashes.
fn long_file(rt: &impl Abort, alloc: Global, start: &str) -> Text {
    let mut file = text(rt, alloc, start);
    for letter in "abcdefghijklmnop".chars() {
        push_word(rt, alloc, &mut file, letter);
    }
    file.push('\n').expect(rt, "memory");
    file
}

// Adds a word of 4,094 times a letter, and a slash.
fn push_word(rt: &impl Abort, alloc: Global, file: &mut Text, letter: char) {
    let mut unit = Text::new(alloc);
    unit.push(letter).expect(rt, "memory");
    let word = long_text(rt, alloc, "", unit.as_str(), 4094, "/");
    file.push_str(word.as_str()).expect(rt, "memory");
}

// What comes of adding a file to a long one.
fn added(rt: &impl Abort, alloc: Global, first: &Text, second: &str) -> Result<Text, ExprFault> {
    let first = book(rt, alloc, first.as_str());
    let second = book(rt, alloc, second);
    expr_text(alloc, &plus(alloc, &first, &second).expect(rt, "memory"))
}

#[test]
fn lines_that_are_too_long_are_told(rt: HostRuntime) {
    let alloc = rt.alloc();
    let first = long_file(&rt, alloc, "あ /");
    let longest = added(&rt, alloc, &first, "あ /123456789/").expect(&rt, "a text");
    // The part lines have 22 and 23 bytes with their ends, and that of the row 65,535 without it.
    same(longest.byte_len(), 22 + 23 + 65_536).expect(&rt, "as wanted");
    expect_too_big(&rt, added(&rt, alloc, &first, "あ /1234567890/"), 65_536);
    // Of two such rows the one that would be printed first is told.
    let mut both = long_file(&rt, alloc, "@おおk /");
    both.push_str(long_file(&rt, alloc, "%あ /").as_str())
        .expect(&rt, "memory");
    let second = "@おおk /12345678/~%あ /1234567890/";
    expect_too_big(&rt, added(&rt, alloc, &both, second), 65_538);
}

fn expect_too_big(rt: &impl Abort, printed: Result<Text, ExprFault>, wanted: u64) {
    match printed {
        Err(ExprFault::RowTooBig { bytes }) => same(bytes, wanted).expect(rt, "as wanted"),
        _ => same(0, wanted).expect(rt, "too big"),
    }
}
