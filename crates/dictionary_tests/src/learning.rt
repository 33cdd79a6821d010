ghost use Rattle.std.specs.Prelude.{◌≡◌, ◌||◌, true, false, not, None, [], ◌∷◌};
ghost use Rattle.std.specs.Bool.{OnTrue};
ghost use Rattle.skk_text.specs.Lists.{is_empty};
ghost use Rattle.skk_calls.specs.declared.call.Call.TheVariants.{Learn};
ghost use Rattle.skk_calls.specs.Dictionary.{is_fit};
ghost use Rattle.skk_calls.specs.Rows.{is_word};
ghost use Rattle.skk_calls.specs.States.{fits_count, has_stamp};

use crate::making::{self, key, okuri};
use dict_layers::System;
use dict_rows::line_length;
use expectations::same_at;
use learn_index::{Index, KeptRow, Replies};
use skk_calls::{
    Block, Blocks, Book, BookList, Books, Call, Calls, Cand, Cands, FoundCands, Learned, Part,
    Reply, Row, RowKey,
};
use skk_text::{Copies, Text, Texts};
use std::alloc::Global;
use std::mem::swap;
use std::process::Abort;

// The books of lists: their order, the typist's own book first and once, a list that stands already, and a typist
// without one.
const LISTS: &str = "
learn 7 かき 柿 = learned 1 after 0
learn 7 かい 貝 = learned 2 after 0
learn 0 かき 牡蠣 = learned 1 after 0
learn 2 かき 下記 = learned 1 after 0
find 2 かき = 下記 牡蠣
share 2 7 = shared
find 2 かき = 下記 柿
share 2 7 = unchanged
share 2 0,7 = shared
find 2 かき = 下記 牡蠣 柿
share 2 7,2,0 = shared
find 2 かき = 下記 柿 牡蠣
complete 2 か = かき かい
find 1 かき = 牡蠣
share 2 0 = shared
share 2 0 = unchanged
find 2 かき = 下記 牡蠣
complete 2 か = かき
share 0 7 = shared
find 0 かき = 牡蠣 柿
count 2 = 1
count 7 = 2
";

// Two typists' books, the shared book and a system file.
const LAYERS: &str = "
learn 7 か 火 = learned 1 after 0
file 7 = done
learn 0 か 加 = learned 1 after 0
learn 1 か 蚊 = learned 1 after 0
learn 2 か 可 = learned 1 after 0
find 1 か = 蚊 加 火
find 2 か = 可 加 火
find 0 か = 加 火
find 3 き =
learn 1 い 胃 = learned 2 after 0
book 1 = い か
rows = 5
";

const TAKEN_BACK: &str = "
forge 3 か 5 = done
unlearn 0 = overtaken 0
learn 3 か 蚊 = learned 1 after 0
learn 3 か 可 = learned 2 after 1
row 3 か = 2: 可 蚊 / /
unlearn 0 = overtaken 2
unlearn 0 = restored
row 3 か = 1: 蚊 / /
count 3 = 2
learn 3 おおk 多 く = learned 3 after 0
learn 3 おおk 大 き = learned 4 after 3
row 3 おおk = 4: 大 多 / く 多 き 大 /
unlearn 0 = overtaken 4
";

// Purges of a candidate, of a word that is hidden alone, and of one that stands in a block alone.
const PURGES: &str = "
learn 1 か 蚊 = learned 1 after 0
purge 1 か 蚊 = purged
row 1 か = 2: / / 蚊
purge 1 か 蚊 = unchanged
purge 1 か 可 = purged
row 1 か = 3: / / 蚊 可
block 1 おおk 多 く = done
row 1 おおk = 3: / く 多 /
purge 1 おおk 多 = purged
row 1 おおk = 4: / / 多
";

// Notes for a candidate that is there, for one that is hidden, and for one that is new; what is learnt keeps the user's
// own note.
const NOTES: &str = "
learn 1 か 蚊 = learned 1 after 0
learn 1 か 可 = learned 2 after 1
note 1 か 蚊 *よい = annotated
row 1 か = 3: 可 蚊;*よい / /
note 1 か 蚊 *よい = unchanged
count 1 = 3
learn 1 か 蚊 = learned 4 after 3
row 1 か = 4: 蚊;*よい 可 / /
note 1 か 蚊 *再 = annotated
row 1 か = 5: 蚊;*再 可 / /
unlearn 2 = overtaken 5
purge 1 か 蚊 = purged
note 1 か 蚊 *新 = annotated
row 1 か = 7: 可 蚊;*新 / /
note 1 おおk 多 *x = annotated
row 1 おおk = 8: 多;*x / /
learn 1 おおk 多 く = learned 9 after 8
row 1 おおk = 9: 多;*x / く 多 /
note 2 か 蚊 *よい = annotated
row 2 か = 1: 蚊;*よい / /
find 1 か = 可 蚊;*新
";

const LAST_STAMPS: &str = "
set 1 18446744073709551614 = done
learn 1 か 蚊 = learned 18446744073709551615 after 0
learn 1 か 可 = stamps end
purge 1 か 可 = stamps end
note 1 か 可 *x = stamps end
note 1 か 蚊 *x = stamps end
row 1 か = 18446744073709551615: 蚊 / /
unlearn 0 = restored
row 1 か = none
count 1 = 18446744073709551615
";

// A row whose line has exactly 65,535 bytes: the reading and ` /` have 3, each of 15 words 4,096 with its slash, and
// the last 4,092.
const LONG: &str = "
learn 1 a a~4095 = learned 1 after 0
learn 1 a b~4095 = learned 2 after 1
learn 1 a c~4095 = learned 3 after 2
learn 1 a d~4095 = learned 4 after 3
learn 1 a e~4095 = learned 5 after 4
learn 1 a f~4095 = learned 6 after 5
learn 1 a g~4095 = learned 7 after 6
learn 1 a h~4095 = learned 8 after 7
learn 1 a i~4095 = learned 9 after 8
learn 1 a j~4095 = learned 10 after 9
learn 1 a k~4095 = learned 11 after 10
learn 1 a l~4095 = learned 12 after 11
learn 1 a m~4095 = learned 13 after 12
learn 1 a n~4095 = learned 14 after 13
learn 1 a o~4095 = learned 15 after 14
learn 1 a p~4092 = too big 65536
note 1 a p~4090 *x = too big 65537
learn 1 a p~4091 = learned 16 after 15
group 1 a/q b/x = too big 65537, learned 17 after 0
count 1 = 17
row 1 b = 17: x / /
";

// Groups of two learnings: the second has the next stamp, and finds the row that its own key had; one whose row would
// be too big leaves no stamp out; and just as many stamps are left as a group may have calls.
const GROUPS: &str = "
learn 1 い 位 = learned 1 after 0
group 1 か/蚊 い/胃 = learned 2 after 0, learned 3 after 1
row 1 か = 2: 蚊 / /
row 1 い = 3: 胃 位 / /
count 1 = 3
group 1 い/位 お/尾 = learned 4 after 3, learned 5 after 0
row 1 い = 4: 位 胃 / /
book 1 = い お か
rows = 3
unlearn 2 = overtaken 4
unlearn 2 = restored
row 1 い = 3: 胃 位 / /
group 2 か/可 い/異 = learned 1 after 0, learned 2 after 0
count 1 = 5
count 2 = 2
set 3 18446744073709551359 = done
group 3 か/蚊 い/胃 = learned 18446744073709551360 after 0, learned 18446744073709551361 after 0
";

const REBUILT: &str = "
learn 1 か 蚊 = learned 1 after 0
learn 1 い 胃 = learned 2 after 0
learn 2 か 可 = learned 1 after 0
put 1 か = done
put 1 い = done
put 2 か = done
swap = done
rows = 3
count 1 = 2
row 1 い = 2: 胃 / /
drop 1 か 3 = done
rows = 2
row 1 か = none
count 1 = 3
set 1 9 = done
count 1 = 9
set 5 0 = done
count 5 = 0
learn 7 か 火 = learned 1 after 0
set 7 5 = done
unlearn 3 = restored
row 7 か = none
count 7 = 5
";

static SCRIPTS: [&str; 9] = [
    LAYERS,
    LISTS,
    TAKEN_BACK,
    PURGES,
    NOTES,
    LAST_STAMPS,
    LONG,
    GROUPS,
    REBUILT,
];

#[test]
fn books_keep_what_is_learnt(rt: HostRuntime) {
    for script in &SCRIPTS {
        run(&rt, rt.alloc(), script);
    }
}

// Runs a script over books of its own: on each line stands a command, a `=`, and what it tells.
pub fn run(rt: &impl Abort, alloc: Global, script: &str) {
    let mut desk = PlainDesk::new(rt, alloc);
    for line in script.trim().lines() {
        desk.run_line(rt, alloc, line);
    }
}

// A command, and what it is given: empty or 0 where it is given less.
#[derive(Drop)]
struct LearnLine<'a> {
    command: &'a str,
    number: u16,
    reading: &'a str,
    word: &'a str,
    okuri: &'a str,
}

// The parts of a line.
fn parts(line: &str) -> LearnLine<'_> {
    let mut words = line.split_whitespace();
    LearnLine {
        command: words.next().unwrap_or(""),
        number: words.next().unwrap_or("").parse().unwrap_or(0),
        reading: words.next().unwrap_or(""),
        word: words.next().unwrap_or(""),
        okuri: words.next().unwrap_or(""),
    }
}

// An index, one that is rebuilt from it, the system files, and what was learnt and not taken back.
#[derive(Drop)]
struct PlainDesk {
    index: Index,
    rebuilt: Index,
    system: System,
    learnings: Vec<Learned>,
}

impl PlainDesk {
    fn new(rt: &impl Abort, alloc: Global) -> PlainDesk {
        let system = System::of_books(alloc, Books::new(alloc)).expect(rt, "memory");
        PlainDesk {
            index: Index::new(alloc),
            rebuilt: Index::new(alloc),
            system,
            learnings: Vec::new(alloc),
        }
    }

    fn run_line(&mut self, rt: &impl Abort, alloc: Global, line: &str) {
        let (command, wanted) = line.split_once('=').expect(rt, "no `=`");
        let told = self.run(rt, alloc, &parts(command));
        same_at(told.trim(), wanted.trim(), line).expect(rt, "as wanted");
    }

    // Runs a command, and gives what it tells.
    fn run(&mut self, rt: &impl Abort, alloc: Global, line: &LearnLine) -> String {
        match line.command {
            "learn" | "purge" | "note" | "find" | "complete" | "share" => self.ask(
                rt,
                alloc,
                call_of(rt, alloc, line),
            ),
            "group" => self.group(rt, alloc, line),
            "unlearn" => self.unlearn(rt, alloc, line.number),
            "row" | "book" | "count" | "rows" => self.tell(rt, alloc, line),
            _ => {
                self.change(rt, alloc, line);
                String::from_str(alloc, "done").expect(rt, "memory")
            }
        }
    }

    // Runs a command that tells nothing.
    fn change(&mut self, rt: &impl Abort, alloc: Global, line: &LearnLine) {
        match line.command {
            "forge" => self.forge(rt, alloc, line),
            "file" => self.file(rt, alloc, line),
            "block" => self.block(rt, alloc, line),
            "put" => self.put(rt, alloc, line),
            "drop" => self.drop_row(rt, alloc, line),
            "set" => self.set_count(rt, alloc, line),
            "swap" => swap(&mut self.index, &mut self.rebuilt),
            _ => panic!(rt; "no command"),
        }
    }

    // Asks a call, tells its reply, and keeps what was learnt.
    fn ask(&mut self, rt: &impl Abort, alloc: Global, call: Call) -> String
        requires { is_fit call ≡ true }
    {
        let reply = self.reply_to(rt, alloc, &call);
        drop(call);
        let told = reply_text(rt, alloc, &reply);
        self.keep(rt, reply);
        told
    }

    // Keeps what was learnt, where a reply tells of that.
    fn keep(&mut self, rt: &impl Abort, reply: Reply) {
        match reply {
            Reply::Learned(learned) => self.learnings.push(learned).expect(rt, "memory"),
            other => drop(other),
        }
    }

    fn reply_to(&mut self, rt: &impl Abort, alloc: Global, call: &Call) -> Reply
        requires { is_fit call.now ≡ true }
    {
        if matches!(call, Call::Lookup { .. } | Call::Complete { .. }) {
            return self
                .index
                .answer(alloc, &self.system, call)
                .expect(rt, "memory");
        }
        let plan = self.index.plan(alloc, call).expect(rt, "memory");
        self.index.apply(plan)
    }

    // Asks two learnings as a group, tells their replies, and keeps what was learnt.
    fn group(&mut self, rt: &impl Abort, alloc: Global, line: &LearnLine) -> String {
        let one = key_and_cand(rt, alloc, line.reading);
        let other = key_and_cand(rt, alloc, line.word);
        let book = line.number;
        assert!(rt; !one.0.is_same(&other.0));
        assert!(rt; self.index.count(book) <= 18_446_744_073_709_551_359);
        let calls = two_learnings(rt, alloc, book, one, other);
        let group = self.index.plan_group(alloc, &calls).expect(rt, "memory");
        let replies = self.index.apply_group(group);
        drop(calls);
        self.tell_all(rt, alloc, replies)
    }

    // Tells replies, and keeps what was learnt.
    fn tell_all(&mut self, rt: &impl Abort, alloc: Global, replies: Replies) -> String {
        let mut told = String::new(alloc);
        for reply in replies.into_vec() {
            if !told.is_empty() {
                told.push_str(", ").expect(rt, "memory");
            }
            let text = reply_text(rt, alloc, &reply);
            told.push_str(text.as_str()).expect(rt, "memory");
            self.keep(rt, reply);
        }
        told
    }

    // Keeps as learnt what was never learnt.
    fn forge(&mut self, rt: &impl Abort, alloc: Global, line: &LearnLine) {
        let stamp = line.word.parse().expect(rt, "a number");
        let learned = Learned::new(line.number, key(rt, alloc, line.reading), stamp, None);
        self.learnings.push(learned).expect(rt, "memory");
    }

    // Takes back what was learnt, by its place among what is kept.
    fn unlearn(&mut self, rt: &impl Abort, alloc: Global, place: u16) -> String {
        let place = usize::from(place);
        assert!(rt; place < self.learnings.len());
        let learned = self.learnings.remove(place);
        self.ask(rt, alloc, Call::Unlearn { learned })
    }

    // Makes a book the one system file, or this and another the two.
    fn file(&mut self, rt: &impl Abort, alloc: Global, line: &LearnLine) {
        let mut books = Books::new(alloc);
        push_book(rt, alloc, &mut books, &self.index, line.number);
        if let Ok(other) = line.reading.parse() {
            push_book(rt, alloc, &mut books, &self.index, other);
        }
        self.system = System::of_books(alloc, books).expect(rt, "memory");
    }

    // Puts a row with a block alone into a book, with its count.
    fn block(&mut self, rt: &impl Abort, alloc: Global, line: &LearnLine) {
        let count = self.index.count(line.number);
        let row = block_row(rt, alloc, line, count);
        put_into(rt, &mut self.index, alloc, (line.number, count), row)
    }

    // Copies a row into what is rebuilt: into its book, or into another.
    fn put(&mut self, rt: &impl Abort, alloc: Global, line: &LearnLine) {
        let key = key(rt, alloc, line.reading);
        let row = self.index.row(line.number, &key).expect(rt, "no row");
        let row = row.copy(alloc).expect(rt, "memory");
        let count = self.index.count(line.number);
        let book = line.word.parse().unwrap_or(line.number);
        put_into(rt, &mut self.rebuilt, alloc, (book, count), row)
    }

    fn drop_row(&mut self, rt: &impl Abort, alloc: Global, line: &LearnLine) {
        let key = key(rt, alloc, line.reading);
        let count = line.word.parse().expect(rt, "a number");
        assert!(rt; self.index.count(line.number) <= count);
        self.index
            .drop_row(alloc, line.number, count, &key)
            .expect(rt, "memory");
    }

    fn set_count(&mut self, rt: &impl Abort, alloc: Global, line: &LearnLine) {
        let count = line.reading.parse().expect(rt, "a number");
        assert!(rt; self.index.count(line.number) <= count);
        self.index
            .set_count(alloc, line.number, count)
            .expect(rt, "memory");
    }

    // Tells of a row, the readings of a book, a count, or how many rows there are.
    fn tell(&self, rt: &impl Abort, alloc: Global, line: &LearnLine) -> String {
        let mut told = String::new(alloc);
        match line.command {
            "row" => self.add_row(rt, &mut told, &key(rt, alloc, line.reading), line.number),
            "book" => {
                let book = self.index.book(alloc, line.number).expect(rt, "memory");
                add_readings(rt, &mut told, &book)
            }
            "count" => add_number(rt, &mut told, "", self.index.count(line.number)),
            _ => add_number(rt, &mut told, "", self.index.rows() as u64),
        }
        told
    }

    // Adds the row of a key in a book.
    fn add_row(&self, rt: &impl Abort, told: &mut String, key: &RowKey, number: u16) {
        match self.index.row(number, key) {
            Some(row) => add_row(rt, told, row),
            None => told.push_str("none").expect(rt, "memory"),
        }
    }
}

// Adds a book of an index to others.
fn push_book(rt: &impl Abort, alloc: Global, books: &mut Books, index: &Index, number: u16) {
    let book = index.book(alloc, number).expect(rt, "memory");
    books.push(book).expect(rt, "memory");
}

// The call of a line.
fn call_of(rt: &impl Abort, alloc: Global, line: &LearnLine) -> Call
    ensures { is_fit result ≡ true }
{
    match line.command {
        "learn" => learning(rt, alloc, line),
        "purge" => purging(rt, alloc, line),
        "note" => annotating(rt, alloc, line),
        "share" => sharing(rt, alloc, line),
        "find" => finding(rt, alloc, line),
        _ => completing(rt, alloc, line),
    }
}

fn learning(rt: &impl Abort, alloc: Global, line: &LearnLine) -> Call
    ensures { is_fit result ≡ true }
{
    Call::Learn {
        book: line.number,
        key: key(rt, alloc, line.reading),
        okuri: okuri(rt, alloc, line.okuri),
        cand: cand(rt, alloc, line.word),
    }
}

// A key and a candidate, between which a slash stands.
fn key_and_cand(rt: &impl Abort, alloc: Global, content: &str) -> (RowKey, Cand) {
    let (reading, word) = content.split_once('/').expect(rt, "no `/`");
    (key(rt, alloc, reading), cand(rt, alloc, word))
}

// Two learnings in a book, without okurigana.
fn two_learnings(
    rt: &impl Abort,
    alloc: Global,
    book: u16,
    one: (RowKey, Cand),
    other: (RowKey, Cand),
) -> Calls
    ensures { result ≡ Learn book one.0 None one.1 ∷ Learn book other.0 None other.1 ∷ [] }
{
    let mut calls = Calls::new(alloc);
    calls.push(plain_learning(book, one)).expect(rt, "memory");
    calls.push(plain_learning(book, other)).expect(rt, "memory");
    calls
}

// A learning without okurigana.
fn plain_learning(book: u16, one: (RowKey, Cand)) -> Call
    ensures { result ≡ Learn book one.0 None one.1 }
{
    let (key, cand) = one;
    Call::Learn {
        book,
        key,
        okuri: None,
        cand,
    }
}

fn purging(rt: &impl Abort, alloc: Global, line: &LearnLine) -> Call
    ensures { is_fit result ≡ true }
{
    Call::Purge {
        book: line.number,
        key: key(rt, alloc, line.reading),
        word: word(rt, alloc, line.word),
    }
}

fn annotating(rt: &impl Abort, alloc: Global, line: &LearnLine) -> Call
    ensures { is_fit result ≡ true }
{
    let note = text(rt, alloc, line.okuri);
    Call::Annotate {
        book: line.number,
        key: key(rt, alloc, line.reading),
        cand: Cand::new(text(rt, alloc, line.word), note).expect(rt, "a candidate"),
    }
}

// The giving of a list of books, whose numbers a comma stands between.
fn sharing(rt: &impl Abort, alloc: Global, line: &LearnLine) -> Call
    ensures { is_fit result ≡ true }
{
    let mut books = Vec::new(alloc);
    for number in line.reading.split(',') {
        let number = number.parse().expect(rt, "a number");
        books.push(number).expect(rt, "memory");
    }
    Call::Share {
        who: line.number,
        books: BookList::new(&books).expect(rt, "a list of books"),
    }
}

fn finding(rt: &impl Abort, alloc: Global, line: &LearnLine) -> Call
    ensures { is_fit result ≡ true }
{
    Call::Lookup {
        who: line.number,
        key: key(rt, alloc, line.reading),
        okuri: okuri(rt, alloc, line.word),
    }
}

fn completing(rt: &impl Abort, alloc: Global, line: &LearnLine) -> Call
    ensures { is_fit result ≡ true }
{
    Call::Complete {
        who: line.number,
        prefix: making::text(rt, alloc, line.reading),
    }
}

// A reply.
fn reply_text(rt: &impl Abort, alloc: Global, reply: &Reply) -> String {
    let mut told = String::new(alloc);
    match reply {
        Reply::Found(found) => add_found(rt, &mut told, alloc, found),
        Reply::Readings(readings) => add_texts(rt, &mut told, readings),
        Reply::Learned(learned) => add_learned(rt, &mut told, learned),
        Reply::Overtaken(stamp) => add_number(rt, &mut told, "overtaken ", *stamp),
        Reply::TooBig(bytes) => add_number(rt, &mut told, "too big ", *bytes),
        Reply::Purged => told.push_str("purged").expect(rt, "memory"),
        Reply::Unchanged => told.push_str("unchanged").expect(rt, "memory"),
        Reply::Restored => told.push_str("restored").expect(rt, "memory"),
        Reply::Annotated => told.push_str("annotated").expect(rt, "memory"),
        Reply::Shared => told.push_str("shared").expect(rt, "memory"),
        Reply::StampsEnd => told.push_str("stamps end").expect(rt, "memory"),
    }
    told
}

// Adds the words of what was found.
fn add_found(rt: &impl Abort, told: &mut String, alloc: Global, found: &FoundCands) {
    let found = found.copy(alloc).expect(rt, "memory");
    let found = found.into_distinct(alloc).expect(rt, "memory");
    add_words(rt, told, found.cands());
}

// Adds the stamps of what was learnt, and of the row before it.
fn add_learned(rt: &impl Abort, told: &mut String, learned: &Learned) {
    let before = match learned.before() {
        Some(row) => row.stamp(),
        None => 0,
    };
    add_number(rt, told, "learned ", learned.stamp());
    add_number(rt, told, " after ", before);
}

// Adds a number with these words before it.
fn add_number(rt: &impl Abort, told: &mut String, words: &str, number: u64) {
    write!(told, "{words}{number}").expect(rt, "memory");
}

// A text: a `~` and a number stand for so many `x` that it has so many characters.
fn text(rt: &impl Abort, alloc: Global, content: &str) -> Text {
    let (begin, width) = content.split_once('~').unwrap_or((content, "0"));
    let width: usize = width.parse().expect(rt, "a number");
    Text::of(format!(in alloc; "{begin:x<width$}").expect(rt, "memory"))
}

// A candidate without a note.
fn cand(rt: &impl Abort, alloc: Global, content: &str) -> Cand {
    Cand::new(text(rt, alloc, content), Text::new(alloc)).expect(rt, "a candidate")
}

// A word.
fn word(rt: &impl Abort, alloc: Global, content: &str) -> Text
    ensures { is_word result ≡ true }
{
    let cand = cand(rt, alloc, content);
    cand.word().copy(alloc).expect(rt, "memory")
}

// The words of candidates, each with a space before it, and with its note, where it has one.
fn add_words(rt: &impl Abort, told: &mut String, cands: &Cands) {
    for cand in cands.as_slice() {
        add_word(rt, told, cand.word());
        if !cand.note().is_empty() {
            told.push(';').expect(rt, "memory");
            told.push_str(cand.note().as_str()).expect(rt, "memory");
        }
    }
}

// Texts, each with a space before it.
pub fn add_texts(rt: &impl Abort, told: &mut String, texts: &Texts) {
    for text in texts.as_slice() {
        add_word(rt, told, text);
    }
}

// A text with a space before it.
fn add_word(rt: &impl Abort, told: &mut String, word: &Text) {
    told.push(' ').expect(rt, "memory");
    told.push_str(word.as_str()).expect(rt, "memory");
}

// The readings of a book, each with a space before it.
fn add_readings(rt: &impl Abort, told: &mut String, book: &Book) {
    for row in book.rows().as_slice() {
        add_word(rt, told, row.key().reading());
    }
}

// A row: its stamp, its words, its blocks, and what it hides.
fn add_row(rt: &impl Abort, told: &mut String, row: &Row) {
    add_number(rt, told, "", row.stamp());
    told.push(':').expect(rt, "memory");
    add_words(rt, told, row.cands());
    told.push_str(" /").expect(rt, "memory");
    add_blocks(rt, told, row.blocks());
    told.push_str(" /").expect(rt, "memory");
    add_texts(rt, told, row.hides());
}

// The blocks of a row, each its okurigana and its words.
fn add_blocks(rt: &impl Abort, told: &mut String, blocks: &Blocks) {
    for block in blocks.as_slice() {
        add_word(rt, told, block.okuri().text());
        add_texts(rt, told, block.words());
    }
}

// The block of an okurigana, of one word.
fn one_block(rt: &impl Abort, alloc: Global, line: &LearnLine) -> Block {
    let okuri = okuri(rt, alloc, line.okuri).expect(rt, "no okurigana");
    let mut words = Texts::new(alloc);
    words.push(word(rt, alloc, line.word)).expect(rt, "memory");
    Block::new(okuri, words)
}

// A row with a block alone.
fn block_row(rt: &impl Abort, alloc: Global, line: &LearnLine, stamp: u64) -> Row {
    let key = key(rt, alloc, line.reading);
    assert!(rt; key.part() == Part::Ari);
    let _reading = key.reading();
    let block = one_block(rt, alloc, line);
    let _okuri = block.okuri();
    let mut blocks = Blocks::new(alloc);
    blocks.push(block).expect(rt, "memory");
    let (cands, hides) = (Cands::new(alloc), Texts::new(alloc));
    Row::new(key, cands, blocks, hides, stamp)
}

// Puts a row into a book of an index, where it fits the book with this count.
fn put_into(
    rt: &impl Abort,
    index: &mut Index,
    alloc: Global,
    (number, count): (u16, u64),
    row: Row,
) {
    assert!(rt;
        fits_count(&row, count) && count >= index.count(number),
        "does not fit"
    );
    let row = KeptRow::new(alloc, row).expect(rt, "memory");
    index.put(alloc, number, count, row).expect(rt, "memory");
}

// Whether a row that hides no words may stand in a book of this count.
fn fits_count(row: &Row, count: u64) -> bool
    ensures { OnTrue result (fits_count count row.now ≡ true) }
{
    if row.hides().len() > 0 || line_length(row) > 65_535 || !has_words(row) {
        return false;
    }
    has_stamp(row, count)
}

// Whether a row's stamp is from 1 to a count.
fn has_stamp(row: &Row, count: u64) -> bool
    ensures { result ≡ has_stamp count row.now }
{
    1 <= row.stamp() && row.stamp() <= count
}

// Whether a row has a candidate or a block.
fn has_words(row: &Row) -> bool
    ensures { result ≡ (not (is_empty row.now.cands) || not (is_empty row.now.blocks)) }
{
    !row.cands().is_empty() || !row.blocks().is_empty()
}
