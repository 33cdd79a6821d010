ghost use Rattle.std.specs.Prelude.{◌≡◌, true};
ghost use Rattle.skk_calls.specs.Dictionary.{is_fit};
ghost use Rattle.skk_calls.specs.Rows.{is_word};

use crate::journals::text;
use dict_format::read_file;
use dict_layers::System;
use expectations::same_at;
use learned_store::Store;
use skk_calls::{Answer, BookList, Books, Call, Cand, FoundCands, Part, Reply, RowKey};
use skk_disk::{Disk, MemDisk};
use skk_text::{Copies, Text};
use std::alloc::Global;
use std::process::Abort;

const DICTIONARY: &str = ";; okuri-ari entries.\n;; okuri-nasi entries.\nかんじ /漢字/幹事;宴会の/感じ/\n";

// What is asked of a store, all for かんじ.
#[derive(Clone, Copy, Debug)]
enum LookUpStep<'a> {
    // Finds the words for a typist.
    Find(u16),
    // Purges a word in a book.
    Purge(u16, &'a str),
    // Learns a word in a book.
    Learn(u16, &'a str),
    // Gives a typist a list of books.
    Share(u16, &'a [u16]),
}

// A step, what the answer tells, and whether what typist 1 finds is kept then.
static STEPS: &[(LookUpStep<'static>, &str, bool)] = &[
    (LookUpStep::Find(2), "漢字 幹事;宴会の 感じ ", false),
    (LookUpStep::Find(1), "漢字 幹事;宴会の 感じ ", true),
    (LookUpStep::Purge(1, "漢字"), "Purged", false),
    (LookUpStep::Find(1), "幹事;宴会の 感じ ", true),
    (LookUpStep::Find(1), "幹事;宴会の 感じ ", true),
    // The shared book is another one than the typist's.
    (LookUpStep::Learn(0, "監事"), "Learned", false),
    (LookUpStep::Find(1), "監事 幹事;宴会の 感じ ", true),
    // A list of books lets all go, be it another typist's.
    (LookUpStep::Share(2, &[7]), "Done(Shared)", false),
    (LookUpStep::Find(1), "監事 幹事;宴会の 感じ ", true),
    (LookUpStep::Share(1, &[7]), "Done(Shared)", false),
    (LookUpStep::Find(1), "幹事;宴会の 感じ ", true),
    (LookUpStep::Share(1, &[0, 7]), "Done(Shared)", false),
    (LookUpStep::Find(1), "監事 幹事;宴会の 感じ ", true),
    // So does one that is the typist's already.
    (LookUpStep::Share(1, &[0, 7]), "Done(Unchanged)", false),
];

#[test]
fn what_a_look_up_found_is_kept_until_a_row_of_its_reading_or_a_list_changes(rt: HostRuntime) {
    expect_steps(&rt, rt.alloc())
}

fn expect_steps<R: Abort>(rt: &R, alloc: Global) {
    let mut store = opened(rt, alloc);
    let look_up = call_of(rt, alloc, LookUpStep::Find(1));
    same_at(store.kept(&look_up), false, "at first").expect(rt, "as wanted");
    for (step, told, kept) in STEPS {
        let answer = answer(alloc, &mut store, call_of(rt, alloc, *step));
        let found = told_of(rt, alloc, &answer);
        same_at(found.as_str(), *told, *step).expect(rt, "as wanted");
        same_at(store.kept(&look_up), *kept, *step).expect(rt, "as wanted");
    }
}

// Opens the learned files of a new disk over the dictionary.
fn opened<R: Abort>(rt: &R, alloc: Global) -> Store<MemDisk> {
    let mut books = Books::new(alloc);
    let listed = read_file(alloc, DICTIONARY.as_bytes()).expect(rt, "a file");
    books.push(listed.book).expect(rt, "memory");
    let system = System::of_books(alloc, books).expect(rt, "memory");
    let disk = MemDisk::new(alloc, Vec::new(alloc));
    match Store::open(alloc, disk, system, 1_000_000) {
        Ok(store) => store,
        Err(unopened) => panic!(rt; "{}", unopened.why),
    }
}

// The answer to a call. Calls are let go here alone.
fn answer<D: Disk>(alloc: Global, store: &mut Store<D>, call: Call) -> Answer
    requires { is_fit call ≡ true }
{
    store.serve(alloc, &call)
}

// The call of a step.
fn call_of<R: Abort>(rt: &R, alloc: Global, step: LookUpStep) -> Call
    ensures { is_fit result ≡ true }
{
    let key = RowKey::new(Part::Nasi, text(rt, alloc, "かんじ")).expect(rt, "a key");
    match step {
        LookUpStep::Find(who) => Call::Lookup {
            who,
            key,
            okuri: None,
        },
        LookUpStep::Purge(book, word) => Call::Purge {
            book,
            key,
            word: word_of(rt, alloc, word),
        },
        LookUpStep::Learn(book, word) => Call::Learn {
            book,
            key,
            okuri: None,
            cand: cand(rt, alloc, word),
        },
        LookUpStep::Share(who, books) => Call::Share {
            who,
            books: BookList::new(books).expect(rt, "a list"),
        },
    }
}

fn cand<R: Abort>(rt: &R, alloc: Global, word: &str) -> Cand {
    Cand::new(text(rt, alloc, word), Text::new(alloc)).expect(rt, "a candidate")
}

fn word_of<R: Abort>(rt: &R, alloc: Global, word: &str) -> Text
    ensures { is_word result ≡ true }
{
    let cand = cand(rt, alloc, word);
    cand.word().copy(alloc).expect(rt, "memory")
}

// What an answer tells: what was found, each candidate with a space behind it, or what was done.
fn told_of<R: Abort>(rt: &R, alloc: Global, answer: &Answer) -> String {
    match answer {
        Answer::Done(Reply::Found(found)) => cands_of(rt, alloc, found),
        Answer::Done(Reply::Learned(_)) => String::from_str(alloc, "Learned").expect(rt, "memory"),
        Answer::Done(Reply::Purged) => String::from_str(alloc, "Purged").expect(rt, "memory"),
        answer => format!(in alloc; "{answer:?}").expect(rt, "memory"),
    }
}

fn cands_of<R: Abort>(rt: &R, alloc: Global, found: &FoundCands) -> String {
    let found = found.copy(alloc).expect(rt, "memory");
    let found = found.into_distinct(alloc).expect(rt, "memory");
    let mut told = String::new(alloc);
    for cand in found.cands().as_slice() {
        add_cand(rt, &mut told, cand);
    }
    told
}

// Adds a candidate, with its note where it has one.
fn add_cand<R: Abort>(rt: &R, told: &mut String, cand: &Cand) {
    told.push_str(cand.word().as_str()).expect(rt, "memory");
    if !cand.note().is_empty() {
        told.push(';').expect(rt, "memory");
        told.push_str(cand.note().as_str()).expect(rt, "memory");
    }
    told.push(' ').expect(rt, "memory");
}
