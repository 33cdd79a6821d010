ghost use Rattle.std.specs.Prelude.{◌≡◌, None};
ghost use Rattle.skk_disk.specs.Moments.{SameImages};
ghost use Rattle.learned_store.specs.Stores.{opening_now, Keeps};

use crate::connections::served;
use crate::tables::bytes_of;
use crate::ways::{Coming, Way};
use dict_files::{DictionaryFile, DictionaryFiles};
use dict_format::read_file;
use dict_layers::System;
use learned_store::{Alone, LearnedName, Store};
use skk_calls::{Answer, Books, Call, Caller, DialogTrace, Refusal};
use skk_disk::{Disk, MemDisk};
use skk_text::Bytes;
use std::alloc::Global;
use std::marker::Brand;
use std::process::Abort;

// The dictionary over which all is typed and asked.
const DICTIONARY: &str = ";; okuri-ari entries.
おおk /大/多/[く/多/]/[き/大/]/
うごk /動/[く/動/]/
いt /言/行/[った/言/]/
;; okuri-nasi entries.
#ねん /#1年/#3年/#0年/
125 /東京都葛飾区/
p# /#4/
かんじ /漢字/幹事;宴会の/感じ/
くぎり /(concat \"a\\057b\")/(concat \"[x\")/乙/
こう /甲;note/
せみ /(concat \"a\\073b\");宴会の/
ちょう> /超/
わ/ /和/
わ/ん /椀/
わ;b /話/
わん /湾/
";

// A file whose lines are not all as a row is written.
const FILE: &str = ";; okuri-ari entries.
うごk /動/[く/動/]/
;; okuri-nasi entries.
えん /円/(concat \"縁\")/
かぎ /a\"b/鍵/
かっこ /[/]/括弧/
かんじ /漢字/幹事;宴会の/感じ/
くぎり /(concat \"a\\057b\")/乙/
くり /栗/栗;木/庫裏/
しか /鹿//歯科/
せみ /蝉;/蟬/
なが /{200 長}/短/
にわ /庭;a/(skk-ignore-dic-word \"二羽\")/
はし /橋;a;b/端/
みぎ /右/
";

// A limit that nothing here comes to.
const FAR: u64 = 1_000_000;

// What is told by the one caller of the dictionary with a new learned file.
pub(crate) fn told_alone<R: Abort>(rt: &R, alloc: Global, way: Way, coming: Coming) -> Vec<u8> {
    let disk = MemDisk::new(alloc, Vec::new(alloc));
    told_on(rt, alloc, disk, system(rt, alloc), way, coming)
}

// What is sent to a client of the one caller of the file, with a new learned file.
pub(crate) fn told_from_file<R: Abort>(rt: &R, alloc: Global, coming: Coming) -> Vec<u8> {
    let disk = MemDisk::new(alloc, Vec::new(alloc));
    told_on(rt, alloc, disk, file(rt, alloc), Way::File, coming)
}

fn told_on<R: Abort, D: Disk + Drop>(
    rt: &R,
    alloc: Global,
    disk: D,
    system: System,
    way: Way,
    coming: Coming,
) -> Vec<u8> {
    let store = opened_over(rt, alloc, disk, system);
    told_over::<Brand, R, D>(rt, alloc, store, way, coming)
}

// Opens the learned file of a disk over the dictionary.
pub(crate) fn opened<R: Abort, D: Disk + Drop>(rt: &R, alloc: Global, disk: D) -> Store<D>
    ensures { Keeps D.Disk result.journal result.state None }
{
    opened_over(rt, alloc, disk, system(rt, alloc))
}

// Opens the learned file of a disk over system files.
fn opened_over<R: Abort, D: Disk + Drop>(rt: &R, alloc: Global, disk: D, system: System) -> Store<D>
    ensures { Keeps D.Disk result.journal result.state None }
{
    match Store::open(alloc, disk, system, FAR) {
        Ok(store) => store,
        Err(unopened) => panic!(rt; "{:?}", unopened.why),
    }
}

fn system<R: Abort>(rt: &R, alloc: Global) -> System {
    let listed = read_file(alloc, DICTIONARY.as_bytes()).expect(rt, "a dictionary");
    let mut books = Books::new(alloc);
    books.push(listed.book).expect(rt, "memory");
    System::of_books(alloc, books).expect(rt, "memory")
}

// The file, as it lies.
fn file<R: Abort>(rt: &R, alloc: Global) -> System {
    let bytes = Bytes::of(bytes_of(rt, alloc, FILE));
    let file = DictionaryFile::open(alloc, bytes).expect(rt, "a dictionary");
    let mut files = DictionaryFiles::new(alloc);
    files.push(file).expect(rt, "memory");
    System::of_files(alloc, files).expect(rt, "memory")
}

// What is told over a store that was just opened, for which `N` names the opening to the proof.
fn told_over<N: LearnedName, R: Abort, D: Disk + Drop>(
    rt: &R,
    alloc: Global,
    store: Store<D>,
    way: Way,
    coming: Coming,
) -> Vec<u8>
    requires calm { Keeps D.Disk store.journal store.state None }
    requires named { N.opening ≡ opening_now D.Disk store }
    requires past { SameImages N.past (D.left_since store.journal.disk) }
{
    let Ok(mut caller) = Alone::<D, N>::new(alloc, store) else {
        panic!(rt; "no caller");
    };
    let told = way.told_by(rt, alloc, &mut caller, coming);
    drop(caller);
    told
}

// A caller that is always out of memory.
#[derive(Drop)]
struct Refuser {
    said: DialogTrace,
}

impl Caller for Refuser {
    ghost number = { λ _. 7 };

    ghost said = { λ caller. caller.said };

    fn number(&self) -> u32 {
        7
    }

    fn call(&mut self, _alloc: Global, call: &Call) -> Answer {
        let answer = Answer::Refused(Refusal::Memory);
        self.said.note(call, &answer);
        answer
    }
}

// What is told of a connection of that caller.
pub(crate) fn told_refused<R: Abort>(rt: &R, alloc: Global, coming: Coming) -> Vec<u8> {
    let mut caller = Refuser {
        said: DialogTrace::new(alloc).expect(rt, "memory"),
    };
    let told = served(rt, alloc, &mut caller, coming);
    drop(caller);
    told
}
