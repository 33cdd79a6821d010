ghost use Rattle.std.specs.Prelude.{◌≡◌, false};
ghost use Rattle.skk_journal.specs.Journal.{is_in_doubt};

use crate::journals::{LEARNING, LEARNT_FILE, disk_of, text};
use dict_layers::System;
use expectations::same;
use learned_store::{Parts, Store, live_records, put_record, tight_end};
use skk_calls::{Books, Part, RowKey};
use skk_disk::MemDisk;
use std::alloc::Global;
use std::process::Abort;

// The record of LEARNING, behind an open gate.
const LIVE: &[u8] = b"\x01\x26\0\0\0\
    \x01\x01\0\x01\0\0\0\0\0\0\0\x01\0\0\0\0\0\0\0\0\
    \xe3\x81\x8b\xe3\x82\x93\xe3\x81\x98 /\xe6\xbc\xa2\xe5\xad\x97/";

// The same row in book 258, whose count is 3.
const PUT: &[u8] = b"\x01\x02\x01\x03\0\0\0\0\0\0\0\x01\0\0\0\0\0\0\0\0\
    \xe3\x81\x8b\xe3\x82\x93\xe3\x81\x98 /\xe6\xbc\xa2\xe5\xad\x97/";

#[test]
fn a_store_is_taken_apart(rt: HostRuntime) {
    let alloc = rt.alloc();
    let Parts {
        index,
        system,
        journal,
        limit,
    } = opened(&rt, alloc).into_parts();
    let live = live_records(alloc, &index).expect(&rt, "memory");
    same(live.as_slice(), LIVE).expect(&rt, "as wanted");
    same(tight_end(&index), 61).expect(&rt, "as wanted");
    let ends = (
        system.file_count(),
        journal.end(),
        journal.in_doubt(),
        limit,
    );
    same(ends, (0, 61, false, 100)).expect(&rt, "as wanted");
    let key = RowKey::new(Part::Nasi, text(&rt, alloc, "かんじ")).expect(&rt, "a key");
    let row = index.row(1, &key).expect(&rt, "a row");
    let put = put_record(alloc, 258, 3, row).expect(&rt, "memory");
    same(put.as_slice(), PUT).expect(&rt, "as wanted");
}

// Opens learned files in which 漢字 was learnt, over no dictionaries.
fn opened<R: Abort>(rt: &R, alloc: Global) -> Store<MemDisk>
    ensures { is_in_doubt result.journal.doubt ≡ false }
{
    let system = System::of_books(alloc, Books::new(alloc)).expect(rt, "memory");
    let disk = disk_of(rt, alloc, LEARNT_FILE, &[]);
    match Store::open(alloc, disk, system, 100) {
        Ok(store) => store,
        Err(unopened) => panic!(rt; "{}", unopened.why),
    }
}
