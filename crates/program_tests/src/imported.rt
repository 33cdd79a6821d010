use crate::making::{fails, shelf_of, sink, source_of, words_of};
use crate::runs::expect_written;
use crate::statuses::status_of;
use expectations::same_at;
use skk_disk::MemDisk;
use std::alloc::Global;
use std::process::Abort;

// Two rows of one candidate each, whose learnings are one group.
const TWO: &str = "あ /亜/\nい /胃/\n";

// An empty disk is made a learned file by two syncs, a read of each file, the first byte, the rest of the head and the
// gate with their syncs, and the byte that makes it one, with its own.
const OPENING: u64 = 12;

// A group is written by four: its bytes, a sync, its gate, a sync.
const GROUP: u64 = 4;

#[test]
fn a_disk_that_fails_ends_an_import(rt: HostRuntime) {
    let last = OPENING + GROUP;
    for call in 1..=last {
        expect_import(&rt, rt.alloc(), call, 4, "", "skk: outside\n");
    }
    expect_import(&rt, rt.alloc(), last + 1, 0, "imported 2\n", "");
}

// Imports over an empty disk, of which the call with this number is to fail.
fn expect_import(rt: &impl Abort, alloc: Global, call: u64, status: u8, written: &str, told: &str) {
    let mut shelf = shelf_of(rt, alloc, TWO.as_bytes(), 0);
    let mut input = source_of(rt, alloc, &[], 0);
    let words = words_of(rt, alloc, "import --learned learned words");
    let disk = MemDisk::new(alloc, fails(rt, alloc, call));
    let mut out = sink(rt, alloc, 0);
    let mut err = sink(rt, alloc, 0);
    let ended = status_of(
        alloc,
        words.as_slice(),
        &mut shelf,
        disk,
        &mut input,
        &mut out,
        &mut err,
    );
    same_at(ended, status, call).expect(rt, "as wanted");
    expect_written(rt, &out, written);
    expect_written(rt, &err, told);
}
