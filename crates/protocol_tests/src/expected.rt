use crate::pieces::{push_cut, push_sized};
use crate::tables::{bytes_of, number, pieces_of};
use crate::ways::{Coming, Way};
use skk_text::Bytes;
use std::alloc::Global;
use std::process::Abort;
use std::str;
use std::sync::Wait;

// Tells that each row of a table is told so: what comes in pieces, what is told of it, and the number of the link's
// call that fails, if one does; and that the same is told where it comes in pieces of each of these sizes.
pub(crate) fn expect_rows<R: Wait + Abort + Copy + Drop + Send + Sync>(
    rt: R,
    alloc: Global,
    way: Way,
    table: &str,
    sizes: &[usize],
) {
    for row in table.split('\n') {
        if !row.starts_with("//") {
            expect_row(rt, alloc, way, row, sizes);
        }
    }
}

fn expect_row<R: Wait + Abort + Copy + Drop + Send + Sync>(
    rt: R,
    alloc: Global,
    way: Way,
    row: &str,
    sizes: &[usize],
) {
    let (comes, others) = row.split_once('|').expect(&rt, "a bar");
    let (told, fail) = others.split_once('|').unwrap_or((others, "0"));
    let wanted = bytes_of(&rt, alloc, told);
    let coming = Coming {
        pieces: pieces_of(&rt, alloc, comes),
        fail: number(fail),
    };
    expect(&rt, &way.told(rt, alloc, coming), &wanted, row);
    let bytes = bytes_of(&rt, alloc, comes);
    expect_sizes(rt, alloc, way, &bytes, &wanted, sizes);
}

// Tells what is told of bytes that come in pieces of each of these sizes.
pub(crate) fn expect_sizes<R: Wait + Abort + Copy + Drop + Send + Sync>(
    rt: R,
    alloc: Global,
    way: Way,
    bytes: &[u8],
    wanted: &[u8],
    sizes: &[usize],
) {
    for size in sizes {
        let mut pieces = Vec::new(alloc);
        push_sized(&rt, alloc, &mut pieces, bytes, *size);
        expect_pieces(rt, alloc, way, pieces, wanted);
    }
}

// Tells what is told of bytes that are cut at each place.
pub(crate) fn expect_cuts<R: Wait + Abort + Copy + Drop + Send + Sync>(
    rt: R,
    alloc: Global,
    way: Way,
    bytes: &[u8],
    wanted: &[u8],
) {
    for place in 0..=bytes.len() {
        let mut pieces = Vec::new(alloc);
        push_cut(&rt, alloc, &mut pieces, bytes, place);
        expect_pieces(rt, alloc, way, pieces, wanted);
    }
}

// Tells what is told of pieces.
pub(crate) fn expect_pieces<R: Wait + Abort + Copy + Drop + Send + Sync>(
    rt: R,
    alloc: Global,
    way: Way,
    pieces: Vec<Bytes>,
    wanted: &[u8],
) {
    let told = way.told(rt, alloc, Coming { pieces, fail: 0 });
    expect(&rt, &told, wanted, "cut anyhow");
}

// Tells that bytes are those that are wanted.
pub(crate) fn expect<R: Abort>(rt: &R, told: &[u8], wanted: &[u8], row: &str) {
    if told != wanted {
        let told = str::from_utf8(told).unwrap_or("no text");
        panic!(rt; "{row} is told {told}");
    }
}
