use skk_disk::MemDisk;
use skk_outside::{MemShelf, MemSink, MemSource};
use skk_text::{Bytes, Text, Texts};
use std::alloc::Global;
use std::process::Abort;

// The text of a string.
pub fn text(rt: &impl Abort, alloc: Global, content: &str) -> Text {
    Text::from_str(alloc, content).expect(rt, "memory")
}

// These bytes.
pub fn bytes(rt: &impl Abort, alloc: Global, content: &[u8]) -> Bytes {
    Bytes::of(content.to_vec(alloc).expect(rt, "memory"))
}

// The words of a command line.
pub fn words_of(rt: &impl Abort, alloc: Global, line: &str) -> Texts {
    let mut words = Texts::new(alloc);
    for word in line.split_whitespace() {
        words.push(text(rt, alloc, word)).expect(rt, "memory");
    }
    words
}

// A shelf that has one file, `words`. The read with this number is to fail, none where it is 0, here and below.
pub fn shelf_of(rt: &impl Abort, alloc: Global, content: &[u8], fail: u64) -> MemShelf {
    let file = (text(rt, alloc, "words"), bytes(rt, alloc, content));
    let files = Vec::from_array(alloc, [file]).expect(rt, "memory");
    MemShelf::new(files, fails(rt, alloc, fail))
}

// A source of these pieces.
pub fn source_of(rt: &impl Abort, alloc: Global, pieces: &[&str], fail: u64) -> MemSource {
    MemSource::new(pieces_of(rt, alloc, pieces), fails(rt, alloc, fail))
}

// A sink, of which the call with this number is to fail.
pub fn sink(rt: &impl Abort, alloc: Global, fail: u64) -> MemSink {
    MemSink::new(alloc, fails(rt, alloc, fail))
}

// An empty disk.
pub fn disk(alloc: Global) -> MemDisk {
    MemDisk::new(alloc, Vec::new(alloc))
}

// These pieces, as bytes.
pub fn pieces_of(rt: &impl Abort, alloc: Global, pieces: &[&str]) -> Vec<Bytes> {
    let mut made = Vec::new(alloc);
    for piece in pieces {
        made.push(bytes(rt, alloc, piece.as_bytes()))
            .expect(rt, "memory");
    }
    made
}

// The numbers of the calls that are to fail: this one alone.
pub fn fails(rt: &impl Abort, alloc: Global, call: u64) -> Vec<u64> {
    vec![in alloc; call].expect(rt, "memory")
}
