ghost use Rattle.std.specs.Prelude.{◌≡◌, ◌∷◌, ◌^◌, ◌<◌, [], true};
ghost use Rattle.skk_outside.specs.Memory.{names_differ};

use crate::making::{bytes, fails, pieces_of, sink, source_of, text};
use expectations::{same, same_at};
use skk_outside::{
    Failed, Gate, HostShelf, Link, Listener, MemLink, MemListener, MemShelf, Open, PIECE,
    ReadFault, ReaderSource, Shelf, Sink, Source, WriterSink, read_named_file, read_to_end,
    write_all,
};
use skk_text::{Bytes, Text};
use std::alloc::Global;
use std::io::{self, ErrorKind, Read, Write};
use std::process::Abort;

// Three pieces, of which one is empty.
static PIECES: [&str; 3] = ["xyz", "", "w"];

// What a read into two bytes gives, and the two bytes then, which were 0 before the first read.
type ShortRead = (Result<usize, Failed>, [u8; 2]);

fn expect_reads<S: Source>(rt: &impl Abort, source: &mut S, reads: &[ShortRead]) {
    let mut into = [0; 2];
    for (answer, left) in reads {
        same(source.read(&mut into), *answer).expect(rt, "as wanted");
        same(into, *left).expect(rt, "as wanted");
    }
}

static PIECES_READ: [ShortRead; 3] = [(Ok(2), *b"xy"), (Err(Failed), *b"xy"), (Ok(1), *b"zy")];

#[test]
fn a_source_in_memory_reads_piece_by_piece(rt: HostRuntime) {
    let mut source = source_of(&rt, rt.alloc(), &PIECES, 2);
    expect_reads(&rt, &mut source, &PIECES_READ);
}

#[test]
fn a_sink_in_memory_writes_but_at_calls_that_fail(rt: HostRuntime) {
    let mut sink = sink(&rt, rt.alloc(), 2);
    same(sink.write(b"xy"), Ok(2)).expect(&rt, "as wanted");
    same(sink.flush(), Err(Failed)).expect(&rt, "as wanted");
    same(write_all(&mut sink, b"zw"), Ok(())).expect(&rt, "as wanted");
    same(sink.written(), b"xyzw".as_slice()).expect(&rt, "as wanted");
}

// A link of one piece, whose third call fails.
fn link(rt: &impl Abort, alloc: Global) -> MemLink {
    MemLink::new(alloc, pieces_of(rt, alloc, &["xy"]), fails(rt, alloc, 3))
}

static LINK_READ: [ShortRead; 1] = [(Ok(2), *b"xy")];

static LINK_END: [ShortRead; 1] = [(Ok(0), [0; 2])];

#[test]
fn a_link_in_memory_is_read_and_written(rt: HostRuntime) {
    let mut link = link(&rt, rt.alloc());
    expect_reads(&rt, &mut link, &LINK_READ);
    same(link.write(b"zw"), Ok(2)).expect(&rt, "as wanted");
    same(link.flush(), Err(Failed)).expect(&rt, "as wanted");
    expect_reads(&rt, &mut link, &LINK_END);
    expect_closing(&rt, &mut link);
    same(link.written(), b"zw".as_slice()).expect(&rt, "as wanted");
}

// Closes a link, which was open.
fn expect_closing(rt: &impl Abort, link: &mut MemLink) {
    same(link.is_closed(), false).expect(rt, "as wanted");
    link.close();
    same(link.is_closed(), true).expect(rt, "as wanted");
}

#[test]
fn a_listener_in_memory_gives_its_links_and_takes_them_back(rt: HostRuntime) {
    let alloc = rt.alloc();
    let coming = Vec::from_array(alloc, [link(&rt, alloc)]).expect(&rt, "memory");
    let mut net = MemListener::new(alloc, coming, fails(&rt, alloc, 2));
    same(net.open(1178), Ok(())).expect(&rt, "as wanted");
    same(net.accept().err(), Some(Failed)).expect(&rt, "as wanted");
    if let Some(link) = net.accept().expect(&rt, "memory") {
        net.done(link);
    }
    same(net.over().len(), 1).expect(&rt, "as wanted");
    same(net.accept().map(|link| link.is_none()), Ok(true)).expect(&rt, "as wanted");
    Open.at(0, 0);
}

// What is read of the pieces up to a limit.
fn read_pieces(rt: &impl Abort, alloc: Global, limit: usize) -> Result<Bytes, ReadFault>
    requires { limit < 2 ^ 62 }
{
    let mut source = source_of(rt, alloc, &PIECES, 0);
    read_to_end(alloc, &mut source, limit)
}

#[test]
fn a_source_is_read_up_to_the_limit(rt: HostRuntime) {
    let whole = read_pieces(&rt, rt.alloc(), 4).expect(&rt, "memory");
    same(whole.as_slice(), b"xyzw".as_slice()).expect(&rt, "as wanted");
    let fault = read_pieces(&rt, rt.alloc(), 3).err();
    same(fault, Some(ReadFault::TooLong)).expect(&rt, "as wanted");
}

// Gives one byte at a time, and fails at its second read.
#[derive(Drop)]
struct Halting(u8);

impl Read for Halting {
    fn read(&mut self, buf: &mut [u8]) -> io::Result<usize> {
        if self.0 == 1 {
            self.0 = 2;
            return Err(ErrorKind::Other.into());
        }
        if self.0 > 2 || buf.is_empty() {
            return Ok(0);
        }
        self.0 += 1;
        buf[0] = self.0;
        Ok(1)
    }
}

#[test]
fn a_reader_is_a_source(rt: HostRuntime) {
    let mut source = ReaderSource::new([7, 8, 9].as_slice());
    let bytes = read_to_end(rt.alloc(), &mut source, 3).expect(&rt, "memory");
    same(bytes.as_slice(), &[7, 8, 9].as_slice()).expect(&rt, "as wanted");
}

static HALTING_READ: [ShortRead; 3] = [(Ok(1), [1, 0]), (Err(Failed), [1, 0]), (Ok(1), [3, 0])];

#[test]
fn a_read_that_fails_may_be_tried_again(rt: HostRuntime) {
    expect_reads(&rt, &mut ReaderSource::new(Halting(0)), &HALTING_READ);
}

// Takes two bytes, one at a time, and then none.
#[derive(Drop)]
struct Narrow(u8);

impl Write for Narrow {
    fn write(&mut self, buf: &[u8]) -> io::Result<usize> {
        if self.0 >= 2 || buf.is_empty() {
            return Ok(0);
        }
        self.0 += 1;
        Ok(1)
    }

    fn flush(&mut self) -> io::Result<()> {
        Err(ErrorKind::Other.into())
    }
}

#[test]
fn a_writer_is_a_sink(rt: HostRuntime) {
    let mut written = Vec::new(rt.alloc());
    let mut sink = WriterSink::new(&mut written);
    same(write_all(&mut sink, &[7, 8, 9]), Ok(())).expect(&rt, "as wanted");
    drop(sink);
    same(written.as_slice(), &[7, 8, 9].as_slice()).expect(&rt, "as wanted");
}

#[test]
fn a_writer_that_takes_no_byte_fails(rt: HostRuntime) {
    let mut sink = WriterSink::new(Narrow(0));
    same(write_all(&mut sink, &[1, 2]), Ok(())).expect(&rt, "as wanted");
    same(sink.write(&[3]), Err(Failed)).expect(&rt, "as wanted");
    same(sink.flush(), Err(Failed)).expect(&rt, "as wanted");
}

// A file of three bytes, an empty one, and one of a piece and a byte.
fn three_files(rt: &impl Abort, alloc: Global) -> Vec<(Text, Bytes)>
    ensures { names_differ result.items ≡ true }
{
    let long = vec![in alloc; b'w'; PIECE + 1].expect(rt, "memory");
    let mut files = Vec::new(alloc);
    files
        .push(file(rt, alloc, 'a', b"xyz"))
        .expect(rt, "memory");
    files.push(file(rt, alloc, 'b', b"")).expect(rt, "memory");
    files.push(file(rt, alloc, 'c', &long)).expect(rt, "memory");
    files
}

// A file whose name is one letter.
fn file(rt: &impl Abort, alloc: Global, letter: char, content: &[u8]) -> (Text, Bytes)
    ensures { result.0 ≡ letter ∷ [] }
{
    let mut name = Text::new(alloc);
    name.push(letter).expect(rt, "memory");
    (name, bytes(rt, alloc, content))
}

// A read of a file: its name, the place that is read from, the answer, and all of the buffer then, which was dots.
type Reading = (&'static str, u64, Result<usize, Failed>, &'static str);

fn expect_read<H: Shelf>(rt: &impl Abort, alloc: Global, shelf: &mut H, reading: &Reading) {
    let (name, place, answer, left) = *reading;
    let text = text(rt, alloc, name);
    let mut into = vec![in alloc; b'.'; left.len()].expect(rt, "memory");
    same_at(shelf.read(&text, place, &mut into), answer, reading).expect(rt, "as wanted");
    same_at(into.as_slice(), left.as_bytes(), reading).expect(rt, "as wanted");
}

static READINGS: [Reading; 15] = [
    ("a", 0, Ok(2), "xy"),
    ("a", 0, Ok(3), "xyz."),
    ("a", 1, Ok(1), "y"),
    ("a", 2, Ok(1), "z."),
    // at its end, behind it, far behind it, and where there is no room
    ("a", 3, Ok(0), "."),
    ("a", 4, Ok(0), "."),
    ("a", u64::MAX, Ok(0), "."),
    ("a", 1, Ok(0), ""),
    ("b", 0, Ok(0), "."),
    // names that no file has
    ("aa", 0, Err(Failed), "."),
    ("", 0, Err(Failed), ""),
    // the calls 12 and 14 are to fail, whatever they read
    ("a", 0, Err(Failed), "."),
    ("c", 65536, Ok(1), "w."),
    ("d", 0, Err(Failed), "."),
    ("a", 0, Ok(1), "x"),
];

#[test]
fn a_shelf_in_memory_reads_from_any_place(rt: HostRuntime) {
    let alloc = rt.alloc();
    let mut shelf = MemShelf::new(
        three_files(&rt, alloc),
        vec![in alloc; 12, 14].expect(&rt, "memory"),
    );
    for reading in &READINGS {
        expect_read(&rt, alloc, &mut shelf, reading);
    }
}

static SYSTEM_READINGS: [Reading; 10] = [
    ("/proc/version", 0, Ok(3), "Lin"),
    // read on, read again, and read from the middle
    ("/proc/version", 3, Ok(5), "ux ve"),
    ("/proc/version", 3, Ok(2), "ux"),
    ("/proc/version", 1, Ok(4), "inux"),
    ("/dev/null", 0, Ok(0), "."),
    ("/dev/null", 5, Ok(0), "."),
    // a directory, and names that no file has
    ("/", 0, Err(Failed), "."),
    ("/no such file", 0, Err(Failed), "."),
    ("", 0, Err(Failed), "."),
    ("/proc/version", 5, Ok(3), " ve"),
];

#[test]
fn files_of_the_system_are_read_from_any_place(rt: HostRuntime) {
    let alloc = rt.alloc();
    let mut shelf = HostShelf::new(alloc, &rt);
    for reading in &SYSTEM_READINGS {
        expect_read(&rt, alloc, &mut shelf, reading);
    }
}

// A file that is read up to a limit: its name, the limit, the number of the call that is to fail, and the fault, where
// the file is not read whole.
type WholeReading = (&'static str, u32, u64, Option<ReadFault>);

static WHOLE_READINGS: [WholeReading; 10] = [
    ("a", 3, 0, None),
    ("a", 2, 0, Some(ReadFault::TooLong)),
    ("b", 0, 0, None),
    ("c", 65537, 0, None),
    ("c", 65536, 0, Some(ReadFault::TooLong)),
    ("c", 65535, 2, Some(ReadFault::TooLong)),
    ("d", 9, 0, Some(ReadFault::Failed)),
    ("a", 9, 1, Some(ReadFault::Failed)),
    ("a", 9, 2, Some(ReadFault::Failed)),
    ("a", 9, 3, None),
];

#[test]
fn a_file_is_read_up_to_the_limit(rt: HostRuntime) {
    for reading in &WHOLE_READINGS {
        expect_whole_read(&rt, rt.alloc(), reading);
    }
}

fn expect_whole_read(rt: &impl Abort, alloc: Global, reading: &WholeReading) {
    let (name, limit, fail, fault) = *reading;
    let read = whole_read(rt, alloc, (name, limit, fail));
    if let Ok(bytes) = &read {
        same_at(holds(name, bytes.as_slice()), true, reading).expect(rt, "as wanted");
    }
    same_at(read.err(), fault, reading).expect(rt, "as wanted");
}

// What is read of a file up to a limit, where the call with a number is to fail.
fn whole_read(
    rt: &impl Abort,
    alloc: Global,
    (name, limit, fail): (&str, u32, u64),
) -> Result<Bytes, ReadFault> {
    let mut shelf = MemShelf::new(three_files(rt, alloc), fails(rt, alloc, fail));
    let name = text(rt, alloc, name);
    read_named_file(alloc, &mut shelf, &name, limit as usize)
}

// Whether the file of a name holds these bytes.
fn holds(name: &str, bytes: &[u8]) -> bool {
    match name {
        "a" => bytes == b"xyz".as_slice(),
        "b" => bytes.is_empty(),
        _ => bytes.len() == PIECE + 1 && bytes.iter().all(|&byte| byte == b'w'),
    }
}
