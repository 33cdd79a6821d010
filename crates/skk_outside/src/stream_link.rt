ghost use Rattle.std.specs.Prelude.{◌≡◌, ◌≤◌, ◌<◌, true, false, None, length, is_none, IfOk, OnOk, OnErr};
ghost use Rattle.std.specs.Io.{ReadsAtMost, WritesAtMost};
ghost use Rattle.std.specs.Io.KnownBytes.{Keeps, ReadConsumes, WriteAppends};
ghost use Rattle.skk_text.specs.Counts.{one_more};
ghost use Rattle.skk_outside.specs.Faults.{Rose};

use crate::count::Count;
use crate::link::Link;
use crate::outside::{Failed, Outside};
use crate::sink::Sink;
use crate::source::Source;
use std::io::{self, ErrorKind, Read, Write};
use std::net::{OpenStream, Shutdown};
use std::time::Duration;

/// A link over a stream of the system, as a TCP connection. It tells nothing of what is to come and what was written.
/// A call that goes well leaves the count of faults, and one that fails raises it by one; on a closed link each fails.
/// A peer that sends no first byte for 60 seconds, or takes none of what is written for as long, is a fault.
#[derive(Drop)]
pub struct StreamLink<S> {
    // None once it is closed.
    stream: Option<S>,
    // Whether a byte has come.
    is_begun: bool,
    faults: Count,
}

// For how many seconds a peer is waited for that has sent nothing yet.
const PATIENCE: u64 = 60;

// For how many seconds at a time a peer is waited for that takes nothing, and how often. The system counts a wait from
// the start of a write, and a write that waited says how much was taken before, so that one wait of 60 seconds would
// become two behind a write that was taken in part.
const WRITE_WAIT: u64 = 5;

const WRITE_WAITS: u32 = 12;

impl<S: OpenStream> StreamLink<S> {
    /// The link of a connected stream.
    pub fn new(stream: S) -> StreamLink<S>
        ensures faults { ⟦<StreamLink<S> as Outside>⟧.faults result ≡ 0 }
    {
        // Where the system refuses, the peer is waited for without an end.
        let _first = stream.set_read_timeout(Some(Duration::from_secs(PATIENCE)));
        let _taken = stream.set_write_timeout(Some(Duration::from_secs(WRITE_WAIT)));
        StreamLink {
            stream: Some(stream),
            is_begun: false,
            faults: Count::new(),
        }
    }
}

impl<S> Outside for StreamLink<S> {
    ghost faults = { λ l. l.faults };

    ghost closed = { λ l. is_none l.stream };
}

impl<S: Read + OpenStream> Source for StreamLink<S> {
    /// Waits for bytes, or for the end of what the peer sends: at most 60 seconds for the first, and without an end for
    /// those behind it.
    fn read(&mut self, into: &mut [u8]) -> Result<usize, Failed>
        ensures bound { ReadsAtMost result into.new }
        ensures bytes { ReadConsumes None None result into.new }
        ensures failed { OnErr result (Rose self.old.faults self.new.faults) }
        ensures counted { self.old.faults ≤ self.new.faults }
        ensures no_fault { OnOk result (self.new.faults ≡ self.old.faults) }
        ensures one_fault { OnErr result (self.new.faults ≡ one_more self.old.faults) }
    {
        if let Some(stream) = &mut self.stream {
            if let Ok(n) = read_begun(stream, &mut self.is_begun, into) {
                return Ok(n);
            }
        }
        Err(self.faults.fail())
    }
}

// Reads bytes of a stream. Behind the first ones no time is set.
fn read_begun<S: Read + OpenStream>(
    stream: &mut S,
    is_begun: &mut bool,
    into: &mut [u8],
) -> io::Result<usize>
    ensures { ReadsAtMost result into.new }
{
    let count = stream.read(into)?;
    if !*is_begun {
        stream.set_read_timeout(None)?;
        *is_begun = true;
    }
    Ok(count)
}

// Writes bytes to a stream, and waits again and again where it takes none.
fn write_patiently<S: Write>(stream: &mut S, from: &[u8]) -> io::Result<usize>
    ensures { WritesAtMost result from.now }
{
    for _ in 1..WRITE_WAITS {
        match stream.write(from) {
            Err(error) if is_wait(error.kind()) => {}
            written => return written,
        }
    }
    stream.write(from)
}

// Whether a write has only waited, to the end of its time or of what a signal left of it.
fn is_wait(kind: ErrorKind) -> bool {
    matches!(kind, ErrorKind::WouldBlock | ErrorKind::Interrupted)
}

impl<S: Write> Sink for StreamLink<S> {
    /// Hands bytes to the system, and waits where it takes none: for 60 seconds behind the last byte that it took, and
    /// for at most 5 more. A write of 0 bytes of some is a fault.
    fn write(&mut self, from: &[u8]) -> Result<usize, Failed>
        ensures bound { WritesAtMost result from.now }
        ensures progress { 0 < length from.now → IfOk result (λ n. 1 ≤ n) }
        ensures bytes { WriteAppends None None result from.now }
        ensures failed { OnErr result (Rose self.old.faults self.new.faults) }
        ensures counted { self.old.faults ≤ self.new.faults }
        ensures no_fault { OnOk result (self.new.faults ≡ self.old.faults) }
        ensures one_fault { OnErr result (self.new.faults ≡ one_more self.old.faults) }
    {
        if let Some(stream) = &mut self.stream {
            match write_patiently(stream, from) {
                Ok(n) if n > 0 || from.is_empty() => return Ok(n),
                _ => {}
            }
        }
        Err(self.faults.fail())
    }

    fn flush(&mut self) -> Result<(), Failed>
        ensures bytes { Keeps None None }
        ensures failed { OnErr result (Rose self.old.faults self.new.faults) }
        ensures counted { self.old.faults ≤ self.new.faults }
        ensures no_fault { OnOk result (self.new.faults ≡ self.old.faults) }
        ensures one_fault { OnErr result (self.new.faults ≡ one_more self.old.faults) }
    {
        if let Some(stream) = &mut self.stream {
            if stream.flush().is_ok() {
                return Ok(());
            }
        }
        Err(self.faults.fail())
    }
}

impl<S: Read + Write + OpenStream + Drop> Link for StreamLink<S> {
    /// Waits for a peer that still sends for at most a second or so, so that what was written reaches it: the system
    /// gives up what is under way where bytes of the peer were not read.
    fn close(&mut self)
        ensures closed { is_none self.new.stream ≡ true }
        ensures faults { self.new.faults ≡ self.old.faults }
    {
        if let Some(stream) = self.stream.take() {
            hang_up(stream);
        }
    }
}

// How often, and for how many milliseconds at most each time, a peer is waited for whose connection is over.
const LAST_READS: u32 = 16;

const LAST_WAIT: u64 = 50;

// Tells the peer that nothing more comes, and reads on until it does the same, or is too slow or tells too much.
fn hang_up<S: Read + OpenStream + Drop>(mut stream: S) {
    let wait = Some(Duration::from_millis(LAST_WAIT));
    if stream.shutdown(Shutdown::Write).is_err() || stream.set_read_timeout(wait).is_err() {
        return;
    }
    let mut rest = [0; 4096];
    for _ in 0..LAST_READS {
        match stream.read(&mut rest) {
            Ok(n) if n > 0 => {}
            _ => return,
        }
    }
}
