//! Times what a server on this machine takes to answer: it asks the lines of standard input, as many at once as its
//! second word says, on a connection to the port that its first word names, waits for as many lines as it sent, and
//! prints a line `MICROSECONDS COUNT` for each time that was taken by so many of these rounds, ascending.
//!
//! It stands on the standard library alone. It is no part of the input method, and promises nothing but to end.
#![tactic(auto)]

ghost use Rattle.std.specs.Prelude.{◌≤◌, length};

use std::collections::BTreeMap;
use std::io::{Read, Write};
use std::net::{Ipv4Addr, SocketAddr, SocketAddrV4, TcpStream};
use std::process::ExitCode;
use std::time::Instant;
use std::{env, io};

/// How often a time was taken, by the time in microseconds.
type Times = BTreeMap<u64, u64>;

fn main(rt: HostRuntime) -> ExitCode {
    match times(&rt) {
        Some(times) => print(&rt, &times),
        None => ExitCode::FAILURE,
    }
}

// Prints the times.
fn print(rt: &HostRuntime, times: &Times) -> ExitCode {
    match print_each(rt, times) {
        Ok(()) => ExitCode::SUCCESS,
        Err(_) => ExitCode::FAILURE,
    }
}

fn print_each(rt: &HostRuntime, times: &Times) -> io::Result<()> {
    for (time, count) in times {
        writeln!(rt.stdout(), "{time} {count}")?;
    }
    Ok(())
}

// The times of all rounds; nothing where a word is wrong, the connection ends, or memory is out.
fn times(rt: &HostRuntime) -> Option<Times> {
    let mut words = env::args(rt).ok()?.skip(1);
    let port = words.next()?.parse().ok()?;
    let at_once = words.next()?.parse().ok()?;
    let asked = input(rt)?;
    let mut stream = connected(rt, port)?;
    ask_all(rt, &mut stream, &asked, at_once)
}

// What standard input has.
fn input(rt: &HostRuntime) -> Option<Vec<u8>> {
    let mut bytes = Vec::new(rt.alloc());
    rt.reader().read_to_end(&mut bytes).ok()?;
    Some(bytes)
}

// A connection to a port of this machine.
fn connected(rt: &HostRuntime, port: u16) -> Option<TcpStream> {
    let address = SocketAddr::V4(SocketAddrV4::new(Ipv4Addr::LOCALHOST, port));
    let stream = TcpStream::connect(rt, address).ok()?;
    stream.set_nodelay(true).ok()?;
    Some(stream)
}

// Asks all lines, so many at once, and takes the time of each round.
fn ask_all(
    rt: &HostRuntime,
    stream: &mut TcpStream,
    asked: &[u8],
    at_once: usize,
) -> Option<Times> {
    let mut times = BTreeMap::new(rt.alloc());
    let mut rest = asked;
    for _ in 0..asked.len() {
        if rest.is_empty() {
            break;
        }
        let (round, behind) = rest.split_at(end_of_lines(rest, at_once));
        let start = Instant::now(rt).ok()?;
        stream.write_all(round).ok()?;
        read_lines(stream, count_lines(round))?;
        let time = u64::try_from(start.elapsed(rt).ok()?.as_micros()).ok()?;
        let count = times.get(&time).copied().unwrap_or(0u64);
        times.insert(time, count.saturating_add(1)).ok()?;
        rest = behind;
    }
    Some(times)
}

// Where so many lines end, or all.
fn end_of_lines(bytes: &[u8], count: usize) -> usize
    ensures { result ≤ length bytes.now }
{
    let mut left = count;
    for (at, byte) in bytes.iter().enumerate() {
        if *byte == b'\n' {
            left = left.saturating_sub(1);
        }
        if left == 0 {
            return at + 1;
        }
    }
    bytes.len()
}

// How many lines end in bytes.
fn count_lines(bytes: &[u8]) -> usize {
    bytes.iter().filter(|byte| **byte == b'\n').count()
}

// Reads until so many lines have ended; nothing where the connection ends before.
fn read_lines(stream: &mut TcpStream, count: usize) -> Option<()> {
    let mut piece = [0; 65536];
    let mut left = count;
    for _ in 0..usize::MAX {
        if left == 0 {
            break;
        }
        let n = stream.read(&mut piece).ok()?;
        if n == 0 {
            return None;
        }
        left = left.saturating_sub(count_lines(&piece[..n]));
    }
    Some(())
}
