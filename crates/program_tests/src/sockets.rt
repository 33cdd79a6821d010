use crate::asked::expect_found;
use crate::making::{disk, shelf_of, sink, source_of, words_of};
use crate::runs::expect_written;
use crate::served::WORDS;
use crate::statuses::status_in_threads;
use expectations::{same, same_at};
use skk_outside::{Failed, HostListener, Link, Listener, Open, Sink, Source, write_all};
use std::alloc::Global;
use std::io::{self, Read, Write};
use std::net::{Ipv4Addr, Net, OpenStream, Shutdown, SocketAddr, SocketAddrV4, TcpStream};
use std::process::Abort;
use std::sync::Wait;
use std::thread::{self, Threads};
use std::time::{Clock, Duration};

// Opens the first port of some that no other program listens on, and gives its number.
fn open_any<N: Listener>(rt: &impl Abort, net: &mut N) -> u16 {
    for port in 47_800..47_900 {
        if net.open(port).is_ok() {
            return port;
        }
    }
    panic!(rt; "no port is free")
}

// Connects a peer to a port of loopback.
fn connect<R: Net>(rt: &R, port: u16) -> io::Result<R::Stream> {
    let address = SocketAddr::V4(SocketAddrV4::new(Ipv4Addr::LOCALHOST, port));
    TcpStream::connect(rt, address)
}

// A peer that is connected to a port of loopback.
fn peer_at<R: Net + Abort>(rt: &R, port: u16) -> R::Stream {
    connect(rt, port).expect(rt, "a connection")
}

// The link of the next peer.
fn next_link<N: Listener>(rt: &impl Abort, net: &mut N) -> N::Link {
    net.accept().expect(rt, "a link").expect(rt, "a peer")
}

#[test]
fn bytes_cross_a_port(rt: HostRuntime) {
    let mut net = HostListener::new(&rt);
    let port = open_any(&rt, &mut net);
    let mut peer = peer_at(&rt, port);
    let mut link = next_link(&rt, &mut net);
    peer.write_all(b"1a 2").expect(&rt, "memory");
    let mut into = [0; 3];
    same(link.read(&mut into), Ok(3)).expect(&rt, "as wanted");
    same(into, *b"1a ").expect(&rt, "as wanted");
    write_all(&mut link, b"4a \n").expect(&rt, "memory");
    link.flush().expect(&rt, "memory");
    // the peer gets what was written also where its last byte was not read
    link.close();
    let mut told = Vec::new(rt.alloc());
    peer.read_to_end(&mut told).expect(&rt, "memory");
    same(told.as_slice(), b"4a \n".as_slice()).expect(&rt, "as wanted");
}

#[test]
fn a_closed_link_fails(rt: HostRuntime) {
    let mut net = HostListener::new(&rt);
    let port = open_any(&rt, &mut net);
    let _peer = peer_at(&rt, port);
    let mut link = next_link(&rt, &mut net);
    link.close();
    same(link.read(&mut [0; 3]), Err(Failed)).expect(&rt, "as wanted");
    same(link.write(b"a"), Err(Failed)).expect(&rt, "as wanted");
    same(link.flush(), Err(Failed)).expect(&rt, "as wanted");
    link.close();
}

#[test]
fn a_port_has_one_listener(rt: HostRuntime) {
    let mut net = HostListener::new(&rt);
    same(net.accept().err(), Some(Failed)).expect(&rt, "as wanted");
    let port = open_any(&rt, &mut net);
    let mut other = HostListener::new(&rt);
    same(other.open(port), Err(Failed)).expect(&rt, "as wanted");
    drop(net);
    same(other.open(port), Ok(())).expect(&rt, "as wanted");
}

// How often a peer tries to connect to a port that may not be open yet, and for how many milliseconds it waits between.
const TRIES: u32 = 10_000;

const TRY_WAIT: u64 = 1;

// A peer that is connected to a port of loopback once that is open.
fn peer_soon<R: Net + Clock + Abort>(rt: &R, port: u16) -> R::Stream {
    for _ in 0..TRIES {
        if let Ok(peer) = connect(rt, port) {
            return peer;
        }
        thread::sleep(rt, Duration::from_millis(TRY_WAIT));
    }
    panic!(rt; "port {port} is not open")
}

// What a peer asks, and what it is sent.
type Asked = (&'static str, &'static str);

// A typist who learns a word in the shared book, and behind it a client who finds it.
static ASKED: [Asked; 2] = [
    ("T1 0\nKanji   <cj>\n", "かな\t\t\nかな\t感じ\t\n"),
    ("21かんじ 0", "skk-desk-1.0 1/感じ/漢字/幹事;宴会の/\n"),
];

// And then the program asks: for what it found, and for what goes on from a prefix.
fn ask_all<R: Net<Stream: Send> + Clock + Threads + Wait + Abort + Copy + Send + Sync>(
    rt: R,
    alloc: Global,
    port: u16,
) {
    for asked in &ASKED {
        expect_asked(&rt, alloc, port, asked);
    }
    let mut net = HostListener::new(&rt);
    let look = format!(in alloc; "ask --port {port} --look かんじ").expect(&rt, "memory");
    expect_found(rt, alloc, look.as_str(), &mut net, "感じ\n漢字\n幹事;宴会の\n");
    let complete = format!(in alloc; "ask --port {port} --complete か").expect(&rt, "memory");
    expect_found(rt, alloc, complete.as_str(), &mut net, "かんじ\n");
}

fn expect_asked<R: Net + Clock + Abort>(rt: &R, alloc: Global, port: u16, asked: &Asked) {
    let (sent, wanted) = *asked;
    let mut peer = peer_soon(rt, port);
    peer.write_all(sent.as_bytes()).expect(rt, "memory");
    peer.shutdown(Shutdown::Write).expect(rt, "memory");
    let mut told = Vec::new(alloc);
    peer.read_to_end(&mut told).expect(rt, "memory");
    same_at(told.as_slice(), wanted.as_bytes(), sent).expect(rt, "as wanted");
}

// Serves so many connections at a port, and tells what is printed.
fn expect_served<N: Listener<Link: Send + Drop>, R: Threads + Wait + Abort + Copy + Send + Sync>(
    rt: R,
    alloc: Global,
    port: u16,
    net: &mut N,
) {
    let options = format!(in alloc;
        "serve --learned=learned --dict=words --connections=4 --port={port}"
    ).expect(&rt, "memory");
    let words = words_of(&rt, alloc, options.as_str());
    let mut shelf = shelf_of(&rt, alloc, WORDS.as_bytes(), 0);
    let mut input = source_of(&rt, alloc, &[], 1);
    let mut out = sink(&rt, alloc, 0);
    let mut err = sink(&rt, alloc, 0);
    let status = status_in_threads(
        rt,
        alloc,
        words.as_slice(),
        &mut shelf,
        disk(alloc),
        &mut input,
        &mut out,
        &mut err,
        net,
        &Open,
    );
    expect_written(&rt, &err, "");
    same(status, 0).expect(&rt, "as wanted");
    expect_written(&rt, &out, "ready\nserved 4\n");
}

// The program serves at a port of loopback, and clients in a thread of the same process ask it there.
#[test]
fn both_ends(rt: HostRuntime) {
    let alloc = rt.alloc();
    let port = open_any(&rt, &mut HostListener::new(&rt));
    let mut net = HostListener::new(&rt);
    thread::join(
        &rt,
        || ask_all(rt, alloc, port),
        || expect_served(rt, alloc, port, &mut net),
    );
}
