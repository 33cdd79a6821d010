ghost use Rattle.std.specs.Prelude.{◌≡◌, ◌≤◌, ◌<◌, ◌+◌, None, Some, option_map, OnOk, OnErr};
ghost use Rattle.skk_text.specs.Counts.{one_more};
ghost use Rattle.skk_outside.specs.Faults.{Rose};
ghost use Rattle.skk_outside.specs.Listeners.{Accepts, Dials, out_after};

use crate::count::Count;
use crate::listener::Listener;
use crate::outside::Failed;
use crate::stream_link::StreamLink;
use std::io::{self, ErrorKind};
use std::net::{
    Ipv4Addr, Net, OpenListener, OpenStream, SocketAddr, SocketAddrV4, TcpListener, TcpStream,
};
use std::thread;
use std::time::{Clock, Duration};

/// The listener of a TCP port of the system, on loopback (127.0.0.1) alone, where it also dials. It tells nothing of
/// the links that come and that were taken back. A call that goes well leaves the count of faults, and one that fails
/// raises it by one.
#[derive(Drop)]
pub struct HostListener<R: Net + Clock> {
    rt: R,
    // None until one is open.
    port: Option<OpenPort<R::Listener>>,
    out: u64,
    faults: Count,
}

// A port on which is listened.
#[derive(Drop)]
struct OpenPort<L> {
    number: u16,
    listener: L,
}

// For how many milliseconds a listener waits before it asks the system again.
const SHORTAGE_WAIT: u64 = 50;

impl<R: Net + Clock> HostListener<R> {
    /// A listener on no port yet. Takes no memory.
    pub fn new(rt: R) -> HostListener<R>
        ensures faults { ⟦<HostListener<R> as Listener>⟧.faults result ≡ 0 }
        ensures out { ⟦<HostListener<R> as Listener>⟧.out result ≡ 0 }
        ensures opened { ⟦<HostListener<R> as Listener>⟧.opened result ≡ None }
    {
        HostListener {
            rt,
            port: None,
            out: 0,
            faults: Count::new(),
        }
    }

    // The stream of the next peer. One that went away before it was accepted is passed over, and where the system lacks
    // something for the next it is asked again after a while.
    fn next_stream(&self) -> Option<R::Stream> {
        let port = self.port.as_ref()?;
        for _ in 0..u32::MAX {
            match port.listener.accept() {
                Ok((stream, _)) => return Some(stream),
                Err(error) if error.kind() == ErrorKind::ConnectionAborted => {}
                Err(error) if is_shortage(&error) => {
                    thread::sleep(&self.rt, Duration::from_millis(SHORTAGE_WAIT));
                }
                Err(_) => return None,
            }
        }
        None
    }
}

// Whether the system has no memory (ENOMEM, ENOBUFS) or no descriptor (ENFILE, EMFILE) at the moment.
fn is_shortage(error: &io::Error) -> bool {
    matches!(error.raw_os_error(), Some(12 | 105 | 23 | 24))
}

// The address of a port of loopback.
fn on_loopback(port: u16) -> SocketAddr {
    SocketAddr::V4(SocketAddrV4::new(Ipv4Addr::LOCALHOST, port))
}

impl<R: Net + Clock> Listener for HostListener<R> {
    type Link = StreamLink<R::Stream>;

    ghost faults = { λ l. l.faults };

    ghost coming = { λ _. None };

    ghost over = { λ _. None };

    ghost out = { λ l. l.out };

    ghost opened = { λ l. option_map (λ it. it.number) l.port };

    /// A port that another program listens on is a fault. One that this program has just left can be opened again.
    fn open(&mut self, port: u16) -> Result<(), Failed>
        ensures opened { OnOk result (option_map (λ it. it.number) self.new.port ≡ Some port) }
        ensures stays { OnErr result (self.new.port ≡ self.old.port) }
        ensures out { self.new.out ≡ self.old.out }
        ensures failed { OnErr result (Rose self.old.faults self.new.faults) }
        ensures counted { self.old.faults ≤ self.new.faults }
        ensures no_fault { OnOk result (self.new.faults ≡ self.old.faults) }
        ensures one_fault { OnErr result (self.new.faults ≡ one_more self.old.faults) }
    {
        match TcpListener::bind(&self.rt, on_loopback(port)) {
            Ok(listener) => {
                self.port = Some(OpenPort {
                    number: port,
                    listener,
                });
                Ok(())
            }
            Err(_) => Err(self.faults.fail()),
        }
    }

    /// Waits for a peer, also where the system has no descriptor or memory for one at the moment. Small replies to it
    /// are sent at once. Where no port is open, that is a fault.
    fn accept(&mut self) -> Result<Option<StreamLink<R::Stream>>, Failed>
        ensures coming { Accepts None None result }
        ensures out { self.new.out ≡ out_after self.old.out result }
        ensures opened { self.new.port ≡ self.old.port }
        ensures failed { OnErr result (Rose self.old.faults self.new.faults) }
        ensures counted { self.old.faults ≤ self.new.faults }
        ensures no_fault { OnOk result (self.new.faults ≡ self.old.faults) }
        ensures one_fault { OnErr result (self.new.faults ≡ one_more self.old.faults) }
    {
        if self.out == u64::MAX {
            return Err(self.faults.fail());
        }
        let Some(stream) = self.next_stream() else {
            return Err(self.faults.fail());
        };
        // Where the system refuses, a reply may only come later.
        let _at_once = stream.set_nodelay(true);
        self.out += 1;
        Ok(Some(StreamLink::new(stream)))
    }

    /// Waits until the peer takes the connection or the system gives it up. A port on which none listens is a fault.
    /// Small requests to the peer are sent at once.
    fn dial(&mut self, port: u16) -> Result<StreamLink<R::Stream>, Failed>
        ensures coming { Dials None None result }
        ensures dialled { OnOk result (self.new.out ≡ self.old.out + 1) }
        ensures none { OnErr result (self.new.out ≡ self.old.out) }
        ensures opened { self.new.port ≡ self.old.port }
        ensures failed { OnErr result (Rose self.old.faults self.new.faults) }
        ensures counted { self.old.faults ≤ self.new.faults }
        ensures no_fault { OnOk result (self.new.faults ≡ self.old.faults) }
        ensures one_fault { OnErr result (self.new.faults ≡ one_more self.old.faults) }
    {
        if self.out == u64::MAX {
            return Err(self.faults.fail());
        }
        let Ok(stream) = TcpStream::connect(&self.rt, on_loopback(port)) else {
            return Err(self.faults.fail());
        };
        // Where the system refuses, a request may only go later.
        let _at_once = stream.set_nodelay(true);
        self.out += 1;
        Ok(StreamLink::new(stream))
    }

    fn done(&mut self, _link: StreamLink<R::Stream>)
        requires { 0 < self.old.out }
        ensures out { self.new.out + 1 ≡ self.old.out }
        ensures opened { self.new.port ≡ self.old.port }
        ensures faults { self.new.faults ≡ self.old.faults }
    {
        self.out -= 1;
    }
}
