//! The peers of a listener: connections over sockets that don't wait.
ghost use Rattle.std.specs.Prelude.{◌≡◌, ◌==◌, ◌<◌, length, IfSome};
ghost use Rattle.std.specs.List.{position};

use crate::failures::{Refusal, refusal_of};
use crate::transfers::{read_now, write_now};
use mio::event::Event;
use mio::net::{TcpListener, TcpStream};
use mio::{Events, Interest, Poll, Token};
use server_event_loop::{Failed, Got, Greeting, Peers, Readiness, Ready};
use std::alloc::Global;
use std::io;
use std::io::{Eprint, ErrorKind};
use std::net::{Net, Shutdown, SocketAddr, ToSocketAddrs};
use std::time::{Clock, Duration, Instant};

/// What the listener is called. Each connection is called by its number, which is below it.
const LISTENER: Token = Token(usize::MAX);

/// How many events are taken at once. One of each connection and of the listener is fewer.
const MAX_EVENTS: usize = 64;

/// How many that are gone before they are accepted are passed over at once.
const MAX_GONE: u32 = 64;

/// If a server listens, and for how many.
#[derive(Clone, Copy)]
pub struct Place<'a> {
    /// The name or the address of this machine at which it listens.
    pub host: &'a str,
    /// The port, or 0 for any that is free.
    pub port: u16,
    /// The most connections at once, if there is a bound beside that of the server. One counts until all that it is owed was written.
    pub most: Option<usize>,
}

/// A connection by its number.
#[derive(Drop)]
struct Peer {
    conn: u64,
    stream: TcpStream,
    /// Whether all that it is owed was written.
    is_finished: bool,
}

/// A listener, its connections, and what is ready of them.
#[derive(Drop)]
pub struct Network<'a, R: Drop> {
    rt: &'a R,
    poll: Poll,
    events: Events<Global>,
    /// How many of the events were handed out.
    seen: usize,
    listener: TcpListener,
    guest: Option<TcpStream>,
    peers: Vec<Peer>,
    /// The most connections that aren't finished, if that is bounded.
    most: Option<usize>,
    /// Whether somebody may wait who wasn't greeted since there were so many.
    waits: bool,
    /// Whether it was said that somebody waits who can't be taken.
    has_told: bool,
    start: Instant,
    /// Why the wait failed.
    error: Option<io::Error>,
}

/// Listens at the first address of the host that is to be had.
fn listen<R: Net>(rt: &R, host: &str, port: u16) -> io::Result<TcpListener> {
    let mut last = io::Error::new(ErrorKind::AddrNotAvailable, "the host has no address");
    for address in (host, port).to_socket_addrs(rt)? {
        match TcpListener::bind(rt, address) {
            Ok(listener) => return Ok(listener),
            Err(error) => last = error,
        }
    }
    Err(last)
}

impl<'a, R: Net + Clock + Eprint + Drop> Network<'a, R> {
    ghost use Rattle.std.specs.Prelude.{◌≡◌, [], IfOk, option_copied};

    /// Listens at this place.
    pub fn bind(rt: &'a R, alloc: Global, place: Place<'_>) -> io::Result<Network<'a, R>>
        ensures peers { IfOk result (λ network. network.peers.items ≡ []) }
        ensures most { IfOk result (λ network. network.most ≡ place.entry.most) }
    {
        let poll = Poll::new(rt)?;
        let mut listener = listen(rt, place.host, place.port)?;
        poll.registry()
            .register(&mut listener, LISTENER, Interest::READABLE)?;
        Ok(Network {
            rt,
            poll,
            events: Events::with_capacity(alloc, MAX_EVENTS)?,
            seen: 0,
            listener,
            guest: None,
            peers: Vec::new(alloc),
            most: place.most,
            waits: false,
            has_told: false,
            start: Instant::now(rt)?,
            error: None,
        })
    }

    /// The address at which it listens.
    pub fn address(&self) -> io::Result<SocketAddr> {
        self.listener.local_addr()
    }

    /// Why the wait failed, if it did.
    pub fn error(&self) -> Option<&io::Error>
        ensures { option_copied result ≡ self.now.error }
    {
        self.error.as_ref()
    }

    /// Whether so many connections are open that nobody is greeted.
    fn is_full(&self) -> bool {
        let open = self.peers.iter().filter(|peer| !peer.is_finished).count();
        match self.most {
            Some(most) => most <= open,
            None => false,
        }
    }

    /// Whether somebody may wait who can be greeted again.
    fn is_to_greet(&self) -> bool {
        self.waits && !self.is_full()
    }

    /// Waits for so many milliseconds at most until something is ready, or a signal comes.
    fn look(&mut self, most: u64) -> Result<(), Failed> {
        match self
            .poll
            .poll(&mut self.events, Some(Duration::from_millis(most)))
        {
            Ok(()) => Ok(()),
            Err(error) => {
                self.error = Some(error);
                Err(Failed)
            }
        }
    }

    /// Says on standard error why somebody waits who can't be taken, the first time alone: nobody is answered meanwhile, and it is tried again
    /// and again.
    fn tell(&mut self, error: io::Error) {
        if !self.has_told {
            self.has_told = true;
            let _told = eprintln!(self.rt; "a connection waits: {error}");
        }
    }

    /// The next who waits, past those who are gone.
    fn accept(&mut self) -> Greeting {
        for _ in 0..MAX_GONE {
            match self.listener.accept() {
                Ok((stream, _)) => {
                    self.guest = Some(stream);
                    return Greeting::Guest;
                }
                Err(error) => match refusal_of(error.kind()) {
                    Refusal::Nobody => return Greeting::Nobody,
                    Refusal::Next => {}
                    Refusal::Later => {
                        self.tell(error);
                        return Greeting::Later;
                    }
                },
            }
        }
        Greeting::Later
    }
}

/// Where the connection stands among the others.
fn place_of(peers: &[Peer], conn: u64) -> Option<usize>
    ensures first { result ≡ position (λ p. p.conn == conn) peers.now }
    ensures within { IfSome result (λ at. at < length peers.now) }
{
    peers.iter().position(|peer| peer.conn == conn)
}

/// What an event says of its connection. Of one that has failed anything may be tried, since the try tells.
fn readiness_of(event: &Event) -> Readiness {
    let is_over = event.is_error() || event.is_read_closed() || event.is_write_closed();
    Readiness {
        reads: event.is_readable() || is_over,
        writes: event.is_writable() || is_over,
        last: is_over,
    }
}

impl<'a, R: Net + Clock + Eprint + Drop> Peers for Network<'a, R> {
    ghost use Rattle.std.specs.Prelude.{None};

    // What sockets give and take isn't known.
    ghost wire = { λ _ _. record { heard = None; told = None; asked = 0 } };

    fn wait(&mut self, most: u64) -> Result<(), Failed> {
        self.seen = 0;
        let most = if self.is_to_greet() { 0 } else { most };
        self.look(most)?;
        // A signal ends the wait with no event, also that of a stop that has lasted: who has sent meanwhile isn't silent.
        if most > 0 && self.events.is_empty() {
            return self.look(0);
        }
        Ok(())
    }

    fn ready(&mut self) -> Option<Ready> {
        if self.is_to_greet() {
            self.waits = false;
            return Some(Ready::Guest);
        }
        let event = self.events.iter().nth(self.seen)?;
        self.seen = self.seen.saturating_add(1);
        if event.token() == LISTENER {
            return Some(Ready::Guest);
        }
        Some(Ready::Conn {
            conn: event.token().0 as u64,
            ready: readiness_of(event),
        })
    }

    fn now(&mut self) -> u64 {
        match self.start.elapsed(self.rt) {
            Ok(time) => u64::try_from(time.as_millis()).unwrap_or(u64::MAX),
            Err(_) => 0,
        }
    }

    fn greet(&mut self) -> Greeting {
        if self.is_full() {
            self.waits = true;
            return Greeting::Nobody;
        }
        self.accept()
    }

    fn seat(&mut self, conn: u64) -> bool {
        let Some(mut stream) = self.guest.take() else {
            return false;
        };
        // One that can't is slower, and no worse.
        let _set = stream.set_nodelay(true);
        let both = Interest::READABLE | Interest::WRITABLE;
        let registered = self
            .poll
            .registry()
            .register(&mut stream, Token(conn as usize), both);
        if registered.is_err() {
            return false;
        }
        let peer = Peer {
            conn,
            stream,
            is_finished: false,
        };
        self.peers.push(peer).is_ok()
    }

    fn refuse(&mut self) {
        self.guest = None;
    }

    fn read(&mut self, conn: u64, buffer: &mut [u8]) -> Result<Got, Failed> {
        let Some(at) = place_of(&self.peers, conn) else {
            return Err(Failed);
        };
        read_now(&mut &self.peers[at].stream, buffer)
    }

    fn write(&mut self, conn: u64, bytes: &[u8]) -> Result<usize, Failed> {
        let Some(at) = place_of(&self.peers, conn) else {
            return Err(Failed);
        };
        write_now(&mut &self.peers[at].stream, bytes)
    }

    fn finish(&mut self, conn: u64) {
        if let Some(at) = place_of(&self.peers, conn) {
            let _stopped = self.peers[at].stream.shutdown(Shutdown::Write);
            self.peers[at].is_finished = true;
        }
    }

    fn close(&mut self, conn: u64) {
        if let Some(at) = place_of(&self.peers, conn) {
            let _gone = self.peers.swap_remove(at);
        }
    }
}
