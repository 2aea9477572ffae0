//! Sends a transaction under a token to a port of this machine until it is known, and then runs a query and prints its rows.
use cli_output::escape;
use client::ClientFault;
use client_tracking::{Fate, Retry, Rows};
use driver::{
    Asked, BadToken, Break, Connection, Connects, Fault, Log, Query, Step, text_cell, until_known,
};
use messages::{Auth, Count, Mode};
use std::alloc::{AllocError, Global};
use std::io;
use std::net::TcpStream;
use std::time::Duration;
use streams::Over;
use structures::Cell;
use wire::Wish;

/// Why the program ends before it knows.
#[derive(Drop)]
enum Stopped {
    Memory,
    Io(io::Error),
    Fault(Fault),
    Token(BadToken),
}

impl From<AllocError> for Stopped {
    fn from(_error: AllocError) -> Stopped {
        Stopped::Memory
    }
}

impl From<ClientFault> for Stopped {
    fn from(_fault: ClientFault) -> Stopped {
        Stopped::Memory
    }
}

impl From<io::Error> for Stopped {
    fn from(error: io::Error) -> Stopped {
        Stopped::Io(error)
    }
}

impl From<Fault> for Stopped {
    fn from(fault: Fault) -> Stopped {
        Stopped::Fault(fault)
    }
}

impl From<BadToken> for Stopped {
    fn from(fault: BadToken) -> Stopped {
        Stopped::Token(fault)
    }
}

fn auth(alloc: Global) -> Result<Auth, AllocError> {
    let text = |s: &str| String::from_str(alloc, s);
    Ok(Auth {
        scheme: text("basic")?,
        principal: text("user")?,
        credentials: text("pass")?,
    })
}

/// A query of the key `a`.
fn query(alloc: Global, text: &str, value: Option<Cell>) -> Result<Query, AllocError> {
    let mut params = Vec::new(alloc);
    params.push((String::from_str(alloc, "key")?, text_cell(alloc, "a")?))?;
    if let Some(value) = value {
        params.push((String::from_str(alloc, "value")?, value))?;
    }
    Ok(Query {
        text: String::from_str(alloc, text)?,
        params,
    })
}

/// A port of this machine, and how long a read of one of its streams may wait.
#[derive(Drop)]
struct Port<'a> {
    rt: &'a HostRuntime,
    port: u16,
    silence: Duration,
    log: Log,
}

impl Port<'_> {
    fn streams(&self) -> Option<(TcpStream, TcpStream)> {
        let stream = TcpStream::connect(self.rt, ("127.0.0.1", self.port)).ok()?;
        stream.set_read_timeout(Some(self.silence)).ok()?;
        let other = stream.try_clone().ok()?;
        Some((stream, other))
    }
}

impl Connects for Port<'_> {
    type In = Over<TcpStream>;

    type Out = Over<TcpStream>;

    ghost log = { λ s. s.log.past.0 };

    ghost out = { λ s. s.log.past.1 };

    fn connect(&mut self) -> Option<(Over<TcpStream>, Over<TcpStream>)> {
        match self.streams() {
            Some((stream, other)) => {
                self.log = self.log.then(&Step::Opened);
                Some((Over::new(stream), Over::new(other)))
            }
            None => {
                self.log = self.log.then(&Step::Missed);
                None
            }
        }
    }

    fn closed(
        &mut self,
        source: Over<TcpStream>,
        sink: Over<TcpStream>,
        broken: Result<(), Break>,
    ) {
        self.log = self.log.then(&Step::Closed {
            given: source.moved(),
            put: sink.moved(),
            ended: source.has_ended(),
            read_failed: source.error().is_some(),
            write_failed: sink.error().is_some(),
            broken,
        });
    }
}

/// What each attempt asks: to put a value so many times, under this token.
fn asked(alloc: Global, token: &str, puts: u32) -> Result<Asked, AllocError> {
    let mut queries = Vec::new(alloc);
    for _ in 0..puts {
        queries.push(query(alloc, "PUT", Some(Cell::Int(1)))?)?;
    }
    Ok(Asked {
        wish: Wish::Newest,
        agent: String::from_str(alloc, "example/1")?,
        auth: auth(alloc)?,
        mode: Mode::Write,
        token: String::from_str(alloc, token)?,
        queries,
    })
}

/// The transaction and its tries, as the command line names them.
#[derive(Drop)]
pub(crate) struct Sending<'a> {
    pub token: &'a str,
    pub puts: u32,
    pub retry: Retry,
    pub tries: u32,
}

/// Puts a value so many times under a token, and gets it. Returns the fate of the transaction, which `known` has too, whatever fails after it.
fn put_and_get(
    rt: &HostRuntime,
    port: &mut Port<'_>,
    sending: &Sending<'_>,
    known: &mut Option<Fate>,
) -> Result<Fate, Stopped> {
    let alloc = rt.alloc();
    let &Sending {
        token,
        puts,
        retry,
        tries,
    } = sending;
    let fate = until_known(alloc, &asked(alloc, token, puts)?, retry, port, tries)?;
    *known = Some(fate);
    println!(rt; "{fate:?}")?;

    let Some((source, sink)) = port.connect() else {
        return Err(Stopped::Io(io::ErrorKind::NotConnected.into()));
    };
    let mut connection = Connection::new(alloc, source, sink, Wish::Newest, 1000)?;
    connection.open(String::from_str(alloc, "example/1")?, auth(alloc)?)?;
    let get = query(alloc, "GET", None)?;
    let answer = connection.run(&get, Mode::Read, Rows::Pull(Count::All))?;
    for row in connection.rows(answer.rows) {
        println!(rt; "row {row:?}")?;
    }
    Ok(fate)
}

/// Why the program ends before it knows all, or want of memory. What a server says in a refusal is escaped.
fn why(alloc: Global, stopped: &Stopped) -> Result<String, AllocError> {
    let text = match stopped {
        Stopped::Memory => return Err(AllocError),
        Stopped::Io(error) => format!(in alloc; "{error}")?,
        Stopped::Fault(fault) => format!(in alloc; "{fault}")?,
        Stopped::Token(fault) => format!(in alloc; "{fault}")?,
    };
    escape(alloc, text.as_str())
}

/// Says on standard error what is known of the transaction, if anything is, and what failed then.
fn tell(rt: &HostRuntime, known: Option<Fate>, stopped: &Stopped) {
    let why = why(rt.alloc(), stopped);
    let why = match &why {
        Ok(why) => why.as_str(),
        Err(_) => "out of memory",
    };
    let _told = match known {
        Some(fate) => eprintln!(rt; "Error: {fate:?}, and then: {why}"),
        None => eprintln!(rt; "Error: {why}"),
    };
}

/// Returns what a fate means.
fn meaning(fate: Fate) -> &'static str {
    match fate {
        Fate::Stands => "the transaction is committed, once",
        Fate::Clash => "other writes have the token",
        Fate::Refused => "the server refused it; no attempt committed, and none will",
        Fate::Open => "an attempt may have committed, once or not at all",
        Fate::Absent => "no attempt committed, and none will",
    }
}

/// Returns the exit status for a fate: 0 for a transaction that is committed if all is printed, 3 if something failed after it; 4 for Clash, 5
/// for Refused, 6 for Open, 7 for Absent; 1 if no fate is known.
fn status(known: Option<Fate>, is_printed: bool) -> u8 {
    match known {
        Some(Fate::Stands) if is_printed => 0,
        None => 1,
        Some(Fate::Stands) => 3,
        Some(Fate::Clash) => 4,
        Some(Fate::Refused) => 5,
        Some(Fate::Open) => 6,
        Some(Fate::Absent) => 7,
    }
}

/// Puts a value and gets it, at a port. Returns the exit status. Standard error has the meaning of each fate but Stands, and what failed.
pub(crate) fn run(rt: &HostRuntime, port: u16, sending: &Sending<'_>) -> u8 {
    let silence = Duration::from_secs(10);
    let mut known = None;
    let log = Log::new();
    let mut port = Port {
        rt,
        port,
        silence,
        log,
    };
    let done = put_and_get(rt, &mut port, sending, &mut known);
    if let Some(fate) = known
        && fate != Fate::Stands
    {
        let _told = eprintln!(rt; "{fate:?}: {}", meaning(fate));
    }
    if let Err(stopped) = &done {
        tell(rt, known, stopped);
    }
    status(known, done.is_ok())
}
