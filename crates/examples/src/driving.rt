//! Commits one write over a socket to a port of this machine, reads it back, and says what became of each request.

use client::{Client, ClientFault, Heard, Outcome};
use client_blocking::{Told, ask_all};
use messages::{Auth, Count, Mode, Request};
use std::alloc::{AllocError, Global};
use std::io;
use std::io::Print;
use std::net::TcpStream;
use streams::Over;
use structures::Cell;
use wire::{Version, Wish};

/// A query that may write.
fn run(alloc: Global, text: &str, params: Vec<(String, Cell)>) -> Result<Request, AllocError> {
    Ok(Request::Run {
        text: String::from_str(alloc, text)?,
        params,
        mode: Mode::Write,
        token: None,
    })
}

/// One parameter.
fn named(alloc: Global, name: &str, value: Cell) -> Result<(String, Cell), AllocError> {
    Ok((String::from_str(alloc, name)?, value))
}

/// The parameter that names the key.
fn key(alloc: Global) -> Result<(String, Cell), AllocError> {
    named(alloc, "key", Cell::Text(String::from_str(alloc, "a")?))
}

/// HELLO and LOGON.
fn login(alloc: Global) -> Result<Vec<Request>, AllocError> {
    let text = |s: &str| String::from_str(alloc, s);
    let auth = Auth {
        scheme: text("basic")?,
        principal: text("user")?,
        credentials: text("pass")?,
    };
    Ok(vec![in alloc;
        Request::Hello {
            agent: text("example/1")?,
            auth: None
        },
        Request::Logon(auth),
    ]?)
}

fn put(alloc: Global) -> Result<Request, AllocError> {
    let value = named(alloc, "value", Cell::Int(1))?;
    run(alloc, "PUT", vec![in alloc; key(alloc)?, value]?)
}

fn get(alloc: Global) -> Result<Request, AllocError> {
    run(alloc, "GET", vec![in alloc; key(alloc)?]?)
}

/// What is asked, in one pipeline: log in, and in one transaction put a value and get it.
fn asked(alloc: Global) -> Result<Vec<Request>, AllocError> {
    let mut asked = login(alloc)?;
    asked.push(Request::Begin {
        mode: Mode::Write,
        token: None,
    })?;
    for query in [put(alloc), get(alloc)] {
        asked.push(query?)?;
        asked.push(Request::Pull(Count::All))?;
    }
    asked.push(Request::Commit)?;
    Ok(asked)
}

/// Why a conversation was broken off, if it was: by a stream, or since no memory was left.
fn broken<S, T>(
    alloc: Global,
    told: &Told,
    source: &Over<S>,
    sink: &Over<T>,
) -> Result<Option<String>, AllocError> {
    if told.fault.is_none() {
        return Ok(None);
    }
    match source.error().or(sink.error()) {
        Some(error) => Ok(Some(format!(in alloc; "{error}")?)),
        None => Ok(Some(String::from_str(alloc, "out of memory")?)),
    }
}

/// Whether COMMIT was answered by SUCCESS.
fn is_committed(told: &Told) -> bool {
    for heard in &told.heard {
        if let Heard::Summary {
            outcome: Outcome::Committed,
            ..
        } = heard
        {
            return true;
        }
    }
    false
}

/// Prints each row, and what came of each request.
fn print<P: Print>(out: &P, told: &Told) -> io::Result<()> {
    for heard in &told.heard {
        match heard {
            Heard::Row(cells) => println!(out; "row {cells:?}")?,
            Heard::Summary {
                ordinal,
                outcome,
                response,
                ..
            } => println!(out; "{ordinal}: {outcome:?}, {response:?}")?,
            _ => {}
        }
    }
    for (ordinal, outcome) in told.losses.as_slice() {
        println!(out; "{ordinal}: {outcome:?}, the connection was lost")?;
    }
    Ok(())
}

/// Submits each request, up to the first that the client doesn't take: then it answers why.
fn submit(
    alloc: Global,
    client: &mut Client,
    requests: Vec<Request>,
) -> Result<Option<String>, AllocError> {
    for request in requests {
        if let Err(fault) = client.submit(request) {
            return Ok(Some(format!(in alloc; "{fault}")?));
        }
    }
    Ok(None)
}

/// Why the driver ends before it knows: want of memory, or what the standard library tells of a stream.
enum Stopped {
    Memory,
    Io(io::Error),
}

impl From<AllocError> for Stopped {
    fn from(_error: AllocError) -> Stopped {
        Stopped::Memory
    }
}

impl From<ClientFault> for Stopped {
    fn from(_fault: ClientFault) -> Stopped {
        Stopped::Memory
    }
}

impl From<io::Error> for Stopped {
    fn from(error: io::Error) -> Stopped {
        Stopped::Io(error)
    }
}

/// How the driver ends that has asked.
enum Ended {
    /// The transaction is committed. Why standard output didn't take that, if it didn't.
    Committed(Option<io::Error>),
    /// It isn't known to be committed, for this reason.
    Unknown(String),
}

/// Asks over a connection and prints what came of it, on standard error if standard output doesn't take it.
fn ask(rt: &HostRuntime, stream: &TcpStream) -> Result<Ended, Stopped> {
    let alloc = rt.alloc();
    let (mut source, mut sink) = (Over::new(stream), Over::new(stream));
    let mut client = Client::new(alloc, Wish::Only(Version::V51))?;
    // The version has to be heard before the first request is submitted.
    let told = ask_all(alloc, &mut client, &mut source, &mut sink);
    if let Some(why) = broken(alloc, &told, &source, &sink)? {
        return Ok(Ended::Unknown(why));
    }
    if let Some(why) = submit(alloc, &mut client, asked(alloc)?)? {
        return Ok(Ended::Unknown(why));
    }
    let told = ask_all(alloc, &mut client, &mut source, &mut sink);
    let printed = print(&rt.stdout(), &told);
    if printed.is_err() {
        let _told = print(&rt.stderr(), &told);
    }
    if is_committed(&told) {
        return Ok(Ended::Committed(printed.err()));
    }
    match broken(alloc, &told, &source, &sink)? {
        Some(why) => Ok(Ended::Unknown(why)),
        None => Ok(Ended::Unknown(String::from_str(alloc, "not known to be committed")?)),
    }
}

/// Drives a client over a connection to a port of this machine. It answers the exit status: 0 if the transaction is committed, 3 if it is and
/// standard output didn't take that, else 1.
pub(crate) fn drive(rt: &HostRuntime, port: u16) -> io::Result<u8> {
    let stream = TcpStream::connect(rt, ("127.0.0.1", port))?;
    match ask(rt, &stream) {
        Ok(Ended::Committed(None)) => Ok(0),
        Ok(Ended::Committed(Some(error))) => {
            let _told = eprintln!(rt; "Error: {error}");
            Ok(3)
        }
        Ok(Ended::Unknown(why)) => {
            let _told = eprintln!(rt; "Error: {why}");
            Ok(1)
        }
        Err(Stopped::Memory) => Err(io::Error::from(AllocError)),
        Err(Stopped::Io(error)) => Err(error),
    }
}
