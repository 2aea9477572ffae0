//! One connection after another, until the disk fails that keeps the ledger.
ghost use Rattle.std.specs.Prelude.{◌≡◌, true, None, IfOk, IfSome, OnOk, OnErr, IsErrOf};
ghost use Rattle.std.specs.Io.KnownBytes.{Appends};
ghost use Rattle.server.specs.Views.{rest_of};
ghost use Rattle.engine_sqlite.specs.Kept.{ledger_of};
ghost use Rattle.cli_output.specs.Telling.{conn_line};
ghost use Rattle.cli_sessions.specs.Serving.{HasServed, IsVacant, MayHaveServed};
ghost use Rattle.keeping.specs.Serving.{EndsFor, GoesOn, Shows, TellsFault, fault_line, reason_of};

use crate::reasons::Reason;
use cli_output::tell;
use cli_sessions::{ServedOne, ServerStreams, drain, serve_next};
use engine::{Engine, Gate};
use engine_sqlite::Lasting;
use server::Server;
use sqlite::Alter;
use std::alloc::Global;
use std::io;
use std::net::{Shutdown, TcpListener, TcpStream};
use std::time::Duration;
use streams::{Over, Sink, Source, StreamFault};

/// How many seconds a peer may say nothing, or take nothing of what it is sent.
const SILENCE: u64 = 10;

/// How many seconds each read waits for what a peer still sends after its end: the others wait meanwhile.
const LAST: u64 = 1;

/// How many connections behind one another are passed over that fail as they are accepted. Behind these none comes, as where no descriptor is free.
const MOST_GONE: u32 = 64;

/// Has a peer given up that says nothing for long, or takes nothing of what it is sent; and has each write sent at once.
fn timed(stream: TcpStream) -> io::Result<TcpStream> {
    let longest = Some(Duration::from_secs(SILENCE));
    stream.set_read_timeout(longest)?;
    stream.set_write_timeout(longest)?;
    stream.set_nodelay(true)?;
    Ok(stream)
}

/// The line that tells a fault of a stream, or want of memory.
fn fault_line(fault: StreamFault) -> &'static str
    ensures { result.now ≡ fault_line fault }
{
    match fault {
        StreamFault::ReadFailed => "fault I1\n",
        StreamFault::WriteFailed => "fault I2\n",
        StreamFault::Memory => "fault I3\n",
    }
}

/// Tells the fault that broke a connection off, if one did.
fn tell_fault<W: Sink>(fault: Option<StreamFault>, err: &mut W)
    ensures { TellsFault fault (W.has_failed err.old) (W.has_failed err.new)
        (W.taken err.old) (W.taken err.new) }
{
    if let Some(fault) = fault {
        tell(fault_line(fault).as_bytes(), err);
    }
}

/// Serves the connection of a stream as `serve_next` does, and lets what was written arrive before the stream is closed.
fn serve_stream<E: Engine, G: Gate, O: Sink>(
    alloc: Global,
    server: &mut Server<E, G>,
    stream: &TcpStream,
    out: &mut O,
) -> Result<ServedOne, StreamFault>
    requires { IsVacant E.entries server.old }
    ensures served { OnOk result
        (HasServed (rest_of E.entries server.old) (λ r. rest_of E.entries server.new ≡ r)) }
    ensures line { IfOk result (λ told. Appends (O.taken out.old) (O.taken out.new)
        (conn_line (rest_of E.entries server.old).next told.cause)) }
    ensures broken { OnErr result
        (MayHaveServed (rest_of E.entries server.old) (λ r. rest_of E.entries server.new ≡ r)) }
    ensures written { IsErrOf result StreamFault.WriteFailed → O.has_failed out.new ≡ true }
{
    let mut streams = ServerStreams {
        source: Over::new(stream),
        sink: Over::new(stream),
    };
    let told = serve_next(alloc, server, &mut streams, out);
    // A close with bytes unread would throw away what hasn't arrived.
    let _stopped = stream.shutdown(Shutdown::Write);
    let _read = stream.set_read_timeout(Some(Duration::from_secs(LAST)));
    drain(&mut streams);
    told
}

/// The reason of a fault for which no connection is served any more.
fn reason_of(fault: StreamFault) -> Reason
    ensures { result ≡ reason_of fault }
{
    match fault {
        StreamFault::WriteFailed => Reason::OutputFailed,
        _ => Reason::Memory,
    }
}

/// Serves one connection, and answers why the server ends behind it, if it does; else it tells the fault that broke the connection off, if
/// one did. A disk that fails breaks it off by want of memory, of which nothing is told then.
fn serve_once<E: Engine + Drop, S: Alter + Drop, G: Gate, O: Sink, W: Sink>(
    alloc: Global,
    server: &mut Server<Lasting<E, S>, G>,
    stream: &TcpStream,
    out: &mut O,
    err: &mut W,
) -> Option<Reason>
    requires { IsVacant (ledger_of E.entries) server.old }
    ensures ends { let now = rest_of (ledger_of E.entries) server.new in
        IfSome result (λ reason. EndsFor (rest_of (ledger_of E.entries) server.old) now reason
        (Shows E.entries S.Store now.ledger) (O.has_failed out.new) (O.taken out.old) (O.taken out.new)) }
    ensures goes_on { let now = rest_of (ledger_of E.entries) server.new in
        result ≡ None → GoesOn (rest_of (ledger_of E.entries) server.old) now
        (Shows E.entries S.Store now.ledger) (O.taken out.old) (O.taken out.new) }
    ensures silent { IfSome result (λ _. TellsFault None
        (W.has_failed err.old) (W.has_failed err.new) (W.taken err.old) (W.taken err.new)) }
{
    match serve_stream(alloc, server, stream, out) {
        Ok(told) => {
            if server.engine().is_stopped() {
                return Some(Reason::DiskFailed);
            }
            tell_fault(told.fault, err);
            None
        }
        Err(fault) => Some(reason_of(fault)),
    }
}

/// Serves the connections of a listener, one after another, and prints `conn K En` as each ends, its number and the cause of its end; a
/// fault that broke one off is told on `err`, but not where the server ends with it. It goes on until the engine stops, since its disk
/// failed, or standard output fails, or memory runs out as a session is to begin or its end to be told, or no connection comes any more;
/// what it answers is which.
pub fn serve_until_failed<E: Engine + Drop, S: Alter + Drop, G: Gate, O: Sink, W: Sink>(
    alloc: Global,
    server: &mut Server<Lasting<E, S>, G>,
    listener: &TcpListener,
    out: &mut O,
    err: &mut W,
) -> Reason
    requires { IsVacant (ledger_of E.entries) server.old }
    ensures { let now = rest_of (ledger_of E.entries) server.new in
        EndsFor (rest_of (ledger_of E.entries) server.old) now result
        (Shows E.entries S.Store now.ledger) (O.has_failed out.new) (O.taken out.old) (O.taken out.new) }
{
    if server.engine().is_stopped() {
        return Reason::DiskFailed;
    }
    let mut gone = 0;
    for stream in listener.incoming() {
        // A connection that fails before it begins is passed over.
        let Ok(stream) = stream else {
            if gone >= MOST_GONE {
                return Reason::NoConnection;
            }
            gone += 1;
            continue;
        };
        gone = 0;
        let Ok(stream) = timed(stream) else {
            continue;
        };
        match serve_once(alloc, server, &stream, out, err) {
            Some(reason) => return reason,
            None => {}
        }
    }
    Reason::NoConnection
}
