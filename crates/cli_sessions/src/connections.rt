//! Serves one connection after another.
ghost use Rattle.std.specs.Prelude.{◌≡◌, [], true, IfErr, IfOk, MatchResult, OnOk, OnErr, IsErrOf};
ghost use Rattle.std.specs.Io.KnownBytes.{Appends};
ghost use Rattle.server.specs.Serving.{Rest, opened, setting};
ghost use Rattle.server.specs.Views.{Fits};
ghost use Rattle.server_blocking.specs.Settling.{IsLive};
ghost use Rattle.cli_output.specs.Telling.{conn_line};
ghost use Rattle.cli_sessions.specs.Serving.{Drains, IsVacant, HasOpened, HasServed, MayHaveServed, ServesSo, told_of};

use cli_output::put_end;
use engine::{Engine, Gate};
use server::{Cause, Server};
use server_blocking::serve_one;
use std::alloc::Global;
use std::marker::Model;
use streams::{Sink, Source, StreamFault};

/// The streams of a connection at its server's end: the client's bytes come from the source, and the answers go to the sink.
#[derive(Drop)]
pub struct ServerStreams<I: Source, O: Sink> {
    pub source: I,
    pub sink: O,
}

impl<I: Source, O: Sink> Model for ServerStreams<I, O> {
    ghost use Rattle.cli_output.specs.Seen.{Seen};
    ghost use Rattle.cli_sessions.specs.ServerStreams.{Connection};

    ghost Value = { Seen (I × O) Connection };

    ghost view = { λ w. record {
      held = (w.source, w.sink);
      at = record {
        given = I.given w.source;
        left = I.left w.source;
        reads = I.reads w.source;
        put = O.put w.sink;
        written = O.taken w.sink;
        read_failed = I.has_failed w.source;
        write_failed = O.has_failed w.sink;
      };
    } };
}

/// The end of a connection.
#[derive(Clone, Copy, Debug, PartialEq, Eq)]
pub struct ServedOne {
    /// The cause of the session's end: `Lost` if a fault came or the input ended first.
    pub cause: Cause,
    /// The fault that ended the conversation: a failed stream, or out of memory. None if the peer or the session ended it.
    pub fault: Option<StreamFault>,
}

/// Serves one connection of a server that has no other. It opens a session, serves it to its end or to that of the input, and gives it up. Then
/// it prints `conn K En`: the connection's number and the cause of its end.
///
/// If a stream of the connection fails, or memory runs out for it, the cause is E8 and the answer has the fault beside it. The server can go on
/// with the next connection.
///
/// # Errors
///
/// - I2 if `out` fails.
/// - I3 if no memory or no number is left to open a session, or no memory to print its end.
pub fn serve_next<E: Engine, G: Gate, I: Source, O: Sink, P: Sink>(
    alloc: Global,
    server: &mut Server<E, G>,
    streams: &mut ServerStreams<I, O>,
    out: &mut P,
) -> Result<ServedOne, StreamFault>
    requires { IsVacant E.entries server.old }
    ensures vacant { IsVacant E.entries server.new }
    // The session is given up, the next number is one more, and the ledger has at most grown ..
    ensures ok { (r : Rest G) → Fits E.entries server.old r → r.sessions ≡ []
        → OnOk result (HasServed r (Fits E.entries server.new)) }
    // .. also after a fault, if a session was opened.
    ensures err { (r : Rest G) → Fits E.entries server.old r → r.sessions ≡ []
        → OnErr result (MayHaveServed r (Fits E.entries server.new)) }
    // It prints the connection's number and its cause.
    ensures told { (r : Rest G) → Fits E.entries server.old r
        → IfOk result (λ told. Appends (P.taken out.old) (P.taken out.new)
        (conn_line r.next told.cause)) }
    // The answers to the client, the ledger, the cause and the fault are those of the conversation for the bytes that the source gave.
    ensures serves { (r : Rest G) → Fits E.entries server.old r → r.sessions ≡ []
        → IfOk result (ServesSo (opened r) r.next (setting E.answer G.welcomes r)
        (Fits E.entries server.new) streams.old.at streams.new.at) }
    ensures read { IsErrOf result StreamFault.ReadFailed → ⊥ }
    ensures written { IsErrOf result StreamFault.WriteFailed → P.has_failed out.new ≡ true }
{
    let conn = match open_session(server) {
        Ok(conn) => conn,
        Err(fault) => return Err(fault),
    };
    let told = serve_opened(alloc, server, conn, streams);
    match put_end(alloc, conn, told.cause, out) {
        Ok(()) => Ok(told),
        Err(fault) => Err(fault),
    }
}

/// Opens a session and returns its number.
///
/// # Errors
///
/// I3 if no memory or no number is left.
#[tactic(auto, using(crate::proofs::Served::not_opened))]
pub fn open_session<E: Engine, G: Gate>(server: &mut Server<E, G>) -> Result<u64, StreamFault>
    ensures opens { (r : Rest G) → Fits E.entries server.old r
        → MatchResult result (λ conn. HasOpened r conn (Fits E.entries server.new))
        (λ _. Fits E.entries server.new r) }
    ensures fault { IfErr result (λ e. e ≡ StreamFault.Memory) }
{
    match server.open() {
        Ok(conn) => Ok(conn),
        Err(_) => Err(StreamFault::Memory),
    }
}

/// Serves a session that was opened, and gives it up. If a stream fails or memory runs out, the end is `Lost` with that fault.
#[tactic(auto, using(crate::proofs::Served::served, crate::proofs::Served::found_by))]
fn serve_opened<E: Engine, G: Gate, I: Source, O: Sink>(
    alloc: Global,
    server: &mut Server<E, G>,
    conn: u64,
    streams: &mut ServerStreams<I, O>,
) -> ServedOne
    requires { IsLive E.entries conn server.old }
    ensures served { (r : Rest G) → HasOpened r conn (Fits E.entries server.old) → r.sessions ≡ []
        → HasServed r (Fits E.entries server.new) }
    ensures serves { (r : Rest G) → HasOpened r conn (Fits E.entries server.old) → r.sessions ≡ []
        → ServesSo (opened r) r.next (setting E.answer G.welcomes r) (Fits E.entries server.new)
        streams.old.at streams.new.at result }
{
    let served = serve_one(alloc, server, conn, &mut streams.source, &mut streams.sink);
    told_of(served)
}

/// Returns the end of a connection that was served with this result.
fn told_of(served: Result<Cause, StreamFault>) -> ServedOne
    ensures { result ≡ told_of served }
{
    match served {
        Ok(cause) => ServedOne { cause, fault: None },
        Err(fault) => ServedOne {
            cause: Cause::Lost,
            fault: Some(fault),
        },
    }
}

/// The most bytes that `drain` reads at once.
const LAST_PIECE: usize = 1024;

/// The most reads that `drain` makes.
const LAST_READS: u32 = 64;

/// Reads what the peer still sends and drops it, to the end of the input or a failure: at most 65,536 bytes, by at most 64 reads.
///
/// If a connection is closed while bytes of its peer are unread, it is reset, and bytes that were written and haven't arrived are lost. So a
/// server stops writing, drains, and then closes.
pub fn drain<I: Source, O: Sink>(streams: &mut ServerStreams<I, O>)
    ensures { Drains streams.old.at streams.new.at }
{
    let mut buffer = [0; LAST_PIECE];
    for _ in 0..LAST_READS {
        let Ok(count) = streams.source.read(&mut buffer) else {
            return;
        };
        if count == 0 {
            return;
        }
    }
}
