//! The server over a file.
ghost use Rattle.std.specs.Prelude.{◌≡◌, [], List, false, Err, IfOk, IfErr};
ghost use Rattle.engine.specs.Views.{EntryView};
ghost use Rattle.engine_sqlite.specs.Kept.{Endures, ledger_of};
ghost use Rattle.engine_sqlite.specs.Ledger.{HoldsLedger};
ghost use Rattle.sqlite.specs.Held.{state};
ghost use Rattle.sqlite.specs.State.{HasCleanDisk};
ghost use Rattle.keeping.specs.Reasons.{IsUnread};

use crate::connections::serve_until_failed;
use crate::reasons::{Reason, put_reason};
use engine::{Engine, FixedTable, Gate, OneUser};
use engine_sqlite::Lasting;
use server::Server;
use sqlite::{Alter, Connection};
use std::alloc::{AllocError, Global};
use std::net::TcpListener;
use streams::{Over, Sink, write_all};

/// The address of this machine for itself.
const HERE: &str = "127.0.0.1";

/// The engine `empty` with the ledger of a database that was to be opened, or why it isn't had.
pub fn open_ledger<E: Engine + Drop, S: Alter + Drop>(
    alloc: Global,
    empty: E,
    opened: Result<Connection<S>, sqlite::Error>,
) -> Result<Lasting<E, S>, Reason>
    requires { E.entries empty ≡ [] }
    ensures runs { IfOk result (λ l. l.is_stopped ≡ false) }
    // The database has the ledger that is shown, and so has what any crash leaves of it.
    ensures endures { IfOk result (Endures E.entries S.Store) }
    // A ledger that was committed is the one that is shown.
    ensures finds { IfOk opened (λ conn. (es : List EntryView)
        → HoldsLedger (state S.Store conn).committed.trees es
        → IfOk result (λ l. HasCleanDisk (state S.Store l.conn) → ledger_of E.entries l ≡ es)) }
    ensures unopened { IfErr opened (λ e. result ≡ Err (Reason.Unopened e)) }
    ensures unread { IfOk opened (λ conn. IfErr result IsUnread) }
{
    let conn = match opened {
        Ok(conn) => conn,
        Err(error) => return Err(Reason::Unopened(error)),
    };
    match Lasting::open(alloc, empty, conn) {
        Ok(engine) => Ok(engine),
        Err((fault, _)) => Err(Reason::Unread(fault)),
    }
}

fn listening_text(alloc: Global, port: u16) -> Result<String, AllocError> {
    let text = format!(in alloc; "listening {port}\n")?;
    Ok(text)
}

/// Prints the port at which connections are taken: where 0 was asked for, the one that was had.
fn put_listening<O: Sink>(
    alloc: Global,
    listener: &TcpListener,
    out: &mut O,
) -> Result<(), Reason> {
    let port = match listener.local_addr() {
        Ok(address) => address.port(),
        Err(error) => return Err(Reason::Port(error)),
    };
    let Ok(text) = listening_text(alloc, port) else {
        return Err(Reason::Memory);
    };
    match write_all(out, text.as_bytes()) {
        Ok(()) => Ok(()),
        Err(_) => Err(Reason::OutputFailed),
    }
}

/// Serves the ledger of a database that was to be opened, at a port of this machine: prints `listening PORT`, and then as
/// `serve_until_failed` does. It answers why it ends. What it is given ends with it.
pub fn serve_database<E: Engine + Drop, S: Alter + Drop, G: Gate + Drop, O: Sink, W: Sink>(
    rt: &HostRuntime,
    port: u16,
    empty: E,
    opened: Result<Connection<S>, sqlite::Error>,
    gate: G,
    out: &mut O,
    err: &mut W,
) -> Reason
    requires { E.entries empty ≡ [] }
    ensures unopened { IfErr opened (λ e. result ≡ Reason.Unopened e) }
{
    let alloc = rt.alloc();
    let engine = match open_ledger(alloc, empty, opened) {
        Ok(engine) => engine,
        Err(reason) => return reason,
    };
    let listener = match TcpListener::bind(rt, (HERE, port)) {
        Ok(listener) => listener,
        Err(error) => return Reason::Port(error),
    };
    if let Err(reason) = put_listening(alloc, &listener, out) {
        return reason;
    }
    let mut server = Server::new(alloc, engine, gate);
    serve_until_failed(alloc, &mut server, &listener, out, err)
}

/// Serves the fixed table, whose ledger a file keeps, at a port of this machine, to the user `user` by `pass`, as `serve_database` does. A
/// file that isn't there, or has nothing in it, gets a ledger. When it ends, it says why on standard error, as `put_reason` does.
pub fn serve_file(rt: &HostRuntime, port: u16, file: &str) {
    let alloc = rt.alloc();
    let (mut out, mut err) = (Over::new(rt.stdout()), Over::new(rt.stderr()));
    let reason = match OneUser::new(alloc, "user", "pass") {
        Ok(gate) => serve_database(
            rt,
            port,
            FixedTable::new(alloc),
            Connection::open(rt, file),
            gate,
            &mut out,
            &mut err,
        ),
        Err(_) => Reason::Memory,
    };
    put_reason(alloc, file, reason, &mut err);
}
