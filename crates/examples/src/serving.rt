//! Serves a fixed table at a port of this machine, many connections at once, until it is ended.

use cli_serve::{Limits, Place, Reason, serve_at};
use engine::{FixedTable, OneUser};
use server::Server;
use std::io;
use std::io::ErrorKind;
use streams::Over;

/// The milliseconds that a client may be idle, may take to log in, and may still send after its session's end; and the most steps and reads
/// of a connection in one turn.
const LIMITS: Limits = Limits {
    silence: 10_000,
    arrival: 10_000,
    last: 1_000,
    steps: 64,
    reads: 4,
};

/// Serves this port.
pub(crate) fn serve(rt: &HostRuntime, port: u16) -> io::Result<()> {
    let alloc = rt.alloc();
    let gate = OneUser::new(alloc, "user", "pass")?;
    let mut server = Server::new(alloc, FixedTable::new(alloc), gate);
    let place = Place {
        host: "127.0.0.1",
        port,
        most: None,
    };
    let mut out = Over::new(rt.stdout());
    match serve_at(rt, alloc, place, &LIMITS, &mut server, &mut out) {
        Reason::Unbound(error) | Reason::Unwaited(error) => Err(error),
        Reason::OutputFailed => Err(ErrorKind::BrokenPipe.into()),
        Reason::Memory => Err(ErrorKind::OutOfMemory.into()),
    }
}
