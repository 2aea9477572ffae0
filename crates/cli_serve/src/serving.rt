//! A server at a port.

ghost use Rattle.std.specs.Prelude.{◌≡◌, [], true, IfOk, OnOk, IsErrOf, string_bytes};
ghost use Rattle.std.specs.Io.KnownBytes.{Appends};
ghost use Rattle.server.specs.Views.{rest_of};
ghost use Rattle.cli_serve.specs.Serving.{IsUnbound, Reaches, listening_line};

use crate::printed::Printed;
use crate::reasons::{Reason, unbound};
use engine::{Engine, Gate};
use server::Server;
use server_event_loop::{Limits, Stopped, serve};
use server_tcp::{Network, Place};
use std::alloc::{AllocError, Global};
use std::io;
use std::io::Eprint;
use std::net::Net;
use std::time::Clock;
use streams::{Sink, write_all};

fn listening_text(alloc: Global, port: u16) -> Result<String, AllocError>
    ensures { IfOk result (λ t. string_bytes t ≡ listening_line port) }
{
    let text = format!(in alloc; "listening {port}\n")?;
    Ok(text)
}

/// Prints the port at which connections are taken.
fn put_listening<O: Sink>(alloc: Global, port: u16, out: &mut O) -> Result<(), Reason>
    ensures told { OnOk result (Appends (O.taken out.old) (O.taken out.new) (listening_line port)) }
    ensures written { IsErrOf result Reason.OutputFailed → O.has_failed out.new ≡ true }
{
    let Ok(text) = listening_text(alloc, port) else {
        return Err(Reason::Memory);
    };
    match write_all(out, text.as_bytes()) {
        Ok(()) => Ok(()),
        Err(_) => Err(Reason::OutputFailed),
    }
}

/// Serves at this place whoever comes, many at once: prints `listening PORT`, and then `conn K En` as each connection ends, its number and
/// the cause of its end. It answers why it ends: the port isn't had or can't be printed, the wait for all connections fails, or no memory is there
/// to begin. Want of memory later, and every failure of a connection, ends that connection alone. If the output fails later, it goes on. That, and
/// why a connection can't be accepted, it says on standard error, each once.
pub fn serve_at<R: Net + Clock + Eprint + Drop, E: Engine, G: Gate, O: Sink>(
    rt: &R,
    alloc: Global,
    place: Place<'_>,
    limits: &Limits,
    server: &mut Server<E, G>,
    out: &mut O,
) -> Reason
    requires { (rest_of E.entries server.old).sessions ≡ [] }
    ensures reaches { Reaches E.answer G.welcomes (rest_of E.entries server.old) (rest_of E.entries server.new) }
    // If the port isn't had, or can't be printed, nothing is served.
    ensures unbound { IsUnbound result → rest_of E.entries server.new ≡ rest_of E.entries server.old }
{
    let mut network = match Network::bind(rt, alloc, place) {
        Ok(network) => network,
        Err(error) => return unbound(error),
    };
    let port = match network.address() {
        Ok(address) => address.port(),
        Err(error) => return unbound(error),
    };
    if let Err(reason) = put_listening(alloc, port, out) {
        return reason;
    }
    let mut journal = Printed::new(rt, out);
    match serve(alloc, server, &mut network, &mut journal, limits) {
        Stopped::Memory => Reason::Memory,
        Stopped::Failed => match network.error() {
            Some(error) => Reason::Unwaited(*error),
            None => Reason::Unwaited(io::Error::other("2^64 rounds were made")),
        },
    }
}
