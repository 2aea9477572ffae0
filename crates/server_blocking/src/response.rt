//! What a server answers to the bytes of one client, and how its session stands then.
ghost use Rattle.std.specs.Prelude.{◌≡◌, Some, IfOk};
ghost use Rattle.server.specs.Serving.{Live, Rest, find};
ghost use Rattle.server.specs.Views.{Fits};
ghost use Rattle.server_blocking.specs.Conversing.{conversation};
ghost use Rattle.server_blocking.specs.Responding.{end_of, setting_of};

use crate::server_end::converse;
use engine::{Engine, Gate};
use machine::State;
use server::{Cause, Server};
use std::alloc::{AllocError, Global};
use streams::{Buffer, Slice};

/// The state of a session that goes on, or the cause of its end.
#[derive(Clone, Copy, Debug, PartialEq, Eq)]
pub enum End {
    /// It goes on, in this state.
    Live(State),
    /// It has ended, by this cause.
    Over(Cause),
}

/// What was put out, and how the session stands then.
#[derive(Drop)]
pub struct Responded {
    pub out: Vec<u8>,
    pub last: End,
}

/// What a server over this engine and gate puts out for the bytes of its first client, and how the session stands when they end; or want
/// of memory.
pub fn respond<E: Engine + Drop, G: Gate + Drop>(
    alloc: Global,
    engine: E,
    gate: G,
    bytes: &[u8],
) -> Result<Responded, AllocError>
    ensures out { IfOk result
        (λ a. a.out.items ≡ (conversation (setting_of E.answer (G.welcomes gate)) 0
        (E.entries engine) bytes.now).out) }
    ensures last { IfOk result
        (λ a. a.last ≡ end_of (conversation (setting_of E.answer (G.welcomes gate)) 0
        (E.entries engine) bytes.now).kept) }
{
    let mut server = Server::new(alloc, engine, gate);
    let Ok(conn) = server.open() else {
        return Err(AllocError);
    };
    let mut source = Slice::new(bytes);
    let mut sink = Buffer::new(Vec::new(alloc));
    let Ok(()) = converse(alloc, &mut server, conn, &mut source, &mut sink) else {
        return Err(AllocError);
    };
    Ok(Responded {
        out: sink.into_bytes(),
        last: end_at(&server, conn),
    })
}

/// How a session stands.
fn end_at<E: Engine, G: Gate>(server: &Server<E, G>, conn: u64) -> End
    ensures { (r : Rest G) (s : Live) → Fits E.entries server.now r → find conn r.sessions ≡ Some s
        → result ≡ end_of s.kept }
{
    match server.cause(conn) {
        Some(cause) => End::Over(cause),
        None => End::Live(server.state(conn).unwrap_or(State::Defunct)),
    }
}
