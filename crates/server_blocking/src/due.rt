//! Processes all that is due of a session, and writes what the session says.
ghost use Rattle.std.specs.Prelude.{◌≡◌, [], Option, None, IsSome, IfErr, IsErrOf, false, true};
ghost use Rattle.wire.specs.Framing.{Opened};
ghost use Rattle.server.specs.Serving.{Rest, cause_at, find, setting, work_at};
ghost use Rattle.server.specs.Views.{rest_of, Fits};
ghost use Rattle.server_blocking.specs.Views.{SinkView, sink_view};
ghost use Rattle.server_blocking.specs.Conversing.{Talk};
ghost use Rattle.server_blocking.specs.Putting.{Puts};
ghost use Rattle.server_blocking.specs.Settling.{GrowsOn, IsDueTo, IsPlaced, GoesOn, Holds, Settles, Steps, Works, next_of, liveness_of};

use crate::liveness::Liveness;
use engine::{Engine, Gate};
use server::{Server, Worked};
use streams::{Sink, StreamFault, write_all};

/// The action after a step.
#[derive(Clone, Copy)]
enum Next {
    /// A further step.
    Step,
    /// The session's output must be written before a further step.
    Room,
    /// None: no step is due.
    Rest,
}

/// Writes all of a session's output from its buffer, and then takes it out. Takes no memory.
///
/// # Errors
///
/// - I2 if the sink fails. A prefix was written then.
/// - I3 if no session has the number. Nothing has changed then.
pub(crate) fn put_out<E: Engine, G: Gate, O: Sink>(
    server: &mut Server<E, G>,
    conn: u64,
    sink: &mut O,
) -> Result<(), StreamFault>
    ensures grows { GrowsOn conn (Fits E.entries server.old) (Fits E.entries server.new) }
    ensures puts { Puts conn (rest_of E.entries server.old) (rest_of E.entries server.new)
        (sink_view O.put O.taken sink.old) (sink_view O.put O.taken sink.new) result }
    ensures unknown { IsErrOf result StreamFault.Memory
        → find conn (rest_of E.entries server.old).sessions ≡ None }
    ensures failed { IfErr result (λ e. IsDueTo e false (O.has_failed sink.new)) }
    ensures stays { O.has_failed sink.old ≡ true → O.has_failed sink.new ≡ true }
{
    let Some(bytes) = server.unsent(conn) else {
        return Err(StreamFault::Memory);
    };
    let count = bytes.len();
    let written = write_all(sink, bytes);
    server.sent(conn, count);
    match written {
        Ok(()) => Ok(()),
        Err(_) => Err(StreamFault::WriteFailed),
    }
}

/// A bound on steps by which the loop ends for the prover. It is never reached.
const MOST_STEPS: u64 = u64::MAX;

/// Processes requests until nothing is due. The output stays in the session's buffer, and is written only if the buffer is too full for a step.
pub(crate) fn settle<E: Engine, G: Gate, O: Sink>(
    server: &mut Server<E, G>,
    conn: u64,
    sink: &mut O,
) -> Result<Liveness, StreamFault>
    ensures grows { GrowsOn conn (Fits E.entries server.old) (Fits E.entries server.new) }
    ensures settles { (r : Rest G) (u : Opened) (t : Talk) (before : SinkView)
        → IsSome (find conn r.sessions) → t.kept.unsent ≡ [] → IsPlaced t.kept.waiting
        → Holds r conn u t (Fits E.entries server.old) before (sink_view O.put O.taken sink.old)
        → Settles r conn u t (setting E.answer G.welcomes r) (Fits E.entries server.new) before
        (sink_view O.put O.taken sink.new) result }
    ensures failed { IfErr result (λ e. IsDueTo e false (O.has_failed sink.new)) }
{
    for _ in 0..MOST_STEPS {
        match work_once(server, conn, sink) {
            Ok(None) => {}
            Ok(Some(liveness)) => return Ok(liveness),
            Err(fault) => return Err(fault),
        }
    }
    Err(StreamFault::Memory)
}

/// Does a step, and encodes the rows after a first one; or writes the session's output if its buffer is too full for a step. Returns the
/// session's liveness if nothing is due.
fn work_once<E: Engine, G: Gate, O: Sink>(
    server: &mut Server<E, G>,
    conn: u64,
    sink: &mut O,
) -> Result<Option<Liveness>, StreamFault>
    ensures grows { GrowsOn conn (Fits E.entries server.old) (Fits E.entries server.new) }
    ensures steps { (r : Rest G) (u : Opened) (t : Talk) (before : SinkView)
        → IsSome (find conn r.sessions)
        → GoesOn r conn u t (setting E.answer G.welcomes r) (Fits E.entries server.old) before
        (sink_view O.put O.taken sink.old)
        → Steps r conn u t (setting E.answer G.welcomes r) (Fits E.entries server.new) before
        (sink_view O.put O.taken sink.new) result }
    ensures failed { IfErr result (λ e. IsDueTo e false (O.has_failed sink.new)) }
{
    match work_step(server, conn) {
        Ok(Next::Step) => {
            server.write_rows(conn);
            Ok(None)
        }
        Ok(Next::Rest) => Ok(Some(liveness(server, conn))),
        Ok(Next::Room) => match put_out(server, conn, sink) {
            Ok(()) => Ok(None),
            Err(fault) => Err(fault),
        },
        Err(fault) => Err(fault),
    }
}

/// Does a step.
///
/// # Errors
///
/// I3 if memory runs out. Nothing has changed then.
fn work_step<E: Engine, G: Gate>(server: &mut Server<E, G>, conn: u64) -> Result<Next, StreamFault>
    ensures grows { GrowsOn conn (Fits E.entries server.old) (Fits E.entries server.new) }
    ensures works { Works (work_at E.answer G.welcomes conn) (rest_of E.entries server.old)
        (rest_of E.entries server.new) result }
    ensures memory { IfErr result (λ e. e ≡ StreamFault.Memory) }
{
    let Ok(worked) = server.work(conn) else {
        return Err(StreamFault::Memory);
    };
    Ok(next_after(worked))
}

/// Returns the action after a step with this result. At most one request is pending, so nothing is due after its summary.
fn next_after(worked: Worked) -> Next
    ensures { result ≡ next_of worked }
{
    match worked {
        Worked::Row => Next::Step,
        Worked::Full => Next::Room,
        Worked::Idle | Worked::Wrote { .. } | Worked::Ended(_) => Next::Rest,
    }
}

/// Returns a session's liveness: `Over` if its end has a cause.
fn liveness<E: Engine, G: Gate>(server: &Server<E, G>, conn: u64) -> Liveness
    ensures { result ≡ liveness_of (cause_at conn (rest_of E.entries server.now)) }
{
    match server.cause(conn) {
        Some(_) => Liveness::Over,
        None => Liveness::Open,
    }
}
