//! Serves one session to its end, over streams.
ghost use Rattle.std.specs.Prelude.{◌≡◌, ◌<◌, ◌≤◌, ◌++◌, ℕ, List, Some, IsSome, length, IfErr, OnOk, OnErr};
ghost use Rattle.server.specs.Serving.{Rest, find, fresh, setting};
ghost use Rattle.server.specs.Views.{Fits};
ghost use Rattle.server_blocking.specs.Views.{source_view, sink_view};
ghost use Rattle.server_blocking.specs.Settling.{IsDueTo, IsLive, LivesOn};
ghost use Rattle.server_blocking.specs.Serving.{Converses, IsTurn, LeavesOthers, Serves, talk_for};
ghost use Rattle.streams.specs.Moving.{MovesFront};
ghost use Rattle.streams.specs.Reading.{LetsRead};
ghost use Rattle.streams.specs.Limits.{max_piece};

use crate::intake::take_piece;
use crate::liveness::Liveness;
use engine::{Engine, Gate};
use server::{Cause, Server};
use std::alloc::Global;
use streams::{MAX_PIECE, PeerSource, Sink, StreamFault};

/// Serves a live session. It reads a piece of at most 4,096 bytes and feeds its items one by one. After each item it processes requests until
/// nothing is due. After the piece it writes the session's output, in one write unless that is 65,536 bytes or more. So it goes on to the end of
/// the input or of the session, or to a fault. Then it gives the session up and returns the cause of its end: `Lost` if the input ended first.
///
/// It reads only while the session goes on, after all that the bytes so far make due was written. The bytes that it read are all that the source
/// gave, in order, and it wrote what the conversation for these bytes says and nothing else. This holds over sockets too.
///
/// # Errors
///
/// The session is given up then too. Any output that was written is of work that was done: if any byte of a commit's answer was written, the
/// commit is in the ledger.
///
/// - I1 if the source fails.
/// - I2 if the sink fails. A prefix of what is due was written then.
/// - I3 if memory runs out or no ordinal is left.
pub fn serve_one<E: Engine, G: Gate, I: PeerSource, O: Sink>(
    alloc: Global,
    server: &mut Server<E, G>,
    conn: u64,
    source: &mut I,
    sink: &mut O,
) -> Result<Cause, StreamFault>
    requires live { IsLive E.entries conn server.old }
    // A source that limits when it may be read must allow a read of at most 4,096 bytes whenever a fresh session goes on and the sink has taken
    // all that the bytes so far make due. No other read is made.
    requires turns { LetsRead I.may_read (λ s taken. (r : Rest G) → Fits E.entries server.old r
        → find conn r.sessions ≡ Some (fresh conn)
        → IsTurn r conn (setting E.answer G.welcomes r) (I.left source.old) (I.left s)
        (O.taken sink.old) taken) }
    // If the session was fresh: the sink took what the conversation says for the bytes that the source gave, the ledger and the cause are those
    // of that conversation, and the input or the session has ended. After a fault the same holds of some moment of the conversation, and the sink
    // took a prefix of what was said by then. The session is gone.
    ensures serves { (r : Rest G) → Fits E.entries server.old r
        → find conn r.sessions ≡ Some (fresh conn)
        → Serves r conn (setting E.answer G.welcomes r) (Fits E.entries server.new)
        (source_view I.given I.left source.old)
        (source_view I.given I.left source.new) (sink_view O.put O.taken sink.old)
        (sink_view O.put O.taken sink.new) result }
    // So of all bytes that the source gave, over any streams: the sink took what the conversation for them says, and nothing else ..
    ensures given { (r : Rest G) (bytes : List ℕ) → Fits E.entries server.old r
        → find conn r.sessions ≡ Some (fresh conn)
        → I.given source.new ≡ I.given source.old ++ bytes
        → OnOk result (O.put sink.new
        ≡ O.put sink.old ++ (talk_for r conn (setting E.answer G.welcomes r) bytes).out) }
    // .. or a prefix of that if a fault came.
    ensures front { (r : Rest G) (bytes : List ℕ) → Fits E.entries server.old r
        → find conn r.sessions ≡ Some (fresh conn)
        → I.given source.new ≡ I.given source.old ++ bytes
        → OnErr result (MovesFront (O.put sink.old) (O.put sink.new)
        (talk_for r conn (setting E.answer G.welcomes r) bytes).out) }
    // Whatever the session was: it is gone, the others are as before, and the ledger has at most grown.
    ensures leaves { (r : Rest G) → Fits E.entries server.old r → IsSome (find conn r.sessions)
        → LeavesOthers r conn (Fits E.entries server.new) }
    // A stream is reported as failed only if it has failed.
    ensures failed { IfErr result
        (λ e. IsDueTo e (I.has_failed source.new) (O.has_failed sink.new)) }
{
    let done = converse(alloc, server, conn, source, sink);
    let cause = server.lost(conn).unwrap_or(Cause::Lost);
    match done {
        Ok(()) => Ok(cause),
        Err(fault) => Err(fault),
    }
}

/// Serves a live session as `serve_one` does, but doesn't give it up.
pub fn converse<E: Engine, G: Gate, I: PeerSource, O: Sink>(
    alloc: Global,
    server: &mut Server<E, G>,
    conn: u64,
    source: &mut I,
    sink: &mut O,
) -> Result<(), StreamFault>
    requires live { IsLive E.entries conn server.old }
    requires turns { LetsRead I.may_read (λ s taken. (r : Rest G) → Fits E.entries server.old r
        → find conn r.sessions ≡ Some (fresh conn)
        → IsTurn r conn (setting E.answer G.welcomes r) (I.left source.old) (I.left s)
        (O.taken sink.old) taken) }
    ensures live { IsLive E.entries conn server.new }
    ensures grows { LivesOn conn (Fits E.entries server.old) (Fits E.entries server.new) }
    ensures converses { (r : Rest G) → Fits E.entries server.old r
        → find conn r.sessions ≡ Some (fresh conn)
        → Converses r conn (setting E.answer G.welcomes r) (Fits E.entries server.new)
        (source_view I.given I.left source.old) (source_view I.given I.left source.new)
        (sink_view O.put O.taken sink.old) (sink_view O.put O.taken sink.new) result }
    ensures failed { IfErr result
        (λ e. IsDueTo e (I.has_failed source.new) (O.has_failed sink.new)) }
{
    let Ok(mut buffer) = vec![in alloc; 0; MAX_PIECE] else {
        return Err(StreamFault::Memory);
    };
    converse_by(server, conn, source, sink, buffer.as_mut_slice())
}

/// Serves a session as `converse` does, by this buffer.
fn converse_by<E: Engine, G: Gate, I: PeerSource, O: Sink>(
    server: &mut Server<E, G>,
    conn: u64,
    source: &mut I,
    sink: &mut O,
    buffer: &mut [u8],
) -> Result<(), StreamFault>
    requires live { IsLive E.entries conn server.old }
    requires room { 0 < length buffer.old }
    requires few { length buffer.old ≤ max_piece }
    requires turns { LetsRead I.may_read (λ s taken. (r : Rest G) → Fits E.entries server.old r
        → find conn r.sessions ≡ Some (fresh conn)
        → IsTurn r conn (setting E.answer G.welcomes r) (I.left source.old) (I.left s)
        (O.taken sink.old) taken) }
    ensures live { IsLive E.entries conn server.new }
    ensures grows { LivesOn conn (Fits E.entries server.old) (Fits E.entries server.new) }
    ensures converses { (r : Rest G) → Fits E.entries server.old r
        → find conn r.sessions ≡ Some (fresh conn)
        → Converses r conn (setting E.answer G.welcomes r) (Fits E.entries server.new)
        (source_view I.given I.left source.old) (source_view I.given I.left source.new)
        (sink_view O.put O.taken sink.old) (sink_view O.put O.taken sink.new) result }
    ensures failed { IfErr result
        (λ e. IsDueTo e (I.has_failed source.new) (O.has_failed sink.new)) }
{
    loop {
        let Ok(count) = source.read_after(sink, buffer) else {
            return Err(StreamFault::ReadFailed);
        };
        if count == 0 {
            return Ok(());
        }
        match take_piece(server, conn, &buffer[..count], sink) {
            Ok(Liveness::Open) => {}
            Ok(Liveness::Over) => return Ok(()),
            Err(fault) => return Err(fault),
        }
    }
}
