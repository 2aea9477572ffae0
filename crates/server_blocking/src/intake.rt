//! Feeds a client's bytes to its session, one item at a time, processes what they make due, and writes what the session says.
ghost use Rattle.std.specs.Prelude.{◌≡◌, ◌<◌, ◌≤◌, ℕ, List, Option, None, length, IsSome, IfOk, IfErr, false};
ghost use Rattle.server.specs.Serving.{Rest, find, feed_at, setting};
ghost use Rattle.server.specs.Views.{rest_of, Fits};
ghost use Rattle.server_blocking.specs.Views.{SinkView, sink_view};
ghost use Rattle.server_blocking.specs.Settling.{GrowsOn, IsDueTo, IsLive, LivesOn, Feeds, HoldsAfter, Stands, TakesOne, TakesItems, TakesPiece, rest_after, taken_and_put, told_by};

use crate::due::{put_out, settle};
use crate::liveness::Liveness;
use engine::{Engine, Gate};
use server::{Server, Took};
use server_session::What;
use streams::{Sink, StreamFault};

/// The number of bytes of a piece that were used, and the session's liveness after them.
#[derive(Clone, Copy)]
struct Taken {
    used: usize,
    liveness: Liveness,
}

/// Feeds a piece to a live session, item by item, up to the session's end, processes what it makes due, and writes what the session says. The
/// output goes out at once, or earlier whenever 65,536 bytes or more of it are buffered. Returns the session's liveness.
///
/// # Errors
///
/// - I2 if the sink fails. A prefix was written then.
/// - I3 if memory runs out or no ordinal is left.
pub fn take_piece<E: Engine, G: Gate, O: Sink>(
    server: &mut Server<E, G>,
    conn: u64,
    piece: &[u8],
    sink: &mut O,
) -> Result<Liveness, StreamFault>
    requires { IsLive E.entries conn server.old }
    ensures live { IsLive E.entries conn server.new }
    ensures grows { LivesOn conn (Fits E.entries server.old) (Fits E.entries server.new) }
    ensures takes { (r : Rest G) (before : SinkView) (up : List ℕ)
        → IsSome (find conn r.sessions)
        → (told_by r conn (setting E.answer G.welcomes r) up).kept.ended ≡ None
        → Stands r conn (setting E.answer G.welcomes r) (Fits E.entries server.old) before
        (sink_view O.put O.taken sink.old) up
        → TakesPiece r conn (setting E.answer G.welcomes r) (Fits E.entries server.new) before
        (sink_view O.put O.taken sink.new) up piece.now result }
    ensures failed { IfErr result (λ e. IsDueTo e false (O.has_failed sink.new)) }
{
    let taken = take_items(server, conn, piece, sink);
    let put = put_out(server, conn, sink);
    both_of(taken, put)
}

/// Returns the liveness, or the first fault of the two if there was one.
fn both_of(
    taken: Result<Liveness, StreamFault>,
    put: Result<(), StreamFault>,
) -> Result<Liveness, StreamFault>
    ensures { result ≡ taken_and_put taken put }
{
    let liveness = match taken {
        Ok(liveness) => liveness,
        Err(fault) => return Err(fault),
    };
    match put {
        Ok(()) => Ok(liveness),
        Err(fault) => Err(fault),
    }
}

/// Feeds a piece, item by item, up to the session's end, and processes what each item makes due.
fn take_items<E: Engine, G: Gate, O: Sink>(
    server: &mut Server<E, G>,
    conn: u64,
    piece: &[u8],
    sink: &mut O,
) -> Result<Liveness, StreamFault>
    ensures grows { GrowsOn conn (Fits E.entries server.old) (Fits E.entries server.new) }
    ensures takes { (r : Rest G) (before : SinkView) (up : List ℕ)
        → IsSome (find conn r.sessions)
        → (told_by r conn (setting E.answer G.welcomes r) up).kept.ended ≡ None
        → HoldsAfter r conn (setting E.answer G.welcomes r) (Fits E.entries server.old) before
        (sink_view O.put O.taken sink.old) up
        → TakesItems r conn (setting E.answer G.welcomes r) (Fits E.entries server.new) before
        (sink_view O.put O.taken sink.new) up piece.now result }
    ensures failed { IfErr result (λ e. IsDueTo e false (O.has_failed sink.new)) }
{
    let mut rest = piece;
    while !rest.is_empty() {
        let taken = match take_one(server, conn, rest, sink) {
            Ok(taken) => taken,
            Err(fault) => return Err(fault),
        };
        let (_, after) = rest.split_at(taken.used);
        rest = after;
        match taken.liveness {
            Liveness::Open => {}
            Liveness::Over => return Ok(Liveness::Over),
        }
    }
    Ok(Liveness::Open)
}

/// Feeds at most one item of a piece, and processes what it makes due.
fn take_one<E: Engine, G: Gate, O: Sink>(
    server: &mut Server<E, G>,
    conn: u64,
    piece: &[u8],
    sink: &mut O,
) -> Result<Taken, StreamFault>
    ensures grows { GrowsOn conn (Fits E.entries server.old) (Fits E.entries server.new) }
    ensures bound { IfOk result (λ taken. (0 < taken.used) × (taken.used ≤ length piece.now)) }
    ensures takes { (r : Rest G) (before : SinkView) (up : List ℕ)
        → IsSome (find conn r.sessions)
        → (told_by r conn (setting E.answer G.welcomes r) up).kept.ended ≡ None
        → HoldsAfter r conn (setting E.answer G.welcomes r) (Fits E.entries server.old) before
        (sink_view O.put O.taken sink.old) up
        → TakesOne r conn (setting E.answer G.welcomes r) (Fits E.entries server.new) before
        (sink_view O.put O.taken sink.new) up piece.now result }
    ensures failed { IfErr result (λ e. IsDueTo e false (O.has_failed sink.new)) }
{
    let took = match feed_one(server, conn, piece) {
        Ok(took) => took,
        Err(fault) => return Err(fault),
    };
    let liveness = match liveness_after(took.what) {
        Some(liveness) => liveness,
        None => match settle(server, conn, sink) {
            Ok(liveness) => liveness,
            Err(fault) => return Err(fault),
        },
    };
    Ok(Taken {
        used: took.used,
        liveness,
    })
}

/// Returns a session's liveness after it took bytes with this result, or none if a step may be due.
fn liveness_after(what: What) -> Option<Liveness>
    ensures { result ≡ rest_after what }
{
    match what {
        What::Part | What::Noop | What::Handshake(Some(_)) => Some(Liveness::Open),
        What::Handshake(None) | What::BadMagic => Some(Liveness::Over),
        What::Message | What::Malformed | What::Full | What::Closed => None,
    }
}

/// Feeds at most one item of a piece. Returns how many bytes were used, and what ended with them.
///
/// # Errors
///
/// I3 if memory runs out, or if no ordinal is left, so that no byte is used.
fn feed_one<E: Engine, G: Gate>(
    server: &mut Server<E, G>,
    conn: u64,
    piece: &[u8],
) -> Result<Took, StreamFault>
    ensures grows { GrowsOn conn (Fits E.entries server.old) (Fits E.entries server.new) }
    ensures bound { IfOk result (λ took. (0 < took.used) × (took.used ≤ length piece.now)) }
    ensures feeds { Feeds (feed_at conn piece.now) (rest_of E.entries server.old)
        (rest_of E.entries server.new) result }
    ensures memory { IfErr result (λ e. e ≡ StreamFault.Memory) }
{
    let Ok(took) = server.feed(conn, piece) else {
        return Err(StreamFault::Memory);
    };
    if took.used == 0 {
        return Err(StreamFault::Memory);
    }
    Ok(took)
}
