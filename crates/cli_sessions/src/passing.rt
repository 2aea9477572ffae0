//! Bytes pass over the ways of a loop: each is read once it is written, and heard or taken.
ghost use Rattle.std.specs.Prelude.{◌≡◌, ◌⊎◌, ◌≤◌, ◌<◌, ◌+◌, ◌++◌, ℕ, List, [], length, true, IsSome, IfErr, OnOk, OnErr, IsErrOf, MatchResult};
ghost use Rattle.std.specs.Io.KnownBytes.{Consumes};
ghost use Rattle.server.specs.Serving.{Rest, find, setting};
ghost use Rattle.server.specs.Views.{Fits};
ghost use Rattle.server_blocking.specs.Settling.{IsLive, LivesOn};
ghost use Rattle.cli_sessions.specs.Passing.{BreaksAtSource, GivesNoMore, GivesSome, LetsReadWaiting, Passes};
ghost use Rattle.cli_sessions.specs.Looping.{HandsOver, HasHeard, HearsFront, IsHeardAll, Outset, Sits, StandsAt};
ghost use Rattle.cli_sessions.specs.Talking.{Place};

use crate::Caller;
use crate::ways::OneWay;
use client_blocking::feed_piece;
use engine::{Engine, Gate};
use server::Server;
use server_blocking::{Liveness, take_piece};
use std::alloc::Global;
use streams::{Buffer, MAX_PIECE, PeerSource, Sink, StreamFault, write_all};

/// Reads bytes that are known to wait, as many as there is room for. I1 where the source fails or ends before.
fn read_known<T: Sink, S: PeerSource>(
    sink: &T,
    source: &mut S,
    buffer: &mut [u8],
) -> Result<(), StreamFault>
    requires { (s : S) (bytes : List ℕ) (n : ℕ) → Consumes (S.left source.old) (S.left s) bytes
        → length bytes + n ≤ length buffer.old → S.may_read s (T.taken sink.now) n }
    ensures reads { OnOk result (Consumes (S.left source.old) (S.left source.new) buffer.new) }
    ensures some { OnErr result
        (GivesSome (S.left source.old) (S.left source.new) (length buffer.old)) }
    ensures read { IsErrOf result StreamFault.ReadFailed
        → GivesNoMore (S.has_failed source.new) (S.left source.new) }
    ensures fault { IfErr result (λ e. e ≡ StreamFault.ReadFailed) }
    ensures len { length buffer.new ≡ length buffer.old }
{
    let mut at = 0;
    while at < buffer.len() {
        let Ok(count) = source.read_after(sink, &mut buffer[at..]) else {
            return Err(StreamFault::ReadFailed);
        };
        if count == 0 {
            return Err(StreamFault::ReadFailed);
        }
        at += count;
    }
    Ok(())
}

/// Writes a part, and reads it at the other end, if it is known to wait then. I1 also if other bytes come.
pub(crate) fn pass<T: Sink, S: PeerSource>(
    alloc: Global,
    bytes: &[u8],
    way: &mut OneWay<T, S>,
) -> Result<(), StreamFault>
    requires { LetsReadWaiting S.left S.may_read way.old.at }
    ensures passes { OnOk result (Passes way.old.at way.new.at bytes.now) }
    ensures lets { OnOk result (LetsReadWaiting S.left S.may_read way.new.at) }
    ensures some { OnErr result (GivesSome way.old.at.left way.new.at.left (length bytes.now)) }
    ensures read { IsErrOf result StreamFault.ReadFailed → BreaksAtSource way.old.at way.new.at }
    ensures written { IsErrOf result StreamFault.WriteFailed → way.new.at.write_failed ≡ true }
{
    if write_all(&mut way.sink, bytes).is_err() {
        return Err(StreamFault::WriteFailed);
    }
    let Ok(mut part) = vec![in alloc; 0; bytes.len()] else {
        return Err(StreamFault::Memory);
    };
    read_known(&way.sink, &mut way.source, part.as_mut_slice())?;
    if part.as_slice() != bytes {
        return Err(StreamFault::ReadFailed);
    }
    Ok(())
}

/// Feeds a part to the client, and prints what it tells, also if memory runs out while it is fed.
fn hear<O: Sink>(caller: &mut Caller, part: &[u8], out: &mut O) -> Result<(), StreamFault>
    ensures hears { (p : Place) → StandsAt caller.old p
        → MatchResult result
        (λ _. IsHeardAll p part.now caller.new (O.taken out.old) (O.taken out.new))
        (λ _. HearsFront [] p part.now (O.taken out.old) (O.taken out.new)) }
    ensures read { IsErrOf result StreamFault.ReadFailed → ⊥ }
    ensures written { IsErrOf result StreamFault.WriteFailed → O.has_failed out.new ≡ true }
{
    let mut heard = Vec::new(caller.alloc);
    let fed = feed_piece(&mut caller.client, part, &mut heard);
    for one in heard {
        match caller.put_heard(one, out) {
            Ok(()) => {}
            Err(fault) => return Err(fault),
        }
    }
    fed
}

/// The next part of bytes, at most 4,096 of them, and those after it.
#[tactic(auto, using(crate::proofs::Looped::parts))]
pub(crate) fn next_part(bytes: &[u8]) -> (&[u8], &[u8])
    ensures parts { result.0.now ++ result.1.now ≡ bytes.now }
    ensures short { length result.0.now ≤ 4096 }
    ensures less { 0 < length bytes.now → length result.1.now < length bytes.now }
{
    bytes.split_at(bytes.len().min(MAX_PIECE))
}

/// Writes what the server put out in parts of at most 4,096 bytes; the client reads and hears each before the next is written.
pub(crate) fn hand_over<T: Sink, S: PeerSource, O: Sink>(
    caller: &mut Caller,
    bytes: &[u8],
    way: &mut OneWay<T, S>,
    out: &mut O,
) -> Result<(), StreamFault>
    requires { LetsReadWaiting S.left S.may_read way.old.at }
    ensures hears { (o : Outset) (heard after : List ℕ)
        → HasHeard o heard way.old.at (O.taken out.old) caller.old
        → HandsOver o heard bytes.now after way.new.at (O.taken out.new) caller.new result }
    ensures lets { OnOk result (LetsReadWaiting S.left S.may_read way.new.at) }
    ensures read { IsErrOf result StreamFault.ReadFailed → BreaksAtSource way.old.at way.new.at }
    ensures written { IsErrOf result StreamFault.WriteFailed
        → (way.new.at.write_failed ≡ true) ⊎ (O.has_failed out.new ≡ true) }
{
    let mut rest = bytes;
    while !rest.is_empty() {
        let (part, after) = next_part(rest);
        match pass(caller.alloc, part, way) {
            Ok(()) => {}
            Err(fault) => return Err(fault),
        }
        match hear(caller, part, out) {
            Ok(()) => {}
            Err(fault) => return Err(fault),
        }
        rest = after;
    }
    Ok(())
}

/// The session takes a piece and puts out what it makes due, unless it has ended.
#[tactic(auto, using(server_blocking::proofs::Called::lives_same))]
pub(crate) fn give<E: Engine, G: Gate>(
    server: &mut Server<E, G>,
    conn: u64,
    piece: &[u8],
    said: &mut Buffer,
    liveness: &mut Liveness,
) -> Result<(), StreamFault>
    requires { IsLive E.entries conn server.old }
    ensures live { IsLive E.entries conn server.new }
    ensures grows { LivesOn conn (Fits E.entries server.old) (Fits E.entries server.new) }
    ensures sits { (r : Rest G) (sent : List ℕ) → IsSome (find conn r.sessions)
        → Sits r conn (setting E.answer G.welcomes r) (Fits E.entries server.old) sent
        said.old.bytes.items liveness.old
        → OnOk result (Sits r conn (setting E.answer G.welcomes r) (Fits E.entries server.new)
        (sent ++ piece.now) said.new.bytes.items liveness.new) }
    ensures fault { IfErr result (λ e. e ≡ StreamFault.Memory) }
{
    match *liveness {
        Liveness::Open => {}
        Liveness::Over => return Ok(()),
    }
    match take_piece(server, conn, piece, said) {
        Ok(after) => {
            *liveness = after;
            Ok(())
        }
        Err(_) => Err(StreamFault::Memory),
    }
}
