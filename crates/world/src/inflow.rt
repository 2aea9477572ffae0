//! Bytes that reach an end.
ghost use Rattle.std.specs.Prelude.{◌≡◌, ◌<◌, ◌++◌, false, [], map, length, vec_len, vec_capacity};
ghost use Rattle.client.specs.Notes.{note};
ghost use Rattle.client.specs.Moments.{tellings};
ghost use Rattle.world.specs.Views.{read_of, end_peer, flow_of};
ghost use Rattle.world.specs.Reports.{read_after};
ghost use Rattle.world.specs.Turns.{Turns};
ghost use Rattle.world.specs.Connections.{Foreign as ForeignPeer};
ghost use Rattle.world.specs.World.{ToServer, ToClient, Feeds};

use crate::flow::Flow;
use crate::kinds::{Refused, Seen};
use crate::link::{End, Link, Read};
use crate::outflow::{draw_down, draw_up};
use client::Heard;
use engine::{Engine, Gate};
use server::{Server, Took, What};

/// What is seen where the session was given up, and where a cut stands before it.
const CLOSED: Took = Took {
    used: 0,
    what: What::Closed,
};

const NOTHING: Took = Took {
    used: 0,
    what: What::Part,
};

/// The next bytes of a client reach the session, to the end of the item begun.
pub(crate) fn to_server<E: Engine, G: Gate>(
    link: &mut Link,
    server: &mut Server<E, G>,
    conn: u64,
    max: usize,
) -> Result<Seen, Refused>
    ensures { Turns E.entries E.answer G.welcomes (ToServer conn max) link.old server.old result
        link.new server.new }
{
    let End::Ours { client, .. } = &mut link.end else {
        return Err(Refused::WrongPeer);
    };
    if let Some(_) = link.gone {
        return Ok(Seen::Fed(CLOSED));
    }
    if link.is_cut {
        return Ok(Seen::Fed(NOTHING));
    }
    let Ok(()) = draw_up(client, &mut link.up, max) else {
        return Err(Refused::Memory);
    };
    let Ok(took) = server.feed(conn, link.up.front(max)) else {
        return Err(Refused::Memory);
    };
    link.up.advance(took.used);
    Ok(Seen::Fed(took))
}

/// Bytes of a foreign peer.
pub(crate) fn foreign<E: Engine, G: Gate>(
    link: &mut Link,
    server: &mut Server<E, G>,
    conn: u64,
    bytes: &[u8],
) -> Result<Seen, Refused>
    ensures { Turns E.entries E.answer G.welcomes (Feeds conn bytes.now) link.old server.old result
        link.new server.new }
{
    let End::Foreign = &link.end else {
        return Err(Refused::WrongPeer);
    };
    if let Some(_) = link.gone {
        return Ok(Seen::Fed(CLOSED));
    }
    if link.is_cut {
        return Ok(Seen::Fed(NOTHING));
    }
    let Ok(took) = server.feed(conn, bytes) else {
        return Err(Refused::Memory);
    };
    Ok(Seen::Fed(took))
}

/// The next bytes of a session reach its peer.
pub(crate) fn to_client<E: Engine, G: Gate>(
    link: &mut Link,
    server: &mut Server<E, G>,
    conn: u64,
    max: usize,
) -> Result<Seen, Refused>
    ensures { Turns E.entries E.answer G.welcomes (ToClient conn max) link.old server.old result
        link.new server.new }
{
    if link.is_cut {
        return Ok(Seen::Gave {
            used: 0,
            heard: Heard::Nothing,
        });
    }
    match &link.end {
        End::Ours { .. } => hear(link, server, conn, max),
        End::Foreign => drain(link, server, conn, max),
    }
}

/// A client hears them, to the end of the item begun.
fn hear<E: Engine, G: Gate>(
    link: &mut Link,
    server: &mut Server<E, G>,
    conn: u64,
    max: usize,
) -> Result<Seen, Refused>
    requires joined { link.old.is_cut ≡ false }
    requires ours { end_peer link.old.end ≡ ForeignPeer → ⊥ }
    ensures { Turns E.entries E.answer G.welcomes (ToClient conn max) link.old server.old result
        link.new server.new }
{
    let End::Ours { client, .. } = &mut link.end else {
        unreachable!();
    };
    if client.has_ended() {
        return Ok(Seen::Gave {
            used: 0,
            heard: Heard::Nothing,
        });
    }
    if link.read.reserve(1).is_err() {
        return Err(Refused::Memory);
    }
    let Ok(()) = draw_down(link.gone, &mut link.down, server, conn, max) else {
        return Err(Refused::Memory);
    };
    // Nothing but want of memory: the client hasn't ended, and no server of this product gives a bad answer.
    let Ok((used, heard)) = client.feed(link.down.front(max)) else {
        return Err(Refused::Memory);
    };
    link.down.advance(used);
    note_heard(&mut link.read, &heard);
    Ok(Seen::Gave { used, heard })
}

/// A summary that was read goes into the report.
fn note_heard(read: &mut Vec<Read>, heard: &Heard)
    requires { vec_len read.old < vec_capacity read.old }
    ensures { map read_of read.new.items
        ≡ map read_of read.old.items ++ read_after (tellings (note heard.now)) [] }
{
    if let Heard::Summary {
        ordinal,
        phase,
        outcome,
        ..
    } = heard
    {
        read.push_reserved(Read {
            ordinal: *ordinal,
            phase: *phase,
            outcome: *outcome,
        });
    }
}

/// A foreign peer takes all that is out.
fn drain<E: Engine, G: Gate>(
    link: &mut Link,
    server: &mut Server<E, G>,
    conn: u64,
    max: usize,
) -> Result<Seen, Refused>
    requires joined { link.old.is_cut ≡ false }
    requires foreign { end_peer link.old.end ≡ ForeignPeer }
    ensures { Turns E.entries E.answer G.welcomes (ToClient conn max) link.old server.old result
        link.new server.new }
{
    if link.down.join().is_err() {
        return Err(Refused::Memory);
    }
    if let Some(_) = link.gone {
        return Ok(drained(&mut link.down));
    }
    let missing = max.saturating_sub(link.down.len());
    let Ok(more) = server.take_out(conn, missing) else {
        return Err(Refused::Memory);
    };
    link.down.put(more);
    Ok(drained(&mut link.down))
}

/// All of them are read and dropped.
fn drained(down: &mut Flow) -> Seen
    ensures seen { result ≡ Seen.Gave (length (flow_of down.old)) Heard.Nothing }
    ensures none { flow_of down.new ≡ [] }
{
    let used = down.len();
    down.clear();
    Seen::Gave {
        used,
        heard: Heard::Nothing,
    }
}
