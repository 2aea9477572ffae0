//! The events of a script's lines.
ghost use Rattle.std.specs.Prelude.{◌≡◌, IfOk};
ghost use Rattle.cli_scripts.specs.Views.{line_view};
ghost use Rattle.cli_scripts.specs.Meant.{meant};
ghost use Rattle.cli_scripts.specs.Views.{script_request_view};
ghost use Rattle.world.specs.Views.{event_of, peer_of};
ghost use Rattle.world.specs.World.{Submit};
ghost use Rattle.cli_replay.specs.Events.{conn_of, event_by, repeats, is_all, is_always, bytes_in, peer_said};

use cli_scripts::{Amount, Line, Peer as PeerSaid, ScriptRequest, Times};
use std::alloc::{AllocError, Global};
use wire::{MAX_MESSAGE, Version};
use world::{Event, Peer};

/// The number of the connection of a line, 0 for an opening.
pub(crate) fn conn_of(line: &Line) -> u64
    ensures { result ≡ conn_of (line_view line.now) }
{
    match line {
        Line::Open(_) => 0,
        Line::Submit { conn, .. } => *conn,
        Line::ToServer { conn, .. } => *conn,
        Line::ToClient { conn, .. } => *conn,
        Line::Work { conn, .. } => *conn,
        Line::Noop { conn } => *conn,
        Line::Cut { conn } => *conn,
        Line::ClientLost { conn } => *conn,
        Line::ServerLost { conn } => *conn,
        Line::Foreign { conn, .. } => *conn,
    }
}

/// Whether a line has the word `all`.
pub(crate) fn repeats(line: &Line) -> bool
    ensures { result ≡ repeats (line_view line.now) }
{
    match line {
        Line::ToServer { amount, .. } => is_all(*amount),
        Line::ToClient { amount, .. } => is_all(*amount),
        Line::Work { times, .. } => is_always(*times),
        _ => false,
    }
}

fn is_all(amount: Amount) -> bool
    ensures { result ≡ is_all amount }
{
    match amount {
        Amount::Bytes(_) => false,
        Amount::All => true,
    }
}

fn is_always(times: Times) -> bool
    ensures { result ≡ is_always times }
{
    match times {
        Times::Once => false,
        Times::All => true,
    }
}

/// How many bytes a step moves at most.
fn bytes_in(amount: Amount) -> usize
    ensures { result ≡ bytes_in amount }
{
    match amount {
        Amount::Bytes(bytes) => bytes,
        Amount::All => MAX_MESSAGE,
    }
}

fn peer_said(peer: PeerSaid) -> Peer
    ensures { peer_of result ≡ peer_said peer }
{
    match peer {
        PeerSaid::Ours(wish) => Peer::Ours(wish),
        PeerSaid::Foreign => Peer::Foreign,
    }
}

/// The event of a line, whose request is of this version.
pub(crate) fn event_by(alloc: Global, version: Version, line: Line) -> Result<Event, AllocError>
    ensures { IfOk result (λ e. event_of e ≡ event_by version (line_view line)) }
{
    match line {
        Line::Open(peer) => Ok(Event::Open(peer_said(peer))),
        Line::Submit { conn, request } => submit(alloc, version, conn, request),
        Line::ToServer { conn, amount } => Ok(Event::ToServer(conn, bytes_in(amount))),
        Line::ToClient { conn, amount } => Ok(Event::ToClient(conn, bytes_in(amount))),
        Line::Work { conn, .. } => Ok(Event::Work(conn)),
        Line::Noop { conn } => Ok(Event::Noop(conn)),
        Line::Cut { conn } => Ok(Event::Cut(conn)),
        Line::ClientLost { conn } => Ok(Event::ClientLost(conn)),
        Line::ServerLost { conn } => Ok(Event::ServerLost(conn)),
        Line::Foreign { conn, bytes } => Ok(Event::Foreign(conn, bytes)),
    }
}

fn submit(
    alloc: Global,
    version: Version,
    conn: u64,
    request: ScriptRequest,
) -> Result<Event, AllocError>
    ensures { IfOk result (λ e. event_of e
        ≡ Submit conn (meant version (script_request_view request))) }
{
    let request = request.into_request(alloc, version)?;
    Ok(Event::Submit(conn, request))
}
