//! What a world is told to do, and what is seen of it.

use client::{Heard, SubmitFault};
use messages::Request;
use server::{Took, Worked};
use std::alloc::AllocError;
use thiserror::Error;
use wire::Wish;

/// The peer of a session.
#[derive(Clone, Copy, Debug, PartialEq, Eq)]
pub enum Peer {
    /// A client of this product, with what it wishes.
    Ours(Wish),
    /// Any bytes, by `Event::Foreign`.
    Foreign,
}

/// One event. Each names its connection by the number that its opening answered, but the opening itself.
#[derive(Drop)]
pub enum Event {
    /// A connection is opened.
    Open(Peer),
    /// The client is asked to send a request.
    Submit(u64, Request),
    /// At most so many of the next bytes of the client reach the session.
    ToServer(u64, usize),
    /// At most so many of the next bytes of the session reach its peer.
    ToClient(u64, usize),
    /// The session does one step.
    Work(u64),
    /// The session puts a no-op.
    Noop(u64),
    /// From then on no byte moves, either way.
    Cut(u64),
    /// The client is lost: nothing more reaches it, but what it sent may.
    ClientLost(u64),
    /// The session is lost: it is given up, but what it said may be delivered.
    ServerLost(u64),
    /// Bytes of a foreign peer.
    Foreign(u64, Vec<u8>),
}

/// What is seen of an event.
#[derive(Drop)]
pub enum Seen {
    /// The number of the connection.
    Opened(u64),
    /// The request's ordinal, or why the client refuses it.
    Submitted(Result<u64, SubmitFault>),
    /// What the session took.
    Fed(Took),
    /// How many bytes the peer took, and what a client of ours heard at the last of them.
    Gave { used: usize, heard: Heard },
    /// What the session did.
    Worked(Worked),
    /// Whether a no-op was put.
    Noop(bool),
    /// A cut or a loss.
    Nothing,
}

/// Why a world did nothing.
#[derive(Clone, Copy, Debug, PartialEq, Eq, Error)]
pub enum Refused {
    /// No connection of this number was opened.
    #[error("V1")]
    NoSuchConnection,
    /// The peer of this connection takes no such event.
    #[error("V2")]
    WrongPeer,
    /// 16 sessions live, or no number is left.
    #[error("V3")]
    SessionsFull,
    /// Want of memory. Nothing has changed, save that a `ToClient` may have taken bytes out of its session.
    #[error("out of memory")]
    Memory,
}

impl Event {
    ghost use Rattle.std.specs.Prelude.{◌≡◌};
    ghost use Rattle.world.specs.World.{place};
    ghost use Rattle.world.specs.Views.{event_of};

    /// The number that it names, 0 for an opening.
    pub(crate) fn place(&self) -> u64
        ensures { result ≡ place (event_of self.now) }
    {
        match self {
            Event::Open(_) => 0,
            Event::Submit(conn, _) => *conn,
            Event::ToServer(conn, _) => *conn,
            Event::ToClient(conn, _) => *conn,
            Event::Work(conn) => *conn,
            Event::Noop(conn) => *conn,
            Event::Cut(conn) => *conn,
            Event::ClientLost(conn) => *conn,
            Event::ServerLost(conn) => *conn,
            Event::Foreign(conn, _) => *conn,
        }
    }
}

impl Clone for Event {
    ghost use Rattle.std.specs.Prelude.{◌≡◌};
    ghost use Rattle.world.specs.Views.{event_of};

    ghost is_clone = { λ a b. event_of b ≡ event_of a };

    fn clone(&self) -> Result<Event, AllocError> {
        match self {
            Event::Open(peer) => Ok(Event::Open(*peer)),
            Event::Submit(conn, request) => Ok(Event::Submit(*conn, request.clone()?)),
            Event::ToServer(conn, max) => Ok(Event::ToServer(*conn, *max)),
            Event::ToClient(conn, max) => Ok(Event::ToClient(*conn, *max)),
            Event::Work(conn) => Ok(Event::Work(*conn)),
            Event::Noop(conn) => Ok(Event::Noop(*conn)),
            Event::Cut(conn) => Ok(Event::Cut(*conn)),
            Event::ClientLost(conn) => Ok(Event::ClientLost(*conn)),
            Event::ServerLost(conn) => Ok(Event::ServerLost(*conn)),
            Event::Foreign(conn, bytes) => Ok(Event::Foreign(*conn, bytes.clone()?)),
        }
    }
}
