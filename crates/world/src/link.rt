//! What a world holds of a connection.

use crate::flow::Flow;
use crate::kinds::Peer;
use client::{Client, Losses, Outcome};
use machine::Phase;
use server::Cause;
use std::alloc::{AllocError, Global};
use wire::Wish;

/// A summary that a session wrote: the request's ordinal, and the phase that it leads to.
#[derive(Clone, Copy, Debug, PartialEq, Eq)]
pub struct Wrote {
    pub ordinal: u64,
    pub phase: Phase,
}

/// A summary that a client read, with what became of its request.
#[derive(Clone, Copy, Debug, PartialEq, Eq)]
pub struct Read {
    pub ordinal: u64,
    pub phase: Phase,
    pub outcome: Outcome,
}

/// The peer's end.
#[derive(Drop)]
pub(crate) enum End {
    /// The client, and the outcomes that it gave when it was lost.
    Ours {
        wish: Wish,
        client: Client,
        lost: Option<Losses>,
    },
    Foreign,
}

/// A connection, beside the session that the server holds.
#[derive(Drop)]
pub(crate) struct Link {
    pub end: End,
    /// To the session.
    pub up: Flow,
    /// To the peer.
    pub down: Flow,
    pub is_cut: bool,
    /// Why the session had ended, once it was given up.
    pub gone: Option<Cause>,
    pub wrote: Vec<Wrote>,
    pub read: Vec<Read>,
}

impl End {
    ghost use Rattle.std.specs.Prelude.{IfOk};
    ghost use Rattle.world.specs.Views.{Begins};

    /// Of a connection that is opened.
    pub fn new(alloc: Global, peer: Peer) -> Result<End, AllocError>
        ensures { IfOk result (Begins peer) }
    {
        match peer {
            Peer::Ours(wish) => match Client::new(alloc, wish) {
                Ok(client) => Ok(End::Ours {
                    wish,
                    client,
                    lost: None,
                }),
                Err(_) => Err(AllocError),
            },
            Peer::Foreign => Ok(End::Foreign),
        }
    }
}

impl Link {
    ghost use Rattle.std.specs.Prelude.{IfOk};
    ghost use Rattle.world.specs.Views.{IsOpened};

    /// A connection that is opened.
    pub fn new(alloc: Global, peer: Peer) -> Result<Link, AllocError>
        ensures { IfOk result (IsOpened peer) }
    {
        let end = End::new(alloc, peer)?;
        Ok(Link {
            end,
            up: Flow::new(alloc),
            down: Flow::new(alloc),
            is_cut: false,
            gone: None,
            wrote: Vec::new(alloc),
            read: Vec::new(alloc),
        })
    }
}
