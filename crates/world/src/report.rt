//! What is reported of a world.
ghost use Rattle.std.specs.Prelude.{◌≡◌, Option};
ghost use Rattle.client.specs.Rest.{Rest as Asking};
ghost use Rattle.server.specs.Serving.{Rest as Serving};
ghost use Rattle.server.specs.Views.{Fits as FitsServer};
ghost use Rattle.world.specs.Reported.{StandsBy};
ghost use Rattle.world.specs.Views.{losses_of, end_lost, end_peer, peer_of, FitsEnd, waiting_at};

use crate::kinds::Peer;
use crate::link::{End, Link, Read, Wrote};
use crate::world::World;
use client::Outcome;
use engine::{Engine, Entry, Gate};
use machine::State;
use server::{Cause, Server};

/// Where a session stands.
#[derive(Clone, Copy, Debug, PartialEq, Eq)]
pub enum Standing {
    /// It goes on in this state.
    Stands(State),
    Ended(Cause),
}

/// What is reported of a connection. Of a foreign peer nothing was read, lost or waits.
#[derive(Clone, Copy)]
pub struct Connection<'a> {
    pub peer: Peer,
    /// The summaries that the session wrote, in order.
    pub wrote: &'a [Wrote],
    /// Those that the client read, in order.
    pub read: &'a [Read],
    /// The outcomes that the client gave when it was lost, with the requests' ordinals.
    pub lost: &'a [(u64, Outcome)],
    /// How many requests still wait for a summary; their ordinals follow those of the summaries that were read.
    pub waits: usize,
    pub standing: Standing,
}

/// What is reported of a world: each connection, by the number that its opening answered, and the ledger. All that it tells is lent.
#[derive(Drop)]
pub struct Report<'a, E, G> {
    pub(crate) world: &'a World<E, G>,
}

impl<'a, E: Engine, G: Gate> Report<'a, E, G> {
    ghost use Rattle.std.specs.Prelude.{◌≡◌, List, length};
    ghost use Rattle.engine.specs.Views.{EntryView, entries_view};
    ghost use Rattle.world.specs.World.{World as WorldSeen, Reached, ledger};
    ghost use Rattle.world.specs.Reported.{Lends, Reports};
    ghost use Rattle.world.specs.Turns.{setting_of};

    /// How many connections were opened; their numbers begin at 0. Takes no memory.
    pub fn connections(&self) -> u64
        ensures { (gate : G) (w : WorldSeen) → Lends E.entries self.now gate w
            → result ≡ length w.conns }
    {
        self.world.connections()
    }

    /// What is reported of a connection; None if no such was opened. Takes no memory.
    pub fn connection(&self, conn: u64) -> Option<Connection<'a>>
        ensures { (gate : G) (brought : List EntryView) (w : WorldSeen)
            → Reached (setting_of E.answer G.welcomes gate) brought w
            → Lends E.entries self.now gate w → Reports w conn result }
    {
        self.world.connection(conn)
    }

    /// The ledger: the entries that the engine brought, and those since. Takes no memory.
    pub fn ledger(&self) -> &'a [Entry]
        ensures { (gate : G) (w : WorldSeen) → Lends E.entries self.now gate w
            → entries_view result.now ≡ ledger w }
    {
        self.world.ledger()
    }
}

/// The outcomes at the loss of a link's client.
pub(crate) fn losses(end: &End) -> &[(u64, Outcome)]
    ensures { result.now ≡ losses_of (end_lost end.now) }
{
    match end {
        End::Ours {
            lost: Some(losses),
            ..
        } => losses.as_slice(),
        _ => &[],
    }
}

/// How many requests of a link's client wait.
pub(crate) fn waiting(link: &Link) -> usize
    ensures { (x : Option Asking) → FitsEnd link.now.end x → result ≡ waiting_at x }
{
    match &link.end {
        End::Ours { client, .. } => client.pending(),
        End::Foreign => 0,
    }
}

/// The peer of a link.
pub(crate) fn peer(end: &End) -> Peer
    ensures { peer_of result ≡ end_peer end.now }
{
    match end {
        End::Ours { wish, .. } => Peer::Ours(*wish),
        End::Foreign => Peer::Foreign,
    }
}

/// Where a session stands, by the cause that its loss told, if it was given up.
pub(crate) fn standing_at<E: Engine, G: Gate>(
    server: &Server<E, G>,
    conn: u64,
    gone: Option<Cause>,
) -> Standing
    ensures { (r : Serving G) → FitsServer E.entries server.now r → StandsBy gone conn r result }
{
    if let Some(cause) = gone {
        return Standing::Ended(cause);
    }
    if let Some(cause) = server.cause(conn) {
        return Standing::Ended(cause);
    }
    Standing::Stands(server.state(conn).unwrap_or(State::Defunct))
}
