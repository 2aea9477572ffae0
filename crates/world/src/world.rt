//! Both ends of every connection over one ledger.

use crate::kinds::{Event, Peer, Refused, Seen};
use crate::link::Link;
use crate::report::{Connection, Report, losses, peer, standing_at, waiting};
use crate::turns::turn;
use engine::{Engine, Entry, Gate};
use server::Server;
use std::alloc::Global;

/// A server, the clients of its connections, and the bytes on their way between them.
///
/// ```rust
/// let gate = OneUser::new(alloc, "user", "pass")?;
/// let mut world = World::new(alloc, FixedTable::new(alloc), gate);
/// ```
#[derive(Drop)]
pub struct World<E, G> {
    links: Vec<Link>,
    server: Server<E, G>,
    alloc: Global,
}

impl<E: Engine, G: Gate> World<E, G> {
    ghost use Rattle.std.specs.Prelude.{◌≡◌, List, length};
    ghost use Rattle.engine.specs.Views.{EntryView, entries_view};
    ghost use Rattle.world.specs.World.{World as WorldSeen, Reached, empty, ledger, Opens};
    ghost use Rattle.world.specs.Reported.{Lends, Reports};
    ghost use Rattle.world.specs.Good.{AllGood};
    ghost use Rattle.world.specs.Contract.{Steps};
    ghost use Rattle.world.specs.Views.{event_of, peer_of};
    ghost use Rattle.world.specs.Seeing.{IsOpens};
    ghost use Rattle.world.specs.Turns.{FitsWorld, setting_of, seen_in};

    /// A world without connections, over the ledger that the engine brings. Takes no memory.
    pub fn new(alloc: Global, engine: E, gate: G) -> World<E, G>
        ensures fits { FitsWorld E.entries result gate (empty (E.entries engine)) }
        ensures reached { Reached (setting_of E.answer G.welcomes gate) (E.entries engine)
            (empty (E.entries engine)) }
        ensures good { AllGood (setting_of E.answer G.welcomes gate) (empty (E.entries engine)) }
    {
        // What the engine brings is a ledger: no two of its entries have one token.
        let _count = engine.ledger().len();
        World {
            links: Vec::new(alloc),
            server: Server::new(alloc, engine, gate),
            alloc,
        }
    }

    /// One event; or V1 to V3 if it can't be, or V4, and nothing has changed but that a `ToClient` may have taken bytes out.
    pub fn step(&mut self, event: Event) -> Result<Seen, Refused>
        ensures { (gate : G) → Steps (setting_of E.answer G.welcomes gate) (event_of event)
            (seen_in result) (FitsWorld E.entries self.old gate)
            (FitsWorld E.entries self.new gate) }
    {
        match event {
            Event::Open(peer) => self.open(peer),
            event => self.turn(event),
        }
    }

    /// What is reported: it lends all that it tells. Takes no memory.
    pub fn report(&self) -> Report<'_, E, G>
        ensures { (gate : G) (w : WorldSeen) → FitsWorld E.entries self.now gate w
            → Lends E.entries result gate w }
    {
        Report { world: self }
    }

    /// The ledger: the entries that the engine brought, and those since. Takes no memory.
    pub fn ledger(&self) -> &[Entry]
        ensures { (gate : G) (w : WorldSeen) → FitsWorld E.entries self.now gate w
            → entries_view result.now ≡ ledger w }
    {
        self.server.engine().ledger()
    }

    /// How many connections were opened.
    pub(crate) fn connections(&self) -> u64
        ensures { (gate : G) (w : WorldSeen) → FitsWorld E.entries self.now gate w
            → result ≡ length w.conns }
    {
        self.links.len() as u64
    }

    /// What is reported of a connection; None if no such was opened.
    pub(crate) fn connection(&self, conn: u64) -> Option<Connection<'_>>
        ensures { (gate : G) (brought : List EntryView) (w : WorldSeen)
            → Reached (setting_of E.answer G.welcomes gate) brought w
            → FitsWorld E.entries self.now gate w → Reports w conn result }
    {
        if conn >= self.links.len() as u64 {
            return None;
        }
        let link = &self.links[conn as usize];
        Some(Connection {
            peer: peer(&link.end),
            wrote: link.wrote.as_slice(),
            read: link.read.as_slice(),
            lost: losses(&link.end),
            waits: waiting(link),
            standing: standing_at(&self.server, conn, link.gone),
        })
    }

    /// Opens a connection.
    fn open(&mut self, peer: Peer) -> Result<Seen, Refused>
        ensures { (gate : G) → Steps (setting_of E.answer G.welcomes gate) (Opens (peer_of peer))
            (seen_in result) (FitsWorld E.entries self.old gate)
            (FitsWorld E.entries self.new gate) }
    {
        if self.server.is_full() {
            return Err(Refused::SessionsFull);
        }
        let Ok(link) = Link::new(self.alloc, peer) else {
            return Err(Refused::Memory);
        };
        if self.links.reserve(1).is_err() {
            return Err(Refused::Memory);
        }
        let Ok(conn) = self.server.open() else {
            return Err(Refused::Memory);
        };
        self.links.push_reserved(link);
        Ok(Seen::Opened(conn))
    }

    /// An event of a connection.
    fn turn(&mut self, event: Event) -> Result<Seen, Refused>
        requires { IsOpens (event_of event) → ⊥ }
        ensures { (gate : G) → Steps (setting_of E.answer G.welcomes gate) (event_of event)
            (seen_in result) (FitsWorld E.entries self.old gate)
            (FitsWorld E.entries self.new gate) }
    {
        let conn = event.place();
        if conn >= self.links.len() as u64 {
            return Err(Refused::NoSuchConnection);
        }
        let link = &mut self.links[conn as usize];
        turn(link, &mut self.server, event)
    }
}
