//! A client and a server, call by call, each call again if it is refused for memory.

use crate::asked::{Table, Unplayed, requests, server};
use crate::play::mixed;
use bytes::Bytes;
use client::{Client, ClientFault, Heard, SubmitFault};
use engine::Engine;
use machine::{Phase, State};
use messages::Request;
use server::{Cause, Refused, Took, Worked};
use std::alloc::Global;
use wire::{Version, Wish};

/// How often a call is given again.
const MOST_AGAIN: usize = 1000;

/// A refused call changed what can be seen.
const TORN: u64 = 7;

/// More pieces and steps than there are.
const MANY: usize = 10_000;

/// The session that is spoken to.
const CONN: u64 = 0;

/// Both ends, and what is looked at.
#[derive(Drop)]
struct Link {
    server: Table,
    client: Client,
    /// Whether a refused call changed what can be seen of its object.
    is_torn: bool,
    /// The bytes both ways, and what was told.
    sum: u64,
}

/// What can be seen of a session without memory.
fn seen_of(server: &Table) -> (Option<State>, Option<Cause>, usize) {
    (
        server.state(CONN),
        server.cause(CONN),
        server.engine().ledger().len(),
    )
}

/// What can be seen of a client without memory.
fn seen_at(client: &Client) -> (Phase, usize, u64, bool) {
    (
        client.phase(),
        client.pending(),
        client.first_waiting(),
        client.awaits(),
    )
}

impl Link {
    fn feed_server(&mut self, piece: &[u8]) -> Result<Took, Unplayed> {
        let before = seen_of(&self.server);
        for _again in 0..MOST_AGAIN {
            match self.server.feed(CONN, piece) {
                Err(Refused::Memory) => self.is_torn |= seen_of(&self.server) != before,
                took => return Ok(took?),
            }
        }
        Err(Unplayed)
    }

    fn work(&mut self) -> Result<Worked, Unplayed> {
        let before = seen_of(&self.server);
        for _again in 0..MOST_AGAIN {
            match self.server.work(CONN) {
                Err(Refused::Memory) => self.is_torn |= seen_of(&self.server) != before,
                worked => return Ok(worked?),
            }
        }
        Err(Unplayed)
    }

    fn out_of_server(&mut self) -> Result<Bytes, Unplayed> {
        let before = seen_of(&self.server);
        for _again in 0..MOST_AGAIN {
            match self.server.take_out(CONN, 17) {
                Err(Refused::Memory) => self.is_torn |= seen_of(&self.server) != before,
                out => return Ok(out?),
            }
        }
        Err(Unplayed)
    }

    fn noop(&mut self) -> Result<bool, Unplayed> {
        let before = seen_of(&self.server);
        for _again in 0..MOST_AGAIN {
            match self.server.noop(CONN) {
                Err(Refused::Memory) => self.is_torn |= seen_of(&self.server) != before,
                put => return Ok(put?),
            }
        }
        Err(Unplayed)
    }

    fn submit(&mut self, request: &Request) -> Result<u64, Unplayed> {
        let before = seen_at(&self.client);
        for _again in 0..MOST_AGAIN {
            let Ok(given) = request.clone() else {
                continue;
            };
            match self.client.submit(given) {
                Err(SubmitFault::Memory) => self.is_torn |= seen_at(&self.client) != before,
                ordinal => return Ok(ordinal?),
            }
        }
        Err(Unplayed)
    }

    fn out_of_client(&mut self) -> Result<Bytes, Unplayed> {
        let before = seen_at(&self.client);
        for _again in 0..MOST_AGAIN {
            match self.client.take_out(13) {
                Err(ClientFault::Memory) => self.is_torn |= seen_at(&self.client) != before,
                out => return Ok(out?),
            }
        }
        Err(Unplayed)
    }

    fn feed_client(&mut self, piece: &[u8]) -> Result<(usize, Heard), Unplayed> {
        let before = seen_at(&self.client);
        for _again in 0..MOST_AGAIN {
            match self.client.feed(piece) {
                Err(ClientFault::Memory) => self.is_torn |= seen_at(&self.client) != before,
                heard => return Ok(heard?),
            }
        }
        Err(Unplayed)
    }

    fn note(&mut self, bytes: &[u8]) {
        for byte in bytes {
            self.sum = mixed(self.sum, *byte as u64);
        }
    }

    /// All that the client has to say reaches the session, in small pieces.
    fn up(&mut self) -> Result<(), Unplayed> {
        for _piece in 0..MANY {
            let piece = self.out_of_client()?;
            if piece.is_empty() {
                return Ok(());
            }
            self.note(&piece);
            let mut rest: &[u8] = &piece;
            for _part in 0..MANY {
                if rest.is_empty() {
                    break;
                }
                let used = self.feed_server(rest)?.used;
                rest = rest.get(used..).unwrap_or(&[]);
            }
        }
        Ok(())
    }

    /// All that the session has to say reaches the client, in small pieces.
    fn down(&mut self) -> Result<(), Unplayed> {
        for _piece in 0..MANY {
            let piece = self.out_of_server()?;
            if piece.is_empty() {
                return Ok(());
            }
            self.note(&piece);
            let mut rest: &[u8] = &piece;
            for _part in 0..MANY {
                if rest.is_empty() {
                    break;
                }
                let (used, heard) = self.feed_client(rest)?;
                self.sum = mixed(self.sum, told(&heard));
                rest = rest.get(used..).unwrap_or(&[]);
            }
        }
        Ok(())
    }

    fn work_all(&mut self) -> Result<(), Unplayed> {
        for _step in 0..MANY {
            match self.work()? {
                Worked::Row => {
                    self.server.write_rows(CONN);
                }
                Worked::Wrote { .. } => {}
                _ => return Ok(()),
            }
        }
        Ok(())
    }

    /// The number of what was moved and told, and of the ledger's length.
    fn converse_all(&mut self, requests: &[Request]) -> Result<u64, Unplayed> {
        self.up()?;
        self.down()?;
        for request in requests {
            self.converse(request)?;
        }
        if self.is_torn {
            return Ok(TORN);
        }
        let entries = self.server.engine().ledger().len();
        Ok(mixed(self.sum, entries as u64))
    }

    /// A request is sent, worked and answered.
    fn converse(&mut self, request: &Request) -> Result<(), Unplayed> {
        self.submit(request)?;
        self.up()?;
        self.noop()?;
        self.work_all()?;
        self.down()
    }
}

fn told(heard: &Heard) -> u64 {
    match heard {
        Heard::Nothing => 0,
        Heard::Version(_) => 1,
        Heard::Row(_) => 2,
        Heard::Summary { ordinal, .. } => ordinal.wrapping_add(3),
    }
}

fn linked(alloc: Global) -> Result<Link, Unplayed> {
    let mut server = server(alloc)?;
    let _ = server.open()?;
    Ok(Link {
        server,
        client: Client::new(alloc, Wish::Only(Version::V51))?,
        is_torn: false,
        sum: 1 << 40,
    })
}

/// A conversation, each request sent, worked and answered in turn.
pub fn ends(alloc: Global) -> Result<u64, Unplayed> {
    let requests = requests(alloc)?;
    let mut link = linked(alloc)?;
    link.converse_all(&requests)
}
