//! A server with its sessions' clients, in one process.
use crate::tally::Tally;
use client::{Client, ClientFault, SubmitFault};
use client_tracking::FeedFault;
use engine::{Engine, FixedTable, OneUser};
use server::{Refused, Server};
use std::alloc::{AllocError, AllocFailed, Global};

/// The server that is timed.
pub(crate) type Ours = Server<FixedTable, OneUser>;

/// A client, and the number of its session.
#[derive(Drop)]
pub(crate) struct Link {
    pub conn: u64,
    pub client: Client,
}

/// A server with one client's session, and what was moved and heard.
#[derive(Drop)]
pub(crate) struct Pair {
    pub server: Ours,
    pub link: Link,
    pub tally: Tally,
}

impl Pair {
    /// The check number of a run.
    pub fn check(&self) -> u64 {
        self.tally.check(self.server.engine().ledger().len())
    }
}

/// A workload has stopped: want of memory, or an answer that it doesn't wait for.
#[derive(Clone, Copy)]
pub(crate) struct Stopped;

impl From<AllocError> for Stopped {
    fn from(_error: AllocError) -> Stopped {
        Stopped
    }
}

impl<T: Drop> From<AllocFailed<T>> for Stopped {
    fn from(_error: AllocFailed<T>) -> Stopped {
        Stopped
    }
}

impl From<Refused> for Stopped {
    fn from(_refused: Refused) -> Stopped {
        Stopped
    }
}

impl From<ClientFault> for Stopped {
    fn from(_fault: ClientFault) -> Stopped {
        Stopped
    }
}

impl From<FeedFault> for Stopped {
    fn from(_fault: FeedFault) -> Stopped {
        Stopped
    }
}

impl From<SubmitFault> for Stopped {
    fn from(_fault: SubmitFault) -> Stopped {
        Stopped
    }
}

/// A server over an empty table, with one user.
pub(crate) fn new_server(alloc: Global) -> Result<Ours, Stopped> {
    let gate = OneUser::new(alloc, "user", "pass")?;
    Ok(Server::new(alloc, FixedTable::new(alloc), gate))
}
