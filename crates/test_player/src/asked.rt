//! A client with a pipeline, and a server for it.

use cli_scripts::{Numbered, ScriptFault, read_requests};
use client::{Client, ClientFault, SubmitFault};
use engine::{FixedTable, OneUser};
use messages::Request;
use server::{Refused, Server};
use std::alloc::{AllocError, AllocFailed, Global};
use wire::{Version, Wish};

/// A server over an empty table and the gate of `user` with `pass`.
pub type Table = Server<FixedTable, OneUser>;

/// A conversation couldn't be had: a call was refused, for want of memory or else.
#[derive(Clone, Copy, Debug, PartialEq, Eq)]
pub struct Unplayed;

impl From<AllocError> for Unplayed {
    fn from(_fault: AllocError) -> Unplayed {
        Unplayed
    }
}

impl<T: Drop> From<AllocFailed<T>> for Unplayed {
    fn from(_fault: AllocFailed<T>) -> Unplayed {
        Unplayed
    }
}

impl From<ScriptFault> for Unplayed {
    fn from(_fault: ScriptFault) -> Unplayed {
        Unplayed
    }
}

impl From<Refused> for Unplayed {
    fn from(_fault: Refused) -> Unplayed {
        Unplayed
    }
}

impl From<ClientFault> for Unplayed {
    fn from(_fault: ClientFault) -> Unplayed {
        Unplayed
    }
}

impl From<SubmitFault> for Unplayed {
    fn from(_fault: SubmitFault) -> Unplayed {
        Unplayed
    }
}

/// A new server.
pub fn server(alloc: Global) -> Result<Table, AllocError> {
    let gate = OneUser::new(alloc, "user", "pass")?;
    Ok(Server::new(alloc, FixedTable::new(alloc), gate))
}

/// HELLO, LOGON, a transaction and a result: two commits in all.
const ASKED: &str = "hello
logon
begin
run PUT A2836B6579816B8576616C756501
pull -1
commit
run ROWS A1816E03
pull -1
";

/// These requests.
pub fn requests(alloc: Global) -> Result<Vec<Request>, Unplayed> {
    let mut requests = Vec::new(alloc);
    for Numbered { said, .. } in read_requests(alloc, ASKED.as_bytes())? {
        requests.push(said.into_request(alloc, Version::V51)?)?;
    }
    Ok(requests)
}

/// A client at 5.1 that has heard the version, with these requests in its pipeline.
pub fn asking(alloc: Global) -> Result<Client, Unplayed> {
    let mut client = Client::new(alloc, Wish::Only(Version::V51))?;
    client.feed(&[0, 0, 1, 5])?;
    for request in requests(alloc)? {
        client.submit(request)?;
    }
    Ok(client)
}
