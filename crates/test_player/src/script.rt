//! The events of a script.

use crate::asked::Unplayed;
use cli_scripts::{Amount, Line, Numbered, Peer as Said, Times, read_script};
use std::alloc::{AllocError, Global};
use wire::{Version, Wish};
use world::{Event, Peer};

/// The most bytes that a line of `all` moves at once.
const ALL: usize = 65_536;

/// How often a line of `all` is repeated at most.
const MOST: u32 = 100_000;

/// A line of a script: its event, given so often as it moves something, at most `times`.
#[derive(Drop)]
pub struct Step {
    /// The line's number, from 1.
    pub line: usize,
    pub event: Event,
    pub times: u32,
}

/// The forms of a script's HELLOs: at 5.1 without a login, below with one.
#[derive(Clone, Copy, Debug, PartialEq, Eq)]
pub enum Hellos {
    /// Each is of its connection's version.
    OfTheVersion,
    /// One on a line of an odd number is of the other form.
    Mixed,
}

impl Hellos {
    /// The version at which the request of a line is written, on a connection of this one.
    fn version(self, line: usize, of: Version) -> Version {
        if self == Hellos::OfTheVersion || line % 2 == 0 {
            return of;
        }
        match of {
            Version::V51 => Version::V44,
            Version::V44 | Version::V50 => Version::V51,
        }
    }
}

/// The bytes of the first line of a script, which says what a stranger sends.
pub fn foreign(alloc: Global, script: &str) -> Result<Vec<u8>, Unplayed> {
    for Numbered { said, .. } in read_script(alloc, script.as_bytes())? {
        if let Line::Foreign { bytes, .. } = said {
            return Ok(bytes);
        }
    }
    Err(Unplayed)
}

/// The steps of a script, a line each.
pub fn steps(alloc: Global, script: &str, hellos: Hellos) -> Result<Vec<Step>, Unplayed> {
    let lines = read_script(alloc, script.as_bytes())?;
    let mut versions = Vec::new(alloc);
    let mut steps = Vec::new(alloc);
    for Numbered { number, said } in lines {
        if let Line::Open(peer) = said {
            versions.push(version(peer))?;
        }
        steps.push(step_of(alloc, &versions, hellos, number, said)?)?;
    }
    Ok(steps)
}

/// The version at which a peer's requests are written.
fn version(peer: Said) -> Version {
    match peer {
        Said::Ours(Wish::Only(version)) => version,
        Said::Ours(Wish::Newest) => Version::V51,
        Said::Foreign => Version::V51,
    }
}

/// The step of a line, if the connections have these versions.
fn step_of(
    alloc: Global,
    versions: &[Version],
    hellos: Hellos,
    line: usize,
    said: Line,
) -> Result<Step, AllocError> {
    let (event, times) = match said {
        Line::Open(peer) => (Event::Open(opened(peer)), 1),
        Line::Submit { conn, request } => {
            let version = versions.get(conn as usize).copied().unwrap_or(Version::V51);
            let request = request.into_request(alloc, hellos.version(line, version))?;
            (Event::Submit(conn, request), 1)
        }
        Line::ToServer { conn, amount } => (Event::ToServer(conn, bytes(amount)), turns(amount)),
        Line::ToClient { conn, amount } => (Event::ToClient(conn, bytes(amount)), turns(amount)),
        Line::Work { conn, times } => match times {
            Times::Once => (Event::Work(conn), 1),
            Times::All => (Event::Work(conn), MOST),
        },
        Line::Noop { conn } => (Event::Noop(conn), 1),
        Line::Cut { conn } => (Event::Cut(conn), 1),
        Line::ClientLost { conn } => (Event::ClientLost(conn), 1),
        Line::ServerLost { conn } => (Event::ServerLost(conn), 1),
        Line::Foreign { conn, bytes } => (Event::Foreign(conn, bytes), 1),
    };
    Ok(Step { line, event, times })
}

fn opened(peer: Said) -> Peer {
    match peer {
        Said::Ours(wish) => Peer::Ours(wish),
        Said::Foreign => Peer::Foreign,
    }
}

fn bytes(amount: Amount) -> usize {
    match amount {
        Amount::Bytes(count) => count,
        Amount::All => ALL,
    }
}

fn turns(amount: Amount) -> u32 {
    match amount {
        Amount::Bytes(_) => 1,
        Amount::All => MOST,
    }
}
