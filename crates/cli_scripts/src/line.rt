//! The lines of a script of a world.

use crate::request::ScriptRequest;
use wire::Wish;

/// The peer of a session.
#[derive(Clone, Copy, Debug, PartialEq, Eq)]
pub enum Peer {
    /// A client of this product, with what it wishes.
    Ours(Wish),
    /// Any bytes.
    Foreign,
}

/// How many bytes move.
#[derive(Clone, Copy, Debug, PartialEq, Eq)]
pub enum Amount {
    /// At most so many, once.
    Bytes(usize),
    /// As many as there are, step by step.
    All,
}

/// How often a session works.
#[derive(Clone, Copy, Debug, PartialEq, Eq)]
pub enum Times {
    Once,
    /// Until nothing is due.
    All,
}

/// A line. `conn` is the number of its connection, in the order of opening from 0.
#[derive(Debug, Drop)]
pub enum Line {
    /// `open newest`, `open 4.4`, `open 5.0`, `open 5.1`, `open foreign`.
    Open(Peer),
    /// `submit K REQUEST`.
    Submit { conn: u64, request: ScriptRequest },
    /// `server K N`, `server K all`.
    ToServer { conn: u64, amount: Amount },
    /// `client K N`, `client K all`.
    ToClient { conn: u64, amount: Amount },
    /// `work K`, `work K all`.
    Work { conn: u64, times: Times },
    /// `noop K`.
    Noop { conn: u64 },
    /// `cut K`.
    Cut { conn: u64 },
    /// `clientlost K`.
    ClientLost { conn: u64 },
    /// `serverlost K`.
    ServerLost { conn: u64 },
    /// `foreign K HEX`.
    Foreign { conn: u64, bytes: Vec<u8> },
}
