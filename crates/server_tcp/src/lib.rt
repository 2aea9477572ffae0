//! The peers of a server over the sockets of this machine: a [`Network`] is the [`Peers`](server_event_loop::Peers) of a listener and its
//! connections.
//!
//! No call on a socket waits but the one for all of them, and none raises a signal: a write to a peer that is gone fails. Every failure of a
//! connection ends that connection alone.
#![tactic(auto)]

mod failures;
mod network;
mod transfers;

pub use network::{Network, Place};
