//! Serves many connections in one thread: each connection with its buffers, the turns of the connections, and the loop.
//!
//! [`serve`] is the loop. A [`Host`] is what it keeps between two rounds, and a [`Seat`] is a connection whose session is open. There are no
//! sockets, clocks or threads here: the caller passes a [`Peers`], as `server_tcp` does.
//!
//! [`turn_laws`] states that the turns of all connections, in any order, are one list of calls on the server. [`end_laws`] states that each
//! session is given up once.
#![tactic(auto)]

mod closing;
pub mod end_laws;
mod host;
mod journal;
mod limits;
mod line;
mod peers;
mod rounds;
mod seat;
mod serving;
pub mod turn_laws;
mod turns;

pub use closing::Closing;
pub use host::Host;
pub use journal::Journal;
pub use limits::{Limits, Readiness};
pub use line::Parting;
pub use peers::{Failed, Got, Greeting, Peers, Ready};
pub use seat::{Seat, Turned};
pub use serving::{Stopped, serve};

/// The most bytes of a connection that are read at once.
pub const MAX_PIECE: usize = 4096;

/// Once so many bytes, or more, were read of a connection after its session's end and dropped, no more are read.
pub const MAX_DRAINED: usize = 65_536;

/// The most connections whose sessions live: one for each session of the server.
pub const MAX_SEATS: usize = server::MAX_SESSIONS;

/// The most connections that are open, with those whose sessions were given up.
pub const MAX_CONNECTIONS: usize = 32;
