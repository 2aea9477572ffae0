//! Sessions of a server over one engine and one gate.
//!
//! What holds over every list of calls stands in [`laws`]. Who runs a server relies on `keeps_limits`, `leaves_others` and `grows_by_commits`, who reads what
//! was answered on `places_follow_bytes`.
#![tactic(auto)]

mod connected;
mod input;
mod kinds;
pub mod laws;
mod places;
mod receipt;
mod server;

pub use kinds::{Refused, Took};
pub use server::Server;
pub use server_session::{Cause, What, Worked};

/// The most sessions that live: `open` answers N2 if as many do.
pub const MAX_SESSIONS: usize = 16;

/// The numbers of connections are below this: `open` answers N2 if none is left.
pub const MAX_NUMBERS: u64 = 1 << 63;
