//! Both ends of the protocol over one ledger: what clients may rely on, after any events.
//!
//! What clients may rely on is [`laws::clients_may_rely`]; what holds beside it of every list of events stands there too.
#![tactic(auto)]

mod events;
mod flow;
mod inflow;
mod kinds;
pub mod laws;
mod link;
mod outflow;
mod report;
mod session_loss;
mod submission;
mod turns;
mod world;

pub use events::replay;
pub use kinds::{Event, Peer, Refused, Seen};
pub use link::{Read, Wrote};
pub use report::{Connection, Report, Standing};
pub use world::World;
