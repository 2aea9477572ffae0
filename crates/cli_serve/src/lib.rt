//! A server of many connections at a port: what serves whoever comes and prints each end, and what is said when it ends.
#![tactic(auto)]

mod printed;
mod reasons;
mod serving;

pub use reasons::{Reason, put_reason};
pub use server_event_loop::Limits;
pub use server_tcp::Place;
pub use serving::serve_at;
