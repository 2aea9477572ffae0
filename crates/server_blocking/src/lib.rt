//! Serves a session of a server over a source and a sink.
#![tactic(auto)]

mod due;
mod intake;
mod liveness;
mod response;
mod server_end;

pub use intake::take_piece;
pub use liveness::Liveness;
pub use response::{End, Responded, respond};
pub use server_end::{converse, serve_one};
