//! The lines of scripts: what a world, a client at a shell or a pair of ends is told to do, in words.
//!
//! What holds of all lines stands in [`laws`].
#![tactic(auto)]

mod events;
mod fault;
pub mod laws;
mod line;
mod meaning;
mod params;
mod reader;
mod request;
mod requests;
mod script;
mod words;

pub use fault::{LineFault, ScriptFault};
pub use line::{Amount, Line, Peer, Times};
pub use reader::{read_line, read_request};
pub use request::ScriptRequest;
pub use script::{Numbered, read_requests, read_script};
pub use words::number_of;
