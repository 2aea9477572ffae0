//! Streams of bytes: sources that are read, and sinks that are written to.
#![tactic(auto)]

mod fault;
mod history;
mod memory;
mod over;
mod traits;
mod writer;

pub use fault::StreamFault;
pub use history::History;
pub use memory::{Buffer, Slice};
pub use over::Over;
pub use traits::{Failed, PeerSource, Sink, Source};
pub use writer::write_all;

/// The most bytes that either end reads at once.
pub const MAX_PIECE: usize = 4096;
