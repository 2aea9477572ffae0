//! The inbox of an end: the messages and no-ops of a stream of chunks, out of pieces, and nothing kept but what was read of the message that isn't whole.
//!
//! An end reads what opens its stream itself; what follows is what an inbox takes.
#![tactic(auto)]

mod begun;
mod brought;
mod inbox;
mod readable;
mod stream;
mod whole_message;

pub use brought::Brought;
pub use inbox::Inbox;
pub use readable::Readable;
