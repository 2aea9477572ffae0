//! Sends a client's requests over a sink, and reads their answers from a source.
#![tactic(auto)]

mod client_end;

pub use client_end::{Told, ask_all, feed_piece, give_up, hear_piece, write_out};
