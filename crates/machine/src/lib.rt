//! The states of a session of the Bolt protocol: what each request may make of them, and which may follow where answers are
//! still waited for.
//!
//! What holds of all rows stands in [`laws`]. A client relies on `allowed_is_valid`, `rows_follow` and `interrupted_rows_follow`.
#![tactic(auto)]

mod kinds;
pub mod laws;
mod phase_set;
mod phases;
mod requests;
mod rows;
mod states;
mod successors;

pub use kinds::Kind;
pub use phase_set::PhaseSet;
pub use phases::{phase, state_of};
pub use requests::{is_goodbye, is_partial, is_reset, kind};
pub use rows::{Verdict, row};
pub use states::{Phase, State};
pub use successors::{after, allowed};

/// The most requests that wait for their answers: a client submits no further one (C2), and a session reads none.
pub const MAX_WAITING: usize = 32;

/// The ordinals of requests are below this. Where none is left, both ends do as where `MAX_WAITING` wait.
pub const MAX_ORDINALS: u64 = 1 << 63;
