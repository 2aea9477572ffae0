//! What a session does with the requests that it was handed: they wait in a queue, each is answered in its turn by one step, and
//! what it commits goes to an engine. Of bytes this crate knows those that go out.
#![tactic(auto)]

mod acts;
mod agent;
mod commit;
mod decision;
mod fault;
mod kinds;
pub mod laws;
mod opening;
mod query_answer;
mod queue;
mod remaining;
mod result;
mod result_end;
mod rows;
mod rows_owed;
mod session;
mod spelling;
mod step;
mod summary;
mod waiting;
mod words;

pub use kinds::{Cause, What, Worked};
pub use session::Session;

/// The most writes of a transaction: a RUN that would add a further one is answered by a FAILURE, TooManyWrites.
pub const MAX_WRITES: usize = 1024;

/// A step starts, and a no-op is put, while fewer bytes wait to go; else the step answers Full.
pub const MAX_UNSENT: usize = 65536;
