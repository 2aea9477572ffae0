//! What stands between a client and who calls it, without input or output: a client that keeps track of its requests, and what attempts of one
//! transaction under one token tell.
//!
//! A caller moves the bytes: it takes out what is to be sent, and feeds what came. At any moment, after any call that was cut off too, the account
//! says of each request what is known of it.
#![tactic(auto)]

mod attempts;
mod faults;
pub mod laws;
mod replies;
mod requests;
mod telling;
mod tracking;

pub use attempts::{Fate, Retry, Tells};
pub use faults::FeedFault;
pub use requests::Rows;
pub use tracking::TrackingClient;
