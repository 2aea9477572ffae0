//! A pipelining client of the Bolt protocol: requests of a caller and bytes of a server go in; bytes, rows, summaries and outcomes
//! come out.
//!
//! What holds over every list of calls stands in [`laws`]. A caller relies on `tells_by_bytes`, `keeps_few`, `refuses_texts` and `loses_each`.
#![tactic(auto)]

mod answer;
mod asking;
mod calls;
mod client;
mod data;
mod faults;
mod heard;
pub mod laws;
mod losses;
mod outcomes;
mod pipeline;
mod stream;
mod submission;
mod verdicts;
mod version_answer;

pub use client::Client;
pub use faults::{ClientFault, SubmitFault, Unwritable};
pub use heard::{Heard, Outcome};
pub use losses::Losses;
