//! What programs print: names, lines, escaped texts, and why they stop.
//!
//! What holds of these texts stands in [`laws`].
#![tactic(auto)]

mod escapes;
pub mod laws;
mod names;
mod printed_lines;
mod standard_streams;
mod stop;
mod summaries;

pub use escapes::escape;
pub use names::{cause_code, outcome_name, phase_name, refusal_code, state_name, version_name};
pub use printed_lines::{
    entry_text, put, put_end, put_entries, put_failure, put_heard, put_refused, put_row, tell,
};
pub use standard_streams::fill_closed;
pub use stop::{StopReason, put_fault, put_stop};
pub use summaries::{LONGEST_SUMMARY, heard_line, summary};
