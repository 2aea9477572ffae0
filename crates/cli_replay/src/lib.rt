//! A script of a world: its lines are run, and what comes of them is told.
#![tactic(auto)]

mod events;
pub mod laws;
mod reports;
mod script;
mod script_lines;
mod source;
mod steps;

pub use reports::report;
pub use script::{Replayed, replay};
pub use script_lines::run;
pub use source::read_all;
pub use steps::Step;
