//! What the program `bolt` says: of the bytes of a client, of cells, of the script of a world, and of its own vectors, over streams.
//!
//! What holds of the answers, whatever gives them, stands in [`laws`].
#![tactic(auto)]

mod answers;
mod arguments;
mod checks;
mod codes;
mod commands;
mod end;
mod help;
pub mod laws;
mod refusal;
mod samples;
mod vectors;
mod words;

pub use answers::{AnswerFault, Answered, answer};
pub use arguments::{Wanted, Wrong};
pub use commands::command;
pub use end::end_text;
pub use help::help_text;
pub use words::{CommandLine, asked};
