//! Cells, spelled straight into an output in the form of a version, in one pass and without memory but the output's.
//!
//! What is promised is promised one way: where a function says yes, what it added is the shortest spelling of a good value. Where it
//! says no, a part may have been added, which [`Output::undo`] takes off again, and nothing is said of why: the way over a value tells that.
#![tactic(auto)]

mod fault;
mod graphs;
mod moments;
mod scope;
mod spelling;
mod texts;
mod whole;

pub use fault::Unspelled;
pub use packstream::writing::{Output, put_int, put_short_text};
pub use texts::put_text;
pub use whole::{put_dict, put_list};
