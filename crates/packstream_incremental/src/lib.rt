//! Values of PackStream 1 out of bytes that come in pieces.
//!
//! What holds of all that was read stands in [`laws`]: who feeds a reader says by them of which bytes it tells.
#![tactic(auto)]

mod head;
mod items;
pub mod laws;
mod open;
mod piece;
mod progress;
mod read_fault;
mod reader;
mod texts;

pub use piece::read_piece;
pub use reader::Reader;
