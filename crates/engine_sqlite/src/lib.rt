//! An engine whose ledger outlives its server: an engine in memory that answers, and a database in a file that keeps its ledger.
//!
//! What holds of all tables of entries stands in [`laws`]: `one_ledger`.
#![tactic(auto)]

mod adding;
mod codec;
mod fault;
mod lasting;
pub mod laws;
mod opening;
mod rows;
mod tables;

pub use fault::OpenFault;
pub use lasting::Lasting;
