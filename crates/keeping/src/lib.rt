//! A server whose ledger is in a file: what opens it, what serves until its disk fails, and what is said when it ends.
#![tactic(auto)]

mod connections;
mod files;
mod reasons;

pub use connections::serve_until_failed;
pub use files::{open_ledger, serve_database, serve_file};
pub use reasons::{Reason, put_reason};
