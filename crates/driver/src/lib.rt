//! A connection over streams, for callers that run queries: the greeting, queries with their rows, transactions, and a transaction that is sent
//! under its token until its fate is known.
#![tactic(auto)]

mod accounts;
mod attempting;
mod breaks;
mod connection;
mod exchanging;
mod faults;
mod log;
mod parts;
mod pipelines;
mod queries;
mod retrying;
mod values;

pub use attempting::{Asked, Attempted, attempt_over};
pub use breaks::Break;
pub use connection::{Answer, Connection};
pub use exchanging::exchange;
pub use faults::{BadToken, Fault};
pub use log::{Log, Step};
pub use queries::Query;
pub use retrying::{Connects, until_known};
pub use values::{as_bool, as_bytes, as_float, as_int, as_list, as_text, column, text_cell};
