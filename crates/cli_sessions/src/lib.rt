//! Runs the commands `bolt shell`, `bolt loop` and `bolt serve` over streams. The program `bolt` opens the sockets and files.
//!
//! - [`shell`] sends a request for each line that it reads, and prints what the server answers.
//! - [`run_loop`] runs a client and a server in one process, over both ways of a connection.
//! - [`serve_next`] opens a session, and serves one connection to its end. The program calls it for one connection after another.
#![tactic(auto)]

mod answers;
mod caller;
mod connections;
mod errors;
mod loops;
mod passing;
mod shell_streams;
mod shells;
mod ways;

pub use caller::Caller;
pub use connections::{ServedOne, ServerStreams, drain, open_session, serve_next};
pub use loops::run_loop;
pub use shell_streams::ShellStreams;
pub use shells::shell;
pub use ways::{BothWays, OneWay};
