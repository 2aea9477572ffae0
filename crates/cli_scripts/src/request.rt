//! The requests of scripts.

use messages::{Count, Mode};
use structures::Cell;

/// A request as a line says it. What it is as a message depends on the version of the connection.
#[derive(Debug, Drop)]
pub enum ScriptRequest {
    /// `hello`.
    Hello,
    /// `logon`.
    Logon,
    /// `logon bad`.
    LogonBad,
    /// `logoff`.
    Logoff,
    /// `goodbye`.
    Goodbye,
    /// `reset`.
    Reset,
    /// `run TEXT HEX`, `run TEXT HEX r`, and either with `token T` behind it.
    Run {
        text: String,
        /// The parameters in their order.
        params: Vec<(String, Cell)>,
        mode: Mode,
        /// One with more than 64 bytes can't be sent.
        token: Option<String>,
    },
    /// `begin`, `begin r`, and either with `token T` behind it.
    Begin {
        mode: Mode,
        /// Of the transaction, if it has one.
        token: Option<String>,
    },
    /// `commit`.
    Commit,
    /// `rollback`.
    Rollback,
    /// `discard N`. A number below 1 other than -1 can't be sent.
    Discard(Count),
    /// `pull N`. The same.
    Pull(Count),
}
