//! Why not all was answered.

use thiserror::Error;

/// Why an exchange was broken off. The texts are the codes that programs print.
#[derive(Clone, Copy, Debug, PartialEq, Eq, Error)]
pub enum Break {
    /// The source has failed.
    #[error("I1")]
    ReadFailed,
    /// The sink has failed. What it took is a beginning of the output.
    #[error("I2")]
    WriteFailed,
    /// No memory was left.
    #[error("I3")]
    Memory,
    /// A bad answer, with which the client has ended.
    #[error("C6")]
    BadAnswer,
    /// The source has ended before all was answered.
    #[error("the server went away")]
    AtEnd,
    /// The client has ended while a request had no answer; or a GOODBYE waits, which has none.
    #[error("the connection has ended")]
    Ended,
    /// As many rows of the last request came as are kept, and more may.
    #[error("too many rows")]
    TooManyRows,
}
