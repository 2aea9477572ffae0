//! What comes between a session and its client.

use thiserror::Error;

/// Why a conversation was broken off.
#[derive(Clone, Copy, Debug, PartialEq, Eq, Error)]
pub enum StreamFault {
    /// The source has failed.
    #[error("I1")]
    ReadFailed,
    /// The sink has failed. What it took is a beginning of the output.
    #[error("I2")]
    WriteFailed,
    /// No memory was left, or no ordinal.
    #[error("I3")]
    Memory,
}
