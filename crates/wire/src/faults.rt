//! Why bytes aren't read, or a message isn't written.
use thiserror::Error;

/// Why bytes weren't read, or a message wasn't written.
#[derive(Debug, Drop, Error)]
pub enum WireFault {
    /// X1: a message past 65,536 bytes. `used` counts the bytes of a piece to the end of the header that takes it past;
    /// it is 0 from then on, and if a message is written.
    #[error("X1 at {used}")]
    TooBig { used: usize },
    /// X2: want of memory. Nothing was used, nothing has changed.
    #[error("out of memory")]
    Memory,
}
