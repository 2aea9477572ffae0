//! Whether a session goes on.

/// Whether a session goes on.
#[derive(Clone, Copy, Debug, PartialEq, Eq)]
pub enum Liveness {
    /// Nothing is due, and more may be taken.
    Open,
    /// The session has ended.
    Over,
}
