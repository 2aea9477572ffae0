//! The fate of a transaction, and the reason why no further step is made.

/// The fate of a transaction, as far as it is known.
#[derive(Clone, Copy, Debug, PartialEq, Eq)]
pub enum Fate {
    /// It is committed, once.
    Committed,
    /// A transaction with other writes has the token or the marker.
    Conflict,
    /// It was refused for good or can't be encoded. No attempt has committed, and none ever will.
    Refused,
    /// No attempt has committed, and none ever will.
    NotCommitted,
    /// An attempt may have committed, or may yet commit, at most once.
    Unknown,
}

/// The reason why no further step is made.
#[derive(Clone, Copy, Debug, PartialEq, Eq)]
pub enum EndReason {
    /// It is known: committed, in conflict, or excluded by a tombstone.
    Known,
    /// The caller stopped.
    Stopped,
    /// A request can't be encoded.
    InvalidRequest,
    /// It was refused for good, and nothing is in doubt.
    Refused,
    /// All attempts are used up, or all tombstones.
    TriesUsedUp,
    /// Something is in doubt, and sending again could commit twice: with `Never`, or at a server that keeps no tokens.
    UnsafeToRetry,
}
