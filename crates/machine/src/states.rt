//! States of a session, and what a client can tell apart of them.

/// Where a session of the server stands.
#[derive(Clone, Copy, Debug, PartialEq, Eq)]
pub enum State {
    /// The version is chosen, and nobody has said hello.
    Fresh,
    /// Said hello, and nobody is logged on.
    Unauth,
    /// Waiting for a query or a transaction.
    Ready,
    /// The rows of a result are open.
    Streaming,
    /// In a transaction.
    TxReady,
    /// In a transaction, and the rows of a result are open.
    TxStreaming,
    /// A request failed: what follows is ignored, up to a RESET or a GOODBYE.
    Failed,
    /// A RESET has interrupted: what stands before it is ignored.
    Interrupted,
    /// Over.
    Defunct,
}

/// What a client can tell apart of a state.
#[derive(Clone, Copy, Debug, PartialEq, Eq)]
pub enum Phase {
    Fresh,
    Unauth,
    Ready,
    Streaming,
    TxReady,
    TxStreaming,
    /// Failed or interrupted: IGNORED doesn't tell which.
    Halted,
    Defunct,
}
