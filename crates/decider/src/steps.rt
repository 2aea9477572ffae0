//! The steps of a caller, and what a step came to.

/// Says whether a server keeps tokens: of all transactions under one token, at most one commits at it.
#[derive(Clone, Copy, Debug, PartialEq, Eq)]
pub enum TokenSupport {
    /// The server's greeting said that it keeps tokens.
    Supported,
    /// The server's greeting did not say so.
    Unsupported,
    /// The greeting was not answered before the connection ended.
    Unknown,
}

/// A marker row, by the transaction that wrote it.
#[derive(Clone, Copy, Debug, PartialEq, Eq)]
pub enum MarkerRow {
    /// It has the hash of this transaction.
    Ours,
    /// It is a tombstone: no transaction with this marker can commit any more.
    Tombstone,
    /// It has another hash.
    Other,
}

/// The result of a step. An ordinal is the index of a request within its attempt, from 0.
#[derive(Clone, Copy, Debug, PartialEq, Eq)]
pub enum StepResult {
    /// Attempt: its COMMIT, with this ordinal, was answered SUCCESS.
    Committed(u64),
    /// Attempt: its COMMIT was refused because a transaction with other writes has the token.
    Conflict,
    /// Attempt: the request with this ordinal was refused for good. The attempt has not committed and never will.
    PermanentFailure(u64),
    /// Attempt: a request was refused, and another attempt may succeed. This one has not committed and never will.
    TransientFailure,
    /// Attempt: the request with this ordinal can't be encoded. The attempt has not committed and never will.
    InvalidRequest(u64),
    /// Attempt: no connection, or it ended before a byte of COMMIT was sent. The attempt has not committed and never
    /// will.
    NoCommitSent,
    /// Attempt: it may have committed, or may yet commit, at a server of this kind.
    InDoubt(TokenSupport),
    /// Greet: the greeting of the connection that sends next was answered, by a server of this kind.
    Greeted(TokenSupport),
    /// ReadMarker: this row was read.
    Marker(MarkerRow),
    /// ReadMarker: there was no row.
    NoMarker,
    /// ReadMarker: there was no answer.
    MarkerNotRead,
    /// WriteTombstone: its COMMIT was answered SUCCESS.
    TombstoneWritten,
    /// WriteTombstone: its COMMIT was not answered SUCCESS.
    TombstoneUnconfirmed,
    /// Any step: the caller makes no further step.
    Stopped,
}

/// The step that a caller has to make.
#[derive(Clone, Copy, Debug, PartialEq, Eq)]
pub enum Next {
    /// Send the transaction: over the connection that was greeted if the last step was `Greet`, else over a new one.
    Attempt,
    /// Open a connection, and wait for the answer to its greeting before anything else is sent.
    Greet,
    /// Read the marker on a new connection.
    ReadMarker,
    /// Write a tombstone in its own transaction.
    WriteTombstone,
    /// None: no further step is made.
    End,
}
