//! How a session ends, what ended with the bytes that it took, and what a step did.

use machine::{Kind, State};
use wire::Version;

/// Why a session has ended.
#[derive(Clone, Copy, Debug, PartialEq, Eq)]
pub enum Cause {
    /// E1: the first four bytes aren't those of the protocol. Nothing was answered.
    BadMagic,
    /// E2: no proposal covers a version. Four zero bytes were answered.
    NoVersion,
    /// E3: a message past 65,536 bytes. It isn't answered.
    TooBig,
    /// E4: bytes that stand for no request of the version. They aren't answered.
    Malformed,
    /// E5: a request that has no row in its state, after a FAILURE.
    Invalid,
    /// E6: a client that wasn't let in, after a FAILURE.
    AuthRefused,
    /// E7: the client said goodbye.
    Goodbye,
    /// E8: the connection was lost.
    Lost,
}

/// What ended with the last byte that was used of a piece.
#[derive(Clone, Copy, Debug, PartialEq, Eq)]
pub enum What {
    /// Nothing: the piece is used up.
    Part,
    /// The handshake, with the version taken, or none.
    Handshake(Option<Version>),
    /// A handshake that doesn't begin as the protocol's.
    BadMagic,
    /// A no-op, two zero bytes between messages.
    Noop,
    /// A message that stands for a request.
    Message,
    /// A message that stands for none, or the header that takes one past its limit. Nothing is read after it.
    Malformed,
    /// Nothing was taken: no slot or no number is left for a request.
    Full,
    /// Nothing was taken: the session has ended, or ends at a malformed message.
    Closed,
}

/// What one step did.
#[derive(Clone, Copy, Debug, PartialEq, Eq)]
pub enum Worked {
    /// Nothing: no request waits.
    Idle,
    /// Nothing: 65,536 bytes or more wait to go.
    Full,
    /// It wrote a row.
    Row,
    /// It wrote the summary of a request.
    Wrote {
        /// How many requests of the connection came before it.
        ordinal: u64,
        kind: Kind,
        /// The state after it.
        state: State,
        /// The ledger's length, if the step added an entry. A commit that the ledger had by its token adds none.
        entry: Option<u64>,
    },
    /// The session has ended, by this step or before it.
    Ended(Cause),
}
