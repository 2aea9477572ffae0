//! Why requests weren't all done, and why a transaction isn't sent.

use crate::breaks::Break;
use client::SubmitFault;
use thiserror::Error;

/// Why requests that were asked together aren't all done.
#[derive(Debug, Drop, Error)]
pub enum Fault {
    /// One isn't accepted, by this rule: nothing was sent. The connection is given up where one before it was accepted, and else as it was.
    #[error("not sent: {0}")]
    NotSent(SubmitFault),
    /// The first that isn't done was refused by the server: its ordinal, and the code and the message of its FAILURE.
    #[error("{code}: {message}")]
    Refused {
        ordinal: u64,
        code: String,
        message: String,
    },
    /// The first that isn't done has no FAILURE. The account says of each request what became of it. Why the exchange was broken off; none where
    /// the request was ignored.
    #[error("broken off")]
    Broken(Option<Break>),
    /// No memory was left for the requests or for what is answered. The account says what became of those that were sent.
    #[error("out of memory")]
    Memory,
}

/// A token that no request can carry: it is empty, or has more than 64 bytes.
#[derive(Clone, Copy, Debug, PartialEq, Eq, Error)]
#[error("a token has 1 to 64 bytes")]
pub struct BadToken;
