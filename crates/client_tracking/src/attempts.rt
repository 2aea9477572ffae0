//! What attempts of one transaction under one token tell, and what is known by them.

/// What one attempt of a transaction under a token tells.
#[derive(Clone, Copy, Debug, PartialEq, Eq)]
pub enum Tells {
    /// Its COMMIT was answered Committed.
    Stands,
    /// Its COMMIT was refused, since other writes stand under the token.
    Clash,
    /// A request was refused for good, and nothing of it may have committed.
    Refused,
    /// Nothing of it may have committed, and nothing was refused for good; or no connection could be opened for it.
    Nothing,
    /// It may have committed: an outcome is Unknown, or not known yet.
    Doubt,
}

/// Says what happens after an attempt that may have committed.
#[derive(Clone, Copy, Debug, PartialEq, Eq)]
pub enum Retry {
    /// The transaction is sent again under its token. The caller knows that each server that it connects to keeps tokens, over one ledger.
    Tokens,
    /// Nothing is sent again: the fate is Open at once. This is right for a server that keeps no tokens, or that may keep none.
    Never,
}

/// What is known of a transaction under a token.
#[derive(Clone, Copy, Debug, PartialEq, Eq)]
pub enum Fate {
    /// The last attempt was answered Committed.
    Stands,
    /// Other writes stand under the token: of an earlier attempt, which saw other data, or of whoever took the token first.
    Clash,
    /// A request was refused for good, and no attempt may have committed.
    Refused,
    /// An attempt may have committed, and nothing is sent again: the tries are used up, or the retry is Never.
    Open,
    /// The tries are used up, and no attempt may have committed.
    Absent,
}
