//! Laws of what attempts at a transaction under one token mean for the ledger, after any events on any connections. Other callers may use the token
//! too. Each function has an empty body, and its contract is the law.

ghost use Rattle.world_guarantees.specs.Attempts.{CommittedStands, RefusedCommitClashes, RefusedAddsNone, StaysKnown};
ghost use Rattle.world_guarantees.specs.OneCaller.{OneCallerMayRely};
ghost use Rattle.world_guarantees.specs.Sending.{SentUntilKnown};
ghost use Rattle.world_guarantees.specs.Tied.{TellsOutcomes, AttemptStands, AttemptClashes, AttemptAddsNone, LostStays};

/// States what Committed for a COMMIT means, on a connection that sends each BEGIN under the token. Exactly one entry of the whole ledger has
/// the token, with the writes of the transaction. Another caller may have added it.
pub fn committed_stands()
    ensures { CommittedStands }
{}

/// States what Refused for a COMMIT means, on such a connection. Exactly one entry of the whole ledger has the token, with other writes than
/// the transaction.
pub fn refused_commit_clashes()
    ensures { RefusedCommitClashes }
{}

/// States that a connection has no entry in the ledger if its client reports each request done, refused, ignored or lost.
pub fn refused_adds_none()
    ensures { RefusedAddsNone }
{}

/// States that the only entry with a token is the only one after each further event too, with the same writes.
pub fn stays_known()
    ensures { StaysKnown }
{}

/// States that an outcome that an attempt reports is the outcome of its connection, in every world in which the attempt is that connection.
pub fn tells_outcomes()
    ensures { TellsOutcomes }
{}

/// States what Committed for an attempt's COMMIT means. Exactly one entry of the whole ledger has the token, with the transaction's writes.
pub fn attempt_stands()
    ensures { AttemptStands }
{}

/// States what Refused for an attempt's COMMIT means. Exactly one entry of the whole ledger has the token, with other writes.
pub fn attempt_clashes()
    ensures { AttemptClashes }
{}

/// States that an attempt adds no entry if it reports for each request that it committed nothing.
pub fn attempt_adds_none()
    ensures { AttemptAddsNone }
{}

/// States that an attempt is the same connection after each further event if its client is lost. What it reports, and what that means, stays.
pub fn lost_stays()
    ensures { LostStays }
{}

/// States what the fate of attempts means, in every reached world in which they are connections. Other callers may use the token too.
///
/// - Stands: exactly one entry of the ledger has the token, with the writes of the last attempt.
/// - Clash: exactly one entry has the token, with other writes than the last attempt.
/// - Refused, Absent: no attempt added an entry.
/// - Open: at most one entry has the token.
pub fn one_caller_may_rely()
    ensures { OneCallerMayRely }
{}

/// States the same of a call of `until_known` of `driver`, and of the attempts that it made over the connections that it opened.
pub fn sent_until_known()
    ensures { SentUntilKnown }
{}
