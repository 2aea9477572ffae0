//! Laws of the definitions, for callers to rely on. Each function has an empty body, and its contract is the law.

ghost use Rattle.decider.specs.Markers.{FateWithMarker, MarkerExamples};
ghost use Rattle.decider.specs.Servers.{FateAtServers};
ghost use Rattle.decider.specs.Laws.{
  CommittedWasReported,
  NotCommittedIsCertain,
  RefusedWasReported,
  StaysInDoubt,
  CommittedStays,
  AttemptIsUnknown,
  UnreportedIsInDoubt,
  NeverSendsAfterDoubt,
  DetectNeedsTokens,
  FewAttempts,
  FewSteps,
  EndsOnceKnown,
  EndsOnceRefused,
};

/// States that the fate is `Committed` only if a COMMIT was answered SUCCESS, or the marker was read with the
/// transaction's hash.
pub fn committed_was_reported()
    ensures { CommittedWasReported }
{}

/// States that the fate is `NotCommitted` or `Refused` only if nothing is in doubt, or if there is a tombstone.
pub fn not_committed_is_certain()
    ensures { NotCommittedIsCertain }
{}

/// States that the fate is `Refused` only if a request was refused for good or can't be encoded.
pub fn refused_was_reported()
    ensures { RefusedWasReported }
{}

/// States that without a marker, a transaction in doubt before the first attempt is never `NotCommitted` or `Refused`.
pub fn stays_in_doubt()
    ensures { StaysInDoubt }
{}

/// States that a committed transaction stays committed, whatever is reported.
pub fn committed_stays()
    ensures { CommittedStays }
{}

/// States that the fate is `Unknown` while an attempt is under way.
pub fn attempt_is_unknown()
    ensures { AttemptIsUnknown }
{}

/// States that an attempt without a result counts as in doubt, at a server that is not known to keep tokens.
pub fn unreported_is_in_doubt()
    ensures { UnreportedIsInDoubt }
{}

/// States that with `Never` nothing follows a doubt.
pub fn never_sends_after_doubt()
    ensures { NeverSendsAfterDoubt }
{}

/// States that nothing follows once the transaction is committed or in conflict.
pub fn ends_once_known()
    ensures { EndsOnceKnown }
{}

/// States that at most a read of the marker follows once the transaction is refused.
pub fn ends_once_refused()
    ensures { EndsOnceRefused }
{}

/// States that with `Detect`, an attempt follows a doubt only over a connection whose greeting was the last result and
/// said that the server keeps tokens, and only if each doubt was left by such a server.
pub fn detect_needs_tokens()
    ensures { DetectNeedsTokens }
{}

/// States that a caller that makes each next step makes at most `tries` attempts, and writes at most as many
/// tombstones.
pub fn few_attempts()
    ensures { FewAttempts }
{}

/// States that a caller that makes each next step makes at most four steps for each of its tries, and two more.
pub fn few_steps()
    ensures { FewSteps }
{}

/// States that the fate is true at any moment, at a server of any make with a unique marker.
///
/// At most one of all transactions that write the marker commits. Others may write it, and COMMITs may be processed
/// late.
pub fn fate_with_marker()
    ensures { FateWithMarker }
{}

/// States that the model of a server with a unique marker has runs.
///
/// A late commit is found by its row, and a tombstone excludes a late commit.
pub fn marker_examples()
    ensures { MarkerExamples }
{}

/// States that the fate is true at any moment, at servers that keep tokens, at servers that keep none, and if one
/// address leads to both kinds.
///
/// For `Detect`, `Tokens` and `Never`, and a caller that makes each next step. At most one attempt commits, at all
/// servers together. Others may use the token, and COMMITs may be processed late.
pub fn fate_at_servers()
    ensures { FateAtServers }
{}
