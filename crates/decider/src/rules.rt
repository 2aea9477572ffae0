//! The rules for one result, and for what is known of all results.
ghost use Rattle.std.specs.Prelude.{◌≡◌, ◌-◌, ◌&&◌, ◌||◌, not, if◌then◌else◌, [], ◌∷◌};
ghost use Rattle.std.specs.Option.{option_or};
ghost use Rattle.decider.specs.Rules.{
  starts_in_doubt,
  uses_marker,
  is_commit,
  is_conflict,
  has_tombstone,
  is_doubt,
  is_unprotected,
  is_refusal,
  is_invalid,
  is_stop,
  is_attempt,
  is_tombstone_write,
  sends,
  may_send,
  needs_greeting,
  needs_read,
  greeted,
  is_end,
  commit_of,
  fault_in,
};

use crate::policy::{Before, Retry};
use crate::steps::{MarkerRow, Next, StepResult, TokenSupport};

/// Returns true if a marker prevents a second commit.
pub(crate) fn uses_marker(retry: Retry) -> bool
    ensures { result ≡ uses_marker retry }
{
    matches!(retry, Retry::Marker)
}

/// Returns true if the transaction is in doubt before the first attempt.
pub(crate) fn starts_in_doubt(before: Before) -> bool
    ensures { result ≡ starts_in_doubt before }
{
    matches!(before, Before::InDoubt)
}

/// Returns true if the result says that the transaction is committed.
pub(crate) fn is_commit(step: StepResult) -> bool
    ensures { result ≡ is_commit step }
{
    matches!(
        step,
        StepResult::Committed(_) | StepResult::Marker(MarkerRow::Ours)
    )
}

/// Returns true if the result says that a transaction with other writes has the token or the marker.
pub(crate) fn is_conflict(retry: Retry, step: StepResult) -> bool
    ensures { result ≡ is_conflict retry step }
{
    match step {
        StepResult::Conflict => !uses_marker(retry),
        StepResult::Marker(MarkerRow::Other) => true,
        _ => false,
    }
}

/// Returns true if the result says that a tombstone is committed.
pub(crate) fn has_tombstone(retry: Retry, step: StepResult) -> bool
    ensures { result ≡ has_tombstone retry step }
{
    matches!(
        step,
        StepResult::Marker(MarkerRow::Tombstone) | StepResult::TombstoneWritten
    ) && uses_marker(retry)
}

/// Returns true if the result says that an attempt may have committed, or may yet commit.
pub(crate) fn is_doubt(retry: Retry, step: StepResult) -> bool
    ensures { result ≡ is_doubt retry step }
{
    match step {
        StepResult::InDoubt(_) => true,
        StepResult::Conflict => uses_marker(retry),
        _ => false,
    }
}

/// Returns true if the result is a doubt at a server that is not known to keep tokens.
pub(crate) fn is_unprotected(step: StepResult) -> bool
    ensures { result ≡ is_unprotected step }
{
    matches!(
        step,
        StepResult::InDoubt(TokenSupport::Unsupported | TokenSupport::Unknown)
    )
}

/// Returns true if the result says that the transaction was refused for good or can't be encoded.
pub(crate) fn is_refusal(step: StepResult) -> bool
    ensures { result ≡ is_refusal step }
{
    matches!(
        step,
        StepResult::PermanentFailure(_) | StepResult::InvalidRequest(_)
    )
}

/// Returns true if the result says that a request can't be encoded.
pub(crate) fn is_invalid(step: StepResult) -> bool
    ensures { result ≡ is_invalid step }
{
    matches!(step, StepResult::InvalidRequest(_))
}

/// Returns true if the result says that the caller stopped.
pub(crate) fn is_stop(step: StepResult) -> bool
    ensures { result ≡ is_stop step }
{
    matches!(step, StepResult::Stopped)
}

/// Returns true if the result is that of an attempt.
pub(crate) fn is_attempt(step: StepResult) -> bool
    ensures { result ≡ is_attempt step }
{
    matches!(
        step,
        StepResult::Committed(_)
            | StepResult::Conflict
            | StepResult::PermanentFailure(_)
            | StepResult::TransientFailure
            | StepResult::InvalidRequest(_)
            | StepResult::NoCommitSent
            | StepResult::InDoubt(_)
    )
}

/// Returns true if the result is that of writing a tombstone.
pub(crate) fn is_tombstone_write(step: StepResult) -> bool
    ensures { result ≡ is_tombstone_write step }
{
    matches!(
        step,
        StepResult::TombstoneWritten | StepResult::TombstoneUnconfirmed
    )
}

/// Returns true if the step sends the transaction.
pub(crate) fn sends(next: Next) -> bool
    ensures { result ≡ sends next }
{
    matches!(next, Next::Attempt)
}

/// Returns true if no further step is made.
pub(crate) fn is_end(next: Next) -> bool
    ensures { result ≡ is_end next }
{
    matches!(next, Next::End)
}

/// Returns what the greeting said if the last result was a greeting.
pub(crate) fn greeted(last: Option<StepResult>) -> Option<TokenSupport>
    ensures { result ≡ greeted last }
{
    match last {
        Some(StepResult::Greeted(support)) => Some(support),
        _ => None,
    }
}

/// Returns true if the transaction may be sent.
///
/// `doubt`: something is in doubt. `unprotected`: at a server that is not known to keep tokens.
/// `support`: of the server that was greeted last, if that was the last step.
pub(crate) fn may_send(
    retry: Retry,
    doubt: bool,
    unprotected: bool,
    support: Option<TokenSupport>,
) -> bool
    ensures { result ≡ may_send retry doubt unprotected support }
{
    if !doubt {
        return true;
    }
    match retry {
        Retry::Tokens | Retry::Marker => true,
        Retry::Detect => !unprotected && matches!(support, Some(TokenSupport::Supported)),
        Retry::Never => false,
    }
}

/// Returns true if a greeting decides whether the transaction may be sent.
pub(crate) fn needs_greeting(retry: Retry, unprotected: bool, support: Option<TokenSupport>) -> bool
    ensures { result ≡ needs_greeting retry unprotected support }
{
    matches!(retry, Retry::Detect) && !unprotected && support.is_none()
}

/// Returns true if the marker has to be read next.
pub(crate) fn needs_read(doubt: bool, last: Option<StepResult>) -> bool
    ensures { result ≡ needs_read doubt last }
{
    match last {
        Some(
            StepResult::TransientFailure
            | StepResult::PermanentFailure(_)
            | StepResult::InDoubt(_)
            | StepResult::Conflict
            | StepResult::TombstoneUnconfirmed,
        ) => true,
        Some(StepResult::NoCommitSent | StepResult::InvalidRequest(_)) | None => doubt,
        _ => false,
    }
}

/// Returns true if at least one of the two is true.
pub(crate) fn either(one: bool, other: bool) -> bool
    ensures { result ≡ (one || other) }
{
    one || other
}

/// Returns true if the first is true and the second isn't.
pub(crate) fn unless(one: bool, other: bool) -> bool
    ensures { result ≡ (one && not other) }
{
    one && !other
}

/// Returns how many are left after one is used, if one is used and one is left.
pub(crate) fn one_fewer(left: u32, used: bool) -> u32
    ensures { result ≡ left - (if used then 1 else 0) }
{
    if used { left.saturating_sub(1) } else { left }
}

/// Returns the ordinal of the first COMMIT that was answered SUCCESS, of the known one and of this result.
pub(crate) fn first_commit(known: Option<u64>, step: StepResult) -> Option<u64>
    ensures { result ≡ option_or known (commit_of (step ∷ [])) }
{
    if known.is_some() {
        return known;
    }
    match step {
        StepResult::Committed(commit) => Some(commit),
        _ => None,
    }
}

/// Returns the ordinal of the last request that was refused for good or can't be encoded, of the known one and of this
/// result.
pub(crate) fn last_fault(known: Option<u64>, step: StepResult) -> Option<u64>
    ensures { result ≡ option_or (fault_in step) known }
{
    match step {
        StepResult::PermanentFailure(ordinal) | StepResult::InvalidRequest(ordinal) => Some(
            ordinal,
        ),
        _ => known,
    }
}
