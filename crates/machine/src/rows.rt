//! The rules for each request, as a table asks them.
ghost use Rattle.std.specs.Prelude.{◌≡◌, Some, option_map, option_and_then};
ghost use Rattle.machine.specs.Asks.{is_of};
ghost use Rattle.machine.specs.Rows.{row_at, row_of, goal, Split};

use crate::kinds::Kind;
use crate::states::State;
use wire::Version;

/// How a request is answered.
#[derive(Clone, Copy, Debug, PartialEq, Eq)]
pub enum Verdict {
    /// SUCCESS, with no rows left.
    Success,
    /// SUCCESS, with rows left.
    More,
    /// FAILURE.
    Failure,
    /// IGNORED.
    Ignored,
    /// FAILURE, since the request has no row in its state.
    Invalid,
    /// No answer at all.
    Gone,
}

/// Where the verdicts of a request lead.
#[derive(Clone, Copy)]
struct Rule {
    success: State,
    more: Option<State>,
    failure: Option<State>,
}

/// The state that a request with this verdict leads to, None if the version has no such row.
pub fn row(version: Version, state: State, kind: Kind, verdict: Verdict) -> Option<State>
    ensures { result ≡ row_at version state kind verdict }
{
    if !is_in(version, kind) {
        return None;
    }
    match verdict {
        Verdict::Success => Some(rule_for(version, state, kind)?.success),
        Verdict::More => rule_for(version, state, kind)?.more,
        Verdict::Failure => rule_for(version, state, kind)?.failure,
        Verdict::Ignored => ignored(state, kind),
        Verdict::Invalid => invalid(version, state, kind),
        Verdict::Gone => gone(state, kind),
    }
}

/// The rule for a request, with its states after SUCCESS, after SUCCESS with rows left, and after FAILURE.
fn rule_for(version: Version, state: State, kind: Kind) -> Option<Rule>
    ensures success { option_map (λ r. r.success) result
        ≡ row_of version state kind Verdict.Success }
    ensures more { option_and_then (λ r. r.more) result ≡ row_of version state kind Verdict.More }
    ensures failure { option_and_then (λ r. r.failure) result
        ≡ row_of version state kind Verdict.Failure }
{
    use State::*;
    let (success, more, failure) = match (state, kind, version.has_logon()) {
        (Fresh, Kind::Hello, _) => (greeted(version), None, Some(Defunct)),
        (Unauth, Kind::Logon, true) => (Ready, None, Some(Defunct)),
        (Ready, Kind::Run, _) => (Streaming, None, Some(Failed)),
        (Ready, Kind::Begin, _) => (TxReady, None, Some(Failed)),
        (Ready, Kind::Logoff, true) => (Unauth, None, Some(Failed)),
        (Streaming, Kind::Pull | Kind::Discard, _) => (Ready, Some(Streaming), Some(Failed)),
        (TxReady, Kind::Run, _) => (TxStreaming, None, Some(Failed)),
        (TxReady, Kind::Commit | Kind::Rollback, _) => (Ready, None, Some(Failed)),
        (TxStreaming, Kind::Pull | Kind::Discard, _) => (TxReady, Some(TxStreaming), Some(Failed)),
        (Ready | Streaming | TxReady | TxStreaming | Failed | Interrupted, Kind::Reset, _) => (
            Ready, None, None,
        ),
        _ => return None,
    };
    Some(Rule {
        success,
        more,
        failure,
    })
}

/// Where a HELLO leads: to Ready where it carries who the client is, and else to Unauth.
fn greeted(version: Version) -> State
    ensures { Some result ≡ goal version (Split State.Ready State.Unauth) }
{
    if version.hello_has_login() {
        State::Ready
    } else {
        State::Unauth
    }
}

/// Whether a version has requests of a kind.
pub(crate) fn is_in(version: Version, kind: Kind) -> bool
    ensures { result ≡ is_of version kind }
{
    version.has_logon() || !matches!(kind, Kind::Logon | Kind::Logoff)
}

/// Where an ignored request leads.
fn ignored(state: State, kind: Kind) -> Option<State>
    ensures { (version : Version) → result ≡ row_of version state kind Verdict.Ignored }
{
    match (state, kind) {
        (_, Kind::Reset | Kind::Goodbye) => None,
        (State::Failed | State::Interrupted, _) => Some(state),
        _ => None,
    }
}

/// Where a request leads that has no row in its state.
fn invalid(version: Version, state: State, kind: Kind) -> Option<State>
    ensures { result ≡ row_of version state kind Verdict.Invalid }
{
    match (state, kind) {
        (_, Kind::Goodbye) => None,
        (State::Failed | State::Interrupted | State::Defunct, _) => None,
        _ => match rule_for(version, state, kind) {
            Some(_) => None,
            None => Some(State::Defunct),
        },
    }
}

/// Where a GOODBYE leads.
fn gone(state: State, kind: Kind) -> Option<State>
    ensures { (version : Version) → result ≡ row_of version state kind Verdict.Gone }
{
    match (state, kind) {
        (State::Defunct, _) => None,
        (_, Kind::Goodbye) => Some(State::Defunct),
        _ => None,
    }
}
