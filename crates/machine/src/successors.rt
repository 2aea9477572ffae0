//! Which phases may follow a request, and which requests may be sent in them.
ghost use Rattle.std.specs.Prelude.{◌≡◌, [], ◌∷◌, Option, Some, None, not, ◌&&◌, ◌||◌};
ghost use Rattle.messages.specs.View.{request_view};
ghost use Rattle.machine.specs.Asks.{kind_of, in_part};
ghost use Rattle.machine.specs.Following.{after_greeting, after_halted, after_row, after_serving, allowed_in, allows, as_set, set_after, phases_of, possible, has, set_of, table};

use crate::kinds::Kind;
use crate::phase_set::PhaseSet;
use crate::phases::{phase, state_of};
use crate::requests::{is_partial, kind};
use crate::rows::{Verdict, is_in, row};
use crate::states::{Phase, State};
use messages::Request;
use wire::Version;

/// Whether a request of this kind may be sent where one of these phases may be the server's: some phase other than
/// Defunct is among them, and each such phase allows the kind. Halted allows every kind of the version, another phase
/// GOODBYE and what can succeed there.
pub fn allowed(version: Version, set: PhaseSet, kind: Kind) -> bool
    ensures { result ≡ allowed_in version set kind }
{
    set.is_live()
        & admits(version, set, Phase::Fresh, kind)
        & admits(version, set, Phase::Unauth, kind)
        & admits(version, set, Phase::Ready, kind)
        & admits(version, set, Phase::Streaming, kind)
        & admits(version, set, Phase::TxReady, kind)
        & admits(version, set, Phase::TxStreaming, kind)
        & admits(version, set, Phase::Halted, kind)
}

/// Whether a phase allows a kind, or isn't in the set. It stands in no loop, so that a phase is known where it is tested.
#[inline(always)]
fn admits(version: Version, set: PhaseSet, phase: Phase, kind: Kind) -> bool
    ensures { result ≡ (not (has phase set) || allows version phase kind) }
{
    !set.has(phase) || is_allowed(version, phase, kind)
}

/// The phases that may follow a request, of a server in one of these phases.
pub fn after(version: Version, set: PhaseSet, request: &Request) -> PhaseSet
    ensures table { result ≡ set_after version set (request_view request.now) }
    ensures rows { result ≡ possible version set (request_view request.now ∷ []) }
{
    after_member(version, set, Phase::Fresh, request)
        .union(after_member(version, set, Phase::Unauth, request))
        .union(after_member(version, set, Phase::Ready, request))
        .union(after_member(version, set, Phase::Streaming, request))
        .union(after_member(version, set, Phase::TxReady, request))
        .union(after_member(version, set, Phase::TxStreaming, request))
        .union(after_member(version, set, Phase::Halted, request))
        .union(after_member(version, set, Phase::Defunct, request))
}

/// The phases that may follow a request in this phase, if that is in the set; else none.
#[inline(always)]
fn after_member(version: Version, set: PhaseSet, phase: Phase, request: &Request) -> PhaseSet
    ensures { let a = request_view request.now in
        result ≡ set_of (λ x. has phase set && has x (table version phase (kind_of a) (in_part a))) }
{
    if set.has(phase) {
        after_one(version, phase, request)
    } else {
        PhaseSet::empty()
    }
}

/// The table of what may follow, by the phase.
fn after_one(version: Version, phase: Phase, request: &Request) -> PhaseSet
    ensures { result ≡ as_set
        (table version phase (kind_of (request_view request.now))
        (in_part (request_view request.now))) }
{
    match phase {
        Phase::Defunct => PhaseSet::of(Phase::Defunct),
        Phase::Halted => while_halted(kind(request)),
        Phase::Fresh | Phase::Unauth => {
            let (state, kind) = (state_of(phase), kind(request));
            by_greeting(
                row(version, state, kind, Verdict::Success),
                row(version, state, kind, Verdict::Failure),
            )
        }
        _ => while_serving(version, state_of(phase), request),
    }
}

/// What may follow where a server ignores requests.
fn while_halted(kind: Kind) -> PhaseSet
    ensures { result ≡ as_set (after_halted kind) }
{
    match kind {
        Kind::Reset => PhaseSet::of(Phase::Ready),
        Kind::Goodbye => PhaseSet::of(Phase::Defunct),
        _ => PhaseSet::of(Phase::Halted),
    }
}

/// What may follow where nobody is logged on, by where the rows of the request lead.
fn by_greeting(success: Option<State>, failure: Option<State>) -> PhaseSet
    ensures { result ≡ as_set (after_greeting success failure) }
{
    match success {
        None => PhaseSet::of(Phase::Defunct),
        Some(state) => PhaseSet::of(phase(state)).union(told(failure)),
    }
}

/// What may follow where requests are served.
fn while_serving(version: Version, state: State, request: &Request) -> PhaseSet
    ensures { result ≡ as_set
        (after_serving version state (kind_of (request_view request.now))
        (in_part (request_view request.now))) }
{
    let kind = kind(request);
    match kind {
        Kind::Reset => PhaseSet::of(Phase::Ready),
        Kind::Goodbye => PhaseSet::of(Phase::Defunct),
        _ => {
            let success = row(version, state, kind, Verdict::Success);
            if is_partial(request) {
                by_row(success, row(version, state, kind, Verdict::More))
            } else {
                by_row(success, None)
            }
        }
    }
}

/// What may follow where requests are served, by where the rows of the request lead.
fn by_row(success: Option<State>, more: Option<State>) -> PhaseSet
    ensures { result ≡ as_set (after_row success more) }
{
    match success {
        None => PhaseSet::of(Phase::Defunct).union(PhaseSet::of(Phase::Halted)),
        Some(state) => PhaseSet::of(phase(state))
            .union(told(more))
            .union(PhaseSet::of(Phase::Halted)),
    }
}

/// The phase that a summary tells, where a row leads on.
fn told(next: Option<State>) -> PhaseSet
    ensures { result ≡ phases_of next }
{
    match next {
        Some(state) => PhaseSet::of(phase(state)),
        None => PhaseSet::empty(),
    }
}

/// Whether a phase allows a kind.
fn is_allowed(version: Version, phase: Phase, kind: Kind) -> bool
    ensures { result ≡ allows version phase kind }
{
    match phase {
        Phase::Defunct => false,
        Phase::Halted => is_in(version, kind),
        _ => kind == Kind::Goodbye
            || row(version, state_of(phase), kind, Verdict::Success).is_some(),
    }
}
