//! The phases that may follow a request.
use crate::answers::said_request;
use machine::{Kind, Phase, PhaseSet, State, Verdict, after, allowed, kind, phase, row};
use messages::{Count, Request};
use std::alloc::Global;
use wire::Version;

const ALL: [Phase; 8] = [
    Phase::Fresh,
    Phase::Unauth,
    Phase::Ready,
    Phase::Streaming,
    Phase::TxReady,
    Phase::TxStreaming,
    Phase::Halted,
    Phase::Defunct,
];

/// Whether the set has these phases and no others.
fn is_set(set: PhaseSet, phases: &[Phase]) -> bool {
    for phase in ALL {
        if set.has(phase) != phases.contains(&phase) {
            return false;
        }
    }
    true
}

fn set(phases: &[Phase]) -> PhaseSet {
    let mut all = PhaseSet::empty();
    for phase in phases {
        all = all.union(PhaseSet::of(*phase));
    }
    all
}

/// A phase, a request by its line, and the phases that may follow.
const FOLLOWING: &[(Phase, &str, &[Phase])] = &[
    (
        Phase::Streaming,
        "pull 2",
        &[Phase::Ready, Phase::Streaming, Phase::Halted],
    ),
    (Phase::Streaming, "pull -1", &[Phase::Ready, Phase::Halted]),
    (Phase::Ready, "commit", &[Phase::Defunct, Phase::Halted]),
    (Phase::Fresh, "hello", &[Phase::Unauth, Phase::Defunct]),
];

/// The phases that may follow a request of 5.1 in a phase; none if the line is none.
fn following(alloc: Global, from: Phase, line: &str) -> PhaseSet {
    match said_request(alloc, Version::V51, line) {
        Some(request) => after(Version::V51, PhaseSet::of(from), &request),
        None => PhaseSet::empty(),
    }
}

#[test]
fn what_may_follow(rt: HostRuntime) {
    for (from, line, expected) in FOLLOWING {
        let set = following(rt.alloc(), *from, line);
        assert!(rt; is_set(set, expected), "at {line}");
    }
}

/// Phases that a connection may be in, a kind of request, and whether it is allowed.
const ALLOWED: &[(Version, &[Phase], Kind, bool)] = &[
    (
        Version::V51,
        &[Phase::Ready, Phase::Streaming, Phase::Halted],
        Kind::Run,
        false,
    ),
    (
        Version::V51,
        &[Phase::Ready, Phase::Halted],
        Kind::Run,
        true,
    ),
    (Version::V51, &[Phase::Defunct], Kind::Goodbye, false),
    (Version::V51, &[Phase::Unauth], Kind::Reset, false),
    (Version::V44, &[Phase::Halted], Kind::Logon, false),
    (Version::V50, &[Phase::Halted], Kind::Logon, false),
];

/// A phase, a request that waits, by its line, and whether a kind of request is allowed then: a RUN while a PULL waits, of two rows and of
/// all, and a RESET while a LOGOFF waits.
const WAITING: &[(Phase, &str, Kind, bool)] = &[
    (Phase::Streaming, "pull 2", Kind::Run, false),
    (Phase::Streaming, "pull -1", Kind::Run, true),
    (Phase::Ready, "logoff", Kind::Reset, false),
];

#[test]
fn what_is_allowed(rt: HostRuntime) {
    for (version, phases, kind, expected) in ALLOWED {
        let told = allowed(*version, set(phases), *kind);
        assert!(rt; told == *expected, "at {phases:?}, {kind:?}");
    }
    for (from, line, kind, expected) in WAITING {
        let told = allowed(Version::V51, following(rt.alloc(), *from, line), *kind);
        assert!(rt; told == *expected, "at {line}, {kind:?}");
    }
}

/// Rows of the table of states.
const ROWS: &[(Version, State, Kind, Verdict, Option<State>)] = &[
    (
        Version::V51,
        State::Fresh,
        Kind::Hello,
        Verdict::Success,
        Some(State::Unauth),
    ),
    (
        Version::V44,
        State::Fresh,
        Kind::Hello,
        Verdict::Success,
        Some(State::Ready),
    ),
    (
        Version::V50,
        State::Fresh,
        Kind::Hello,
        Verdict::Success,
        Some(State::Ready),
    ),
    (
        Version::V51,
        State::Failed,
        Kind::Commit,
        Verdict::Ignored,
        Some(State::Failed),
    ),
    (
        Version::V51,
        State::Failed,
        Kind::Commit,
        Verdict::Success,
        None,
    ),
];

#[test]
fn rows_of_the_table(rt: HostRuntime) {
    for (version, state, kind, verdict, expected) in ROWS {
        let told = row(*version, *state, *kind, *verdict);
        assert!(rt;
            told == *expected,
            "at {version:?}, {state:?}, {kind:?}, {verdict:?}"
        );
    }
    assert!(rt; phase(State::Interrupted) == Phase::Halted);
    assert!(rt; kind(&Request::Pull(Count::Of(2))) == Kind::Pull);
}
