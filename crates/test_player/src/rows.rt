//! The rows of the machine, as lines.

use machine::{Kind, State, Verdict, phase, row};
use std::alloc::AllocError;
use std::fmt::Write;
use wire::Version;

const VERSIONS: &[Version] = &[Version::V44, Version::V50, Version::V51];

const STATES: &[State] = &[
    State::Fresh,
    State::Unauth,
    State::Ready,
    State::Streaming,
    State::TxReady,
    State::TxStreaming,
    State::Failed,
    State::Interrupted,
    State::Defunct,
];

const KINDS: &[Kind] = &[
    Kind::Hello,
    Kind::Logon,
    Kind::Logoff,
    Kind::Goodbye,
    Kind::Reset,
    Kind::Run,
    Kind::Begin,
    Kind::Commit,
    Kind::Rollback,
    Kind::Discard,
    Kind::Pull,
];

const VERDICTS: &[Verdict] = &[
    Verdict::Success,
    Verdict::More,
    Verdict::Failure,
    Verdict::Ignored,
    Verdict::Invalid,
    Verdict::Gone,
];

/// Adds a row, if there is one.
fn add_row(
    text: &mut String,
    version: Version,
    state: State,
    kind: Kind,
    verdict: Verdict,
) -> Result<(), AllocError> {
    match row(version, state, kind, verdict) {
        Some(next) => writeln!(text, "{version:?} {state:?} {kind:?} {verdict:?} {next:?}"),
        None => Ok(()),
    }
}

/// Adds the rows of a state.
fn add_state(text: &mut String, version: Version, state: State) -> Result<(), AllocError> {
    for kind in KINDS {
        for verdict in VERDICTS {
            add_row(text, version, state, *kind, *verdict)?;
        }
    }
    Ok(())
}

/// Adds the phase of each state, and all rows.
pub fn add_rows(text: &mut String) -> Result<(), AllocError> {
    for state in STATES {
        writeln!(text, "{state:?} {:?}", phase(*state))?;
    }
    for version in VERSIONS {
        for state in STATES {
            add_state(text, *version, *state)?;
        }
    }
    Ok(())
}
