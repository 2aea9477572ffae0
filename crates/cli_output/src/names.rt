//! How outcomes, phases, refusals, states and causes are printed.
ghost use Rattle.std.specs.Prelude.{◌≡◌};
ghost use Rattle.std.specs.Option.{option_map};
ghost use Rattle.cli_output.specs.Names.{cause_code, outcome_name, phase_name, refusal_code, state_name, version_name};

use client::{Outcome, SubmitFault};
use machine::{Phase, State};
use server_session::Cause;
use wire::Version;

/// What became of a request, by its name: `Done`, `Committed`.
pub fn outcome_name(outcome: Outcome) -> &'static str
    ensures { result.now ≡ outcome_name outcome }
{
    match outcome {
        Outcome::Done => "Done",
        Outcome::Committed => "Committed",
        Outcome::Refused => "Refused",
        Outcome::Ignored => "Ignored",
        Outcome::Lost => "Lost",
        Outcome::Unknown => "Unknown",
    }
}

/// A phase by its name: `Ready`, `Halted`.
pub fn phase_name(phase: Phase) -> &'static str
    ensures { result.now ≡ phase_name phase }
{
    match phase {
        Phase::Fresh => "Fresh",
        Phase::Unauth => "Unauth",
        Phase::Ready => "Ready",
        Phase::Streaming => "Streaming",
        Phase::TxReady => "TxReady",
        Phase::TxStreaming => "TxStreaming",
        Phase::Halted => "Halted",
        Phase::Defunct => "Defunct",
    }
}

/// The code of a refusal, `C1` to `C4` or `C7`; None of want of memory.
pub fn refusal_code(fault: &SubmitFault) -> Option<&'static str>
    ensures { option_map (λ s. s.now) result ≡ refusal_code fault.now }
{
    match fault {
        SubmitFault::NotAllowed => Some("C1"),
        SubmitFault::PipelineFull => Some("C2"),
        SubmitFault::Size => Some("C3"),
        SubmitFault::Closed => Some("C4"),
        SubmitFault::Memory => None,
        SubmitFault::Unwritable(_) => Some("C7"),
    }
}

/// A session's state by its name: `Ready`, `Failed`.
pub fn state_name(state: State) -> &'static str
    ensures { result.now ≡ state_name state }
{
    match state {
        State::Fresh => "Fresh",
        State::Unauth => "Unauth",
        State::Ready => "Ready",
        State::Streaming => "Streaming",
        State::TxReady => "TxReady",
        State::TxStreaming => "TxStreaming",
        State::Failed => "Failed",
        State::Interrupted => "Interrupted",
        State::Defunct => "Defunct",
    }
}

/// The code of a session's end, `E1` to `E8`.
pub fn cause_code(cause: Cause) -> &'static str
    ensures { result.now ≡ cause_code cause }
{
    match cause {
        Cause::BadMagic => "E1",
        Cause::NoVersion => "E2",
        Cause::TooBig => "E3",
        Cause::Malformed => "E4",
        Cause::Invalid => "E5",
        Cause::AuthRefused => "E6",
        Cause::Goodbye => "E7",
        Cause::Lost => "E8",
    }
}

/// A version by its name: `5.1`.
pub fn version_name(version: Version) -> &'static str
    ensures { result.now ≡ version_name version }
{
    match version {
        Version::V44 => "4.4",
        Version::V50 => "5.0",
        Version::V51 => "5.1",
    }
}
