//! What a client can tell of a state: its phase.
ghost use Rattle.std.specs.Prelude.{◌≡◌};
ghost use Rattle.machine.specs.Following.{state_of};
ghost use Rattle.machine.specs.States.{phase_of};

use crate::states::{Phase, State};

/// The phase of a state.
pub fn phase(state: State) -> Phase
    ensures { result ≡ phase_of state }
{
    match state {
        State::Fresh => Phase::Fresh,
        State::Unauth => Phase::Unauth,
        State::Ready => Phase::Ready,
        State::Streaming => Phase::Streaming,
        State::TxReady => Phase::TxReady,
        State::TxStreaming => Phase::TxStreaming,
        State::Failed | State::Interrupted => Phase::Halted,
        State::Defunct => Phase::Defunct,
    }
}

/// The state of a phase, Failed where that may be Interrupted. Takes no memory.
pub fn state_of(phase: Phase) -> State
    ensures { result ≡ state_of phase }
{
    match phase {
        Phase::Fresh => State::Fresh,
        Phase::Unauth => State::Unauth,
        Phase::Ready => State::Ready,
        Phase::Streaming => State::Streaming,
        Phase::TxReady => State::TxReady,
        Phase::TxStreaming => State::TxStreaming,
        Phase::Halted => State::Failed,
        Phase::Defunct => State::Defunct,
    }
}
