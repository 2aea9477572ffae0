//! How a session stands, in words.
ghost use Rattle.std.specs.Prelude.{◌≡◌};
ghost use Rattle.cli_commands.specs.Commands.{end_words, state_words, cause_words};

use machine::State;
use server::Cause;
use server_blocking::End;

/// How a session stands, as the program prints it: `state Ready`, `ended E4`.
pub fn end_text(end: End) -> &'static str
    ensures { result.now ≡ end_words end }
{
    match end {
        End::Live(state) => state_text(state),
        End::Over(cause) => cause_text(cause),
    }
}

fn state_text(state: State) -> &'static str
    ensures { result.now ≡ state_words state }
{
    match state {
        State::Fresh => "state Fresh",
        State::Unauth => "state Unauth",
        State::Ready => "state Ready",
        State::Streaming => "state Streaming",
        State::TxReady => "state TxReady",
        State::TxStreaming => "state TxStreaming",
        State::Failed => "state Failed",
        State::Interrupted => "state Interrupted",
        State::Defunct => "state Defunct",
    }
}

fn cause_text(cause: Cause) -> &'static str
    ensures { result.now ≡ cause_words cause }
{
    match cause {
        Cause::BadMagic => "ended E1",
        Cause::NoVersion => "ended E2",
        Cause::TooBig => "ended E3",
        Cause::Malformed => "ended E4",
        Cause::Invalid => "ended E5",
        Cause::AuthRefused => "ended E6",
        Cause::Goodbye => "ended E7",
        Cause::Lost => "ended E8",
    }
}
