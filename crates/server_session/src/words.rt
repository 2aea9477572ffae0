//! What requests, states and versions are, in the protocol's words.
ghost use Rattle.std.specs.Prelude.{◌≡◌, ◌<◌, ◌+◌, ℕ, false};
ghost use Rattle.wire.specs.Offers.{version_answer};
ghost use Rattle.machine.specs.Following.{interruptible};
ghost use Rattle.server_session.specs.Session.{is_halted, in_transaction, used_up, count_at, query_mode, result_mode};
ghost use Rattle.server_session.specs.Acts.{streams};

use engine::Mode as QueryMode;
use machine::State;
use messages::{Count, Mode};
use wire::Version;

/// The bytes that answer an offer: two zero bytes, minor and major; or four zero bytes.
pub(crate) fn answer_of(version: Option<Version>) -> [u8; 4]
    ensures { result ≡ version_answer version }
{
    match version {
        None => [0, 0, 0, 0],
        Some(version) => [0, 0, version.minor(), version.major()],
    }
}

/// Whether a RESET interrupts it.
pub(crate) fn is_interruptible(state: State) -> bool
    ensures { result ≡ interruptible state }
{
    match state {
        State::Ready | State::Streaming | State::TxReady | State::TxStreaming | State::Failed =>
            true,
        State::Fresh | State::Unauth | State::Interrupted | State::Defunct => false,
    }
}

/// Whether requests are passed over.
pub(crate) fn is_halted(state: State) -> bool
    ensures { result ≡ is_halted state }
{
    matches!(state, State::Failed | State::Interrupted)
}

pub(crate) fn is_in_transaction(state: State) -> bool
    ensures { result ≡ in_transaction state }
{
    matches!(state, State::TxReady | State::TxStreaming)
}

/// Whether a result is open.
pub(crate) fn is_streaming(state: State) -> bool
    ensures { result ≡ streams state }
{
    matches!(state, State::Streaming | State::TxStreaming)
}

/// Whether a PULL that has so many rows written has its count.
pub(crate) fn is_used_up(count: Count, written: usize) -> bool
    ensures { result ≡ used_up count written }
{
    match count {
        Count::All => false,
        Count::Of(rows) => rows <= 0 || rows as usize <= written,
    }
}

/// How many rows a PULL with this count is given further, if there are so many.
pub(crate) fn left_of(count: Count, written: usize) -> usize
    ensures { (i : ℕ) → i < result → used_up count (i + written) ≡ false }
{
    match count {
        Count::All => usize::MAX,
        Count::Of(rows) => count_of(Count::Of(rows), 0).saturating_sub(written),
    }
}

/// How many of so many rows a count takes at most.
pub(crate) fn count_of(count: Count, all: usize) -> usize
    ensures { result ≡ count_at count all }
{
    match count {
        Count::All => all,
        Count::Of(rows) => { if rows <= 0 { 0 } else { rows as usize } }
    }
}

pub(crate) fn query_mode(mode: Mode) -> QueryMode
    ensures { result ≡ query_mode mode }
{
    match mode {
        Mode::Read => QueryMode::Read,
        Mode::Write => QueryMode::Write,
    }
}

pub(crate) fn result_mode(mode: QueryMode) -> Mode
    ensures { result ≡ result_mode mode }
{
    match mode {
        QueryMode::Read => Mode::Read,
        QueryMode::Write => Mode::Write,
    }
}
