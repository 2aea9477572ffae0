//! Writes all pending bytes, and reads all answers.
ghost use Rattle.std.specs.Prelude.{◌≡◌, ◌<◌, true, IfErr, IsErrOf, OnOk, length};
ghost use Rattle.std.specs.Io.KnownBytes.{IsAtEnd};
ghost use Rattle.streams.specs.Failing.{StaysSound, UnlessTold};
ghost use Rattle.driver.specs.Stands.{stand_of, place};
ghost use Rattle.driver.specs.Reasons.{Ends};
ghost use Rattle.driver.specs.Exchanges.{break_by, Feeds, ReadsOn, PutsOut, Converses, Exchanges};

use crate::breaks::Break;
use client_tracking::{FeedFault, TrackingClient};
use streams::{MAX_PIECE, Sink, Source, write_all};

/// Returns why the exchange is broken off if the client refuses a piece.
fn break_of(fault: FeedFault) -> Break
    ensures by { result ≡ break_by fault }
    ensures apart { (result ≡ Break.ReadFailed → ⊥) × ((result ≡ Break.WriteFailed → ⊥) × (result ≡ Break.AtEnd → ⊥)) }
{
    match fault {
        FeedFault::Closed => Break::Ended,
        FeedFault::Memory => Break::Memory,
        FeedFault::BadPeer => Break::BadAnswer,
        FeedFault::Full => Break::TooManyRows,
    }
}

/// Feeds all of a piece, or up to the client's end.
fn feed_piece(tracking: &mut TrackingClient, piece: &[u8]) -> Result<(), Break>
    ensures feeds { Feeds (stand_of tracking.old) (stand_of tracking.new) piece.now result }
    ensures read { IsErrOf result Break.ReadFailed → ⊥ }
    ensures written { IsErrOf result Break.WriteFailed → ⊥ }
    ensures end { IsErrOf result Break.AtEnd → ⊥ }
    ensures open { IsErrOf result Break.Ended → ⊥ }
{
    let mut rest = piece;
    while !rest.is_empty() {
        if tracking.has_ended() {
            return Ok(());
        }
        match tracking.feed(rest) {
            Ok(used) => {
                let (_, after) = rest.split_at(used);
                rest = after;
            }
            Err(fault) => return Err(break_of(fault)),
        }
    }
    Ok(())
}

/// Reads a piece of at most 4,096 bytes, and feeds it.
fn read_piece<I: Source>(
    tracking: &mut TrackingClient,
    source: &mut I,
    buffer: &mut [u8],
) -> Result<(), Break>
    requires { 0 < length buffer.old }
    ensures reads { ReadsOn (stand_of tracking.old) (stand_of tracking.new) (I.given source.old)
        (I.given source.new) result }
    ensures end { IsErrOf result Break.AtEnd → IsAtEnd (I.left source.new) }
    ensures ended { IsErrOf result Break.AtEnd → I.has_ended source.new ≡ true }
    ensures read { IsErrOf result Break.ReadFailed → I.has_failed source.new ≡ true }
    ensures sound { UnlessTold result Break.ReadFailed
        (StaysSound (I.has_failed source.old) (I.has_failed source.new)) }
    ensures stays { I.has_failed source.old ≡ true → I.has_failed source.new ≡ true }
    ensures written { IsErrOf result Break.WriteFailed → ⊥ }
    ensures open { IsErrOf result Break.Ended → ⊥ }
    // Without a piece nothing was fed.
    ensures unread { IsErrOf result Break.ReadFailed → stand_of tracking.new ≡ stand_of tracking.old }
    ensures unfed { IsErrOf result Break.AtEnd → stand_of tracking.new ≡ stand_of tracking.old }
    ensures lowers { OnOk result (I.reads source.new < I.reads source.old) }
{
    let Ok(len) = source.read(buffer) else {
        return Err(Break::ReadFailed);
    };
    if len == 0 {
        return Err(Break::AtEnd);
    }
    feed_piece(tracking, &buffer[..len])
}

/// Reads and feeds pieces until all requests are answered.
fn read_on<I: Source>(tracking: &mut TrackingClient, source: &mut I) -> Result<(), Break>
    ensures reads { ReadsOn (stand_of tracking.old) (stand_of tracking.new) (I.given source.old)
        (I.given source.new) result }
    ensures ends { Ends result (stand_of tracking.new) }
    ensures end { IsErrOf result Break.AtEnd → IsAtEnd (I.left source.new) }
    ensures ended { IsErrOf result Break.AtEnd → I.has_ended source.new ≡ true }
    ensures read { IsErrOf result Break.ReadFailed → I.has_failed source.new ≡ true }
    ensures sound { UnlessTold result Break.ReadFailed
        (StaysSound (I.has_failed source.old) (I.has_failed source.new)) }
    ensures stays { I.has_failed source.old ≡ true → I.has_failed source.new ≡ true }
    ensures written { IsErrOf result Break.WriteFailed → ⊥ }
{
    let mut buffer = [0; MAX_PIECE];
    while tracking.wants_read() {
        read_piece(tracking, source, &mut buffer)?;
    }
    if tracking.pending() > 0 {
        return Err(Break::Ended);
    }
    Ok(())
}

/// Writes all bytes that the client has to send. It allocates nothing.
fn write_out<O: Sink>(tracking: &mut TrackingClient, sink: &mut O) -> Result<(), Break>
    ensures out { PutsOut (stand_of tracking.old) (stand_of tracking.new) (O.put sink.old)
        (O.put sink.new) result }
    ensures only { IfErr result (λ e. e ≡ Break.WriteFailed) }
    ensures written { IsErrOf result Break.WriteFailed → O.has_failed sink.new ≡ true }
    ensures sound { UnlessTold result Break.WriteFailed
        (StaysSound (O.has_failed sink.old) (O.has_failed sink.new)) }
    ensures stays { O.has_failed sink.old ≡ true → O.has_failed sink.new ≡ true }
    ensures read { IsErrOf result Break.ReadFailed → ⊥ }
    ensures end { IsErrOf result Break.AtEnd → ⊥ }
{
    let written = write_all(sink, tracking.unsent());
    let count = tracking.unsent().len();
    tracking.sent(count);
    if written.is_err() {
        return Err(Break::WriteFailed);
    }
    Ok(())
}

/// Exchanges as `exchange` does, but the client isn't lost if the exchange is broken off.
fn converse<I: Source, O: Sink>(
    tracking: &mut TrackingClient,
    source: &mut I,
    sink: &mut O,
) -> Result<(), Break>
    ensures converses { Converses
        (place (stand_of tracking.old) (I.given source.old) (O.put sink.old))
        (place (stand_of tracking.new) (I.given source.new) (O.put sink.new)) result }
    ensures end { IsErrOf result Break.AtEnd → IsAtEnd (I.left source.new) }
    ensures ended { IsErrOf result Break.AtEnd → I.has_ended source.new ≡ true }
    ensures read { IsErrOf result Break.ReadFailed → I.has_failed source.new ≡ true }
    ensures written { IsErrOf result Break.WriteFailed → O.has_failed sink.new ≡ true }
    ensures source { UnlessTold result Break.ReadFailed
        (StaysSound (I.has_failed source.old) (I.has_failed source.new)) }
    ensures sink { UnlessTold result Break.WriteFailed
        (StaysSound (O.has_failed sink.old) (O.has_failed sink.new)) }
{
    write_out(tracking, sink)?;
    read_on(tracking, source)
}

/// Writes all pending bytes. Then reads pieces of at most 4,096 bytes and feeds each, until all requests are answered. The outcomes are in the
/// account.
///
/// # Errors
///
/// If the exchange is broken off, the client is lost, and each pending request has its outcome in the account.
///
/// - `ReadFailed`, `AtEnd`: the source failed or reached its end, and an answer is awaited. The client took all bytes.
/// - `WriteFailed`: the sink failed. Nothing was read.
/// - `Memory`: memory ran out, and bytes are left. It is needed only if a request is pending, or for a message's bytes.
/// - `BadAnswer`: the bytes that were read end with a message that the client refuses.
/// - `TooManyRows`: the account holds as many rows as the limit, and more bytes came.
/// - `Ended`: a request is pending but no answer is awaited. The client has ended, or the request is GOODBYE.
pub fn exchange<I: Source, O: Sink>(
    tracking: &mut TrackingClient,
    source: &mut I,
    sink: &mut O,
) -> Result<(), Break>
    ensures exchanges { Exchanges
        (place (stand_of tracking.old) (I.given source.old) (O.put sink.old))
        (place (stand_of tracking.new) (I.given source.new) (O.put sink.new)) result }
    ensures end { IsErrOf result Break.AtEnd → IsAtEnd (I.left source.new) }
    ensures ended { IsErrOf result Break.AtEnd → I.has_ended source.new ≡ true }
    // A stream that fails is reported, and none is reported that doesn't.
    ensures read { IsErrOf result Break.ReadFailed → I.has_failed source.new ≡ true }
    ensures written { IsErrOf result Break.WriteFailed → O.has_failed sink.new ≡ true }
    ensures source { UnlessTold result Break.ReadFailed
        (StaysSound (I.has_failed source.old) (I.has_failed source.new)) }
    ensures sink { UnlessTold result Break.WriteFailed
        (StaysSound (O.has_failed sink.old) (O.has_failed sink.new)) }
{
    match converse(tracking, source, sink) {
        Ok(()) => Ok(()),
        Err(fault) => {
            tracking.lost();
            Err(fault)
        }
    }
}
