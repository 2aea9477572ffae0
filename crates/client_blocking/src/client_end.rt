//! Writes what a client has to send, and reads the answers that it waits for.
ghost use Rattle.std.specs.Prelude.{◌≡◌, ◌<◌, ◌≤◌, ◌++◌, ℕ, List, true, length, map, Some, [], IsErrOf, IfOk, IfErr, is_ok};
ghost use Rattle.std.specs.Result.{result_err};
ghost use Rattle.std.specs.Vec.{vec_len, vec_capacity};
ghost use Rattle.client.specs.Rest.{Rest};
ghost use Rattle.client.specs.Notes.{note};
ghost use Rattle.client.specs.Fits.{Fits};
ghost use Rattle.client_blocking.specs.Views.{source_view, sink_view};
ghost use Rattle.client_blocking.specs.Asking.{notes_by, hears_all, has_ended, FeedsPiece, HearsPiece, IsAwaited, IsTurn, ReadsAll, PutsOut, Asks, GivesUp};
ghost use Rattle.streams.specs.Failing.{StaysSound, UnlessTold};
ghost use Rattle.streams.specs.Reading.{LetsRead};
ghost use Rattle.streams.specs.Limits.{max_piece};

use client::{Client, ClientFault, Heard, Losses};
use std::alloc::Global;
use streams::{MAX_PIECE, PeerSource, Sink, StreamFault, write_all};

/// The result of `ask_all`: all that was received, and how the call ended.
#[derive(Drop)]
pub struct Told {
    /// The version, rows and summaries that were received, in order.
    pub heard: Vec<Heard>,
    /// The fate of each request without an answer. Empty if all were answered.
    pub losses: Losses,
    /// The fault that ended the call early, if there was one. A bad answer of the server is no fault: it ends the client.
    pub fault: Option<StreamFault>,
}

/// Adds what the client reported, unless it is nothing. The vector must have capacity for it.
fn keep(heard: &mut Vec<Heard>, told: Heard)
    requires { vec_len heard.old < vec_capacity heard.old }
    ensures { map note heard.new.items ≡ map note heard.old.items ++ notes_by (note told) }
{
    match told {
        Heard::Nothing => {}
        told => heard.push_reserved(told),
    }
}

/// Returns I3 if the client ran out of memory, and `Ok` if it has ended, because that is no fault of its streams.
fn end_of(fault: ClientFault) -> Result<(), StreamFault>
    ensures ended { is_ok result ≡ has_ended fault }
    ensures fault { IfErr result (λ e. e ≡ StreamFault.Memory) }
{
    match fault {
        ClientFault::Closed | ClientFault::BadPeer => Ok(()),
        ClientFault::Memory => Err(StreamFault::Memory),
    }
}

/// Feeds a piece to the client, up to the client's end, and adds what the client reports.
///
/// # Errors
///
/// I3 if memory runs out. A prefix of the piece was fed then.
pub fn feed_piece(
    client: &mut Client,
    piece: &[u8],
    heard: &mut Vec<Heard>,
) -> Result<(), StreamFault>
    ensures feeds { (r : Rest) → Fits client.old r
        → FeedsPiece r piece.now (map note heard.old.items) (map note heard.new.items)
        (is_ok result) (Fits client.new) }
    ensures fault { IfErr result (λ e. e ≡ StreamFault.Memory) }
{
    let mut rest = piece;
    while !rest.is_empty() {
        if heard.reserve(1).is_err() {
            return Err(StreamFault::Memory);
        }
        match client.feed(rest) {
            Ok((used, told)) => {
                keep(heard, told);
                let (_, after) = rest.split_at(used);
                rest = after;
            }
            Err(fault) => return end_of(fault),
        }
    }
    Ok(())
}

/// Reads a piece of at most 4,096 bytes, feeds it to the client, up to the client's end, and adds what the client reports. Returns false at
/// the end of the input. The client's output must go to this sink.
///
/// # Errors
///
/// - I1 if the source fails. Nothing was read or fed then.
/// - I3 if memory runs out. A prefix of the piece was fed then.
pub fn hear_piece<I: PeerSource, O: Sink>(
    client: &mut Client,
    source: &mut I,
    sink: &O,
    heard: &mut Vec<Heard>,
) -> Result<bool, StreamFault>
    requires { (n : ℕ) → n ≤ max_piece → I.may_read source.old (O.taken sink.now) n }
    ensures hears { (r : Rest) → Fits client.old r
        → HearsPiece r (source_view I.given I.left source.old)
        (source_view I.given I.left source.new) (map note heard.old.items)
        (map note heard.new.items) (Fits client.new) result }
    // A source that fails is reported as failed, never as ended.
    ensures read { IsErrOf result StreamFault.ReadFailed → I.has_failed source.new ≡ true }
    ensures sound { UnlessTold result StreamFault.ReadFailed
        (StaysSound (I.has_failed source.old) (I.has_failed source.new)) }
    ensures stays { I.has_failed source.old ≡ true → I.has_failed source.new ≡ true }
    ensures fault { IfErr result (λ e. e ≡ StreamFault.WriteFailed → ⊥) }
    ensures lowers { IfOk result (λ some. some ≡ true → I.reads source.new < I.reads source.old) }
{
    let mut buffer = [0; MAX_PIECE];
    hear_into(client, source, sink, heard, &mut buffer)
}

/// Reads and feeds one piece, as `hear_piece` does, by this buffer.
fn hear_into<I: PeerSource, O: Sink>(
    client: &mut Client,
    source: &mut I,
    sink: &O,
    heard: &mut Vec<Heard>,
    buffer: &mut [u8],
) -> Result<bool, StreamFault>
    requires some { 0 < length buffer.old }
    requires few { length buffer.old ≤ max_piece }
    requires turn { (n : ℕ) → n ≤ max_piece → I.may_read source.old (O.taken sink.now) n }
    ensures hears { (r : Rest) → Fits client.old r
        → HearsPiece r (source_view I.given I.left source.old)
        (source_view I.given I.left source.new) (map note heard.old.items)
        (map note heard.new.items) (Fits client.new) result }
    ensures read { IsErrOf result StreamFault.ReadFailed → I.has_failed source.new ≡ true }
    ensures sound { UnlessTold result StreamFault.ReadFailed
        (StaysSound (I.has_failed source.old) (I.has_failed source.new)) }
    ensures stays { I.has_failed source.old ≡ true → I.has_failed source.new ≡ true }
    ensures fault { IfErr result (λ e. e ≡ StreamFault.WriteFailed → ⊥) }
    ensures lowers { IfOk result (λ some. some ≡ true → I.reads source.new < I.reads source.old) }
{
    let Ok(len) = source.read_after(sink, buffer) else {
        return Err(StreamFault::ReadFailed);
    };
    if len == 0 {
        return Ok(false);
    }
    match feed_piece(client, &buffer[..len], heard) {
        Ok(()) => Ok(true),
        Err(fault) => Err(fault),
    }
}

/// Reads and feeds while an answer is still to come, up to the end of the input.
///
/// # Errors
///
/// I1 if the source fails, I3 if memory runs out.
fn read_on<I: PeerSource, O: Sink>(
    client: &mut Client,
    source: &mut I,
    sink: &O,
    heard: &mut Vec<Heard>,
) -> Result<(), StreamFault>
    requires { LetsRead I.may_read (λ s taken. (taken ≡ O.taken sink.now)
        × ((r : Rest) → Fits client.old r → IsAwaited r (I.left source.old) (I.left s))) }
    ensures reads { (r : Rest) → Fits client.old r
        → ReadsAll r (source_view I.given I.left source.old) (source_view I.given I.left source.new)
        (map note heard.old.items)
        (map note heard.new.items) (Fits client.new) (result_err result) }
    ensures read { IsErrOf result StreamFault.ReadFailed → I.has_failed source.new ≡ true }
    ensures sound { UnlessTold result StreamFault.ReadFailed
        (StaysSound (I.has_failed source.old) (I.has_failed source.new)) }
    ensures stays { I.has_failed source.old ≡ true → I.has_failed source.new ≡ true }
    ensures fault { IfErr result (λ e. e ≡ StreamFault.WriteFailed → ⊥) }
{
    let mut buffer = [0; MAX_PIECE];
    while client.awaits() {
        match hear_into(client, source, sink, heard, &mut buffer) {
            Ok(true) => {}
            Ok(false) => return Ok(()),
            Err(fault) => return Err(fault),
        }
    }
    Ok(())
}

/// Writes all that the client has to send, and takes it out of the client. Takes no memory.
///
/// # Errors
///
/// I2 if the sink fails. A prefix was written then.
pub fn write_out<O: Sink>(client: &mut Client, sink: &mut O) -> Result<(), StreamFault>
    ensures out { (r : Rest) → Fits client.old r
        → PutsOut r (sink_view O.put O.taken sink.old) (sink_view O.put O.taken sink.new)
        (Fits client.new) (result_err result) }
    ensures written { IsErrOf result StreamFault.WriteFailed → O.has_failed sink.new ≡ true }
    ensures sound { UnlessTold result StreamFault.WriteFailed
        (StaysSound (O.has_failed sink.old) (O.has_failed sink.new)) }
    ensures stays { O.has_failed sink.old ≡ true → O.has_failed sink.new ≡ true }
    ensures fault { IfErr result (λ e. e ≡ StreamFault.ReadFailed → ⊥) }
    ensures memory { IsErrOf result StreamFault.Memory → ⊥ }
{
    let written = write_all(sink, client.unsent());
    let count = client.unsent().len();
    client.sent(count);
    if written.is_err() {
        return Err(StreamFault::WriteFailed);
    }
    Ok(())
}

/// Ends the client as after a lost connection, unless all was answered. Returns the fate of each pending request: none if all were answered.
/// Takes no memory.
pub fn give_up(client: &mut Client) -> Losses
    ensures { (r : Rest) → Fits client.old r → GivesUp (Fits client.new) result r }
{
    if client.awaits() {
        return client.lost();
    }
    if client.pending() > 0 {
        return client.lost();
    }
    Losses::new()
}

/// Writes all that the client has to send, and then reads and feeds the answers.
fn converse<I: PeerSource, O: Sink>(
    client: &mut Client,
    source: &mut I,
    sink: &mut O,
    heard: &mut Vec<Heard>,
) -> Result<(), StreamFault>
    requires { LetsRead I.may_read (λ s taken. (r : Rest) → Fits client.old r
        → IsTurn r (I.left source.old) (I.left s) (O.taken sink.old) taken) }
    ensures asks { (r : Rest) → Fits client.old r
        → Asks r (source_view I.given I.left source.old) (source_view I.given I.left source.new)
        (sink_view O.put O.taken sink.old) (sink_view O.put O.taken sink.new)
        (map note heard.old.items) (map note heard.new.items) (Fits client.new)
        (result_err result) }
    ensures read { IsErrOf result StreamFault.ReadFailed → I.has_failed source.new ≡ true }
    ensures written { IsErrOf result StreamFault.WriteFailed → O.has_failed sink.new ≡ true }
    ensures source { UnlessTold result StreamFault.ReadFailed
        (StaysSound (I.has_failed source.old) (I.has_failed source.new)) }
    ensures sink { UnlessTold result StreamFault.WriteFailed
        (StaysSound (O.has_failed sink.old) (O.has_failed sink.new)) }
{
    write_out(client, sink)?;
    read_on(client, source, sink, heard)
}

/// Writes what a client has to send, then reads pieces of at most 4,096 bytes and feeds them to the client. It reads while an answer is still
/// to come (a version, or the summary of a request that isn't GOODBYE), the client hasn't ended, and the input goes on. Unless all was answered
/// by then, the client is ended as after a lost connection.
///
/// The bytes that are written are all that the client had to send. The bytes that are fed are all that the source gives, in order, up to the
/// client's end. What the client reports depends on these bytes alone, however they are cut. All this holds over sockets too.
///
/// # Errors
///
/// In `fault`; the client is ended then too, unless all was answered:
///
/// - I1 if the source fails.
/// - I2 if the sink fails. A prefix of the output was written then.
/// - I3 if memory runs out. All of the output was written, and a prefix of the last piece was fed.
pub fn ask_all<I: PeerSource, O: Sink>(
    alloc: Global,
    client: &mut Client,
    source: &mut I,
    sink: &mut O,
) -> Told
    // A source that limits when it may be read must allow a read of at most 4,096 bytes whenever an answer is still to come and the sink has
    // taken all that the client had to send. No other read is made.
    requires { LetsRead I.may_read (λ s taken. (r : Rest) → Fits client.old r
        → IsTurn r (I.left source.old) (I.left s) (O.taken sink.old) taken) }
    ensures asks { (r : Rest) → Fits client.old r
        → Asks r (source_view I.given I.left source.old) (source_view I.given I.left source.new)
        (sink_view O.put O.taken sink.old) (sink_view O.put O.taken sink.new) []
        (map note result.heard.items) (GivesUp (Fits client.new) result.losses) result.fault }
    // The client is fed all that the source gave: its reports are those of these bytes, however they were cut.
    ensures given { (r : Rest) (bytes : List ℕ) → Fits client.old r
        → I.given source.new ≡ I.given source.old ++ bytes
        → (result.fault ≡ Some StreamFault.Memory → ⊥)
        → map note result.heard.items ≡ (hears_all r bytes).notes }
    // The sink took all that the client had to send, and nothing else.
    ensures put { (r : Rest) → Fits client.old r
        → (result.fault ≡ Some StreamFault.WriteFailed → ⊥)
        → O.put sink.new ≡ O.put sink.old ++ r.unsent }
    ensures read { result.fault ≡ Some StreamFault.ReadFailed → I.has_failed source.new ≡ true }
    ensures written { result.fault ≡ Some StreamFault.WriteFailed → O.has_failed sink.new ≡ true }
    // A stream that fails is reported.
    ensures source { (result.fault ≡ Some StreamFault.ReadFailed → ⊥)
        → StaysSound (I.has_failed source.old) (I.has_failed source.new) }
    ensures sink { (result.fault ≡ Some StreamFault.WriteFailed → ⊥)
        → StaysSound (O.has_failed sink.old) (O.has_failed sink.new) }
{
    let mut heard = Vec::new(alloc);
    let fault = converse(client, source, sink, &mut heard).err();
    let losses = give_up(client);
    Told {
        heard,
        losses,
        fault,
    }
}
