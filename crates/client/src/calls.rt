//! The calls of a client.

ghost use Rattle.std.specs.Prelude.{◌≡◌, ◌≤◌, ◌<◌, ◌^◌, false, take, length, IfOk, IfErr, OnErr, IsErrOf};
ghost use Rattle.messages.specs.View.{request_view};
ghost use Rattle.client.specs.Rest.{begun, refuses, refuses_at_once, after_submit, feed_of, fed_open, taken_out, losses, after_drop, awaits};
ghost use Rattle.client.specs.Notes.{note_result};
ghost use Rattle.wire.specs.Framing.{at_client};
ghost use Rattle.wire.specs.Reader.{takes};
ghost use Rattle.packstream_incremental.specs.Piecewise.{Reads};
ghost use Rattle.client.specs.Hearings.{Feeds};
ghost use Rattle.messages_deframer.specs.Opening.{data_of};
ghost use Rattle.client.specs.Held.{is_too_large, WantsRoom};
ghost use Rattle.client.specs.Fits.{rest_of, IsAccepted, UnlessMemory};
ghost use Rattle.machine.specs.Limits.{max_waiting};

use crate::asking::append;
use crate::client::Client;
use crate::data::Taken;
use crate::faults::{ClientFault, SubmitFault};
use crate::heard::Heard;
use crate::losses::Losses;
use crate::pipeline::Pipeline;
use crate::stream::Stream;
use crate::version_answer::Opening;
use bytes::{Bytes, BytesMut};
use machine::{MAX_WAITING, Phase, PhaseSet};
use messages::{MsgFault, Request, Response, read_response};
use messages_deframer::Inbox;
use packstream::writing::Output;
use packstream_incremental::Reader;
use std::alloc::Global;
use std::collections::VecDeque;
use wire::{Version, Wish, offer};

/// All of a piece was used, and nothing ended with it. It isn't inlined, so that the answer is written once, where the caller reads it:
/// put together in bytes and read back in words it would stall the processor.
#[inline(never)]
fn used_up(used: usize) -> Result<(usize, Heard), ClientFault>
    ensures { result ≡ Ok (used, Heard.Nothing) }
{
    Ok((used, Heard::Nothing))
}

impl Client {
    /// Its offer is to be taken out. C5 for want of memory.
    pub fn new(alloc: Global, wish: Wish) -> Result<Client, ClientFault>
        ensures new { IfOk result (λ client. rest_of client ≡ begun wish) }
        ensures fault { IfErr result (λ e. e ≡ ClientFault.Memory) }
    {
        let Ok(waiting) = VecDeque::with_capacity(alloc, MAX_WAITING) else {
            return Err(ClientFault::Memory);
        };
        let mut out = BytesMut::new(alloc);
        if out.extend_from_slice(&offer(wish)).is_err() {
            return Err(ClientFault::Memory);
        }
        Ok(Client {
            wish,
            pipeline: Pipeline {
                version: None,
                over: false,
                first: 0,
                phase: Phase::Fresh,
                waiting,
                passed: 0,
                following: PhaseSet::of(Phase::Fresh),
            },
            stream: Stream {
                opening: Opening::new(),
                inbox: Inbox::new(alloc),
            },
            out: Output::marked(out, 0),
            alloc,
        })
    }

    /// Takes a request, and answers its ordinal, from 0: it waits, and its bytes are to be taken out. It is taken exactly if
    /// the client is open, the version is known, each phase that may follow the requests that wait allows it, fewer than 32 wait,
    /// an ordinal is left, and it can be written.
    ///
    /// Else the first of C4, C1, C2, C7 and C3 that holds, or C5; C4, C1 and C2 take no memory. Nothing has changed then.
    pub fn submit(&mut self, request: Request) -> Result<u64, SubmitFault>
        ensures ok { IfOk result (λ n. IsAccepted (rest_of self.old) (request_view request) n
            × (rest_of self.new ≡ after_submit (rest_of self.old) (request_view request))) }
        ensures err { OnErr result (rest_of self.new ≡ rest_of self.old) }
        ensures fault { IfErr result (λ e. (e ≡ SubmitFault.Memory → ⊥)
            → refuses (rest_of self.old).knows (request_view request) ≡ Some e) }
        ensures memory { IsErrOf result SubmitFault.Memory
            → refuses_at_once (rest_of self.old).knows (request_view request) ≡ None }
    {
        let version = self.pipeline.admit(&request)?;
        append(version, &request, &mut self.out)?;
        Ok(self.pipeline.place(request))
    }

    /// The next bytes that aren't taken out, the smaller of `max` and what waits, after the client's end too; if that is none, without
    /// memory. Or C5, and nothing has changed.
    pub fn take_out(&mut self, max: usize) -> Result<Bytes, ClientFault>
        ensures ok { IfOk result (λ bytes. (bytes ≡ take max (rest_of self.old).unsent)
            × (rest_of self.new ≡ taken_out (rest_of self.old) max)) }
        ensures err { OnErr result (rest_of self.new ≡ rest_of self.old) }
        ensures fault { IfErr result (λ e. e ≡ ClientFault.Memory) }
        ensures short { IfOk result (λ bytes. length bytes < 2 ^ 63) }
        ensures memory { OnErr result (0 < length (take max (rest_of self.old).unsent)) }
    {
        let count = max.min(self.out.whole_len());
        let Ok(bytes) = self.out.freeze_to(count) else {
            return Err(ClientFault::Memory);
        };
        Ok(bytes)
    }

    /// The bytes that aren't taken out, after the client's end too: lent, so that a stream can write them. Takes no memory.
    pub fn unsent(&self) -> &[u8]
        ensures { result.now ≡ (rest_of self.now).unsent }
    {
        self.out.as_slice()
    }

    /// Takes out the next bytes, the smaller of `count` and what waits, as `take_out` does, for who wrote them from `unsent`. Takes no memory.
    pub fn sent(&mut self, count: usize)
        ensures { rest_of self.new ≡ taken_out (rest_of self.old) count }
    {
        self.out.advance(count.min(self.out.whole_len()));
    }

    /// Uses a piece of the server's bytes to the end of the item begun (the version answer, a no-op, a message), else all of it,
    /// and tells what ended with the last byte used.
    ///
    /// C4 if the client has ended; C6 at a bad answer, with which it has ended: one that can't be read or is past 65,536 bytes, a
    /// row if the first waiting request is no PULL, a summary that isn't accepted, a version that wasn't offered. C5 for want
    /// of memory: nothing was used, nothing has changed. Memory is wanted where data of the piece is kept and where a message ends: never
    /// for the version answer, headers and no-ops, and never once the message that isn't whole is known to be bad.
    #[inline(always)]
    pub fn feed(&mut self, piece: &[u8]) -> Result<(usize, Heard), ClientFault>
        ensures told { UnlessMemory result
            ((note_result result ≡ (feed_of (rest_of self.old) piece.now).answer)
            × (rest_of self.new ≡ (feed_of (rest_of self.old) piece.now).rest)) }
        ensures memory { IsErrOf result ClientFault.Memory → (rest_of self.new ≡ rest_of self.old)
            × ((rest_of self.old).knows.over ≡ false)
            × WantsRoom (rest_of self.old).item piece.now }
        ensures within { IfOk result (λ t. t.0 ≤ length piece.now) }
        ensures goes_on { 0 < length piece.now → IfOk result (λ t. 0 < t.0) }
    {
        if self.pipeline.over {
            return Err(ClientFault::Closed);
        }
        self.feed_open(piece)
    }

    /// Of data alone nothing is told but that it was used.
    #[inline(always)]
    fn feed_open(&mut self, piece: &[u8]) -> Result<(usize, Heard), ClientFault>
        requires { self.old.pipeline.over ≡ false }
        ensures feeds { Feeds (rest_of self.new) (rest_of self.old) (fed_open (rest_of self.old)
            (takes at_client (rest_of self.old).item piece.now)) result }
        ensures room { IsErrOf result ClientFault.Memory
            → WantsRoom (rest_of self.old).item piece.now }
        ensures within { IfOk result (λ t. t.0 ≤ length piece.now) }
        ensures goes_on { 0 < length piece.now → IfOk result (λ t. 0 < t.0) }
    {
        match self.stream.take_data(piece) {
            Ok(true) => used_up(piece.len()),
            Ok(false) => self.feed_end(piece),
            Err(fault) => Err(fault),
        }
    }

    /// Tells what ends with the last byte that is used. A row is put where the caller reads it, and isn't moved there.
    #[inline(never)]
    fn feed_end(&mut self, piece: &[u8]) -> Result<(usize, Heard), ClientFault>
        requires { self.old.pipeline.over ≡ false }
        ensures feeds { Feeds (rest_of self.new) (rest_of self.old) (fed_open (rest_of self.old)
            (takes at_client (rest_of self.old).item piece.now)) result }
        ensures room { IsErrOf result ClientFault.Memory
            → WantsRoom (rest_of self.old).item piece.now }
        ensures within { IfOk result (λ t. t.0 ≤ length piece.now) }
        ensures goes_on { 0 < length piece.now → IfOk result (λ t. 0 < t.0) }
    {
        let Some(at) = self.pipeline.version else {
            return self.feed_other(piece);
        };
        let Some(message) = self.stream.message_in(piece) else {
            return self.feed_other(piece);
        };
        let used = message.len() + 4;
        match read_response(self.alloc, at, message) {
            Ok(Response::Record(cells)) => {
                if self.pipeline.awaits_row() {
                    return Ok((used, Heard::Row(cells)));
                }
                return Err(self.pipeline.end());
            }
            Ok(summary) => match self.pipeline.hear_response(summary) {
                Ok(heard) => return Ok((used, heard)),
                Err(fault) => return Err(fault),
            },
            Err(MsgFault::Memory) => return Err(ClientFault::Memory),
            Err(_) => return Err(self.pipeline.end()),
        }
    }

    /// A piece that begins with no whole message. It stands in its caller, so that its result isn't in the way of those of other pieces.
    #[inline(always)]
    fn feed_other(&mut self, piece: &[u8]) -> Result<(usize, Heard), ClientFault>
        requires { self.old.pipeline.over ≡ false }
        ensures feeds { Feeds (rest_of self.new) (rest_of self.old) (fed_open (rest_of self.old)
            (takes at_client (rest_of self.old).item piece.now)) result }
        ensures room { IsErrOf result ClientFault.Memory
            → WantsRoom (rest_of self.old).item piece.now }
        ensures within { IfOk result (λ t. t.0 ≤ length piece.now) }
        ensures goes_on { 0 < length piece.now → IfOk result (λ t. 0 < t.0) }
    {
        self.feed_item(piece)
    }

    /// Tells what ends with the last byte that is used.
    #[inline(never)]
    fn feed_item(&mut self, piece: &[u8]) -> Result<(usize, Heard), ClientFault>
        requires { self.old.pipeline.over ≡ false }
        ensures feeds { Feeds (rest_of self.new) (rest_of self.old) (fed_open (rest_of self.old)
            (takes at_client (rest_of self.old).item piece.now)) result }
        ensures room { IsErrOf result ClientFault.Memory
            → WantsRoom (rest_of self.old).item piece.now }
        ensures within { IfOk result (λ t. t.0 ≤ length piece.now) }
        ensures goes_on { 0 < length piece.now → IfOk result (λ t. 0 < t.0) }
    {
        let taken = self.stream.take(self.alloc, self.pipeline.version, piece)?;
        let Taken { used, came } = taken;
        match self.pipeline.hear(self.wish, came) {
            Ok(heard) => Ok((used, heard)),
            Err(fault) => Err(fault),
        }
    }

    /// What was read of the message that isn't whole: its data, or a fault that each continuation of them has. The point that it
    /// holds is where it stands. Takes no memory.
    pub fn reader(&self) -> &Reader
        ensures data { Reads result.now.here (data_of (rest_of self.now).item) }
        ensures held { result.now.held ≡ result.now.here }
    {
        self.stream.inbox.reader()
    }

    /// The client is lost: no byte comes any more, and the outcome of each request that waited is known. Takes no memory.
    pub fn lost(&mut self) -> Losses
        ensures { (result ≡ losses (rest_of self.old).knows)
            × (rest_of self.new ≡ after_drop (rest_of self.old)) }
    {
        self.pipeline.lose()
    }

    /// The version that the server took, none before its answer. Takes no memory.
    pub fn version(&self) -> Option<Version>
        ensures { result ≡ (rest_of self.now).knows.version }
    {
        self.pipeline.version
    }

    /// The phase that the last summary told, Fresh before one. Takes no memory.
    pub fn phase(&self) -> Phase
        ensures { result ≡ (rest_of self.now).knows.phase }
    {
        self.pipeline.phase
    }

    /// How many requests wait, none after `lost`. Takes no memory.
    pub fn pending(&self) -> usize
        ensures count { result ≡ length (rest_of self.now).knows.waiting }
        ensures few { result ≤ max_waiting }
    {
        self.pipeline.waiting.len()
    }

    /// The ordinal of the first request that waits, behind `lost` of the first that waited; if none does, that of the next. Takes no memory.
    pub fn first_waiting(&self) -> u64
        ensures { result ≡ (rest_of self.now).knows.first }
    {
        self.pipeline.first
    }

    /// Whether the client has ended: by itself, by a bad answer, or because it was lost. Takes no memory.
    pub fn has_ended(&self) -> bool
        ensures { result ≡ (rest_of self.now).knows.over }
    {
        self.pipeline.over
    }

    /// Returns true if a message of the server passed 65,536 bytes, with which the client has ended. Takes no memory.
    pub fn message_is_too_large(&self) -> bool
        ensures { result ≡ is_too_large (rest_of self.now).item }
    {
        self.stream.message_is_too_large()
    }

    /// Whether an answer is still to come: the version, or the summary of a request that isn't GOODBYE, which has none. None comes
    /// after the client's end. Takes no memory.
    pub fn awaits(&self) -> bool
        ensures { result ≡ awaits (rest_of self.now).knows }
    {
        self.pipeline.awaits()
    }
}
