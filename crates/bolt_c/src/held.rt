//! What a handle holds, and its calls in plain data.

ghost use Rattle.std.specs.Prelude.{◌≡◌, ◌<◌, true, false, None, Some, Ok, Err, is_some, length, min, IfOk, IfErr, OnErr, IsErrOf};
ghost use Rattle.client.specs.Rest.{begun};
ghost use Rattle.client_tracking.specs.Account.{untold, response_of, rows_of};
ghost use Rattle.bolt_c.specs.Codes.{StandsAt};
ghost use Rattle.bolt_c.specs.Answers.{Writes, asked, Asks, refuses_bytes, Accepts, held_rest, held_account, message_of, row_at, Tells};
ghost use Rattle.bolt_c.specs.Feeding.{stand_of, FeedsAll};

use crate::answers::{MessageFault, Refusal, refusal_of};
use crate::codes::{Standing, phase_code, version_code};
use crate::rows::{spelled, spelled_row};
use bytes::BytesMut;
use client::ClientFault;
use client_tracking::{FeedFault, TrackingClient};
use messages::{MsgFault, Request, read_request};
use std::alloc::Global;
use wire::{Version, Wish};

/// A client, and the account of its requests.
#[derive(Drop)]
pub(crate) struct Held {
    pub tracking: TrackingClient,
}

/// The request of the bytes of a message at the version that is known.
fn request_at(alloc: Global, version: Option<Version>, message: &[u8]) -> Result<Request, Refusal>
    ensures told { Asks (asked version message.now) result }
    ensures memory { IsErrOf result Refusal.Memory → is_some version ≡ true }
{
    let Some(version) = version else {
        return Err(Refusal::NotAllowed);
    };
    match read_request(alloc, version, message) {
        Ok(request) => Ok(request),
        Err(MsgFault::Memory) => Err(Refusal::Memory),
        Err(fault) => Err(Refusal::NoRequest(fault)),
    }
}

/// As many bytes as there is room for go into the buffer, from its first place on.
pub(crate) fn put(bytes: &[u8], into: &mut [u8])
    ensures { Writes bytes.now into.old into.new }
{
    let count = bytes.len().min(into.len());
    into[..count].copy_from_slice(&bytes[..count]);
}

/// The bytes of a message go into the buffer, as many as there is room for; how many there are. If they aren't told nothing has changed.
fn tell(text: Result<BytesMut, MessageFault>, into: &mut [u8]) -> Result<usize, MessageFault>
    ensures ok { IfOk text (λ t. (result ≡ Ok (length t.items)) × Writes t.items into.old into.new) }
    ensures err { IfErr text (λ e. (result ≡ Err e) × (into.new ≡ into.old)) }
{
    let text = text?;
    put(text.as_slice(), into);
    Ok(text.len())
}

impl Held {
    /// Around a new client. C5 for want of memory.
    pub(crate) fn new(alloc: Global, wish: Wish, rows: usize) -> Result<Box<Held>, ClientFault>
        ensures new { IfOk result (λ held. (held_rest held.value ≡ begun wish)
            × (held_account held.value ≡ untold rows)) }
        ensures fault { IfErr result (λ e. e ≡ ClientFault.Memory) }
    {
        let tracking = TrackingClient::new(alloc, wish, rows)?;
        match Box::new(alloc, Held { tracking }) {
            Ok(held) => Ok(held),
            Err(_) => Err(ClientFault::Memory),
        }
    }

    /// Asks the request of the bytes of a message, and answers its ordinal. Else the first of C4, C1 before a version is known,
    /// bytes that are no request, and what the client refuses; or C5. Nothing has changed then.
    pub(crate) fn ask(&mut self, alloc: Global, message: &[u8]) -> Result<u64, Refusal>
        ensures ok { IfOk result (λ n. Accepts (held_rest self.old) n (held_rest self.new)
            (asked (held_rest self.old).knows.version message.now)) }
        ensures err { OnErr result (held_rest self.new ≡ held_rest self.old) }
        ensures fault { IfErr result (λ e. (e ≡ Refusal.Memory → ⊥)
            → refuses_bytes (held_rest self.old).knows
            (asked (held_rest self.old).knows.version message.now) ≡ Some e) }
        ensures memory { IsErrOf result Refusal.Memory
            → ((held_rest self.old).knows.over ≡ false)
            × (is_some (held_rest self.old).knows.version ≡ true) }
        ensures account { held_account self.new ≡ held_account self.old }
    {
        if self.tracking.has_ended() {
            return Err(Refusal::Closed);
        }
        let request = request_at(alloc, self.tracking.version(), message)?;
        match self.tracking.ask(request) {
            Ok(ordinal) => Ok(ordinal),
            Err(fault) => Err(refusal_of(fault)),
        }
    }

    /// As many of the bytes that aren't sent as there is room for go into the buffer; how many there are.
    pub(crate) fn unsent(&self, into: &mut [u8]) -> usize
        ensures count { result ≡ length (held_rest self.now).unsent }
        ensures bytes { Writes (held_rest self.now).unsent into.old into.new }
    {
        let bytes = self.tracking.unsent();
        put(bytes, into);
        bytes.len()
    }

    /// Feeds a piece, item after item, and answers how many bytes were used; and why no more of them, if some are left.
    pub(crate) fn feed(&mut self, piece: &[u8]) -> (usize, Option<FeedFault>)
        ensures { FeedsAll (stand_of self.old) piece.now result.0 result.1 (stand_of self.new) }
    {
        let mut used = 0;
        while used < piece.len() {
            match self.tracking.feed(&piece[used..]) {
                Ok(more) => used += more,
                Err(fault) => return (used, Some(fault)),
            }
        }
        (used, None)
    }

    /// The bytes of a request's summary go into the buffer, as many as there is room for; how many there are.
    /// If none has come, or memory ran out, nothing has changed.
    pub(crate) fn response(
        &self,
        alloc: Global,
        ordinal: u64,
        into: &mut [u8],
    ) -> Result<usize, MessageFault>
        ensures { Tells (message_of (held_rest self.now).knows.version
            (response_of (held_account self.now) ordinal)) into.old result into.new }
    {
        tell(self.response_text(alloc, ordinal), into)
    }

    fn response_text(&self, alloc: Global, ordinal: u64) -> Result<BytesMut, MessageFault>
        ensures ok { IfOk result (λ text. message_of (held_rest self.now).knows.version
            (response_of (held_account self.now) ordinal) ≡ Ok text.items) }
        ensures err { IfErr result (λ e. (e ≡ MessageFault.Memory → ⊥)
            → message_of (held_rest self.now).knows.version
            (response_of (held_account self.now) ordinal) ≡ Err e) }
    {
        let Some(version) = self.tracking.version() else {
            return Err(MessageFault::NotHeard);
        };
        let Some(response) = self.tracking.response(ordinal) else {
            return Err(MessageFault::NotHeard);
        };
        spelled(alloc, version, response)
    }

    /// The bytes of a row that is held of a request, as `response` has those of a summary.
    pub(crate) fn row(
        &self,
        alloc: Global,
        ordinal: u64,
        index: u64,
        into: &mut [u8],
    ) -> Result<usize, MessageFault>
        ensures { Tells (message_of (held_rest self.now).knows.version (row_at
            (rows_of (held_rest self.now).knows.first (held_account self.now) ordinal) index))
            into.old result into.new }
    {
        tell(self.row_text(alloc, ordinal, index), into)
    }

    fn row_text(&self, alloc: Global, ordinal: u64, index: u64) -> Result<BytesMut, MessageFault>
        ensures ok { IfOk result (λ text. message_of (held_rest self.now).knows.version (row_at
            (rows_of (held_rest self.now).knows.first (held_account self.now) ordinal) index) ≡ Ok text.items) }
        ensures err { IfErr result (λ e. (e ≡ MessageFault.Memory → ⊥)
            → message_of (held_rest self.now).knows.version (row_at
            (rows_of (held_rest self.now).knows.first (held_account self.now) ordinal) index) ≡ Err e) }
    {
        let Some(version) = self.tracking.version() else {
            return Err(MessageFault::NotHeard);
        };
        let Some(row) = self.tracking.rows(ordinal).get(index as usize) else {
            return Err(MessageFault::NotHeard);
        };
        spelled_row(alloc, version, row)
    }

    /// Where the client stands.
    pub(crate) fn standing(&self) -> Standing
        ensures { StandsAt (held_rest self.now) result }
    {
        Standing {
            first: self.tracking.first_waiting(),
            pending: self.tracking.pending() as u32,
            phase: phase_code(self.tracking.phase()),
            version: version_code(self.tracking.version()),
            has_ended: u32::from(self.tracking.has_ended()),
            awaits: u32::from(self.tracking.wants_read()),
            padding: 0,
        }
    }
}
