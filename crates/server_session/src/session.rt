//! What a session was asked and what it answers.
ghost use Rattle.std.specs.Prelude.{◌+◌, ◌≤◌, length};
ghost use Rattle.machine.specs.Limits.{max_ordinals, max_waiting};

use crate::MAX_UNSENT;
use crate::kinds::{Cause, What};
use crate::result::{OpenResult, Transaction};
use crate::waiting::{Queue, Waiting};
use crate::words::{answer_of, is_interruptible};
use bytes::{Bytes, BytesMut};
use machine::{MAX_ORDINALS, MAX_WAITING, State, is_reset};
use messages::{MsgFault, Request};
use std::alloc::{AllocError, Global};
use structures_encoder::Output;
use wire::{Version, choose};

/// The most room in bytes that is kept if nothing waits to go: a longest message in its chunks, and as much again.
const MAX_OUT_KEPT: usize = 131_084;

/// A conversation with a client: what waits, how it stands, what is open, and what waits to go.
#[derive(Drop)]
pub struct Session {
    pub(crate) version: Option<Version>,
    pub(crate) state: State,
    pub(crate) cause: Option<Cause>,
    /// The ordinal of the first request that waits.
    pub(crate) first: u64,
    pub(crate) queue: Queue,
    pub(crate) result: OpenResult,
    pub(crate) tx: Transaction,
    pub(crate) out: Output,
    /// Room for what a step writes, kept from one to the next.
    pub(crate) body: BytesMut,
    pub(crate) alloc: Global,
    ghost numbered: { first + length queue.waiting.items ≤ max_ordinals },
}

impl Session {
    ghost use Rattle.std.specs.Prelude.{◌≡◌, ◌<◌, Some, None, Err, true, false, length, IsErr, IfOk, OnErr};
    ghost use Rattle.messages.specs.Arrivals.{arrival_of_offer, TooLong};
    ghost use Rattle.server_session.specs.Session.{no_result, no_tx};
    ghost use Rattle.server_session.specs.Rest.{begun, shut, full, ends, version_of, taken_out, take_kept, puts_noop, noop_kept, after_interrupt, Receives};
    ghost use Rattle.server_session.specs.Views.{kept_of, arrival_told};

    /// Before the first byte. Room is made for the 32 slots; `Err` is want of memory.
    pub fn new(alloc: Global) -> Result<Session, AllocError>
        ensures { IfOk result (λ x. kept_of x ≡ begun) }
    {
        Ok(Session {
            version: None,
            state: State::Fresh,
            cause: None,
            first: 0,
            queue: Queue::new(alloc)?,
            result: OpenResult::closed(alloc),
            tx: Transaction::none(alloc),
            out: Output::new(alloc),
            body: BytesMut::new(alloc),
            alloc,
        })
    }

    /// Whether nothing more is read: it has ended, or ends at what stands for no request. Takes no memory.
    pub fn is_shut(&self) -> bool
        ensures { result ≡ shut (kept_of self.now) }
    {
        self.cause.is_some() || self.queue.has_unread()
    }

    /// Whether nothing more can be received: 32 slots wait, or no ordinal below 2^63 is left. Takes no memory.
    pub fn is_full(&self) -> bool
        ensures { result ≡ full (kept_of self.now) }
    {
        self.queue.len() >= MAX_WAITING || self.first + self.queue.len() as u64 >= MAX_ORDINALS
    }

    /// Takes out as many bytes as the smaller of `max` and what waits to go, in order; if that is none, without memory. An `Err` is
    /// want of memory, and changes nothing.
    pub fn take_out(&mut self, max: usize) -> Result<Bytes, AllocError>
        ensures ok { IfOk result
            (λ b. (b ≡ taken_out max (kept_of self.old))
            × (kept_of self.new ≡ take_kept max (kept_of self.old))) }
        ensures err { OnErr result (kept_of self.new ≡ kept_of self.old) }
        ensures memory { OnErr result (0 < length (taken_out max (kept_of self.old))) }
    {
        let count = max.min(self.out.whole_len());
        self.out.freeze_to(count)
    }

    /// Lends what waits to go, in order. Takes no memory.
    pub fn unsent(&self) -> &[u8]
        ensures { result.now ≡ (kept_of self.now).unsent }
    {
        self.out.as_slice()
    }

    /// As many bytes of what waits to go are gone, or all if no more wait. Takes no memory.
    #[tactic(auto, using(crate::proofs::Gone::gone_all))]
    pub fn sent(&mut self, count: usize)
        ensures { kept_of self.new ≡ take_kept count (kept_of self.old) }
    {
        if count < self.out.whole_len() {
            self.out.advance(count);
            return;
        }
        self.out.clear();
        if self.out.capacity() > MAX_OUT_KEPT {
            self.out = Output::new(self.alloc);
        }
    }

    /// Puts a no-op, and answers whether it did: not before a version is chosen, after the end, or while 65,536 bytes or more wait to
    /// go. An `Err` is want of memory, and changes nothing.
    pub fn noop(&mut self) -> Result<bool, AllocError>
        ensures ok { IfOk result
            (λ b. (b ≡ puts_noop (kept_of self.old))
            × (kept_of self.new ≡ noop_kept (kept_of self.old))) }
        ensures err { OnErr result (kept_of self.new ≡ kept_of self.old) }
        ensures memory { OnErr result (puts_noop (kept_of self.old) ≡ true) }
    {
        if self.version.is_none() || self.cause.is_some() || self.out.whole_len() >= MAX_UNSENT {
            return Ok(false);
        }
        self.out.set_mark();
        self.out.extend_from_slice(&[0, 0])?;
        Ok(true)
    }

    /// Judges the 20 bytes of a handshake, and answers them: a version is chosen, or it ends by `NoVersion`; by `BadMagic` it ends without
    /// an answer. An `Err` is want of memory, and changes nothing.
    pub fn shake(&mut self, offer: &[u8; 20]) -> Result<What, AllocError>
        ensures ok { IfOk result
            (λ what. Receives what (kept_of self.old) (kept_of self.new)
            (arrival_of_offer offer.now)) }
        ensures err { OnErr result (kept_of self.new ≡ kept_of self.old) }
    {
        let Ok(version) = choose(offer) else {
            self.end(Cause::BadMagic);
            return Ok(What::BadMagic);
        };
        self.out.set_mark();
        self.out.extend_from_slice(&answer_of(version))?;
        match version {
            Some(_) => self.version = version,
            None => self.end(Cause::NoVersion),
        }
        Ok(What::Handshake(version))
    }

    /// Takes what was asked, by a message at its version, if the session isn't full: a request takes a slot, and a RESET interrupts; what
    /// stands for no request takes a slot too. Want of memory in `asked`, and no other, is handed on as an `Err`, and changes nothing.
    /// Takes no memory.
    #[inline(always)]
    pub fn receive(&mut self, asked: Result<Request, MsgFault>) -> Result<What, AllocError>
        requires { full (kept_of self.old) ≡ false }
        ensures taken { IfOk result
            (λ what. Receives what (kept_of self.old) (kept_of self.new) (arrival_told asked)) }
        ensures wants { asked ≡ Err MsgFault.Memory → IsErr result }
        ensures memory { OnErr result (asked ≡ Err MsgFault.Memory) }
        ensures err { OnErr result (kept_of self.new ≡ kept_of self.old) }
    {
        self.take_asked(asked)
    }

    /// What was asked goes into the queue.
    #[inline(always)]
    fn take_asked(&mut self, asked: Result<Request, MsgFault>) -> Result<What, AllocError>
        requires place { length self.old.queue.waiting.items < max_waiting }
        requires ordinal { self.old.first + length self.old.queue.waiting.items < max_ordinals }
        ensures taken { IfOk result
            (λ what. Receives what (kept_of self.old) (kept_of self.new) (arrival_told asked)) }
        ensures wants { asked ≡ Err MsgFault.Memory → IsErr result }
        ensures memory { OnErr result (asked ≡ Err MsgFault.Memory) }
        ensures err { OnErr result (kept_of self.new ≡ kept_of self.old) }
    {
        match asked {
            Ok(request) => {
                let interrupts = is_reset(&request) && is_interruptible(self.state);
                self.queue.push(Waiting::Asked(request));
                if interrupts {
                    self.interrupt();
                }
                Ok(What::Message)
            }
            Err(MsgFault::Memory) => Err(AllocError),
            Err(fault) => {
                self.queue.push(Waiting::Unread(fault));
                Ok(What::Malformed)
            }
        }
    }

    /// A message past its limit takes a slot, if the session isn't full. Takes no memory.
    pub fn refuse(&mut self) -> What
        requires { full (kept_of self.old) ≡ false }
        ensures { Receives result (kept_of self.old) (kept_of self.new) TooLong }
    {
        self.take_refused()
    }

    /// A message past its limit goes into the queue.
    fn take_refused(&mut self) -> What
        requires place { length self.old.queue.waiting.items < max_waiting }
        requires ordinal { self.old.first + length self.old.queue.waiting.items < max_ordinals }
        ensures { Receives result (kept_of self.old) (kept_of self.new) TooLong }
    {
        self.queue.push(Waiting::TooLong);
        What::Malformed
    }

    /// The version, 5.1 before one is chosen. Takes no memory.
    pub fn version(&self) -> Version
        ensures { result ≡ version_of (kept_of self.now) }
    {
        self.version.unwrap_or(Version::V51)
    }

    /// The state. Takes no memory.
    pub fn state(&self) -> State
        ensures { result ≡ (kept_of self.now).state }
    {
        self.state
    }

    /// Why it has ended, if it has. Takes no memory.
    pub fn cause(&self) -> Option<Cause>
        ensures { result ≡ (kept_of self.now).ended }
    {
        self.cause
    }

    /// The allocator that it was made with.
    pub fn alloc(&self) -> Global {
        self.alloc
    }

    /// It ends, and what is open is dropped.
    pub(crate) fn end(&mut self, cause: Cause)
        ensures { kept_of self.new ≡ ends cause (kept_of self.old) }
    {
        self.state = State::Defunct;
        self.cause = Some(cause);
        self.close();
    }

    /// A RESET interrupts: what is open is dropped.
    fn interrupt(&mut self)
        ensures { kept_of self.new ≡ after_interrupt (kept_of self.old) }
    {
        self.state = State::Interrupted;
        self.close();
    }

    /// The open result and the open transaction are dropped.
    pub(crate) fn close(&mut self)
        ensures kept { kept_of self.new ≡ record (kept_of self.old) { result = no_result; tx = no_tx } }
        ensures out { self.new.out ≡ self.old.out }
        ensures queue { self.new.queue ≡ self.old.queue }
    {
        self.result = OpenResult::closed(self.alloc);
        self.tx = Transaction::none(self.alloc);
    }
}
