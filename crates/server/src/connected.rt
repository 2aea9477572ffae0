//! One session.

use crate::input::Incoming;
use crate::kinds::Took;
use bytes::Bytes;
use engine::{Engine, Gate};
use machine::State;
use server_session::{Cause, Session, What, Worked};
use std::alloc::{AllocError, Global};

/// One connection, from its first byte.
#[derive(Drop)]
pub(crate) struct Connected {
    pub conn: u64,
    pub incoming: Incoming,
    pub session: Session,
}

impl Connected {
    ghost use Rattle.std.specs.Prelude.{◌≡◌, IfOk, OnErr};
    ghost use Rattle.server.specs.Serving.{fresh, with_kept, fed_live, taken_from, noop_put, MayFeed, MayTakeOut, MayPutNoop, MayWork};
    ghost use Rattle.server_session.specs.Rest.{IsCounted, WritesRows, stepped};
    ghost use Rattle.server.specs.Views.{live_of};

    pub(crate) fn new(alloc: Global, conn: u64) -> Result<Connected, AllocError>
        ensures { IfOk result (λ s. live_of s ≡ fresh conn) }
    {
        Ok(Connected {
            conn,
            incoming: Incoming::new(alloc),
            session: Session::new(alloc)?,
        })
    }

    /// Takes at most one item of the piece, else all of it.
    pub(crate) fn feed(&mut self, piece: &[u8]) -> Result<Took, AllocError>
        ensures ok { IfOk result (λ took. fed_live (live_of self.old) piece.now ≡ (took, live_of self.new)) }
        ensures err { OnErr result ((live_of self.new ≡ live_of self.old)
            × MayFeed piece.now (live_of self.old)) }
    {
        if self.session.is_shut() {
            return Ok(Took {
                used: 0,
                what: What::Closed,
            });
        }
        if self.session.is_full() {
            return Ok(Took {
                used: 0,
                what: What::Full,
            });
        }
        self.incoming.take(&mut self.session, piece)
    }

    /// The smaller of `max` and what waits to go.
    pub(crate) fn take_out(&mut self, max: usize) -> Result<Bytes, AllocError>
        ensures ok { IfOk result (λ b. taken_from max (live_of self.old) ≡ (b, live_of self.new)) }
        ensures err { OnErr result ((live_of self.new ≡ live_of self.old)
            × MayTakeOut max (live_of self.old)) }
    {
        self.session.take_out(max)
    }

    /// What waits to go, in order.
    pub(crate) fn unsent(&self) -> &[u8]
        ensures { result.now ≡ (live_of self.now).kept.unsent }
    {
        self.session.unsent()
    }

    /// As many bytes of it are gone, or all if no more wait.
    pub(crate) fn sent(&mut self, count: usize)
        ensures { (taken_from count (live_of self.old)).1 ≡ live_of self.new }
    {
        self.session.sent(count)
    }

    /// Puts a no-op where it may, and answers whether it did.
    pub(crate) fn noop(&mut self) -> Result<bool, AllocError>
        ensures ok { IfOk result (λ b. noop_put (live_of self.old) ≡ (b, live_of self.new)) }
        ensures err { OnErr result ((live_of self.new ≡ live_of self.old)
            × MayPutNoop (live_of self.old)) }
    {
        self.session.noop()
    }

    pub(crate) fn state(&self) -> State
        ensures { result ≡ (live_of self.now).kept.state }
    {
        self.session.state()
    }

    /// Why it has ended.
    pub(crate) fn cause(&self) -> Option<Cause>
        ensures { result ≡ (live_of self.now).kept.ended }
    {
        self.session.cause()
    }

    /// One step: nothing, a row, a summary or an end. An `Err` changes nothing, nor the ledger.
    pub(crate) fn work<E: Engine, G: Gate>(
        &mut self,
        engine: &mut E,
        gate: &G,
    ) -> Result<Worked, AllocError>
        ensures ok { IfOk result
            (λ w. stepped (record { run = E.answer; welcome = G.welcomes gate.now }) self.old.conn
            (record { kept = (live_of self.old).kept; ledger = E.entries engine.old })
            ≡ (w, record { kept = (live_of self.new).kept; ledger = E.entries engine.new })) }
        ensures live { live_of self.new ≡ with_kept (live_of self.old) (live_of self.new).kept }
        ensures err { OnErr result ((live_of self.new ≡ live_of self.old)
            × MayWork (live_of self.old)) }
        ensures ledger { OnErr result (E.entries engine.new ≡ E.entries engine.old) }
        ensures counted { IfOk result IsCounted }
    {
        self.session.work(self.conn, engine, gate)
    }

    /// Writes rows that are owed, as so many steps do that tell a row each; and answers how many.
    pub(crate) fn write_rows(&mut self) -> usize
        ensures rows { WritesRows result (live_of self.old).kept (live_of self.new).kept }
        ensures live { live_of self.new ≡ with_kept (live_of self.old) (live_of self.new).kept }
    {
        self.session.write_rows()
    }
}
