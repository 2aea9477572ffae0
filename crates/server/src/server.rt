//! Up to sixteen sessions over one engine and one gate.
ghost use Rattle.std.specs.Prelude.{◌≡◌, ◌↔◌, Some, None, option_map, IfOk, IfErr, OnErr, IfSome, IsErrOf};
ghost use Rattle.server.specs.Serving.{empty, find, feed_at, work_at, take_out_at, noop_at, unsent_at, sent_at, lost_at, state_at, cause_at, is_full, Opens, WritesAt, RefusesCall, MayFeed, MayTakeOut, MayWork, MayPutNoop};
ghost use Rattle.server_session.specs.Rest.{IsCounted};
ghost use Rattle.server.specs.Views.{rest_of, Lends};

use crate::connected::Connected;
use crate::kinds::{Refused, Took};
use crate::places::place_of;
use crate::{MAX_NUMBERS, MAX_SESSIONS};
use bytes::Bytes;
use engine::{Engine, Gate};
use machine::State;
use packstream_incremental::Reader;
use server_session::{Cause, Worked};
use std::alloc::Global;

/// A server: its live sessions in the order in which they were opened, over one engine and one gate.
///
/// ```rust
/// let gate = OneUser::new(alloc, "user", "pass")?;
/// let mut server = Server::new(alloc, FixedTable::new(alloc), gate);
/// ```
#[derive(Drop)]
pub struct Server<E, G> {
    engine: E,
    gate: G,
    sessions: Vec<Connected>,
    next: u64,
    alloc: Global,
}

impl<E: Engine, G: Gate> Server<E, G> {
    /// A server without sessions. Takes no memory.
    pub fn new(alloc: Global, engine: E, gate: G) -> Server<E, G>
        ensures { rest_of E.entries result ≡ empty (E.entries engine) gate }
    {
        Server {
            engine,
            gate,
            sessions: Vec::new(alloc),
            next: 0,
            alloc,
        }
    }

    /// Whether `open` would refuse: 16 sessions live, or no number is left. Takes no memory.
    pub fn is_full(&self) -> bool
        ensures { result ≡ is_full (rest_of E.entries self.now) }
    {
        MAX_SESSIONS <= self.sessions.len() || MAX_NUMBERS <= self.next
    }

    /// Opens a session, and answers its number. Numbers go from 0, each once. N2 if 16 sessions live or no number is left, else N3 for
    /// want of memory; nothing has changed then.
    pub fn open(&mut self) -> Result<u64, Refused>
        ensures { Opens result (rest_of E.entries self.old) (rest_of E.entries self.new) }
    {
        if self.sessions.len() >= MAX_SESSIONS || self.next >= MAX_NUMBERS {
            return Err(Refused::SessionsFull);
        }
        let conn = self.next;
        let Ok(session) = Connected::new(self.alloc, conn) else {
            return Err(Refused::Memory);
        };
        if self.sessions.push(session).is_err() {
            return Err(Refused::Memory);
        }
        self.next += 1;
        Ok(conn)
    }

    /// Takes at most one handshake, no-op or message of the piece, else all of it; nothing if the session is closed or full, which is told.
    /// N1 exactly if no live session has the number; N3 for want of memory; nothing has changed then. Memory is wanted where a handshake
    /// is answered, where data of the piece is kept, and where a message ends: never for headers and no-ops, and never once the message that
    /// isn't whole is known to be bad.
    pub fn feed(&mut self, conn: u64, piece: &[u8]) -> Result<Took, Refused>
        ensures done { IfOk result (λ took. feed_at conn piece.now
            (rest_of E.entries self.old) ≡ Some (took, rest_of E.entries self.new)) }
        ensures unknown { IsErrOf result Refused.NoSuchConnection
            ↔ (find conn (rest_of E.entries self.old).sessions ≡ None) }
        ensures refused { OnErr result (rest_of E.entries self.new ≡ rest_of E.entries self.old) }
        ensures refusal { IfErr result RefusesCall }
        ensures memory { IsErrOf result Refused.Memory
            → IfSome (find conn (rest_of E.entries self.old).sessions) (MayFeed piece.now) }
    {
        let Some(at) = place_of(&self.sessions, conn) else {
            return Err(Refused::NoSuchConnection);
        };
        let session = &mut self.sessions[at];
        let Ok(took) = session.feed(piece) else {
            return Err(Refused::Memory);
        };
        Ok(took)
    }

    /// Does one step of a session: nothing, a row, a summary or an end. N1 exactly if no live session has the number; N3 for want of
    /// memory; nothing has changed then, nor has the ledger.
    pub fn work(&mut self, conn: u64) -> Result<Worked, Refused>
        ensures done { IfOk result (λ worked. work_at E.answer G.welcomes conn
            (rest_of E.entries self.old) ≡ Some (worked, rest_of E.entries self.new)) }
        ensures unknown { IsErrOf result Refused.NoSuchConnection
            ↔ (find conn (rest_of E.entries self.old).sessions ≡ None) }
        ensures refused { OnErr result (rest_of E.entries self.new ≡ rest_of E.entries self.old) }
        ensures refusal { IfErr result RefusesCall }
        ensures memory { IsErrOf result Refused.Memory
            → IfSome (find conn (rest_of E.entries self.old).sessions) MayWork }
        ensures counted { IfOk result IsCounted }
    {
        let Some(at) = place_of(&self.sessions, conn) else {
            return Err(Refused::NoSuchConnection);
        };
        let session = &mut self.sessions[at];
        let Ok(worked) = session.work(&mut self.engine, &self.gate) else {
            return Err(Refused::Memory);
        };
        Ok(worked)
    }

    /// Writes rows that a session owes to a PULL, as so many calls of `work` would that tell a row each, one behind the other; and answers how
    /// many; 0 if no live session has the number. It may stop before the last of them: a row past 65,535 bytes or with a cell that holds
    /// others takes a call of `work`, and where there is no memory for one that call tells it.
    pub fn write_rows(&mut self, conn: u64) -> usize
        ensures { WritesAt conn result (rest_of E.entries self.old) (rest_of E.entries self.new) }
    {
        let Some(at) = place_of(&self.sessions, conn) else {
            return 0;
        };
        let session = &mut self.sessions[at];
        session.write_rows()
    }

    /// Takes out the smaller of `max` and what waits to go, in order; if that is none, without memory. N1 exactly if no live session
    /// has the number; N3 for want of memory; nothing has changed then.
    pub fn take_out(&mut self, conn: u64, max: usize) -> Result<Bytes, Refused>
        ensures done { IfOk result (λ bytes. take_out_at conn max
            (rest_of E.entries self.old) ≡ Some (bytes, rest_of E.entries self.new)) }
        ensures unknown { IsErrOf result Refused.NoSuchConnection
            ↔ (find conn (rest_of E.entries self.old).sessions ≡ None) }
        ensures refused { OnErr result (rest_of E.entries self.new ≡ rest_of E.entries self.old) }
        ensures refusal { IfErr result RefusesCall }
        ensures memory { IsErrOf result Refused.Memory
            → IfSome (find conn (rest_of E.entries self.old).sessions) (MayTakeOut max) }
    {
        let Some(at) = place_of(&self.sessions, conn) else {
            return Err(Refused::NoSuchConnection);
        };
        let session = &mut self.sessions[at];
        let Ok(bytes) = session.take_out(max) else {
            return Err(Refused::Memory);
        };
        Ok(bytes)
    }

    /// Lends what waits to go at a live session, in order; None if none has the number. Takes no memory.
    pub fn unsent(&self, conn: u64) -> Option<&[u8]>
        ensures { option_map (λ bytes. bytes.now) result ≡ unsent_at conn (rest_of E.entries self.now) }
    {
        let at = place_of(&self.sessions, conn)?;
        let session = &self.sessions[at];
        Some(session.unsent())
    }

    /// As many bytes of what waits to go at a session are gone, or all if no more wait. Nothing changes if none has the number. Takes no
    /// memory.
    pub fn sent(&mut self, conn: u64, count: usize)
        ensures { rest_of E.entries self.new ≡ sent_at conn count (rest_of E.entries self.old) }
    {
        let Some(at) = place_of(&self.sessions, conn) else {
            return;
        };
        let session = &mut self.sessions[at];
        session.sent(count);
    }

    /// Puts a no-op, and answers whether it did: not before a version is chosen, after the end, or while 65,536 bytes or more wait
    /// to go. N1 exactly if no live session has the number; N3 for want of memory; nothing has changed then.
    pub fn noop(&mut self, conn: u64) -> Result<bool, Refused>
        ensures done { IfOk result (λ put. noop_at conn
            (rest_of E.entries self.old) ≡ Some (put, rest_of E.entries self.new)) }
        ensures unknown { IsErrOf result Refused.NoSuchConnection
            ↔ (find conn (rest_of E.entries self.old).sessions ≡ None) }
        ensures refused { OnErr result (rest_of E.entries self.new ≡ rest_of E.entries self.old) }
        ensures refusal { IfErr result RefusesCall }
        ensures memory { IsErrOf result Refused.Memory
            → IfSome (find conn (rest_of E.entries self.old).sessions) MayPutNoop }
    {
        let Some(at) = place_of(&self.sessions, conn) else {
            return Err(Refused::NoSuchConnection);
        };
        let session = &mut self.sessions[at];
        let Ok(put) = session.noop() else {
            return Err(Refused::Memory);
        };
        Ok(put)
    }

    /// Gives a session up, and answers the cause of its end; `Lost` where it hadn't ended, None if it doesn't live. Takes no memory.
    pub fn lost(&mut self, conn: u64) -> Option<Cause>
        ensures { lost_at conn (rest_of E.entries self.old) ≡ (result, rest_of E.entries self.new) }
    {
        match place_of(&self.sessions, conn) {
            None => None,
            Some(at) => {
                let session = self.sessions.remove(at);
                Some(session.cause().unwrap_or(Cause::Lost))
            }
        }
    }

    /// The state of a live session; None if none has the number. Takes no memory.
    pub fn state(&self, conn: u64) -> Option<State>
        ensures { result ≡ state_at conn (rest_of E.entries self.now) }
    {
        let at = place_of(&self.sessions, conn)?;
        let session = &self.sessions[at];
        Some(session.state())
    }

    /// Why a live session has ended; None if it hasn't, or if none has the number. Takes no memory.
    pub fn cause(&self, conn: u64) -> Option<Cause>
        ensures { result ≡ cause_at conn (rest_of E.entries self.now) }
    {
        let at = place_of(&self.sessions, conn)?;
        let session = &self.sessions[at];
        session.cause()
    }

    /// Lends the reader of the message of a live session that isn't whole: it has read the message's bytes so far, or every
    /// continuation of them has its fault. Takes no memory.
    pub fn reader(&self, conn: u64) -> Option<&Reader>
        ensures { Lends result (find conn (rest_of E.entries self.now).sessions) }
    {
        let at = place_of(&self.sessions, conn)?;
        let session = &self.sessions[at];
        Some(session.incoming.inbox.reader())
    }

    /// Lends the engine. Takes no memory.
    pub fn engine(&self) -> &E
        ensures { E.entries result.now ≡ (rest_of E.entries self.now).ledger }
    {
        &self.engine
    }
}
