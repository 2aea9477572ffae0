//! A connection whose session was given up.
ghost use Rattle.std.specs.Prelude.{◌≡◌, ◌≤◌};

use crate::limits::{Limits, Readiness};
use crate::peers::{Failed, Got, Peers, count_of};
use crate::{MAX_DRAINED, MAX_PIECE};
use bytes::{Buf, Bytes};
use std::mem;

/// What is done with the connection.
#[derive(Clone, Copy)]
enum Phase {
    /// What is owed is written.
    Writing,
    /// All was written and the writing side is shut; what still comes is dropped.
    Draining,
    /// Nothing more is done.
    Closed,
}

/// A connection whose session was given up: what its peer is owed is written, then the writing side is shut, and then what still comes is
/// dropped for a while, so that a close with bytes unread doesn't throw away what hasn't arrived.
#[derive(Drop)]
pub struct Closing {
    conn: u64,
    going: Bytes,
    behind: Bytes,
    phase: Phase,
    ready: Readiness,
    /// When it last came further.
    since: u64,
    /// How many bytes were dropped.
    drained: usize,
    ghost bounded: { drained ≤ 69632 },
}

impl Closing {
    ghost use Rattle.std.specs.Prelude.{◌≡◌, ◌++◌, []};
    ghost use Rattle.server_event_loop.specs.Views.{owed_of, Lingers};
    ghost use Rattle.server_event_loop.specs.Turns.{joined, is_closed, is_closing_busy, closing_deadline};

    /// A connection that is owed these bytes, the second behind the first, and that last came further then; closed if it has failed.
    pub(crate) fn new(
        conn: u64,
        going: Bytes,
        behind: Bytes,
        ready: Readiness,
        broken: bool,
        since: u64,
    ) -> Closing
        ensures conn { result.conn ≡ conn }
        ensures owed { owed_of result ≡ going ++ behind }
    {
        let phase = if broken {
            Phase::Closed
        } else {
            Phase::Writing
        };
        Closing {
            conn,
            going,
            behind,
            phase,
            ready,
            since,
            drained: 0,
        }
    }

    /// The number of the connection.
    pub fn conn(&self) -> u64
        ensures { result ≡ self.now.conn }
    {
        self.conn
    }

    /// Whether nothing more is done, so that it may be closed.
    pub fn is_done(&self) -> bool
        ensures { result ≡ is_closed self.now.phase }
    {
        matches!(self.phase, Phase::Closed)
    }

    /// Keeps what is ready.
    pub fn wake(&mut self, ready: Readiness)
        ensures { self.new ≡ record self.old { ready = joined self.old.ready ready } }
    {
        self.ready = self.ready.and(ready);
    }

    /// Whether a turn would do something.
    pub fn is_busy(&self) -> bool
        ensures { result ≡ is_closing_busy self.now.phase self.now.ready }
    {
        match self.phase {
            Phase::Writing => self.ready.writes,
            Phase::Draining => self.ready.reads,
            Phase::Closed => false,
        }
    }

    /// When it is closed, done or not.
    pub fn deadline(&self, limits: &Limits) -> u64
        ensures { result ≡ closing_deadline self.now.phase self.now.since limits.now }
    {
        match self.phase {
            Phase::Writing => self.since.saturating_add(limits.silence),
            Phase::Draining => self.since.saturating_add(limits.last),
            Phase::Closed => 0,
        }
    }

    /// One turn: writes as much as goes now of what is owed, and once that is all, shuts the writing side; or reads a piece and drops it.
    pub fn turn<P: Peers>(&mut self, peers: &mut P, now: u64)
        ensures whole { self.old.phase ≡ Phase.Writing → self.new.phase ≡ Phase.Draining
            → owed_of self.new ≡ [] }
        ensures lingers { Lingers self.old self.new (P.wire peers.old) (P.wire peers.new) }
    {
        match self.phase {
            Phase::Writing => self.write(peers, now),
            Phase::Draining => self.drain(peers),
            Phase::Closed => {}
        }
    }

    /// Writes some of what is owed, and shuts the writing side once that is all.
    fn write<P: Peers>(&mut self, peers: &mut P, now: u64)
        requires { self.old.phase ≡ Phase.Writing }
        ensures whole { self.new.phase ≡ Phase.Draining → owed_of self.new ≡ [] }
        ensures lingers { Lingers self.old self.new (P.wire peers.old) (P.wire peers.new) }
    {
        self.shift();
        if self.say(peers, now).is_err() {
            self.phase = Phase::Closed;
            return;
        }
        if self.going.is_empty() && self.behind.is_empty() {
            peers.finish(self.conn);
            self.phase = Phase::Draining;
            self.since = now;
        }
    }

    /// What is behind is next, if the first went.
    fn shift(&mut self)
        ensures owed { owed_of self.new ≡ owed_of self.old }
        ensures phase { self.new.phase ≡ self.old.phase }
        ensures drained { self.new.drained ≡ self.old.drained }
        ensures conn { self.new.conn ≡ self.old.conn }
    {
        if self.going.is_empty() {
            self.going = mem::replace(&mut self.behind, Bytes::new());
        }
    }

    /// Writes some of what is first.
    fn say<P: Peers>(&mut self, peers: &mut P, now: u64) -> Result<(), Failed>
        ensures phase { self.new.phase ≡ self.old.phase }
        ensures lingers { Lingers self.old self.new (P.wire peers.old) (P.wire peers.new) }
    {
        if self.going.is_empty() {
            return Ok(());
        }
        let count = match peers.write(self.conn, self.going.as_slice()) {
            Ok(count) => count,
            Err(failed) => return Err(failed),
        };
        self.going.advance(count);
        self.ready.writes = self.going.is_empty();
        if 0 < count {
            self.since = now;
        }
        Ok(())
    }

    /// Reads a piece and drops it.
    fn drain<P: Peers>(&mut self, peers: &mut P)
        ensures { Lingers self.old self.new (P.wire peers.old) (P.wire peers.new) }
    {
        if MAX_DRAINED <= self.drained {
            self.phase = Phase::Closed;
            return;
        }
        let mut buffer = [0; MAX_PIECE];
        let got = peers.read(self.conn, &mut buffer);
        self.drained += count_of(&got);
        self.heed(&got);
    }

    /// Keeps what is said of the reads to come.
    fn heed(&mut self, got: &Result<Got, Failed>)
        ensures owed { owed_of self.new ≡ owed_of self.old }
        ensures drained { self.new.drained ≡ self.old.drained }
        ensures conn { self.new.conn ≡ self.old.conn }
    {
        match got {
            Ok(Got::Bytes(_)) => {}
            Ok(Got::Nothing) => self.ready.reads = false,
            Ok(Got::End) | Err(_) => self.phase = Phase::Closed,
        }
    }
}
