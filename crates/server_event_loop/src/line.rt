//! What lies between a session and its peer.
ghost use Rattle.std.specs.Prelude.{◌≡◌, ◌<◌, ◌≤◌, ◌*◌, vec_len};

use crate::MAX_PIECE;
use crate::peers::{Failed, Got, Peers, count_of};
use bytes::{Buf, Bytes};
use engine::{Engine, Gate};
use server::{Cause, Server, Worked};
use std::alloc::{AllocError, Global};

/// The bytes of a connection on their way: of a piece that was read, those that weren't fed; and of what was taken out, those that weren't
/// written.
#[derive(Drop)]
pub(crate) struct Line {
    pub(crate) conn: u64,
    piece: Vec<u8>,
    fed: usize,
    read: usize,
    pub(crate) going: Bytes,
    ghost used: { fed ≤ read },
    ghost filled: { read ≤ vec_len piece },
}

/// How a session stands once it was worked.
#[derive(Clone, Copy)]
pub(crate) enum Stand {
    /// Nothing is due: it waits for bytes.
    Idle,
    /// So many steps were made, and more may be due.
    More,
    /// What waits to go has to go first.
    Full,
    /// Nothing more comes of it: it has ended, or no memory or no ordinal is left.
    Over,
}

/// How a session was given up, and the cause of its end: Lost where it hadn't ended.
#[derive(Clone, Copy)]
pub enum Parting {
    /// All that it had said was taken out before.
    Whole(Cause),
    /// For want of memory, some of what it had said is gone with it.
    Cut(Cause),
}

impl Line {
    ghost use Rattle.std.specs.Prelude.{◌≡◌, ◌==◌, ◌++◌, not, length, [], ℕ, IfOk, IsSome};
    ghost use Rattle.server.specs.Serving.{find};
    ghost use Rattle.server.specs.Views.{rest_of};
    ghost use Rattle.server_event_loop.specs.Peers.{Wire};
    ghost use Rattle.server_event_loop.specs.Moving.{Carries, Moves};
    ghost use Rattle.server_event_loop.specs.Views.{held_of, new_held, Parts};

    /// Of a connection of which nothing has come.
    pub(crate) fn new(alloc: Global, conn: u64) -> Result<Line, AllocError>
        ensures { IfOk result (λ line. held_of line ≡ new_held conn) }
    {
        Ok(Line {
            conn,
            piece: vec![in alloc; 0; MAX_PIECE]?,
            fed: 0,
            read: 0,
            going: Bytes::new(),
        })
    }

    /// Whether something was taken out and isn't written.
    pub(crate) fn is_going(&self) -> bool
        ensures { result ≡ not (length self.now.going == 0) }
    {
        !self.going.is_empty()
    }

    /// Works and feeds in turn, at most so many steps, as long as something is due and finds room.
    pub(crate) fn advance<E: Engine, G: Gate>(
        &mut self,
        server: &mut Server<E, G>,
        steps: u32,
    ) -> Stand
        ensures { (w : ℕ → Wire) → Moves E.answer G.welcomes (steps * 2) 0 [] (rest_of E.entries server.old)
            (rest_of E.entries server.new) (held_of self.old) (held_of self.new) w w }
    {
        for made in 0..steps {
            match self.step(server) {
                Stand::More => {}
                other => return other,
            }
        }
        Stand::More
    }

    /// Works, or if nothing is due feeds an item.
    fn step<E: Engine, G: Gate>(&mut self, server: &mut Server<E, G>) -> Stand
        ensures { (w : ℕ → Wire) → Moves E.answer G.welcomes 2 0 [] (rest_of E.entries server.old)
            (rest_of E.entries server.new) (held_of self.old) (held_of self.new) w w }
    {
        let Ok(worked) = server.work(self.conn) else {
            return Stand::Over;
        };
        match worked {
            Worked::Row | Worked::Wrote { .. } => Stand::More,
            Worked::Full => Stand::Full,
            Worked::Ended(_) => Stand::Over,
            Worked::Idle => self.feed(server),
        }
    }

    /// Feeds an item at most of what was read. If nothing is taken of it, no ordinal is left.
    fn feed<E: Engine, G: Gate>(&mut self, server: &mut Server<E, G>) -> Stand
        ensures { (w : ℕ → Wire) → Moves E.answer G.welcomes 1 0 [] (rest_of E.entries server.old)
            (rest_of E.entries server.new) (held_of self.old) (held_of self.new) w w }
    {
        if self.fed == self.read {
            return Stand::Idle;
        }
        let (front, _) = self.piece.as_slice().split_at(self.read);
        let (_, rest) = front.split_at(self.fed);
        let Ok(took) = server.feed(self.conn, rest) else {
            return Stand::Over;
        };
        self.fed += took.used.min(self.read - self.fed);
        if took.used == 0 {
            return Stand::Over;
        }
        Stand::More
    }

    /// Reads a piece, if all of the last was fed.
    pub(crate) fn hear<P: Peers>(&mut self, peers: &mut P) -> Result<Got, Failed>
        ensures { Carries 1 (held_of self.old) (held_of self.new) (P.wire peers.old) (P.wire peers.new) }
    {
        if self.fed < self.read {
            return Ok(Got::Nothing);
        }
        let got = peers.read(self.conn, self.piece.as_mut_slice());
        self.fed = 0;
        self.read = count_of(&got);
        got
    }

    /// Takes out all that the session has said, if all that was taken out before is written; whether that could be.
    pub(crate) fn draw<E: Engine, G: Gate>(&mut self, server: &mut Server<E, G>) -> bool
        ensures { (w : ℕ → Wire) → Moves E.answer G.welcomes 1 0 [] (rest_of E.entries server.old)
            (rest_of E.entries server.new) (held_of self.old) (held_of self.new) w w }
    {
        if self.is_going() {
            return true;
        }
        let Ok(bytes) = server.take_out(self.conn, usize::MAX) else {
            return false;
        };
        self.going = bytes;
        true
    }

    /// Writes some of what is going, and answers how many bytes went.
    pub(crate) fn say<P: Peers>(&mut self, peers: &mut P) -> Result<usize, Failed>
        ensures { Carries 1 (held_of self.old) (held_of self.new) (P.wire peers.old) (P.wire peers.new) }
    {
        let count = match peers.write(self.conn, self.going.as_slice()) {
            Ok(count) => count,
            Err(failed) => return Err(failed),
        };
        self.going.advance(count);
        Ok(count)
    }

    /// Takes out all that the session has said, if there is memory, and gives the session up. It answers what was going, and what was
    /// taken out behind it.
    pub(crate) fn give_up<E: Engine, G: Gate>(
        self,
        server: &mut Server<E, G>,
    ) -> (Parting, Bytes, Bytes)
        requires { IsSome (find self.conn (rest_of E.entries server.old).sessions) }
        ensures { (w : ℕ → Wire) → Parts E.answer G.welcomes result.0 (rest_of E.entries server.old)
            (rest_of E.entries server.new) (held_of self) (result.1 ++ result.2) w }
    {
        let drawn = server.take_out(self.conn, usize::MAX);
        let cause = server.lost(self.conn).unwrap_or(Cause::Lost);
        match drawn {
            Ok(bytes) => {
                // Fewer than were asked for, so none is left.
                let count = bytes.len();
                prove!(count < usize::MAX);
                (Parting::Whole(cause), self.going, bytes)
            }
            Err(_) => (Parting::Cut(cause), self.going, Bytes::new()),
        }
    }
}
