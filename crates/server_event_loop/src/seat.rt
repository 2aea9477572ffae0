//! A connection whose session lives, and its turns.
ghost use Rattle.std.specs.Prelude.{◌≡◌, ◌+◌, ◌*◌};
ghost use Rattle.server_event_loop.specs.Turns.{is_past_log_in};

use crate::MAX_PIECE;
use crate::closing::Closing;
use crate::limits::{Limits, Readiness};
use crate::line::{Line, Parting, Stand};
use crate::peers::{Failed, Got, Peers};
use engine::{Engine, Gate};
use machine::State;
use server::Server;
use std::alloc::{AllocError, Global};

/// What a session goes on with.
#[derive(Clone, Copy)]
enum Want {
    /// Steps that may be due.
    Work,
    /// More bytes of its peer.
    Bytes,
    /// That what is going has gone.
    Room,
}

/// Whether there are further turns.
#[derive(Clone, Copy)]
pub enum Turned {
    /// There may be.
    Goes,
    /// None: the session has ended, its peer sends no more or its connection has failed, or no memory or no ordinal is left. It is to be given up.
    Over,
}

/// A connection whose session lives, what was found of it, and its times.
#[derive(Drop)]
pub struct Seat {
    line: Line,
    want: Want,
    ready: Readiness,
    /// Whether the connection has failed.
    broken: bool,
    /// When it came, and when its last byte came or went.
    since: u64,
    moved: u64,
    let_in: bool,
}

impl Seat {
    ghost use Rattle.std.specs.Prelude.{◌≡◌, ◌||◌, [], ℕ, false, IfOk, IsSome};
    ghost use Rattle.server.specs.Serving.{find, state_at};
    ghost use Rattle.server.specs.Views.{rest_of};
    ghost use Rattle.server_event_loop.specs.Peers.{Wire};
    ghost use Rattle.server_event_loop.specs.Moving.{Carries, Moves};
    ghost use Rattle.server_event_loop.specs.Views.{new_held, seat_held, owed_of, Parts};
    ghost use Rattle.server_event_loop.specs.Turns.{IsAsOld, is_past_log_in, joined, is_seat_busy, seat_deadline};

    /// Of a connection that comes now, and of which nothing was read.
    pub fn new(alloc: Global, conn: u64, now: u64) -> Result<Seat, AllocError>
        ensures held { IfOk result (λ seat. seat_held seat ≡ new_held conn) }
        ensures times { IfOk result (λ seat. (seat.since ≡ now) × (seat.let_in ≡ false)) }
    {
        let line = Line::new(alloc, conn)?;
        Ok(Seat {
            line,
            want: Want::Bytes,
            ready: Readiness {
                reads: true,
                writes: true,
                last: false,
            },
            broken: false,
            since: now,
            moved: now,
            let_in: false,
        })
    }

    /// The number of the connection.
    pub fn conn(&self) -> u64
        ensures { result ≡ (seat_held self.now).conn }
    {
        self.line.conn
    }

    /// Keeps what is ready.
    pub fn wake(&mut self, ready: Readiness)
        ensures { self.new ≡ record self.old { ready = joined self.old.ready ready } }
    {
        self.ready = self.ready.and(ready);
    }

    /// Whether a turn would do something.
    pub fn is_busy(&self) -> bool
        ensures { result ≡ is_seat_busy self.now }
    {
        let goes_on = match self.want {
            Want::Work => true,
            Want::Bytes => self.ready.reads,
            Want::Room => self.ready.writes,
        };
        goes_on || self.ready.writes && self.line.is_going()
    }

    /// When its peer is given up, if nothing moves until then: one that was let in for its silence, any other for the time that it takes.
    pub fn deadline(&self, limits: &Limits) -> u64
        ensures { result ≡ seat_deadline self.now limits.now }
    {
        if self.let_in {
            self.moved.saturating_add(limits.silence)
        } else {
            self.since.saturating_add(limits.arrival)
        }
    }

    /// Writes some of what is going, if that may do something.
    fn utter<P: Peers>(&mut self, peers: &mut P, now: u64)
        ensures carries { Carries 1 (seat_held self.old) (seat_held self.new) (P.wire peers.old) (P.wire peers.new) }
        ensures times { IsAsOld self.old self.new }
    {
        if !self.ready.writes || !self.line.is_going() {
            return;
        }
        let said = self.line.say(peers);
        self.heed(&said, now);
    }

    /// Keeps what is said of the writes to come.
    fn heed(&mut self, said: &Result<usize, Failed>, now: u64)
        ensures line { self.new.line ≡ self.old.line }
        ensures times { IsAsOld self.old self.new }
    {
        match said {
            Ok(count) => {
                if 0 < *count {
                    self.moved = now;
                }
                self.ready.writes = !self.line.is_going();
            }
            Err(_) => self.broken = true,
        }
    }

    /// Takes out what was said, and writes as much as goes now; whether what was said could be taken out.
    fn write<E: Engine, G: Gate, P: Peers>(
        &mut self,
        server: &mut Server<E, G>,
        peers: &mut P,
        now: u64,
    ) -> bool
        ensures moves { Moves E.answer G.welcomes 1 2 [] (rest_of E.entries server.old)
            (rest_of E.entries server.new) (seat_held self.old) (seat_held self.new)
            (P.wire peers.old) (P.wire peers.new) }
        ensures times { IsAsOld self.old self.new }
    {
        self.utter(peers, now);
        let drawn = self.line.draw(server);
        self.utter(peers, now);
        drawn
    }

    /// Reads a piece; whether the peer may send more.
    fn listen<P: Peers>(&mut self, peers: &mut P, now: u64) -> Turned
        ensures carries { Carries 1 (seat_held self.old) (seat_held self.new) (P.wire peers.old) (P.wire peers.new) }
        ensures times { IsAsOld self.old self.new }
    {
        match self.line.hear(peers) {
            Ok(Got::Bytes(count)) => {
                self.moved = now;
                self.ready.reads = MAX_PIECE <= count || self.ready.last;
                self.want = Want::Work;
                Turned::Goes
            }
            Ok(Got::Nothing) => {
                self.ready.reads = false;
                Turned::Goes
            }
            Ok(Got::End) => Turned::Over,
            Err(_) => {
                self.broken = true;
                Turned::Over
            }
        }
    }

    /// Works, feeds and reads in turn, within the limits.
    fn talk<E: Engine, G: Gate, P: Peers>(
        &mut self,
        server: &mut Server<E, G>,
        peers: &mut P,
        limits: &Limits,
        now: u64,
    ) -> Turned
        ensures moves { Moves E.answer G.welcomes (limits.now.reads * (limits.now.steps * 2)) limits.now.reads []
            (rest_of E.entries server.old) (rest_of E.entries server.new)
            (seat_held self.old) (seat_held self.new) (P.wire peers.old) (P.wire peers.new) }
        ensures times { IsAsOld self.old self.new }
    {
        for made in 0..limits.reads {
            match self.line.advance(server, limits.steps) {
                Stand::Idle => self.want = Want::Bytes,
                Stand::More => {
                    self.want = Want::Work;
                    return Turned::Goes;
                }
                Stand::Full => {
                    self.want = Want::Room;
                    return Turned::Goes;
                }
                Stand::Over => return Turned::Over,
            }
            if !self.ready.reads {
                return Turned::Goes;
            }
            match self.listen(peers, now) {
                Turned::Goes => {}
                Turned::Over => return Turned::Over,
            }
        }
        Turned::Goes
    }

    /// One turn: works, feeds and reads within the limits, then takes out what was said and writes as much as goes now. It makes
    /// 2 calls of the server a step at most and one more, and 2 calls of the peer beside the reads.
    pub fn turn<E: Engine, G: Gate, P: Peers>(
        &mut self,
        server: &mut Server<E, G>,
        peers: &mut P,
        limits: &Limits,
        now: u64,
    ) -> Turned
        ensures moves { Moves E.answer G.welcomes (limits.now.reads * (limits.now.steps * 2) + 1) (limits.now.reads + 2) []
            (rest_of E.entries server.old) (rest_of E.entries server.new)
            (seat_held self.old) (seat_held self.new) (P.wire peers.old) (P.wire peers.new) }
        ensures lives { IsSome (find (seat_held self.old).conn (rest_of E.entries server.old).sessions)
            → IsSome (find (seat_held self.new).conn (rest_of E.entries server.new).sessions) }
        ensures since { self.new.since ≡ self.old.since }
        ensures let_in { self.new.let_in ≡ (self.old.let_in
            || is_past_log_in (state_at (seat_held self.new).conn (rest_of E.entries server.new))) }
    {
        let talked = self.talk(server, peers, limits, now);
        let drawn = self.write(server, peers, now);
        let let_in = is_let_in(server.state(self.line.conn));
        self.let_in = self.let_in || let_in;
        self.after_turn(talked, drawn)
    }

    /// Whether there are further turns, by how the talk ended and by whether what was said could be taken out.
    fn after_turn(&self, talked: Turned, drawn: bool) -> Turned {
        if drawn && !self.broken {
            talked
        } else {
            Turned::Over
        }
    }

    /// Takes out all that the session has said, if there is memory, and gives the session up. What its peer is owed is with the answer.
    pub fn give_up<E: Engine, G: Gate>(self, server: &mut Server<E, G>) -> (Parting, Closing)
        requires { IsSome (find (seat_held self).conn (rest_of E.entries server.old).sessions) }
        ensures conn { result.1.conn ≡ (seat_held self).conn }
        ensures parts { (w : ℕ → Wire) → Parts E.answer G.welcomes result.0 (rest_of E.entries server.old)
            (rest_of E.entries server.new) (seat_held self) (owed_of result.1) w }
    {
        let conn = self.line.conn;
        let (parting, going, behind) = self.line.give_up(server);
        let closing = Closing::new(conn, going, behind, self.ready, self.broken, self.moved);
        (parting, closing)
    }
}

/// Whether a session that stands so is past its client's log in.
fn is_let_in(state: Option<State>) -> bool
    ensures { result ≡ is_past_log_in state }
{
    !matches!(state, None | Some(State::Fresh | State::Unauth))
}
