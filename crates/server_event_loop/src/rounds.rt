//! A round: who waits is let in, and each connection has a turn.

use crate::host::Host;
use crate::journal::Journal;
use crate::turns::{goes_on, remains};
use crate::{Greeting, Limits, MAX_SEATS, Parting, Peers, Seat};
use engine::{Engine, Gate};
use server::{Cause, Server};

/// Milliseconds after which somebody is greeted again who waits and couldn't be taken.
const GREET_AGAIN: u64 = 100;

impl Host {
    ghost use Rattle.std.specs.Prelude.{◌≡◌, ◌≤◌, ◌<◌, ◌+◌, ◌*◌, ◌∷◌, true, length, map, IsSome};
    ghost use Rattle.std.specs.List.{AllByRecursion};
    ghost use Rattle.server.specs.Views.{rest_of};
    ghost use Rattle.server.specs.Serving.{find};
    ghost use Rattle.server_event_loop.specs.Views.{seat_held};
    ghost use Rattle.server_event_loop.specs.Standing.{IsSeated, standing, closing_owed};
    ghost use Rattle.server_event_loop.specs.Running.{Leads, Ends, turn_calls, round_calls};
    ghost use Rattle.server_event_loop.specs.Waiting.{AddsInTime, Fades, InTime, remains};

    /// A round at this time: lets in who waits, as far as there is room; then each connection has one turn, if that would do something;
    /// and each of which there are no further turns, or whose time is up, is given up, and at last closed.
    pub fn round<E: Engine, G: Gate, P: Peers, J: Journal>(
        &mut self,
        server: &mut Server<E, G>,
        peers: &mut P,
        journal: &mut J,
        limits: &Limits,
        now: u64,
    )
        requires { IsSeated (standing E.entries P.wire J.told self.old.seats.items self.old.closings.items
            server.old peers.old journal.old) }
        ensures leads { Leads E.answer G.welcomes (round_calls limits.now)
            (standing E.entries P.wire J.told self.old.seats.items self.old.closings.items
            server.old peers.old journal.old)
            (standing E.entries P.wire J.told self.new.seats.items self.new.closings.items
            server.new peers.new journal.new) }
        ensures few { length self.new.seats.items ≤ 16 }
        ensures in_time { AllByRecursion (InTime limits.now now) self.new.seats.items }
        ensures remain { AllByRecursion (λ c. remains limits.now now c ≡ true) self.new.closings.items }
    {
        self.admit(server, peers, journal, now);
        self.serve_seats(server, peers, journal, limits, now);
        let count = self.closings.len();
        for made in 0..count {
            self.serve_closing(peers, limits, now);
        }
    }

    /// Lets in who waits, as far as there is room.
    fn admit<E: Engine, G: Gate, P: Peers, J: Journal>(
        &mut self,
        server: &mut Server<E, G>,
        peers: &mut P,
        journal: &mut J,
        now: u64,
    )
        requires { IsSeated (standing E.entries P.wire J.told self.old.seats.items self.old.closings.items
            server.old peers.old journal.old) }
        ensures { Leads E.answer G.welcomes (16 * 3)
            (standing E.entries P.wire J.told self.old.seats.items self.old.closings.items
            server.old peers.old journal.old)
            (standing E.entries P.wire J.told self.new.seats.items self.new.closings.items
            server.new peers.new journal.new) }
    {
        for made in 0..MAX_SEATS {
            if !self.may_greet(server, now) {
                return;
            }
            match peers.greet() {
                Greeting::Guest => self.let_in(server, peers, journal, now),
                Greeting::Nobody => {
                    self.guest = None;
                    return;
                }
                Greeting::Later => {
                    self.guest = Some(now.saturating_add(GREET_AGAIN));
                    return;
                }
            }
        }
    }

    /// Whether somebody is to be greeted now, and may be let in.
    fn may_greet<E: Engine, G: Gate>(&self, server: &Server<E, G>, now: u64) -> bool
        ensures room { result ≡ true → length self.now.seats.items < 16 }
        ensures places { result ≡ true → length self.now.seats.items + length self.now.closings.items < 32 }
    {
        match self.guest {
            Some(time) => time <= now && self.has_room(server),
            None => false,
        }
    }

    /// Opens a session for the guest, and gives it a seat. If that can't be, it is sent away; and its session is given up, if one
    /// was opened.
    fn let_in<E: Engine, G: Gate, P: Peers, J: Journal>(
        &mut self,
        server: &mut Server<E, G>,
        peers: &mut P,
        journal: &mut J,
        now: u64,
    )
        requires room { length self.old.seats.items < 16 }
        requires places { length self.old.seats.items + length self.old.closings.items < 32 }
        requires seated { IsSeated (standing E.entries P.wire J.told
            self.old.seats.items self.old.closings.items server.old peers.old journal.old) }
        ensures { Leads E.answer G.welcomes 3
            (standing E.entries P.wire J.told self.old.seats.items self.old.closings.items
            server.old peers.old journal.old)
            (standing E.entries P.wire J.told self.new.seats.items self.new.closings.items
            server.new peers.new journal.new) }
    {
        let Ok(conn) = server.open() else {
            peers.refuse();
            return;
        };
        let Ok(seat) = Seat::new(self.alloc, conn, now) else {
            peers.refuse();
            let cause = server.lost(conn).unwrap_or(Cause::Lost);
            journal.note(conn, Parting::Whole(cause));
            return;
        };
        if peers.seat(conn) {
            self.seats.push_back_reserved(seat);
            return;
        }
        let (given_up, _) = seat.give_up(server);
        journal.note(conn, given_up);
    }

    /// Each connection whose session lives has a turn.
    fn serve_seats<E: Engine, G: Gate, P: Peers, J: Journal>(
        &mut self,
        server: &mut Server<E, G>,
        peers: &mut P,
        journal: &mut J,
        limits: &Limits,
        now: u64,
    )
        requires { IsSeated (standing E.entries P.wire J.told self.old.seats.items self.old.closings.items
            server.old peers.old journal.old) }
        ensures leads { Leads E.answer G.welcomes (16 * turn_calls limits.now)
            (standing E.entries P.wire J.told self.old.seats.items self.old.closings.items
            server.old peers.old journal.old)
            (standing E.entries P.wire J.told self.new.seats.items self.new.closings.items
            server.new peers.new journal.new) }
        ensures in_time { AllByRecursion (InTime limits.now now) self.new.seats.items }
    {
        let count = self.seats.len();
        for made in 0..count {
            let Some(seat) = self.seats.pop_front() else {
                return;
            };
            self.serve_seat(seat, server, peers, journal, limits, now);
        }
    }

    /// A turn of a connection whose session lives. It is the last of the seats then, or its session is given up.
    fn serve_seat<E: Engine, G: Gate, P: Peers, J: Journal>(
        &mut self,
        seat: Seat,
        server: &mut Server<E, G>,
        peers: &mut P,
        journal: &mut J,
        limits: &Limits,
        now: u64,
    )
        requires room { length self.old.seats.items < 16 }
        requires places { length self.old.seats.items + length self.old.closings.items < 32 }
        requires seated { IsSeated (standing E.entries P.wire J.told
            (seat ∷ self.old.seats.items) self.old.closings.items server.old peers.old journal.old) }
        ensures leads { Leads E.answer G.welcomes (turn_calls limits.now)
            (standing E.entries P.wire J.told (seat ∷ self.old.seats.items) self.old.closings.items
            server.old peers.old journal.old)
            (standing E.entries P.wire J.told self.new.seats.items self.new.closings.items
            server.new peers.new journal.new) }
        ensures in_time { AddsInTime limits.now now self.old.seats.items self.new.seats.items }
    {
        let mut seat = seat;
        if goes_on(&mut seat, server, peers, limits, now) {
            self.seats.push_back_reserved(seat);
            return;
        }
        self.end(seat, server, journal);
    }

    /// Gives up the session of a connection, and tells it.
    fn end<E: Engine, G: Gate, J: Journal>(
        &mut self,
        seat: Seat,
        server: &mut Server<E, G>,
        journal: &mut J,
    )
        requires places { length self.old.seats.items + length self.old.closings.items < 32 }
        requires lives { IsSome (find (seat_held seat).conn (rest_of E.entries server.old).sessions) }
        ensures seats { self.new.seats.items ≡ self.old.seats.items }
        ensures ends { Ends E.answer G.welcomes (seat_held seat) (map closing_owed self.old.closings.items)
            (map closing_owed self.new.closings.items) (rest_of E.entries server.old)
            (rest_of E.entries server.new) (J.told journal.old) (J.told journal.new) }
    {
        let conn = seat.conn();
        let (parting, closing) = seat.give_up(server);
        journal.note(conn, parting);
        self.closings.push_back_reserved(closing);
    }

    /// A turn of the first connection whose session was given up. It is the last of these then, or it is closed.
    fn serve_closing<P: Peers>(&mut self, peers: &mut P, limits: &Limits, now: u64)
        ensures seats { self.new.seats.items ≡ self.old.seats.items }
        ensures fades { Fades limits.now now self.old.closings.items self.new.closings.items
            (P.wire peers.old) (P.wire peers.new) }
    {
        let Some(mut closing) = self.closings.pop_front() else {
            return;
        };
        if remains(&mut closing, peers, limits, now) {
            self.closings.push_back_reserved(closing);
            return;
        }
        peers.close(closing.conn());
    }
}
