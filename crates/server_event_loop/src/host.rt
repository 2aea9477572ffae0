//! The connections of a server, and their rounds.
ghost use Rattle.std.specs.Prelude.{◌≡◌, ◌+◌, ◌≤◌, map};
ghost use Rattle.std.specs.List.{list_any};
ghost use Rattle.std.specs.VecDeque.{deque_len, deque_capacity};
ghost use Rattle.server_event_loop.specs.Turns.{is_seat_busy};
ghost use Rattle.server_event_loop.specs.Waiting.{greeting_time, is_busy, nearest_seat, nearest_closing, woken_seat, woken_closing};

use crate::{Closing, Limits, MAX_CONNECTIONS, MAX_SEATS, Peers, Readiness, Ready, Seat};
use engine::{Engine, Gate};
use server::Server;
use std::alloc::{AllocError, Global};
use std::collections::VecDeque;

/// The connections of a server: those whose sessions live, 16 at most, and with these 32 at most those whose sessions were given up.
#[derive(Drop)]
pub struct Host {
    pub(crate) alloc: Global,
    pub(crate) seats: VecDeque<Seat>,
    pub(crate) closings: VecDeque<Closing>,
    /// From when on the next that waits is greeted; None if nobody does.
    pub(crate) guest: Option<u64>,
    ghost few: { deque_len seats ≤ 16 },
    ghost all: { deque_len seats + deque_len closings ≤ 32 },
    ghost room: { 16 ≤ deque_capacity seats },
    ghost places: { 32 ≤ deque_capacity closings },
}

impl Host {
    ghost use Rattle.std.specs.Prelude.{◌≡◌, ℕ, [], map, length, IfOk};
    ghost use Rattle.server.specs.Views.{rest_of};
    ghost use Rattle.server_event_loop.specs.Views.{seat_held};
    ghost use Rattle.server_event_loop.specs.Standing.{closing_owed};
    ghost use Rattle.server_event_loop.specs.Waiting.{greeting_time, has_room, pause, woken_seat, woken_closing};

    /// Without connections. Memory is made for the 32 that there may be.
    pub fn new(alloc: Global) -> Result<Host, AllocError>
        ensures seats { IfOk result (λ host. host.seats.items ≡ []) }
        ensures closings { IfOk result (λ host. host.closings.items ≡ []) }
    {
        let seats = VecDeque::with_capacity(alloc, MAX_SEATS)?;
        let closings = VecDeque::with_capacity(alloc, MAX_CONNECTIONS)?;
        Ok(Host {
            alloc,
            seats,
            closings,
            guest: Some(0),
        })
    }

    /// Takes all that is ready, and keeps it. No byte moves.
    pub fn hear<P: Peers>(&mut self, peers: &mut P)
        ensures seats { map seat_held self.new.seats.items ≡ map seat_held self.old.seats.items }
        ensures closings { map closing_owed self.new.closings.items
            ≡ map closing_owed self.old.closings.items }
        ensures wire { (k : ℕ) → P.wire peers.new k ≡ P.wire peers.old k }
    {
        for made in 0..u64::MAX {
            match peers.ready() {
                Some(ready) => self.heed(ready),
                None => return,
            }
        }
    }

    /// Keeps what is ready.
    fn heed(&mut self, ready: Ready)
        ensures seats { map seat_held self.new.seats.items ≡ map seat_held self.old.seats.items }
        ensures closings { map closing_owed self.new.closings.items
            ≡ map closing_owed self.old.closings.items }
    {
        match ready {
            Ready::Guest => self.guest = Some(0),
            Ready::Conn { conn, ready } => self.wake(conn, ready),
        }
    }

    /// Keeps what is ready of the connection with this number.
    fn wake(&mut self, conn: u64, ready: Readiness)
        ensures seats { self.new.seats.items ≡ map (woken_seat conn ready) self.old.seats.items }
        ensures closings { self.new.closings.items ≡ map (woken_closing conn ready) self.old.closings.items }
        ensures guest { self.new.guest ≡ self.old.guest }
    {
        wake_seats(&mut self.seats, conn, ready);
        wake_closings(&mut self.closings, conn, ready);
    }

    /// Whether a further connection may be let in: fewer than 16 have sessions that live, fewer than 32 are open, and the server
    /// opens one.
    pub(crate) fn has_room<E: Engine, G: Gate>(&self, server: &Server<E, G>) -> bool
        ensures { result ≡ has_room (length self.now.seats.items) (length self.now.closings.items)
            (rest_of E.entries server.now) }
    {
        self.seats.len() < MAX_SEATS
            && self.seats.len() + self.closings.len() < MAX_CONNECTIONS
            && !server.is_full()
    }

    /// How long nothing is to be done, in milliseconds: none where a turn would do something, or somebody waits and may be let in; else
    /// up to the first time at which one is given up, closed or greeted again.
    pub fn pause<E: Engine, G: Gate>(&self, server: &Server<E, G>, limits: &Limits, now: u64) -> u64
        ensures { result ≡ pause limits.now now self.now.seats.items self.now.closings.items
            (greeting_time self.now.guest (has_room (length self.now.seats.items)
            (length self.now.closings.items) (rest_of E.entries server.now))) }
    {
        if any_seat_busy(&self.seats) || any_closing_busy(&self.closings) {
            return 0;
        }
        let room = self.has_room(server);
        let greeted = greeting_time(self.guest, room);
        let given_up = nearest_seat(&self.seats, limits, greeted);
        let closed = nearest_closing(&self.closings, limits, given_up);
        closed.saturating_sub(now)
    }
}

/// Keeps what is ready of the connection with this number, if it is among these.
fn wake_seats(seats: &mut VecDeque<Seat>, conn: u64, ready: Readiness)
    ensures items { seats.new.items ≡ map (woken_seat conn ready) seats.old.items }
    ensures len { deque_len seats.new ≡ deque_len seats.old }
    ensures capacity { deque_capacity seats.new ≡ deque_capacity seats.old }
{
    for at in 0..seats.len() {
        wake_seat(&mut seats[at], conn, ready);
    }
}

fn wake_seat(seat: &mut Seat, conn: u64, ready: Readiness)
    ensures { seat.new ≡ woken_seat conn ready seat.old }
{
    if seat.conn() == conn {
        seat.wake(ready);
    }
}

/// Keeps what is ready of the connection with this number, if it is among these.
fn wake_closings(closings: &mut VecDeque<Closing>, conn: u64, ready: Readiness)
    ensures items { closings.new.items ≡ map (woken_closing conn ready) closings.old.items }
    ensures len { deque_len closings.new ≡ deque_len closings.old }
    ensures capacity { deque_capacity closings.new ≡ deque_capacity closings.old }
{
    for at in 0..closings.len() {
        wake_closing(&mut closings[at], conn, ready);
    }
}

fn wake_closing(closing: &mut Closing, conn: u64, ready: Readiness)
    ensures { closing.new ≡ woken_closing conn ready closing.old }
{
    if closing.conn() == conn {
        closing.wake(ready);
    }
}

/// From when on somebody is greeted: never if nobody waits, or if there is no room.
fn greeting_time(guest: Option<u64>, room: bool) -> u64
    ensures { result ≡ greeting_time guest room }
{
    match guest {
        Some(time) if room => time,
        _ => u64::MAX,
    }
}

fn any_seat_busy(seats: &VecDeque<Seat>) -> bool
    ensures { result ≡ list_any is_seat_busy seats.now.items }
{
    seats.iter().any(|seat| seat.is_busy())
}

fn any_closing_busy(closings: &VecDeque<Closing>) -> bool
    ensures { result ≡ list_any is_busy closings.now.items }
{
    closings.iter().any(|closing| closing.is_busy())
}

/// The nearest of this time and their deadlines.
fn nearest_seat(seats: &VecDeque<Seat>, limits: &Limits, time: u64) -> u64
    ensures { result ≡ nearest_seat limits.now seats.now.items time }
{
    let mut nearest = time;
    for seat in seats.iter() {
        nearest = nearest.min(seat.deadline(limits));
    }
    nearest
}

/// The nearest of this time and their deadlines.
fn nearest_closing(closings: &VecDeque<Closing>, limits: &Limits, time: u64) -> u64
    ensures { result ≡ nearest_closing limits.now closings.now.items time }
{
    let mut nearest = time;
    for closing in closings.iter() {
        nearest = nearest.min(closing.deadline(limits));
    }
    nearest
}
