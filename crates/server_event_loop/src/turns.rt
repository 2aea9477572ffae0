//! A turn of one connection, and whether it goes on.
ghost use Rattle.std.specs.Prelude.{◌≡◌, ◌+◌, ◌*◌, [], true};
ghost use Rattle.server.specs.Views.{rest_of};
ghost use Rattle.server_event_loop.specs.Moving.{Moves};
ghost use Rattle.server_event_loop.specs.Views.{seat_held, Lingers};
ghost use Rattle.server_event_loop.specs.Waiting.{InTime, remains};

use crate::{Closing, Limits, Peers, Seat, Turned};
use engine::{Engine, Gate};
use server::Server;

/// A turn of a connection whose session lives, if it would do something; whether it goes on. Else it is to be given up: there are no
/// further turns, or its time is up.
pub(crate) fn goes_on<E: Engine, G: Gate, P: Peers>(
    seat: &mut Seat,
    server: &mut Server<E, G>,
    peers: &mut P,
    limits: &Limits,
    now: u64,
) -> bool
    ensures moves { Moves E.answer G.welcomes (limits.now.reads * (limits.now.steps * 2) + 1)
        (limits.now.reads + 2) []
        (rest_of E.entries server.old) (rest_of E.entries server.new)
        (seat_held seat.old) (seat_held seat.new) (P.wire peers.old) (P.wire peers.new) }
    ensures in_time { result ≡ true → InTime limits.now now seat.new }
{
    if !seat.is_busy() {
        return now < seat.deadline(limits);
    }
    match seat.turn(server, peers, limits, now) {
        Turned::Goes => now < seat.deadline(limits),
        Turned::Over => false,
    }
}

/// A turn of a connection whose session was given up, if it would do something; whether it remains open. Else it is to be closed: nothing
/// more is done, or its time is up.
pub(crate) fn remains<P: Peers>(
    closing: &mut Closing,
    peers: &mut P,
    limits: &Limits,
    now: u64,
) -> bool
    ensures lingers { Lingers closing.old closing.new (P.wire peers.old) (P.wire peers.new) }
    ensures remains { result ≡ remains limits.now now closing.new }
{
    if !closing.is_busy() {
        return is_open(closing, limits, now);
    }
    closing.turn(peers, now);
    is_open(closing, limits, now)
}

/// Whether something more is done, and there is time for it.
fn is_open(closing: &Closing, limits: &Limits, now: u64) -> bool
    ensures { result ≡ remains limits.now now closing.now }
{
    !closing.is_done() && now < closing.deadline(limits)
}
