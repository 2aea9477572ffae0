//! The streams that a loop runs over.
use std::marker::Model;
use streams::{PeerSource, Sink};

/// One way of a connection: the sink where bytes go in, and the source where they come out, at the other end.
#[derive(Drop)]
pub struct OneWay<T: Sink, S: PeerSource> {
    pub sink: T,
    pub source: S,
}

impl<T: Sink, S: PeerSource> Model for OneWay<T, S> {
    ghost use Rattle.cli_output.specs.Seen.{Seen};
    ghost use Rattle.cli_sessions.specs.Ways.{Way};

    ghost Value = { Seen (T × S) Way };

    ghost view = { λ w. record {
      held = (w.sink, w.source);
      at = record {
        taken = T.taken w.sink;
        left = S.left w.source;
        write_failed = T.has_failed w.sink;
        read_failed = S.has_failed w.source;
      };
    } };
}

/// The streams of a loop: both ways of a connection, and where its lines go. Each end reads of one way and writes on the other.
#[derive(Drop)]
pub struct BothWays<A: PeerSource, B: Sink, C: PeerSource, D: Sink, O: Sink> {
    /// From the client to the session.
    pub up: OneWay<B, C>,
    /// From the session to the client.
    pub down: OneWay<D, A>,
    pub out: O,
}

impl<A: PeerSource, B: Sink, C: PeerSource, D: Sink, O: Sink> Model for BothWays<A, B, C, D, O> {
    ghost use Rattle.cli_output.specs.Seen.{Seen};
    ghost use Rattle.cli_sessions.specs.Ways.{Ways};

    ghost Value = { Seen ((B × C) × (D × A) × O) Ways };

    ghost view = { λ w. record {
      held = (w.up.held, w.down.held, w.out);
      at = record {
        up = w.up.at;
        down = w.down.at;
        out = O.taken w.out;
        out_failed = O.has_failed w.out;
      };
    } };
}
