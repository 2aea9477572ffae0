//! The streams that a shell runs over.
use std::marker::Model;
use streams::{PeerSource, Sink};

/// The streams of a shell: what comes of its server and what is sent there, where its lines are printed, and where it tells what no line says.
#[derive(Drop)]
pub struct ShellStreams<S: PeerSource, T: Sink, O: Sink, E: Sink> {
    pub source: S,
    pub sink: T,
    pub out: O,
    pub err: E,
}

impl<S: PeerSource, T: Sink, O: Sink, E: Sink> Model for ShellStreams<S, T, O, E> {
    ghost use Rattle.cli_output.specs.Seen.{Seen};
    ghost use Rattle.cli_sessions.specs.ShellStreams.{Streams};

    ghost Value = { Seen (S × T × O × E) Streams };

    ghost view = { λ w. record {
      held = (w.source, w.sink, w.out, w.err);
      at = record {
        left = S.left w.source;
        reads = S.reads w.source;
        written = T.taken w.sink;
        printed = O.taken w.out;
        told = E.taken w.err;
        read_failed = S.has_failed w.source;
        write_failed = T.has_failed w.sink;
        print_failed = O.has_failed w.out;
        deaf = E.has_failed w.err;
      };
    } };
}
