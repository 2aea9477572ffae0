//! How much is done at once, how long is waited, and what may be tried.
ghost use Rattle.std.specs.Prelude.{◌≡◌};
ghost use Rattle.server_event_loop.specs.Turns.{joined};

/// How much of a connection is done at once, and how long is waited for its peer.
#[derive(Clone, Copy)]
pub struct Limits {
    /// Steps of a session between two reads.
    pub steps: u32,
    /// Reads of a connection in a turn.
    pub reads: u32,
    /// Milliseconds after which a peer is given up that neither sends nor takes a byte.
    pub silence: u64,
    /// Milliseconds after which a peer is given up that isn't let in, whatever it sends.
    pub arrival: u64,
    /// Milliseconds for which a connection is drained at most after its session's end.
    pub last: u64,
}

/// What may be tried on a connection.
#[derive(Clone, Copy)]
pub struct Readiness {
    /// A read may bring something.
    pub reads: bool,
    /// A write may take something.
    pub writes: bool,
    /// The peer sends no more than what can be read now.
    pub last: bool,
}

impl Readiness {
    /// Everything that either of the two allows.
    pub(crate) fn and(self, other: Readiness) -> Readiness
        ensures { result ≡ joined self other }
    {
        Readiness {
            reads: self.reads || other.reads,
            writes: self.writes || other.writes,
            last: self.last || other.last,
        }
    }
}
