//! What the failure of an accept means for those who wait.
ghost use Rattle.std.specs.Prelude.{◌≡◌};
ghost use Rattle.server_tcp.specs.Failures.{refusal_of};

use std::io::ErrorKind;

/// Why nobody was accepted.
#[derive(Clone, Copy, Debug, PartialEq, Eq)]
pub(crate) enum Refusal {
    /// Nobody waits.
    Nobody,
    /// The one who waited is gone, or a signal came: the next may be tried at once.
    Next,
    /// Somebody waits and can't be taken now, as for want of descriptors or of memory.
    Later,
}

/// What an accept means that fails so. Linux tells a failure of the network on the connection that waited as one of the accept
/// (accept(2), "Error handling"): only that connection is gone. A process or a system without a free descriptor (EMFILE, ENFILE) has no
/// kind of its own, and is `Later` as every other.
pub(crate) fn refusal_of(kind: ErrorKind) -> Refusal
    ensures { result ≡ refusal_of kind }
{
    match kind {
        ErrorKind::WouldBlock => Refusal::Nobody,
        ErrorKind::Interrupted
        | ErrorKind::ConnectionAborted
        | ErrorKind::ConnectionReset
        | ErrorKind::NetworkDown
        | ErrorKind::NetworkUnreachable
        | ErrorKind::HostUnreachable
        | ErrorKind::TimedOut
        | ErrorKind::PermissionDenied => Refusal::Next,
        _ => Refusal::Later,
    }
}
