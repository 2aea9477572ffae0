//! Why a tracking client takes no bytes.
ghost use Rattle.std.specs.Prelude.{◌≡◌};
ghost use Rattle.client_tracking.specs.Feeding.{fault_of};

use client::ClientFault;
use thiserror::Error;

/// Why a piece wasn't used. The texts are the codes that programs print.
#[derive(Debug, Drop, Error)]
pub enum FeedFault {
    /// C4: the client has ended.
    #[error("C4")]
    Closed,
    /// C5: memory ran out.
    #[error("out of memory")]
    Memory,
    /// C6: a bad answer, with which the client has ended.
    #[error("C6")]
    BadPeer,
    /// As many rows of the request that waits are held as may be: some have to be taken first.
    #[error("too many rows are held")]
    Full,
}

/// The client's fault, as a tracking client's.
pub(crate) fn fault_of(fault: ClientFault) -> FeedFault
    ensures { result ≡ fault_of fault }
{
    match fault {
        ClientFault::Closed => FeedFault::Closed,
        ClientFault::Memory => FeedFault::Memory,
        ClientFault::BadPeer => FeedFault::BadPeer,
    }
}
