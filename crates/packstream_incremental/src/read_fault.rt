//! What ends the reading.
ghost use Rattle.std.specs.Prelude.{◌≡◌};
ghost use Rattle.packstream_incremental.specs.declared.read_fault.ReadFault.TheVariants.{Memory};

use packstream::Reason;
use std::alloc::{AllocError, AllocFailed};

/// Want of memory, or a fault and its place.
#[derive(Debug, Drop)]
pub(crate) enum ReadFault {
    Memory,
    Fault(Reason, usize),
}

impl From<AllocError> for ReadFault {
    ghost from_gives = { λ _ e. e ≡ Memory };

    fn from(_e: AllocError) -> ReadFault {
        ReadFault::Memory
    }
}

impl<T: Drop> From<AllocFailed<T>> for ReadFault {
    ghost from_gives = { λ _ e. e ≡ Memory };

    fn from(_e: AllocFailed<T>) -> ReadFault {
        ReadFault::Memory
    }
}
