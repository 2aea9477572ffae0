//! Why a value is no cell, or a cell has no value.
ghost use Rattle.std.specs.Prelude.{◌≡◌};
ghost use Rattle.structures.specs.declared.fault.CellFault.TheVariants.{Memory};

use std::alloc::{AllocError, AllocFailed};
use structures_cells::Reason;
use thiserror::Error;

/// Why a value is no cell of a version, or a cell can't be written at it.
#[derive(Debug, Drop, Error)]
pub enum CellFault {
    /// S1 to S6: the first structure with a fault, by its number in preorder from 0, which stops at `usize::MAX`.
    #[error("{0} at {1}")]
    Refused(Reason, usize),
    /// S7: memory ran out.
    #[error("out of memory")]
    Memory,
    /// S8: the written value has a key twice or is too deep: the fault of `Packed::new`, P5 or P6, with its place.
    #[error("{0} at {1}")]
    Pack(packstream::Reason, usize),
}

impl From<AllocError> for CellFault {
    ghost from_gives = { λ _ e. e ≡ Memory };

    fn from(_e: AllocError) -> CellFault {
        CellFault::Memory
    }
}

impl<T: Drop> From<AllocFailed<T>> for CellFault {
    ghost from_gives = { λ _ e. e ≡ Memory };

    fn from(_e: AllocFailed<T>) -> CellFault {
        CellFault::Memory
    }
}
