//! Why bytes are no message, or a message can't be written.
ghost use Rattle.std.specs.Prelude.{◌≡◌};
ghost use Rattle.messages.specs.Prelude.{of_pack, of_cell};
ghost use Rattle.messages.specs.declared.fault.MsgFault.TheVariants.{Memory};

use packstream::PackFault;
use std::alloc::{AllocError, AllocFailed};
use structures::CellFault;
use structures_decoder::Unscanned;
use thiserror::Error;

/// Why bytes are no message of a version, or a message can't be written at it. The texts are the codes that programs
/// print; what is wrong with a value or with cells prints as it does alone, with its place.
#[derive(Debug, Drop, Error)]
pub enum MsgFault {
    /// M1: the bytes spell no value, or the message is too deep to be one: what is wrong, and its place.
    #[error("{0} at {1}")]
    Pack(packstream::Reason, usize),
    /// M2: the value is no structure.
    #[error("M2")]
    NotAMessage,
    /// M3: no request, or no response, of the version has the tag.
    #[error("M3")]
    UnknownTag,
    /// M4: another number of fields, or a field of another kind.
    #[error("M4")]
    Fields,
    /// M5: a named entry is missing, of another kind or out of range, or an entry isn't allowed there.
    #[error("M5")]
    Extra,
    /// M6: a structure in parameters, metadata or a record: S1 to S6, and its number within that field.
    #[error("{0} at {1}")]
    Cell(structures::Reason, usize),
    /// M6: the written value of parameters, metadata or a record has a key twice or is too deep: P5 or P6, with its
    /// place within that field.
    #[error("{0} at {1}")]
    CellPack(packstream::Reason, usize),
    /// M7: memory ran out.
    #[error("out of memory")]
    Memory,
    /// M8: no spelling of the message has at most 65,536 bytes.
    #[error("M8")]
    Size,
}

/// What is read or written, or the fault.
pub type Answer<T> = Result<T, MsgFault>;

impl From<AllocError> for MsgFault {
    ghost from_gives = { λ _ e. e ≡ Memory };

    fn from(_e: AllocError) -> MsgFault {
        MsgFault::Memory
    }
}

impl<T: Drop> From<AllocFailed<T>> for MsgFault {
    ghost from_gives = { λ _ e. e ≡ Memory };

    fn from(_e: AllocFailed<T>) -> MsgFault {
        MsgFault::Memory
    }
}

impl From<PackFault> for MsgFault {
    ghost from_gives = { λ p e. e ≡ of_pack p };

    fn from(fault: PackFault) -> MsgFault {
        match fault {
            PackFault::Memory => MsgFault::Memory,
            PackFault::Refused(reason, place) => MsgFault::Pack(reason, place),
        }
    }
}

impl From<CellFault> for MsgFault {
    ghost from_gives = { λ f e. e ≡ of_cell f };

    fn from(fault: CellFault) -> MsgFault {
        match fault {
            CellFault::Memory => MsgFault::Memory,
            CellFault::Refused(reason, number) => MsgFault::Cell(reason, number),
            CellFault::Pack(reason, place) => MsgFault::CellPack(reason, place),
        }
    }
}

impl From<MsgFault> for Unscanned {
    fn from(_fault: MsgFault) -> Unscanned {
        Unscanned
    }
}
