//! How a cell is spelled.
ghost use Rattle.std.specs.Prelude.{IfOk};
ghost use Rattle.structures_encoder.specs.Prelude.{IsInner};

use crate::fault::{Spelled, Unspelled};
use wire::Version;

/// Whether somebody looked at the structures of a cell, so that none is looked at twice.
#[derive(Clone, Copy)]
pub(crate) enum Inside {
    /// Nobody looked: there may be one that isn't of the version.
    Unchecked,
    /// None has a fault.
    Fine,
}

/// The version that a cell is spelled in, how deep it may nest, and what is known of the structures inside.
#[derive(Clone, Copy)]
pub(crate) struct Scope {
    pub(crate) version: Version,
    pub(crate) room: u8,
    pub(crate) inside: Inside,
}

impl Scope {
    /// The scope of what is one level deeper; or no, where there is no room for it.
    #[inline(always)]
    pub(crate) fn inner(mut self) -> Spelled<Scope>
        ensures { IfOk result (IsInner self) }
    {
        self.room = self.room.checked_sub(1).ok_or(Unspelled)?;
        Ok(self)
    }
}
