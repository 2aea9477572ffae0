//! Why lines say nothing.

use thiserror::Error;

/// Why a line says nothing.
#[derive(Clone, Copy, Debug, PartialEq, Eq, Error)]
pub enum LineFault {
    /// Its words are no form of a line.
    #[error("unreadable")]
    Unreadable,
    /// There is no memory.
    #[error("out of memory")]
    Memory,
}

/// Why a script says nothing.
#[derive(Clone, Copy, Debug, PartialEq, Eq, Error)]
pub enum ScriptFault {
    /// The first line that can't be read has this number, from 1, empty lines counted.
    #[error("line {0} unreadable")]
    Unreadable(usize),
    /// There is no memory.
    #[error("out of memory")]
    Memory,
}
