//! What writing and fitting a cell go by.
use std::alloc::{AllocError, Global};
use wire::Version;

/// Where memory is from, and the version whose form a cell is given.
#[derive(Clone, Copy)]
pub(crate) struct Scope {
    pub(crate) alloc: Global,
    pub(crate) version: Version,
}

/// What memory is taken for.
pub(crate) type Made<T> = Result<T, AllocError>;
