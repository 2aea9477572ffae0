//! What a walk goes by.
use std::alloc::Global;
use wire::Version;

/// Where memory is from, and the version whose form the bytes are in.
#[derive(Clone, Copy)]
pub(crate) struct Scope {
    pub(crate) alloc: Global,
    pub(crate) version: Version,
}
