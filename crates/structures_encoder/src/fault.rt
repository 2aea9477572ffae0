//! That the speller declined: its caller goes by `encode`.

use std::alloc::AllocError;

/// It isn't spelled here: it has a structure that isn't of the version, isn't good, nests deeper than the room, has a text, bytes, a list or a
/// dictionary of more than 65,536, or there is no memory.
#[derive(Clone, Copy, Debug)]
pub struct Unspelled;

/// What comes of spelling.
pub(crate) type Spelled<T> = Result<T, Unspelled>;

impl From<AllocError> for Unspelled {
    fn from(_e: AllocError) -> Unspelled {
        Unspelled
    }
}
