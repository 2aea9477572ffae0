//! That the scanner declined: its caller goes by `decode`.

use std::alloc::{AllocError, AllocFailed};

/// It isn't scanned here: the bytes spell no good value, or one of another kind, with a fault in a structure or too deep, or there is no
/// memory.
#[derive(Clone, Copy, Debug)]
pub struct Unscanned;

/// A value that was read, and the source after it.
pub type Decoded<T, S> = Result<(T, S), Unscanned>;

/// A value that was read, and the bytes after it.
pub type Scanned<'a, T> = Decoded<T, &'a [u8]>;

/// The source after what was read and put in its place.
pub(crate) type Left<S> = Result<S, Unscanned>;

impl From<AllocError> for Unscanned {
    fn from(_e: AllocError) -> Unscanned {
        Unscanned
    }
}

impl<T: Drop> From<AllocFailed<T>> for Unscanned {
    fn from(_e: AllocFailed<T>) -> Unscanned {
        Unscanned
    }
}
