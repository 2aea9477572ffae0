//! The bytes that a stream has moved, for proofs only.
ghost use Rattle.std.specs.Prelude.{◌≡◌, ℕ, List, [], ◌++◌};
ghost use Rattle.std.specs.Borrow.{ftrue};

use std::marker::Model;

/// All bytes that a stream has moved so far, in order. It takes no memory, and its methods do nothing at run time.
#[derive(Drop)]
pub struct History {
    pub ghost bytes: { List ℕ },
}

impl Model for History {
    ghost also_owns = { λ _. ftrue };
}

impl History {
    /// Makes the history of a stream that has moved nothing yet.
    #[inline(always)]
    pub fn new() -> History
        ensures { result.bytes ≡ [] }
    {
        History {}
    }

    /// Adds bytes that were moved.
    #[inline(always)]
    pub fn add(&mut self, _bytes: &[u8])
        ensures { self.new.bytes ≡ self.old.bytes ++ _bytes.now }
    {}
}
