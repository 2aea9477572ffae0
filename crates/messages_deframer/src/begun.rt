//! The item begun, which only clauses read. It takes no memory, and its methods do nothing at run time.
ghost use Rattle.std.specs.Prelude.{◌≡◌};
ghost use Rattle.std.specs.Borrow.{ftrue};
ghost use Rattle.wire.specs.Unfinished.{Unfinished, fresh};
ghost use Rattle.wire.specs.Framing.{chunks};
ghost use Rattle.wire.specs.Reader.{takes};

use std::marker::Model;

/// What a stream of chunks has brought of the item that isn't whole.
#[derive(Drop)]
pub(crate) struct Begun {
    pub ghost item: { Unfinished },
}

impl Model for Begun {
    ghost also_owns = { λ _. ftrue };
}

// It owns nothing.
unsafe impl Send for Begun {}

impl Begun {
    /// Nothing.
    pub(crate) fn new() -> Begun
        ensures { result.item ≡ fresh }
    {
        Begun {}
    }

    /// A piece has come, to the end of the item begun, else whole.
    pub(crate) fn take(&mut self, _piece: &[u8])
        ensures { self.new.item ≡ (takes chunks self.old.item _piece.now).rest }
    {}
}
