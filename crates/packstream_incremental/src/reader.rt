//! Values out of bytes that come in pieces.
ghost use Rattle.std.specs.Prelude.{◌≡◌, ◌↔◌, ℕ, None, Some, Err, Ok, OnOk, OnErr, IfOk};
ghost use Rattle.packstream.specs.Tree.{Tree};
ghost use Rattle.packstream.specs.Good.{IsGood};
ghost use Rattle.packstream.specs.Spelling.{Spells};
ghost use Rattle.packstream.specs.Faults.{Bad};
ghost use Rattle.packstream.specs.Answers.{UnlessMemory};
ghost use Rattle.packstream.specs.declared.fault.Reason.{Reason};
ghost use Rattle.packstream.specs.declared.fault.PackFault.TheVariants as fault;
ghost use Rattle.packstream_incremental.specs.Piecewise.{fresh, Takes, IsBeginning, MayGoOn};

use crate::progress::{Mark, Reading};
use packstream::{PackFault, Packed, decode};
use std::alloc::{AllocError, Global};
use std::marker::Model;

/// Checks one value that is fed in pieces, and keeps its bytes. Once no continuation could be valid it is bad, and keeps the fault and
/// its offset. `hold` sets a checkpoint, and `back` rolls back to it.
///
/// ```rust
/// let mut reader = Reader::new(alloc);
/// for byte in bytes {
///     reader.feed(&[*byte])?;
/// }
/// Ok(reader)
/// ```
#[derive(Drop)]
pub struct Reader {
    reading: Reading,
    held: Mark,
    /// The point that is held is here, and not at the mark.
    is_still: bool,
}

impl Model for Reader {
    ghost use Rattle.packstream_incremental.specs.Piecewise.{Points};
    ghost use Rattle.packstream_incremental.specs.Holding.{holds, points_at, IsKeptAt};

    ghost Value = { Points };

    ghost view = { λ a. points_at a.is_still (holds a.reading) a.held };

    ghost invariant = { λ a. IsKeptAt a.is_still (holds a.reading) a.held };
}

impl Reader {
    /// No bytes; that is the held point too. Takes no memory.
    pub fn new(alloc: Global) -> Reader
        ensures { result ≡ fresh }
    {
        let reading = Reading::new(alloc);
        let held = reading.mark();
        Reader {
            reading,
            held,
            is_still: true,
        }
    }

    /// Joins the piece to the bytes, if they then have no fault but missing bytes. Else each continuation of them has
    /// one fault at one place: the reader is bad from then on, keeps the bytes that it had, and takes no more. The held
    /// point stays. For want of memory nothing changes; a bad reader takes no memory.
    pub fn feed(&mut self, piece: &[u8]) -> Result<(), AllocError>
        ensures here { OnOk result (Takes self.old.here piece.now self.new.here) }
        ensures held { self.new.held ≡ self.old.held }
        ensures err { OnErr result (self.new ≡ self.old) }
        ensures memory { OnErr result (self.old.here.bad ≡ None) }
    {
        if self.reading.bad().is_some() {
            return Ok(());
        }
        if self.is_still {
            self.reading.mark_in(&mut self.held);
            self.reading.feed(&self.held, piece)?;
            self.is_still = false;
            return Ok(());
        }
        let before = self.reading.mark();
        self.reading.feed(&before, piece)
    }

    /// Joins the piece as `feed` does, and makes the point behind it the held one; in a text or a byte string that goes on
    /// behind the piece, at the cost of its bytes alone. For want of memory nothing changes; a bad reader takes no memory.
    pub fn advance(&mut self, piece: &[u8]) -> Result<(), AllocError>
        ensures here { OnOk result (Takes self.old.here piece.now self.new.here) }
        ensures held { OnOk result (self.new.held ≡ self.new.here) }
        ensures err { OnErr result (self.new ≡ self.old) }
        ensures memory { OnErr result (self.old.here.bad ≡ None) }
    {
        if self.reading.take_within(piece)? {
            self.hold();
            return Ok(());
        }
        self.feed(piece)?;
        self.hold();
        Ok(())
    }

    /// The bytes that were read; or the fault that each continuation of them has. Takes no memory.
    pub fn bytes(&self) -> Result<&[u8], PackFault>
        ensures ok { IfOk result
            (λ b. (self.now.here.bad ≡ None) × (b.now ≡ self.now.here.bytes)) }
        ensures bad { (r : Reason) (o : ℕ) → self.now.here.bad ≡ Some (r, o)
            → result ≡ Err (fault.Refused r o) }
        ensures good { OnErr result (self.now.here.bad ≡ None → ⊥) }
    {
        match self.reading.bad() {
            Some((reason, place)) => Err(PackFault::Refused(reason, place)),
            None => Ok(self.reading.bytes()),
        }
    }

    /// What `decode` tells of the bytes; or the fault, if the reader is bad.
    pub fn finish(&self) -> Result<Packed, PackFault>
        // Apart from memory, it is the good value that the bytes spell, if they spell one ..
        ensures value { self.now.here.bad ≡ None → (t : Tree)
            → UnlessMemory result ((result ≡ Ok t) ↔ (IsGood t × Spells t self.now.here.bytes)) }

        // .. and the fault at its place, if they have one.
        ensures fault { self.now.here.bad ≡ None → (r : Reason) (o : ℕ)
            → UnlessMemory result ((result ≡ Err (fault.Refused r o))
            ↔ Bad self.now.here.bytes o r) }
        ensures bad { (r : Reason) (o : ℕ) → self.now.here.bad ≡ Some (r, o)
            → result ≡ Err (fault.Refused r o) }
    {
        match self.bytes() {
            Ok(bytes) => decode(self.reading.alloc, bytes),
            Err(bad) => Err(bad),
        }
    }

    /// Makes this point the held one. Takes no memory.
    #[tactic(auto, using(crate::proofs::Held::keeps_at, crate::proofs::Held::here_at))]
    pub fn hold(&mut self)
        ensures here { self.new.here ≡ self.old.here }
        ensures held { self.new.held ≡ self.old.here }
    {
        self.is_still = true;
    }

    /// Returns to the held point. Takes no memory.
    pub fn back(&mut self)
        ensures here { self.new.here ≡ self.old.held }
        ensures held { self.new.held ≡ self.old.held }
    {
        if !self.is_still {
            self.reading.cut(&self.held);
        }
    }

    /// What holds of every reader, for the laws. It does nothing.
    pub(crate) fn stands(&self)
        ensures held { IsBeginning self.now.held.bytes self.now.here.bytes }
        ensures good { self.now.here.bad ≡ None → MayGoOn self.now.here.bytes }
    {
        let _is_still = self.is_still;
    }
}
