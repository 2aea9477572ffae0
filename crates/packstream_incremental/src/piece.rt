//! A reader over one piece.
ghost use Rattle.std.specs.Prelude.{◌≡◌, ◌↔◌, ℕ, Ok, Err};
ghost use Rattle.packstream.specs.Tree.{Tree};
ghost use Rattle.packstream.specs.Good.{IsGood};
ghost use Rattle.packstream.specs.Spelling.{Spells};
ghost use Rattle.packstream.specs.Faults.{Bad};
ghost use Rattle.packstream.specs.Answers.{UnlessMemory};
ghost use Rattle.packstream.specs.declared.fault.Reason.{Reason};
ghost use Rattle.packstream.specs.declared.fault.PackFault.TheVariants as fault;

use crate::reader::Reader;
use packstream::{PackFault, Packed};
use std::alloc::Global;

/// What `decode` tells of the bytes, by a reader that is fed them as one piece: its contract is that of `decode`, and
/// follows from what a reader's calls ensure.
pub fn read_piece(alloc: Global, bytes: &[u8]) -> Result<Packed, PackFault>
    // Apart from memory, it is the good value that the bytes spell, if they spell one ..
    ensures value { (t : Tree)
        → UnlessMemory result ((result ≡ Ok t) ↔ (IsGood t × Spells t bytes.now)) }

    // .. and the fault at its place, if they have one.
    ensures fault { (r : Reason) (o : ℕ)
        → UnlessMemory result ((result ≡ Err (fault.Refused r o)) ↔ Bad bytes.now o r) }
{
    let mut reader = Reader::new(alloc);
    let Ok(()) = reader.feed(bytes) else {
        return Err(PackFault::Memory);
    };
    reader.finish()
}
