//! What holds of every reader, and of whatever it has read. Each function does nothing, and its contract is the law.
ghost use Rattle.std.specs.Prelude.{◌≡◌, List, ℕ, None, Result, ◌++◌, []};
ghost use Rattle.packstream.specs.declared.fault.PackFault.{PackFault as AnyFault};
ghost use Rattle.packstream.specs.Tree.{Tree};
ghost use Rattle.packstream.specs.Answers.{Tells, UnlessMemory, whole_of};
ghost use Rattle.packstream.specs.Plain.{AreBytes};
ghost use Rattle.packstream_incremental.specs.Piecewise.{Point, IsBeginning, MayGoOn, nothing_read, Reads, Takes, TellsValue, TellsFault, Finishes};

use crate::reader::Reader;

/// Where a reader begins, no bytes were read.
pub fn reads_nothing()
    ensures { Reads nothing_read [] }
{}

/// A piece that is taken is read behind the bytes that were read, whether the reader had turned bad before, turns bad or goes on.
pub fn reads_more()
    ensures { (old new : Point) (b piece : List ℕ) → Reads old b → AreBytes piece
        → Takes old piece new → Reads new (b ++ piece) }
{}

/// What `finish` tells is what `decode` tells of the bytes that were read, whatever of them the reader kept.
#[tactic(auto, using(crate::proofs::Pieces::value_read, crate::proofs::Pieces::fault_read, crate::proofs::Pieces::whole_read))]
pub fn finish_reads()
    ensures value { (p : Point) (b : List ℕ) (told : Result Tree AnyFault) → Reads p b
        → Finishes p told → TellsValue b told }
    ensures fault { (p : Point) (b : List ℕ) (told : Result Tree AnyFault) → Reads p b
        → Finishes p told → TellsFault b told }

    // This as a function of the bytes.
    ensures same { (p : Point) (b : List ℕ) (told : Result Tree AnyFault) → Reads p b
        → Finishes p told → Tells (λ t. t) told (whole_of b) }
{}

/// What `decode` tells of bytes and what `finish` tells of a reader that has read them, in whatever pieces, are the same, want of
/// memory aside: each is said by the contract of its call.
pub fn decodes_alike()
    ensures { (b : List ℕ) (p : Point) (decoded read : Result Tree AnyFault)
        → TellsValue b decoded → TellsFault b decoded → Reads p b → Finishes p read
        → UnlessMemory decoded (UnlessMemory read (decoded ≡ read)) }
{}

/// The bytes of the point that a reader holds are a beginning of its bytes.
pub fn holds_a_beginning(reader: &Reader)
    ensures { IsBeginning reader.now.held.bytes reader.now.here.bytes }
{
    reader.stands();
}

/// While a reader isn't bad, the bytes that it has read have no fault but missing bytes.
pub fn good_may_go_on(reader: &Reader)
    ensures { (b : List ℕ) → Reads reader.now.here b → reader.now.here.bad ≡ None → MayGoOn b }
{
    reader.stands();
}
