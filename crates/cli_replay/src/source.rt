//! A source read to its end.
ghost use Rattle.std.specs.Prelude.{◌≡◌, ◌↔◌, List, ℕ, IfOk, true, Err};
ghost use Rattle.std.specs.Io.KnownBytes.{Consumes, IsAtEnd};

use std::alloc::Global;
use streams::{MAX_PIECE, Source, StreamFault};

/// The bytes of a source, to its end. I1 exactly if the source has failed by then; else I3 for want of memory.
pub fn read_all<S: Source>(alloc: Global, source: &mut S) -> Result<Vec<u8>, StreamFault>
    // What was read is a beginning of the source's bytes; all of them if they are answered.
    ensures bytes { (front : List ℕ) × Consumes (S.left source.old) (S.left source.new) front
        × IfOk result (λ v. (v.items ≡ front) × IsAtEnd (S.left source.new)) }
    ensures failed { (result ≡ Err StreamFault.ReadFailed) ↔ (S.has_failed source.new ≡ true) }
{
    let mut bytes = Vec::new(alloc);
    let mut buffer = [0; MAX_PIECE];
    loop {
        let Ok(len) = source.read(&mut buffer) else {
            return Err(StreamFault::ReadFailed);
        };
        if len == 0 {
            return Ok(bytes);
        }
        if bytes.extend_from_slice(&buffer[..len]).is_err() {
            return Err(StreamFault::Memory);
        }
    }
}
