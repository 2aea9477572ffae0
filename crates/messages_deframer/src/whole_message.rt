//! A message that is whole, by its bytes or by the reader that has read them.
ghost use Rattle.std.specs.Prelude.{◌≡◌, ℕ, List, None, Some, IfOk, OnErr};
ghost use Rattle.wire.specs.Framing.{Message};
ghost use Rattle.packstream_incremental.specs.Piecewise.{Reads};
ghost use Rattle.messages_deframer.specs.Taking.{Brings};

use crate::brought::Brought;
use crate::readable::Readable;
use messages::MsgFault;
use packstream_incremental::Reader;
use packstream_incremental::laws::finish_reads;
use std::alloc::{AllocError, Global};
use wire::Version;

/// The message of these bytes.
pub(crate) fn read_bytes<M: Readable>(
    alloc: Global,
    version: Version,
    message: &[u8],
) -> Result<Brought<M>, AllocError>
    ensures { IfOk result (λ x. Brings (M.reads version) (Some (Message message.now)) x) }
{
    match M::of_bytes(alloc, version, message) {
        Ok(told) => Ok(Brought::Message(told)),
        Err(MsgFault::Memory) => Err(AllocError),
        Err(fault) => Ok(Brought::Bad(fault)),
    }
}

/// The message of which all data was read: of its bytes, or of its fault if the reader is bad. Takes no memory.
pub(crate) fn read_data<M: Readable>(
    alloc: Global,
    version: Version,
    reader: &Reader,
) -> Result<Brought<M>, AllocError>
    ensures ok { (b : List ℕ) → Reads reader.now.here b
        → IfOk result (λ x. Brings (M.reads version) (Some (Message b)) x) }
    ensures memory { OnErr result (reader.now.here.bad ≡ None) }
{
    finish_reads();
    match reader.bytes() {
        Ok(bytes) => read_bytes(alloc, version, bytes),
        Err(fault) => Ok(Brought::Bad(MsgFault::from(fault))),
    }
}
