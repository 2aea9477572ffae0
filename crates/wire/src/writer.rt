//! Messages and no-ops as chunks ("Bolt message chunking").

ghost use Rattle.std.specs.Prelude.{◌≡◌, ◌+◌, ◌<◌, ◌≤◌, ◌++◌, length, IfErr, OnOk, OnErr, ◌↔◌};
ghost use Rattle.wire.specs.Texts.{chunk_of, split_chunks, written_run, noop, IsTooBig, UsesNothing};
ghost use Rattle.wire.specs.Limits.{max_message, max_chunk};

use crate::MAX_MESSAGE;
use crate::faults::WireFault;
use byteorder::{BigEndian, ByteOrder};
use bytes::BytesMut;

/// The most bytes of a chunk.
const MAX_CHUNK: usize = 65535;

/// Appends the message, of one byte or more, in chunks as long as they may be: each a length of two bytes, big-endian, and so many bytes,
/// then `00 00`.
///
/// X1, with 0 used, exactly if the message is past 65,536 bytes; X2 for want of memory. Nothing is appended then.
pub fn put_message(message: &[u8], out: &mut BytesMut) -> Result<(), WireFault>
    requires { 0 < length message.now }
    ensures ok { OnOk result (out.new.items ≡ out.old.items ++ written_run message.now) }
    ensures err { OnErr result (out.new.items ≡ out.old.items) }
    ensures too_big { IsTooBig result ↔ (max_message < length message.now) }
    ensures unused { IfErr result UsesNothing }
{
    if message.len() > MAX_MESSAGE {
        return Err(WireFault::TooBig { used: 0 });
    }
    if out.reserve(written_len(message)).is_err() {
        return Err(WireFault::Memory);
    }
    put_reserved(message, out);
    Ok(())
}

/// Appends a no-op, `00 00`; or nothing, by X2.
pub fn put_noop(out: &mut BytesMut) -> Result<(), WireFault>
    ensures ok { OnOk result (out.new.items ≡ out.old.items ++ noop) }
    ensures err { OnErr result (out.new.items ≡ out.old.items) }
    ensures fault { IfErr result (λ e. e ≡ WireFault.Memory) }
{
    if out.extend_from_slice(&[0, 0]).is_err() {
        return Err(WireFault::Memory);
    }
    Ok(())
}

/// How many bytes `put_message` and `put_reserved` append for this message of at most 65,536 bytes. Takes no memory.
#[tactic(auto, using(crate::proofs::Runs::text_facts))]
pub fn written_len(message: &[u8]) -> usize
    requires { length message.now ≤ max_message }
    ensures { result ≡ length (written_run message.now) }
{
    if message.len() <= MAX_CHUNK {
        message.len() + 4
    } else {
        message.len() + 6
    }
}

/// Appends what `put_message` does. There is room for it, so it takes no memory.
#[tactic(auto, using(crate::proofs::Runs::text_facts))]
pub fn put_reserved(message: &[u8], out: &mut BytesMut)
    requires some { 0 < length message.now }
    requires fits { length message.now ≤ max_message }
    requires room { length (written_run message.now) ≤ out.old.spare }
    ensures items { out.new.items ≡ out.old.items ++ written_run message.now }
    ensures spare { out.new.spare + length (written_run message.now) ≡ out.old.spare }
{
    if message.len() <= MAX_CHUNK {
        put_chunk(message, out);
    } else {
        put_split(message, MAX_CHUNK, out);
    }
    out.extend_reserved(&[0, 0]);
}

#[tactic(auto, using(crate::proofs::Runs::text_facts), unfolding(crate::specs::Texts::split_chunks))]
fn put_split(message: &[u8], at: usize, out: &mut BytesMut)
    requires first { (at < length message.now) × (at ≤ max_chunk) }
    requires second { length message.now ≤ at + max_chunk }
    requires room { length message.now + 4 ≤ out.old.spare }
    ensures items { out.new.items ≡ out.old.items ++ split_chunks at message.now }
    ensures spare { out.new.spare + (length message.now + 4) ≡ out.old.spare }
{
    put_chunk(&message[..at], out);
    put_chunk(&message[at..], out);
}

fn put_chunk(chunk: &[u8], out: &mut BytesMut)
    requires fits { length chunk.now ≤ max_chunk }
    requires room { length chunk.now + 2 ≤ out.old.spare }
    ensures items { out.new.items ≡ out.old.items ++ chunk_of chunk.now }
    ensures spare { out.new.spare + (length chunk.now + 2) ≡ out.old.spare }
{
    let mut header = [0u8; 2];
    BigEndian::write_u16(&mut header, chunk.len() as u16);
    out.extend_reserved(&header);
    out.extend_reserved(chunk);
}
