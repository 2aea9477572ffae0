//! Bytes out of values.
#![tactic(auto, using(crate::proofs::Putting::writing))]

ghost use Rattle.std.specs.Prelude.{◌≡◌, ◌<◌, ◌+◌, ◌++◌, length, ℕ, min, OnOk, OnErr, Err, ◌↔◌, List};
ghost use Rattle.packstream.specs.Prelude.{Reason, long_head, text_bytes, canon, canon_all, canon_entries, IsShortest, list, dict, structure, IsSound, AreSound, HaveSoundValues, tree, trees, trees_of, entries, entries_of, UnlessMemory, Puts, Spells, max_size};

use crate::MAX_SIZE;
use crate::fault::{PackFault, Reason, Unwritten};
use crate::output::Output;
use crate::packed::Packed;
use crate::sizes::value_size;
use crate::value::Value;
use crate::writing::{put_float, put_head, put_int, put_short_bytes, put_short_text};
use bytes::BytesMut;

/// A text, in place: the loop over a dictionary's pairs has no call for a key.
#[inline]
fn put_key(out: &mut Output, key: &str) -> Result<(), Unwritten>
    ensures { Puts result out.old out.new (text_bytes key.now) }
{
    if key.len() > MAX_SIZE {
        return Err(Unwritten::Size);
    }
    Ok(put_short_text(out, key)?)
}

/// A text, by a call, which keeps `put_value` small.
#[inline(never)]
fn put_text(out: &mut Output, text: &str) -> Result<(), Unwritten>
    ensures { Puts result out.old out.new (text_bytes text.now) }
{
    put_key(out, text)
}

#[inline(never)]
fn put_bytes(out: &mut Output, bytes: &[u8]) -> Result<(), Unwritten>
    ensures { Puts result out.old out.new (long_head 0xCC (length bytes.now) ++ bytes.now) }
{
    if bytes.len() > MAX_SIZE {
        return Err(Unwritten::Size);
    }
    Ok(put_short_bytes(out, bytes)?)
}

#[cycle(encoder)]
fn put_value(out: &mut Output, value: &Value) -> Result<(), Unwritten>
    requires { IsSound (tree value.now) }
    ensures { Puts result out.old out.new (canon (tree value.now)) }
{
    match value {
        Value::Null => out.push(0xC0)?,
        Value::Bool(b) => out.push(if *b { 0xC3 } else { 0xC2 })?,
        Value::Int(n) => put_int(out, *n)?,
        Value::Float(bits) => put_float(out, *bits)?,
        Value::Bytes(bytes) => return put_bytes(out, bytes),
        Value::Text(text) => return put_text(out, text.as_str()),
        Value::List(members) => return put_list(out, members),
        Value::Dict(pairs) => return put_dict(out, pairs),
        Value::Struct(tag, fields) => return put_struct(out, *tag, fields),
    }
    Ok(())
}

#[cycle(encoder)]
#[inline(never)]
fn put_list(out: &mut Output, members: &[Value]) -> Result<(), Unwritten>
    requires { AreSound (trees_of (trees members.now)) }
    ensures { Puts result out.old out.new (canon (list (trees_of (trees members.now)))) }
{
    if members.len() > MAX_SIZE {
        return Err(Unwritten::Size);
    }
    put_head(out, 0x90, 0xD4, members.len() as u32)?;
    put_members(out, members)
}

#[cycle(encoder)]
#[inline(never)]
fn put_dict(out: &mut Output, pairs: &[(String, Value)]) -> Result<(), Unwritten>
    requires { HaveSoundValues (entries_of (entries pairs.now)) }
    ensures { Puts result out.old out.new (canon (dict (entries_of (entries pairs.now)))) }
{
    if pairs.len() > MAX_SIZE {
        return Err(Unwritten::Size);
    }
    put_head(out, 0xA0, 0xD8, pairs.len() as u32)?;
    put_pairs(out, pairs)
}

#[cycle(encoder)]
#[inline(never)]
fn put_struct(out: &mut Output, tag: u8, fields: &[Value]) -> Result<(), Unwritten>
    requires { IsSound (structure tag (trees_of (trees fields.now))) }
    ensures { Puts result out.old out.new (canon (structure tag (trees_of (trees fields.now)))) }
{
    out.push(0xB0 + fields.len() as u8)?;
    out.push(tag)?;
    put_members(out, fields)
}

#[cycle(encoder)]
fn put_members(out: &mut Output, members: &[Value]) -> Result<(), Unwritten>
    requires { AreSound (trees_of (trees members.now)) }
    ensures { Puts result out.old out.new (canon_all (trees_of (trees members.now))) }
{
    for member in members {
        match member {
            Value::Int(n) => put_int(out, *n)?,
            _ if out.len() > MAX_SIZE => return Err(Unwritten::Size),
            _ => put_value(out, member)?,
        }
    }
    Ok(())
}

#[cycle(encoder)]
fn put_pairs(out: &mut Output, pairs: &[(String, Value)]) -> Result<(), Unwritten>
    requires { HaveSoundValues (entries_of (entries pairs.now)) }
    ensures { Puts result out.old out.new (canon_entries (entries_of (entries pairs.now))) }
{
    for pair in pairs {
        if out.len() > MAX_SIZE {
            return Err(Unwritten::Size);
        }
        put_key(out, pair.0.as_str())?;
        put_value(out, &pair.1)?;
    }
    Ok(())
}

/// How many bytes the shortest spelling of the value takes, or 65,537 if that is more. Takes no memory.
pub fn size(packed: &Packed) -> usize
    ensures { result ≡ min (length (canon packed.now)) (max_size + 1) }
{
    value_size(packed.value())
}

/// Appends the shortest spelling (PackStream version 1), or nothing: `Size` at 0 exactly if no spelling has at most
/// 65,536 bytes, or want of memory.
#[tactic(auto, using(crate::proofs::Only::shortest, crate::proofs::Only::none_short))]
pub fn encode(packed: &Packed, out: &mut BytesMut) -> Result<(), PackFault>
    ensures ok { OnOk result (out.new.items ≡ out.old.items ++ canon packed.now) }
    ensures shortest { OnOk result (IsShortest packed.now (canon packed.now)) }
    ensures size { UnlessMemory result
        ((result ≡ Err (PackFault.Refused Reason.Size 0)) ↔ (max_size < length (canon packed.now))) }
    ensures none { UnlessMemory result
        ((result ≡ Err (PackFault.Refused Reason.Size 0))
        ↔ ((b : List ℕ) → Spells packed.now b → max_size < length b)) }
    ensures other { (r : Reason) (o : ℕ) → result ≡ Err (PackFault.Refused r o)
        → (r ≡ Reason.Size) × (o ≡ 0) }
    ensures err { OnErr result (out.new.items ≡ out.old.items) }
{
    let mut adding = Output::taking(out);
    let fault = match put_value(&mut adding, packed.value()) {
        Ok(()) if adding.len() <= MAX_SIZE => {
            *out = adding.keep();
            return Ok(());
        }
        Err(Unwritten::Memory) => PackFault::Memory,
        _ => PackFault::Refused(Reason::Size, 0),
    };
    *out = adding.undo();
    Err(fault)
}
