//! Heads, integers, texts and bytes.
ghost use Rattle.std.specs.Prelude.{◌≡◌, ◌≤◌, ◌<◌, ◌+◌, ◌^◌, ◌∷◌, [], ◌++◌, length, string_bytes, FitsSigned, OnOk};
ghost use Rattle.structures_encoder.specs.Prelude.{w64, IsUtf8, big_bytes, head, long_head, int_bytes, text_bytes, AreBytes, Adds, Puts, PutsHead};

use crate::fault::{Spelled, Unspelled};
use crate::scope::Scope;
use packstream::MAX_SIZE;
use packstream::writing::{Output, put_float, put_head, put_int, put_short_bytes, put_short_text};

/// Adds the marker and the tag that a structure of so many fields begins with, and gives the scope of these.
#[inline]
pub(crate) fn put_opening(out: &mut Output, scope: Scope, fields: u8, tag: u8) -> Spelled<Scope>
    requires { fields ≤ 15 }
    ensures { PutsHead scope ((0xB0 + fields) ∷ tag ∷ []) out.old out.new result }
{
    let inner = scope.inner()?;
    out.extend_from_slice(&[0xB0 + fields, tag])?;
    Ok(inner)
}

/// Adds the head of a list of so many members, and gives the scope of these; or says no, to more than 65,536, or for want of memory.
#[inline]
pub(crate) fn put_list_head(out: &mut Output, scope: Scope, members: usize) -> Spelled<Scope>
    ensures { PutsHead scope (head 0x90 0xD4 members) out.old out.new result }
{
    let inner = scope.inner()?;
    if members > MAX_SIZE {
        return Err(Unspelled);
    }
    put_head(out, 0x90, 0xD4, members as u32)?;
    Ok(inner)
}

/// Adds the shortest spelling of a text; or says no, to one of more than 65,536 bytes, or for want of memory.
#[inline]
pub fn put_text(out: &mut Output, text: &str) -> Result<(), Unspelled>
    ensures before { out.new.before ≡ out.old.before }
    ensures ok { OnOk result (out.new.more ≡ out.old.more ++ text_bytes text.now) }
{
    if text.len() > MAX_SIZE {
        return Err(Unspelled);
    }
    Ok(put_short_text(out, text)?)
}

/// Spells a text.
#[tactic(auto, using(crate::proofs::Flat::texts))]
#[inline]
pub(crate) fn put_string(out: &mut Output, text: &String) -> Spelled<()>
    ensures { Puts (Adds (text_bytes (string_bytes text.now))
        (IsUtf8 (string_bytes text.now))) out.old out.new result }
{
    put_text(out, text.as_str())
}

/// Spells an integer. It stands where it is asked for, so that no loop over integers has a call for each.
#[inline(always)]
pub(crate) fn put_number(out: &mut Output, n: i64) -> Spelled<()>
    ensures { Puts (Adds (int_bytes n) (FitsSigned w64 n)) out.old out.new result }
{
    Ok(put_int(out, n)?)
}

/// Spells a float, by its bits.
#[inline]
pub(crate) fn put_bits(out: &mut Output, bits: u64) -> Spelled<()>
    ensures { Puts (Adds (0xC1 ∷ big_bytes 8 bits) (bits < 2 ^ 64)) out.old out.new result }
{
    Ok(put_float(out, bits)?)
}

/// Spells bytes.
#[tactic(auto, using(packstream::proofs::Ranges::bytes_from_each))]
pub(crate) fn put_bytes(out: &mut Output, bytes: &[u8]) -> Spelled<()>
    ensures { Puts (Adds (long_head 0xCC (length bytes.now) ++ bytes.now)
        (AreBytes bytes.now)) out.old out.new result }
{
    if bytes.len() > MAX_SIZE {
        return Err(Unspelled);
    }
    Ok(put_short_bytes(out, bytes)?)
}
