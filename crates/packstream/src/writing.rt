//! The shortest spellings of heads, numbers, texts and byte strings (PackStream version 1), added to an output. `Err` is want of memory, and
//! then a part may have been added.
#![tactic(auto, using(crate::proofs::Putting::parts), unfolding(crate::specs::Canon::long_head, crate::specs::Canon::head, crate::specs::Canon::int_bytes))]

ghost use Rattle.std.specs.Prelude.{◌≡◌, ◌≤◌, ◌∷◌, ◌++◌, length, OnOk};
ghost use Rattle.byteorder.specs.Endian.{big_bytes};
ghost use Rattle.packstream.specs.Prelude.{long_head, head, int_bytes, text_bytes, max_size};

pub use crate::output::Output;
use std::alloc::AllocError;

/// The shortest of the long heads of so many: a marker for one, two or four bytes of their count, and these.
pub fn put_long(out: &mut Output, marker: u8, n: u32) -> Result<(), AllocError>
    requires { marker ≤ 253 }
    ensures before { out.new.before ≡ out.old.before }
    ensures ok { OnOk result (out.new.more ≡ out.old.more ++ long_head marker n) }
{
    if n < 0x100 {
        out.push_and_extend(marker, &(n as u8).to_be_bytes())
    } else if n < 0x10000 {
        out.push_and_extend(marker + 1, &(n as u16).to_be_bytes())
    } else {
        out.push_and_extend(marker + 2, &n.to_be_bytes())
    }
}

/// The head of a text, a list or a dictionary of so many: in its marker alone up to 15.
#[inline]
pub fn put_head(out: &mut Output, tiny: u8, marker: u8, n: u32) -> Result<(), AllocError>
    requires tiny { tiny ≤ 240 }
    requires marker { marker ≤ 253 }
    ensures before { out.new.before ≡ out.old.before }
    ensures ok { OnOk result (out.new.more ≡ out.old.more ++ head tiny marker n) }
{
    if n < 16 {
        out.push(tiny + n as u8)
    } else {
        put_long(out, marker, n)
    }
}

/// An integer. It stands where it is asked for, so that no loop over integers has a call for each.
#[inline(always)]
pub fn put_int(out: &mut Output, n: i64) -> Result<(), AllocError>
    ensures before { out.new.before ≡ out.old.before }
    ensures ok { OnOk result (out.new.more ≡ out.old.more ++ int_bytes n) }
{
    if -32_768 <= n && n <= 32_767 {
        if -16 <= n && n <= 127 {
            out.extend_from_slice(&(n as i8).to_be_bytes())
        } else if -128 <= n && n <= 127 {
            out.push_and_extend(0xC8, &(n as i8).to_be_bytes())
        } else {
            out.push_and_extend(0xC9, &(n as i16).to_be_bytes())
        }
    } else if -2_147_483_648 <= n && n <= 2_147_483_647 {
        out.push_and_extend(0xCA, &(n as i32).to_be_bytes())
    } else {
        out.push_and_extend(0xCB, &n.to_be_bytes())
    }
}

/// A float, by its bits.
pub fn put_float(out: &mut Output, bits: u64) -> Result<(), AllocError>
    ensures before { out.new.before ≡ out.old.before }
    ensures ok { OnOk result (out.new.more ≡ out.old.more ++ (0xC1 ∷ big_bytes 8 bits)) }
{
    out.push_and_extend(0xC1, &bits.to_be_bytes())
}

/// A text of at most 65,536 bytes.
#[inline]
pub fn put_short_text(out: &mut Output, text: &str) -> Result<(), AllocError>
    requires { length text.now ≤ max_size }
    ensures before { out.new.before ≡ out.old.before }
    ensures ok { OnOk result (out.new.more ≡ out.old.more ++ text_bytes text.now) }
{
    put_head(out, 0x80, 0xD0, text.len() as u32)?;
    out.extend_from_slice(text.as_bytes())
}

/// A byte string of at most 65,536 bytes.
pub fn put_short_bytes(out: &mut Output, bytes: &[u8]) -> Result<(), AllocError>
    requires { length bytes.now ≤ max_size }
    ensures before { out.new.before ≡ out.old.before }
    ensures ok { OnOk result (out.new.more
        ≡ out.old.more ++ (long_head 0xCC (length bytes.now) ++ bytes.now)) }
{
    put_long(out, 0xCC, bytes.len() as u32)?;
    out.extend_from_slice(bytes)
}
