//! The values in the bytes of a message, one head after the other.

ghost use Rattle.std.specs.Prelude.{◌≡◌, ◌≤◌, ◌<◌, ◌+◌, ◌^◌, Some, None, IfSome, IfNone, length};
ghost use Rattle.byteorder.specs.Endian.{big_number, twos_complement};
ghost use Rattle.packstream.specs.Markers.{width, size_len};
ghost use Rattle.packstream.specs.Faults.{size_in};
ghost use Rattle.bolt_c.specs.Values.{kind_code, plain, counted, placed, head_by, head_at};

use byteorder::{BigEndian, ByteOrder};
use packstream::marker::{Marker, Size, Width, marker_of};

/// What a value is.
#[derive(Clone, Copy)]
pub(crate) enum Kind {
    Null,
    Bool,
    Int,
    Float,
    Bytes,
    Text,
    List,
    Dict,
    Structure,
}

/// A value, or the head of one that has members. What isn't of its kind is 0.
#[repr(C)]
#[derive(Drop)]
pub struct Value {
    /// 0 null, 1 a truth, 2 an integer, 3 a float, 4 bytes, 5 a text, 6 a list, 7 a dictionary, 8 a structure.
    pub kind: u32,
    /// Of a structure.
    pub tag: u32,
    /// Of a truth 0 or 1, of an integer itself.
    pub integer: i64,
    /// The 64 bits of a float.
    pub real: u64,
    /// Of bytes and of a text, the offset of the first byte.
    pub at: usize,
    /// How many bytes; of a list how many members, of a dictionary entries, of a structure fields.
    pub count: usize,
}

/// The number of a kind.
fn kind_code(kind: Kind) -> u32
    ensures { result ≡ kind_code kind }
{
    match kind {
        Kind::Null => 0,
        Kind::Bool => 1,
        Kind::Int => 2,
        Kind::Float => 3,
        Kind::Bytes => 4,
        Kind::Text => 5,
        Kind::List => 6,
        Kind::Dict => 7,
        Kind::Structure => 8,
    }
}

/// The number in the first bytes, the highest first, if there are so many.
fn number(wide: Width, bytes: &[u8]) -> Option<u64>
    ensures some { IfSome result (λ n. (n ≡ big_number (width wide) bytes.now) × (width wide ≤ length bytes.now)) }
    ensures none { IfNone result (length bytes.now < width wide) }
{
    if bytes.len() < wide.bytes() {
        return None;
    }
    Some(match wide {
        Width::One => u64::from(bytes[0]),
        Width::Two => u64::from(BigEndian::read_u16(bytes)),
        Width::Four => u64::from(BigEndian::read_u32(bytes)),
        Width::Eight => BigEndian::read_u64(bytes),
    })
}

/// A number of so many bytes in two's complement.
fn signed(wide: Width, bytes: &[u8]) -> Option<i64>
    ensures some { IfSome result (λ n. (n ≡ twos_complement (width wide) (big_number (width wide) bytes.now))
        × (width wide ≤ length bytes.now)) }
    ensures none { IfNone result (length bytes.now < width wide) }
{
    if bytes.len() < wide.bytes() {
        return None;
    }
    Some(match wide {
        Width::One => BigEndian::read_int(bytes, 1),
        Width::Two => i64::from(BigEndian::read_i16(bytes)),
        Width::Four => i64::from(BigEndian::read_i32(bytes)),
        Width::Eight => BigEndian::read_i64(bytes),
    })
}

/// How many bytes a length or a count takes.
fn size_len(size: Size) -> usize
    ensures { result ≡ size_len size }
{
    match size {
        Size::Here(_) => 0,
        Size::After(wide) => wide.bytes(),
    }
}

/// A length or a count, which the marker has in itself or in the first bytes behind it, if there are so many.
fn size_of(size: Size, bytes: &[u8]) -> Option<u64>
    ensures some { IfSome result (λ n. (n ≡ size_in size bytes.now) × (size_len size ≤ length bytes.now)) }
    ensures none { IfNone result (length bytes.now < size_len size) }
{
    match size {
        Size::Here(n) => Some(n),
        Size::After(wide) => number(wide, bytes),
    }
}

/// A value with no bytes of its own and no members.
fn plain(kind: Kind, integer: i64, real: u64) -> Value
    ensures { result ≡ plain kind integer real }
{
    Value {
        kind: kind_code(kind),
        tag: 0,
        integer,
        real,
        at: 0,
        count: 0,
    }
}

/// One with so many members, entries or fields.
fn counted(kind: Kind, tag: u8, count: u64) -> Value
    ensures { result ≡ counted kind tag count }
{
    Value {
        tag: u32::from(tag),
        count: count as usize,
        ..plain(kind, 0, 0)
    }
}

/// Bytes or a text, with the place behind it, by the bytes behind its marker.
fn text_at(kind: Kind, size: Size, at: usize, bytes: &[u8]) -> Option<(Value, usize)>
    requires { at + length bytes.now < 2 ^ 63 }
    ensures some { IfSome result (λ x. (x.0 ≡ placed kind (at + size_len size) (size_in size bytes.now))
        × (x.1 ≡ at + (size_len size + size_in size bytes.now)) × (size_len size + size_in size bytes.now ≤ length bytes.now)) }
    ensures none { IfNone result (length bytes.now < size_len size + size_in size bytes.now) }
{
    let count = size_of(size, bytes)?;
    let start = size_len(size);
    if ((bytes.len() - start) as u64) < count {
        return None;
    }
    let value = Value {
        at: at + start,
        count: count as usize,
        ..plain(kind, 0, 0)
    };
    Some((value, at + start + count as usize))
}

/// What a marker announces, with the place behind it, by the bytes behind it, which stand at a place.
fn value_of(marker: Option<Marker>, at: usize, bytes: &[u8]) -> Option<(Value, usize)>
    requires { at + length bytes.now < 2 ^ 63 }
    ensures { result ≡ head_by marker at bytes.now }
{
    match marker? {
        Marker::Null => Some((plain(Kind::Null, 0, 0), at)),
        Marker::Bool(truth) => Some((plain(Kind::Bool, i64::from(truth), 0), at)),
        Marker::Tiny(n) => Some((plain(Kind::Int, n, 0), at)),
        Marker::Int(wide) => Some((plain(Kind::Int, signed(wide, bytes)?, 0), at + wide.bytes())),
        Marker::Float => Some((plain(Kind::Float, 0, number(Width::Eight, bytes)?), at + 8)),
        Marker::Bytes(size) => text_at(Kind::Bytes, size, at, bytes),
        Marker::Text(size) => text_at(Kind::Text, size, at, bytes),
        Marker::List(size) => Some((
            counted(Kind::List, 0, size_of(size, bytes)?),
            at + size_len(size),
        )),
        Marker::Dict(size) => Some((
            counted(Kind::Dict, 0, size_of(size, bytes)?),
            at + size_len(size),
        )),
        Marker::Struct(count) => {
            let (tag, _) = bytes.split_first()?;
            Some((counted(Kind::Structure, *tag, count), at + 1))
        }
    }
}

/// The value that begins at a place of the bytes, or the head of one that has members, with the place behind it; none at the end, at a byte that is
/// no marker, and if it is cut off.
pub(crate) fn value_at(bytes: &[u8], at: usize) -> Option<(Value, usize)>
    ensures { result ≡ head_at bytes.now at }
{
    let marker = bytes.get(at)?;
    value_of(marker_of(*marker), at + 1, &bytes[at + 1..])
}
