//! What follows a marker: numbers, lengths, bytes and texts (PackStream version 1). `left` counts the bytes from the marker on, for the fault.
#![tactic(auto, using(crate::proofs::Texts::texts), unfolding(crate::specs::Reading::number_at, crate::specs::Reading::int_at, crate::specs::Reading::size_at, crate::specs::Reading::bytes_at, crate::specs::Reading::text_at, crate::specs::Reading::key_at, crate::specs::Reading::key_of))]

ghost use Rattle.std.specs.Prelude.{◌≡◌, ◌≤◌, [], ◌∷◌, ◌++◌, IfOk, IfSome, IsNone, IsUtf8, length};
ghost use Rattle.byteorder.specs.Endian.{big_number, twos_complement};
ghost use Rattle.packstream.specs.Prelude.{Knows, width, Gives, number_at, int_at, size_at, bytes_at, text_at, key_at, int, names};

use crate::fault::Reason;
pub use crate::fault::Stop;
use crate::marker::{Marker, Size, Width, marker_of};
use crate::seen::{Pairs, Seen, is_new};
use crate::twins::has_key;
use byteorder::{BigEndian, ByteOrder};
use simdutf8::basic::from_utf8;

/// What was read, and the bytes after it.
pub type Got<'a, T> = Result<(T, &'a [u8]), Stop>;

/// The number that the first bytes are, the highest first.
fn unsigned(wide: Width, bytes: &[u8]) -> u64
    requires { width wide ≤ length bytes.now }
    ensures { result ≡ big_number (width wide) bytes.now }
{
    match wide {
        Width::One => u64::from(bytes[0]),
        Width::Two => u64::from(BigEndian::read_u16(bytes)),
        Width::Four => u64::from(BigEndian::read_u32(bytes)),
        Width::Eight => BigEndian::read_u64(bytes),
    }
}

/// The same in two's complement.
#[inline]
pub(crate) fn signed(wide: Width, bytes: &[u8]) -> i64
    requires { width wide ≤ length bytes.now }
    ensures { result ≡ twos_complement (width wide) (big_number (width wide) bytes.now) }
{
    match wide {
        Width::One => BigEndian::read_int(bytes, 1),
        Width::Two => i64::from(BigEndian::read_i16(bytes)),
        Width::Four => i64::from(BigEndian::read_i32(bytes)),
        Width::Eight => BigEndian::read_i64(bytes),
    }
}

/// A number of this width.
#[inline]
pub fn number_of(left: usize, wide: Width, bytes: &[u8]) -> Got<'_, u64>
    ensures { Gives (λ x. (x.0, x.1.now)) result (number_at left (width wide) bytes.now) }
{
    let len = wide.bytes();
    if bytes.len() < len {
        return Err(Stop::Fault(Reason::Short, left));
    }
    Ok((unsigned(wide, bytes), &bytes[len..]))
}

/// A signed number of this width.
#[inline]
pub fn signed_of(left: usize, wide: Width, bytes: &[u8]) -> Got<'_, i64>
    ensures { Gives (λ x. (int x.0, x.1.now)) result (int_at left wide bytes.now) }
{
    let len = wide.bytes();
    if bytes.len() < len {
        return Err(Stop::Fault(Reason::Short, left));
    }
    Ok((signed(wide, bytes), &bytes[len..]))
}

/// The length or the count that a marker announces.
#[inline]
pub fn size_of(left: usize, size: Size, bytes: &[u8]) -> Got<'_, u64>
    ensures { Gives (λ x. (x.0, x.1.now)) result (size_at left size bytes.now) }
{
    match size {
        Size::Here(n) => Ok((n, bytes)),
        Size::After(wide) => number_of(left, wide, bytes),
    }
}

/// As many bytes as a marker announces.
#[inline]
pub fn bytes_of(left: usize, size: Size, bytes: &[u8]) -> Got<'_, &[u8]>
    ensures { Gives (λ x. (x.0.now, x.1.now)) result (bytes_at left size bytes.now) }
{
    let (len, rest) = size_of(left, size, bytes)?;
    if (rest.len() as u64) < len {
        return Err(Stop::Fault(Reason::Short, left));
    }
    let (front, rest) = rest.split_at(len as usize);
    Ok((front, rest))
}

/// From so many bytes on it pays to check many at a time.
const MANY: usize = 64;

/// The text that the bytes are, if they are one.
#[inline(always)]
fn checked(bytes: &[u8]) -> Option<&str>
    ensures some { IfSome result (λ text. (text.now ≡ bytes.now) × IsUtf8 bytes.now) }
    ensures none { IsNone result → IsUtf8 bytes.now → ⊥ }
{
    if bytes.len() >= MANY {
        return from_utf8(bytes).ok();
    }
    std::str::from_utf8(bytes).ok()
}

/// A text of as many bytes as a marker announces.
#[inline(always)]
pub fn text_of(left: usize, size: Size, bytes: &[u8]) -> Got<'_, &str>
    ensures { Gives (λ x. (x.0.now, x.1.now)) result (text_at left size bytes.now) }
{
    let (front, rest) = bytes_of(left, size, bytes)?;
    match checked(front) {
        Some(text) => Ok((text, rest)),
        None => Err(Stop::Fault(Reason::Utf8, left)),
    }
}

/// A key that none of these pairs has.
#[inline(always)]
pub fn key_of<'a, T>(pairs: Pairs<T>, bytes: &'a [u8]) -> Got<'a, &'a str>
    ensures { Gives (λ x. (x.0.now, x.1.now)) result
        (key_at (names pairs.now) bytes.now) }
{
    let left = bytes.len();
    let Some((&first, rest)) = bytes.split_first() else {
        return Err(Stop::Fault(Reason::Short, left));
    };
    let size = match marker_of(first) {
        Some(Marker::Text(size)) => size,
        Some(_) => return Err(Stop::Fault(Reason::KeyKind, left)),
        None => return Err(Stop::Fault(Reason::Marker, left)),
    };
    let (key, rest) = text_of(left, size, rest)?;
    if has_key(pairs, key) {
        return Err(Stop::Fault(Reason::KeyTwice, left));
    }
    Ok((key, rest))
}

/// A key that none of these pairs has, whose keys were seen, and which joins them.
#[tactic(auto, using(crate::proofs::Keys::new_keys))]
pub fn new_key_of<'a, T>(seen: &mut Seen<'a>, pairs: Pairs<T>, bytes: &'a [u8]) -> Got<'a, &'a str>
    ensures key { Knows seen.old (names pairs.now)
        → Gives (λ x. (x.0.now, x.1.now)) result (key_at (names pairs.now) bytes.now) }
    ensures seen { Knows seen.old (names pairs.now)
        → IfOk result (λ x. Knows seen.new (names pairs.now ++ x.0.now ∷ [])) }
{
    let left = bytes.len();
    let (key, rest) = key_of::<()>(&[], bytes)?;
    if !is_new(seen, pairs, key)? {
        return Err(Stop::Fault(Reason::KeyTwice, left));
    }
    Ok((key, rest))
}

/// The first capacity of a list. Doubled from here the longest list of a message has room for 73,728 members. The list and a copy of
/// it then stay below the threshold at which glibc gives memory back to the system, so no page is faulted in again for each message.
const AT_ONCE: usize = 1_152;

/// How many members can follow: no more than their count and the bytes that are left.
pub fn most_members(count: u64, bytes: &[u8]) -> usize
    ensures bytes { result ≤ length bytes.now }
    ensures count { result ≤ count }
{
    count.min(bytes.len() as u64) as usize
}

/// How many members to make room for: no more than can follow, and `AT_ONCE`.
pub fn first_room(count: u64, bytes: &[u8]) -> usize
    ensures bytes { result ≤ length bytes.now }
    ensures count { result ≤ count }
    ensures at_once { result ≤ AT_ONCE }
{
    most_members(count, bytes).min(AT_ONCE)
}
