//! The head of a value or a key: its marker, and the number after it.
ghost use Rattle.std.specs.Prelude.{◌≡◌, ◌≤◌, ◌<◌, ◌^◌, length, take, Some};
ghost use Rattle.packstream.specs.Markers.{size_len};
ghost use Rattle.packstream_incremental.specs.Heads.{field, body, size_with, number_from, AreTiny};

use packstream::marker::{Marker, Size, marker_of};

/// How many bytes the number after a marker takes.
pub(crate) fn field_len(announced: Marker) -> usize
    ensures value { result ≡ field (Some announced) }
    ensures few { result ≤ 8 }
{
    match announced {
        Marker::Int(wide) => wide.bytes(),
        Marker::Float => 8,
        Marker::Bytes(size) => size_width(size),
        Marker::Text(size) => size_width(size),
        Marker::List(size) => size_width(size),
        Marker::Dict(size) => size_width(size),
        Marker::Struct(_) => 1,
        Marker::Null => 0,
        Marker::Bool(_) => 0,
        Marker::Tiny(_) => 0,
    }
}

/// How many bytes a length or a count takes after its marker.
fn size_width(size: Size) -> usize
    ensures value { result ≡ size_len size }
    ensures few { result ≤ 8 }
{
    match size {
        Size::Here(_) => 0,
        Size::After(wide) => wide.bytes(),
    }
}

/// The length or count, where this number stands after the marker.
pub(crate) fn size_in(size: Size, number: u64) -> u64
    ensures { result ≡ size_with size number }
{
    match size {
        Size::Here(n) => n,
        Size::After(_) => number,
    }
}

/// How many bytes of a text or a byte string follow the number.
pub(crate) fn body_len(announced: Marker, number: u64) -> u64
    ensures { result ≡ body (Some announced) number }
{
    match announced {
        Marker::Text(size) => size_in(size, number),
        Marker::Bytes(size) => size_in(size, number),
        _ => 0,
    }
}

/// The number of which these bytes are the next ones, the highest first.
#[tactic(auto, using(crate::proofs::Heads::joined_room))]
pub(crate) fn join(number: u64, bytes: &[u8]) -> u64
    requires { number_from number bytes.now < 2 ^ 64 }
    ensures { result ≡ number_from number bytes.now }
{
    let mut all = number;
    for byte in bytes {
        all = all * 256 + u64::from(*byte);
    }
    all
}

/// How many bytes of the front are integers of one byte each, fewer than `most`.
#[inline]
pub(crate) fn tiny_front(bytes: &[u8], most: u64) -> usize
    ensures within { result ≤ length bytes.now }
    ensures fewer { 0 < result → result < most }
    ensures tiny { AreTiny (take result bytes.now) }
{
    let mut count = 0;
    while count < bytes.len() && count as u64 + 1 < most {
        let Some(Marker::Tiny(_)) = marker_of(bytes[count]) else {
            return count;
        };
        count += 1;
    }
    count
}
