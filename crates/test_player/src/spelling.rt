//! Decoding, cloning and encoding, each again if it is refused for memory.

use crate::asked::Unplayed;
use crate::play::mixed;
use bytes::BytesMut;
use packstream::{PackFault, Packed, decode, encode};
use std::alloc::Global;

/// How often a call is given again.
const MOST_AGAIN: usize = 1000;

/// A refused call changed the output.
const TORN: u64 = 7;

/// A list of a text, bytes, a dictionary and a structure.
pub const SPELLED: &[u8] = &[
    0x94, 0x83, 0x61, 0x62, 0x63, 0xCC, 0x03, 1, 2, 3, 0xA2, 0x81, 0x61, 0x01, 0x81, 0x62, 0x92,
    0x01, 0x02, 0xB1, 0x4E, 0x8F, 0x61, 0x62, 0x63, 0x64, 0x65, 0x66, 0x67, 0x68, 0x69, 0x6A, 0x6B,
    0x6C, 0x6D, 0x6E, 0x6F,
];

/// The bytes decoded.
pub fn decoded(alloc: Global) -> Result<Packed, Unplayed> {
    for _again in 0..MOST_AGAIN {
        match decode(alloc, SPELLED) {
            Ok(packed) => return Ok(packed),
            Err(PackFault::Memory) => {}
            Err(_) => return Err(Unplayed),
        }
    }
    Err(Unplayed)
}

fn cloned(packed: &Packed) -> Result<Packed, Unplayed> {
    for _again in 0..MOST_AGAIN {
        if let Ok(clone) = packed.clone() {
            return Ok(clone);
        }
    }
    Err(Unplayed)
}

/// Appends the value. Whether the output stood as it was wherever that was refused.
fn encoded(packed: &Packed, out: &mut BytesMut) -> Result<bool, Unplayed> {
    let before = out.len();
    for _again in 0..MOST_AGAIN {
        match encode(packed, out) {
            Ok(()) => return Ok(true),
            Err(PackFault::Memory) => {
                if out.len() != before {
                    return Ok(false);
                }
            }
            Err(_) => return Err(Unplayed),
        }
    }
    Err(Unplayed)
}

pub fn values(alloc: Global) -> Result<u64, Unplayed> {
    let clone = cloned(&decoded(alloc)?)?;
    let mut out = BytesMut::new(alloc);
    out.extend_from_slice(&[7])?;
    if !encoded(&clone, &mut out)? {
        return Ok(TORN);
    }
    let mut sum = 1 << 40;
    for byte in out.iter() {
        sum = mixed(sum, *byte as u64);
    }
    Ok(sum)
}
