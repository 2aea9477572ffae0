//! The codec behind C calls.
ghost use Rattle.std.specs.Prelude.{◌≡◌, ◌≤◌, false};
ghost use Rattle.bench_library.specs.Unspelled.{SpellNothing};

use bytes::BytesMut;
use packstream::{decode, encode};
use std::alloc::Global;

fn is_read(alloc: Global, bytes: &[u8]) -> bool
    ensures { SpellNothing bytes.now → result ≡ false }
{
    let Ok(_packed) = decode(alloc, bytes) else {
        return false;
    };
    true
}

/// Decodes the bytes so many times, and answers how often that succeeded.
#[unsafe(no_mangle)]
pub extern "C" fn bench_decode(alloc: Global, bytes: &[u8], turns: u32) -> u64
    ensures most { result ≤ turns }
    ensures none { SpellNothing bytes.now → result ≡ 0 }
{
    let mut done = 0u64;
    for _ in 0..turns {
        if is_read(alloc, bytes) {
            done += 1;
        }
    }
    done
}

/// Decodes once, encodes so many times, each time onto an output of its own, and answers the bytes appended in all.
#[unsafe(no_mangle)]
pub extern "C" fn bench_encode(alloc: Global, bytes: &[u8], turns: u32) -> u64
    ensures none { SpellNothing bytes.now → result ≡ 0 }
{
    let Ok(packed) = decode(alloc, bytes) else {
        return 0;
    };
    let mut done = 0u64;
    for _ in 0..turns {
        let mut out = BytesMut::new(alloc);
        if encode(&packed, &mut out).is_ok() {
            done = done.saturating_add(out.len() as u64);
        }
    }
    done
}

/// Decodes once, encodes so many times onto one output that holds a byte, and answers the bytes appended in all.
#[unsafe(no_mangle)]
pub extern "C" fn bench_append(alloc: Global, bytes: &[u8], turns: u32) -> u64
    ensures none { SpellNothing bytes.now → result ≡ 0 }
{
    let Ok(value) = decode(alloc, bytes) else {
        return 0;
    };
    let mut out = BytesMut::new(alloc);
    if out.extend_from_slice(&[0]).is_err() {
        return 0;
    }
    let mut done = 0u64;
    for _ in 0..turns {
        if encode(&value, &mut out).is_ok() {
            done = done.saturating_add(out.len().saturating_sub(1) as u64);
        }
        out.truncate(1);
    }
    done
}
