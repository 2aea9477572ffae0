//! What a client offers and what a server takes ("Bolt handshake").

ghost use Rattle.std.specs.Prelude.{◌≡◌, ◌≢◌, ◌+◌, take, drop, Option, Some, None, IfOk, IsErr, OnOk, ◌↔◌};
ghost use Rattle.wire.specs.Offers.{magic, choice_of, covered_by, is_covered, offer_of};

use crate::versions::{VERSIONS, Version};
use thiserror::Error;

/// Which versions a client offers.
#[derive(Clone, Copy, Debug, PartialEq, Eq)]
pub enum Wish {
    /// Each of them, the newest first.
    Newest,
    Only(Version),
}

/// The first four bytes of a connection aren't `60 60 B0 17`.
#[derive(Clone, Copy, Debug, PartialEq, Eq, Error)]
#[error("not the magic of the protocol")]
pub struct BadMagic;

const MAGIC: [u8; 4] = [0x60, 0x60, 0xB0, 0x17];

/// The bytes with which a client opens a connection: `60 60 B0 17` and four proposals of four bytes, each `00`, a range, a minor
/// version and a major version ("Bolt handshake"). `Newest` proposes a range for each major version, 5.1 with the minor version
/// below it and then 4.4; `Only` its version alone. A proposal that is left is four zero bytes. Takes no memory.
pub fn offer(wish: Wish) -> [u8; 20]
    ensures { result ≡ offer_of wish }
{
    match wish {
        Wish::Newest => [
            0x60, 0x60, 0xB0, 0x17, 0, 1, 1, 5, 0, 0, 4, 4, 0, 0, 0, 0, 0, 0, 0, 0,
        ],
        Wish::Only(Version::V51) => [
            0x60, 0x60, 0xB0, 0x17, 0, 0, 1, 5, 0, 0, 0, 0, 0, 0, 0, 0, 0, 0, 0, 0,
        ],
        Wish::Only(Version::V50) => [
            0x60, 0x60, 0xB0, 0x17, 0, 0, 0, 5, 0, 0, 0, 0, 0, 0, 0, 0, 0, 0, 0, 0,
        ],
        Wish::Only(Version::V44) => [
            0x60, 0x60, 0xB0, 0x17, 0, 0, 4, 4, 0, 0, 0, 0, 0, 0, 0, 0, 0, 0, 0, 0,
        ],
    }
}

/// The version that a server takes of an offer: of the first of the four proposals, in the client's order, that covers a version of
/// this product, the newest that it covers; none if no proposal covers one. A proposal whose first byte isn't 0 covers nothing;
/// any other covers its major version with the minor versions from `minor - range`, or 0 if that is negative, to `minor` ("Bolt
/// handshake").
///
/// `BadMagic` exactly if the first four bytes aren't `60 60 B0 17`. Takes no memory.
pub fn choose(offer: &[u8; 20]) -> Result<Option<Version>, BadMagic>
    ensures bad { IsErr result ↔ (take 4 offer.now ≢ magic) }
    ensures good { OnOk result (take 4 offer.now ≡ magic) }
    ensures chosen { IfOk result (λ v. v ≡ choice_of (drop 4 offer.now)) }
{
    if &offer[..4] != MAGIC.as_slice() {
        return Err(BadMagic);
    }
    for at in 0..4 {
        let start = 4 + 4 * at;
        let version = covered(
            offer[start],
            offer[start + 1],
            offer[start + 2],
            offer[start + 3],
        );
        if version.is_some() {
            return Ok(version);
        }
    }
    Ok(None)
}

/// The newest version that a proposal covers.
fn covered(first: u8, range: u8, minor: u8, major: u8) -> Option<Version>
    ensures { result ≡ covered_by first range minor major }
{
    for version in VERSIONS {
        if covers(first, range, minor, major, version) {
            return Some(version);
        }
    }
    None
}

/// Whether a proposal covers the version.
fn covers(first: u8, range: u8, minor: u8, major: u8, version: Version) -> bool
    ensures { result ≡ is_covered first range minor major version }
{
    first == 0
        && major == version.major()
        && minor - range.min(minor) <= version.minor()
        && version.minor() <= minor
}
