//! What the tests of more than one crate ask of an answer.

use bytes::BytesMut;
use cli_scripts::read_request;
use messages::Request;
use packstream::{PackFault, Packed, Reason, encode, size};
use std::alloc::Global;
use wire::Version;

/// Whether a value is told that is written as these bytes, and has their number as its size.
pub fn gives(alloc: Global, told: Result<Packed, PackFault>, output: &[u8]) -> bool {
    let Ok(packed) = told else {
        return false;
    };
    let mut out = BytesMut::new(alloc);
    let is_encoded = encode(&packed, &mut out).is_ok();
    is_encoded && out.as_slice() == output && size(&packed) == output.len()
}

/// Whether this refusal is told.
pub fn is_refused(told: Result<Packed, PackFault>, reason: Reason, place: usize) -> bool {
    match told {
        Err(PackFault::Refused(why, at)) => why == reason && at == place,
        _ => false,
    }
}

/// The request of a script's line, as it is at a version.
pub fn said_request(alloc: Global, version: Version, line: &str) -> Option<Request> {
    let said = read_request(alloc, line.as_bytes()).ok()?;
    said.into_request(alloc, version).ok()
}
