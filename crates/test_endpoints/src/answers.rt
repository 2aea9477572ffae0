//! What the tests of more than one crate ask of an answer.

use cli_scripts::read_request;
use messages::Request;
use std::alloc::Global;
use std::fmt;
use wire::Version;

/// The request of a script's line, as it is at a version.
pub fn said_request(alloc: Global, version: Version, line: &str) -> Option<Request> {
    let said = read_request(alloc, line.as_bytes()).ok()?;
    said.into_request(alloc, version).ok()
}

/// Whether it prints so.
pub fn prints(alloc: Global, fault: &impl fmt::Display, wanted: &str) -> bool {
    match format!(in alloc; "{fault}") {
        Ok(text) => text.as_str() == wanted,
        Err(_) => false,
    }
}
