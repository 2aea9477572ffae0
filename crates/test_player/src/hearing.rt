//! A client that is given bytes of a server, in pieces.

use crate::asked::{Unplayed, asking};
use crate::script::foreign;
use client::{Client, ClientFault};
use std::alloc::Global;

/// How often a client is made again if there is no memory for its requests.
const MOST_AGAIN: usize = 1000;

/// More pieces than there are, those among them that are given again.
const MOST_PIECES: usize = 100_000;

/// A client that has asked, and heard nothing but the version.
fn asked(alloc: Global) -> Result<Client, Unplayed> {
    for _again in 0..MOST_AGAIN {
        if let Ok(client) = asking(alloc) {
            return Ok(client);
        }
    }
    Err(Unplayed)
}

/// Whether a client that has asked takes some of each piece of at most `size` bytes until none is left, or has ended after what it refuses. The
/// bytes are those of the first line of a script, of a stranger.
pub fn hears(alloc: Global, script: &str, size: usize) -> Result<bool, Unplayed> {
    let bytes = foreign(alloc, script)?;
    let mut client = asked(alloc)?;
    let mut rest = bytes.as_slice();
    for _piece in 0..MOST_PIECES {
        if rest.is_empty() || client.has_ended() {
            return Ok(true);
        }
        let (piece, _) = rest.split_at(size.max(1).min(rest.len()));
        match client.feed(piece) {
            Ok((used, _)) => {
                if used == 0 || used > piece.len() {
                    return Ok(false);
                }
                rest = rest.get(used..).unwrap_or(&[]);
            }
            Err(ClientFault::Memory) => {}
            Err(_) => return Ok(client.has_ended()),
        }
    }
    Ok(false)
}
