//! Workloads of one message fed in pieces.
ghost use Rattle.std.specs.Prelude.{◌+◌, ◌<◌, length};

use crate::link::{Link, Ours, Pair, Stopped};
use crate::requests::ask;
use crate::tally::Tally;
use server::What;
use std::alloc::Global;

/// DISCARD of all, as a message.
const DISCARD: &[u8] = b"\x00\x06\xB1\x2F\xA1\x81n\xFF\x00\x00";

/// SUCCESS without metadata, as a message.
const SUCCESS: &[u8] = b"\x00\x03\xB1\x70\xA0\x00\x00";

/// A message of so many bytes, with Bytes or a list of small integers by the marker, and the length of the pieces that it comes in.
#[derive(Clone, Copy)]
pub(crate) struct Long {
    pub marker: u8,
    pub bytes: usize,
    pub piece: usize,
}

/// The bytes of a message in one chunk: a front; Bytes or a list of what is left, each byte 7; and a back.
fn long_message(alloc: Global, message: Long, front: &[u8], back: &[u8]) -> Result<Vec<u8>, Stopped>
    requires { length front.now + length back.now < 64 }
{
    let Some(long) = message.bytes.checked_sub(front.len() + 3 + back.len()) else {
        return Err(Stopped);
    };
    let mut out = Vec::new(alloc);
    out.extend_from_slice(&length_of(message.bytes))?;
    out.extend_from_slice(front)?;
    out.push(message.marker)?;
    out.extend_from_slice(&length_of(long))?;
    for _ in 0..long {
        out.push(7)?;
    }
    out.extend_from_slice(back)?;
    out.extend_from_slice(&[0, 0])?;
    Ok(out)
}

/// A length below 65,536 in two bytes, big-endian.
fn length_of(count: usize) -> [u8; 2] {
    [(count >> 8 & 255) as u8, (count & 255) as u8]
}

/// A RUN that sends Bytes or a list back, in a message of so many bytes, fed to the server in pieces of a length, then worked;
/// and DISCARD of all, fed whole and worked. So many times.
pub(crate) fn to_server(
    alloc: Global,
    pair: &mut Pair,
    message: Long,
    turns: u32,
) -> Result<(), Stopped> {
    let echo = long_message(alloc, message, b"\xB3\x10\x84ECHO\xA1\x81x", b"\xA0")?;
    for _ in 0..turns {
        feed_and_discard(pair, &echo, message.piece)?;
    }
    Ok(())
}

fn feed_and_discard(pair: &mut Pair, echo: &[u8], piece: usize) -> Result<(), Stopped> {
    let conn = pair.link.conn;
    feed_pieces(&mut pair.server, conn, echo, piece)?;
    pair.server.work(conn)?;
    pair.server.feed(conn, DISCARD)?;
    pair.server.work(conn)?;
    pair.tally.add_up(echo.len());
    pair.tally.add_up(DISCARD.len());
    let answers = pair.server.take_out(conn, usize::MAX)?;
    pair.tally.add_down(answers.len());
    Ok(())
}

/// Feeds the server one message in pieces of a length.
fn feed_pieces(server: &mut Ours, conn: u64, message: &[u8], piece: usize) -> Result<(), Stopped> {
    let mut messages = 0u32;
    for part in message.chunks(piece.max(1)) {
        let took = server.feed(conn, part)?;
        if took.used != part.len() {
            return Err(Stopped);
        }
        if took.what == What::Message {
            messages = messages.saturating_add(1);
        }
    }
    if messages == 1 { Ok(()) } else { Err(Stopped) }
}

/// A row of Bytes or a list in a message of so many bytes, fed in pieces of a length to a client that waits for a PULL. So many
/// times.
pub(crate) fn to_client(
    alloc: Global,
    pair: &mut Pair,
    message: Long,
    turns: u32,
) -> Result<(), Stopped> {
    wait_for_rows(alloc, pair)?;
    let record = long_message(alloc, message, b"\xB1\x71\x91", b"")?;
    for _ in 0..turns {
        hear_pieces(&mut pair.link, &record, message.piece, &mut pair.tally)?;
    }
    Ok(())
}

/// A RUN is answered, and its PULL isn't.
fn wait_for_rows(alloc: Global, pair: &mut Pair) -> Result<(), Stopped> {
    ask(alloc, &mut pair.link, "ONE", Vec::new(alloc))?;
    let requests = pair.link.client.take_out(usize::MAX)?;
    pair.tally.add_up(requests.len());
    hear_pieces(&mut pair.link, SUCCESS, 4096, &mut pair.tally)
}

/// Feeds the client one message in pieces of a length.
fn hear_pieces(
    link: &mut Link,
    message: &[u8],
    piece: usize,
    tally: &mut Tally,
) -> Result<(), Stopped> {
    for part in message.chunks(piece.max(1)) {
        let (used, heard) = link.client.feed(part)?;
        if used != part.len() {
            return Err(Stopped);
        }
        tally.hear(heard);
    }
    tally.add_down(message.len());
    Ok(())
}
