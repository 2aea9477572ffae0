//! Bytes from one end to the other, in pieces of at most 4,096.
ghost use Rattle.std.specs.Prelude.{◌<◌, length, IfOk};

use crate::link::{Link, Ours, Stopped};
use crate::tally::Tally;
use server::Worked;

/// The most bytes of a piece.
pub(crate) const PIECE: usize = 4096;

/// More pieces than a server's output has.
const MAX_PIECES: usize = 64;

/// More steps than the requests of a pipeline take.
const MAX_STEPS: usize = 65536;

/// More turns than a pipeline takes.
const MAX_TURNS: usize = 64;

/// The client writes a piece, and the server reads it.
pub(crate) fn up(server: &mut Ours, link: &mut Link, tally: &mut Tally) -> Result<(), Stopped> {
    let piece = front(link.client.unsent());
    tally.add_up(piece.len());
    feed_piece(server, link.conn, piece)?;
    let count = piece.len();
    link.client.sent(count);
    Ok(())
}

/// The server reads a piece.
pub(crate) fn feed_piece(server: &mut Ours, conn: u64, piece: &[u8]) -> Result<(), Stopped> {
    let mut rest = piece;
    while !rest.is_empty() {
        let took = server.feed(conn, rest)?;
        rest = after(rest, took.used)?;
    }
    Ok(())
}

/// The server writes all that waits, and the client reads it piece by piece.
pub(crate) fn down(server: &mut Ours, link: &mut Link, tally: &mut Tally) -> Result<(), Stopped> {
    for _ in 0..MAX_PIECES {
        let piece = waiting(server, link.conn)?;
        if piece.is_empty() {
            return Ok(());
        }
        tally.add_down(piece.len());
        hear(link, piece, tally)?;
        let count = piece.len();
        server.sent(link.conn, count);
    }
    Err(Stopped)
}

/// What waits to go at a session, at most a piece.
pub(crate) fn waiting(server: &Ours, conn: u64) -> Result<&[u8], Stopped> {
    match server.unsent(conn) {
        Some(bytes) => Ok(front(bytes)),
        None => Err(Stopped),
    }
}

/// At most a piece of these bytes.
pub(crate) fn front(bytes: &[u8]) -> &[u8] {
    &bytes[..bytes.len().min(PIECE)]
}

/// The client reads bytes, in pieces from where it stands.
pub(crate) fn hear(link: &mut Link, piece: &[u8], tally: &mut Tally) -> Result<(), Stopped> {
    let mut rest = piece;
    while !rest.is_empty() {
        let (used, heard) = link.client.feed(&rest[..rest.len().min(PIECE)])?;
        tally.hear(heard);
        rest = after(rest, used)?;
    }
    Ok(())
}

/// What is left of a piece, which is to be shorter.
pub(crate) fn after(piece: &[u8], used: usize) -> Result<&[u8], Stopped>
    ensures { IfOk result (λ rest. length rest.now < length piece.now) }
{
    if used == 0 || used > piece.len() {
        return Err(Stopped);
    }
    Ok(&piece[used..])
}

/// The server works until nothing waits; where its output is full, the client reads first.
fn work(server: &mut Ours, link: &mut Link, tally: &mut Tally) -> Result<(), Stopped> {
    for _ in 0..MAX_STEPS {
        match server.work(link.conn)? {
            Worked::Idle | Worked::Ended(_) => return Ok(()),
            Worked::Full => down(server, link, tally)?,
            Worked::Row => {
                server.write_rows(link.conn);
            }
            Worked::Wrote { .. } => {}
        }
    }
    Err(Stopped)
}

/// A piece up, all work, and all that comes of it down.
pub(crate) fn turn(server: &mut Ours, link: &mut Link, tally: &mut Tally) -> Result<(), Stopped> {
    up(server, link, tally)?;
    work(server, link, tally)?;
    down(server, link, tally)
}

/// Takes turns until every request is answered.
pub(crate) fn exchange(
    server: &mut Ours,
    link: &mut Link,
    tally: &mut Tally,
) -> Result<(), Stopped> {
    for _ in 0..MAX_TURNS {
        if link.client.pending() == 0 {
            return Ok(());
        }
        turn(server, link, tally)?;
    }
    Err(Stopped)
}
