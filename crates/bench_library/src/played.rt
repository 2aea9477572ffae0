//! One end alone, to which the recorded bytes of the other are played. A recording is a row of exchanges: what a client has said, and what it was
//! answered; before each of the two stands its length in three bytes. Of each session it begins with the handshake, and with HELLO and LOGON.
use crate::asking::{Asks, Tracked};
use crate::batches::{Pipeline, submit};
use crate::link::{Link, Ours, Stopped, new_server};
use crate::requests::{hello, logon};
use crate::tally::Tally;
use crate::transport::{PIECE, feed_piece, front, waiting};
use client::Client;
use engine::Engine;
use server::Worked;
use std::alloc::Global;
use wire::Wish;

/// What of an end's bytes is to be as it is recorded.
#[derive(Clone, Copy)]
pub(crate) enum Watch {
    /// Their count alone: so none of the time goes into comparing.
    Lengths,
    Bytes,
}

impl Watch {
    /// By a number: none but 0 watches bytes.
    pub fn of(number: u8) -> Watch {
        if number == 0 {
            Watch::Lengths
        } else {
            Watch::Bytes
        }
    }
}

/// The first part of a recording, and what stands behind it.
fn part(recording: &[u8]) -> Result<(&[u8], &[u8]), Stopped> {
    let [high, middle, low, rest @ ..] = recording else {
        return Err(Stopped);
    };
    let count = usize::from(*high) << 16 | usize::from(*middle) << 8 | usize::from(*low);
    if count > rest.len() {
        return Err(Stopped);
    }
    Ok(rest.split_at(count))
}

/// Whether a piece is as it is recorded.
fn is_expected(piece: &[u8], expected: &[u8], watch: Watch) -> bool {
    match watch {
        Watch::Lengths => piece.len() == expected.len(),
        Watch::Bytes => piece == expected,
    }
}

/// Feeds a server what a client has said.
fn say(server: &mut Ours, conn: u64, requests: &[u8]) -> Result<(), Stopped> {
    for piece in requests.chunks(PIECE) {
        feed_piece(server, conn, piece)?;
    }
    Ok(())
}

/// Hands over what a server answers.
fn answer(server: &mut Ours, conn: u64, answers: &[u8], watch: Watch) -> Result<(), Stopped> {
    for expected in answers.chunks(PIECE) {
        let piece = waiting(server, conn)?;
        if !is_expected(piece, expected, watch) {
            return Err(Stopped);
        }
        let count = piece.len();
        server.sent(conn, count);
    }
    if waiting(server, conn)?.is_empty() {
        Ok(())
    } else {
        Err(Stopped)
    }
}

/// More rounds than the requests of an exchange take.
const MAX_ROUNDS: usize = 65536;

/// One step of each session in turn, until all are idle.
pub(crate) fn work(server: &mut Ours, first: u64, after: u64) -> Result<(), Stopped> {
    for _ in 0..MAX_ROUNDS {
        let mut is_idle = true;
        for conn in first..after {
            match server.work(conn)? {
                Worked::Idle => {}
                Worked::Full | Worked::Ended(_) => return Err(Stopped),
                Worked::Row => {
                    server.write_rows(conn);
                    is_idle = false;
                }
                Worked::Wrote { .. } => is_idle = false,
            }
        }
        if is_idle {
            return Ok(());
        }
    }
    Err(Stopped)
}

/// Plays one exchange of each of these sessions, all requests first, and answers what is recorded behind them.
fn exchange<'a>(
    server: &mut Ours,
    first: u64,
    after: u64,
    recording: &'a [u8],
    watch: Watch,
) -> Result<&'a [u8], Stopped> {
    let mut rest = recording;
    for conn in first..after {
        let (requests, behind) = part(rest)?;
        say(server, conn, requests)?;
        let (_answers, behind) = part(behind)?;
        rest = behind;
    }
    work(server, first, after)?;
    let mut rest = recording;
    for conn in first..after {
        let (_requests, behind) = part(rest)?;
        let (answers, behind) = part(behind)?;
        answer(server, conn, answers, watch)?;
        rest = behind;
    }
    Ok(rest)
}

/// A server alone, with so many sessions. Answers the ledger's length and the recording's.
pub(crate) fn server_alone(
    alloc: Global,
    sessions: u32,
    recording: &[u8],
    watch: Watch,
) -> Result<u64, Stopped> {
    let mut server = new_server(alloc)?;
    let mut rest = recording;
    for _ in 0..sessions {
        let conn = server.open()?;
        rest = exchange(&mut server, conn, conn.saturating_add(1), rest, watch)?;
        rest = exchange(&mut server, conn, conn.saturating_add(1), rest, watch)?;
    }
    for _ in 0..recording.len() {
        if rest.is_empty() {
            break;
        }
        rest = exchange(&mut server, 0, u64::from(sessions), rest, watch)?;
    }
    let entries = server.engine().ledger().len() as u64;
    Ok(entries.wrapping_add(recording.len() as u64))
}

/// A caller has asked: hands over its requests, and plays it their answers. Answers what is recorded behind them.
fn settle<'a, A: Asks>(
    link: &mut A,
    tally: &mut Tally,
    recording: &'a [u8],
    watch: Watch,
) -> Result<&'a [u8], Stopped> {
    let (requests, behind) = part(recording)?;
    for expected in requests.chunks(PIECE) {
        let piece = front(link.unsent());
        if !is_expected(piece, expected, watch) {
            return Err(Stopped);
        }
        let count = piece.len();
        link.sent(count);
    }
    let (answers, rest) = part(behind)?;
    for piece in answers.chunks(PIECE) {
        link.hear(piece, tally)?;
    }
    link.settle(tally)?;
    Ok(rest)
}

/// A client alone, by its own calls. Answers the check number of the rows and summaries that it heard, and the recording's length.
pub(crate) fn client_alone(
    alloc: Global,
    pipeline: Pipeline,
    recording: &[u8],
    watch: Watch,
) -> Result<u64, Stopped> {
    let client = Client::new(alloc, Wish::Newest)?;
    let mut link = Link { conn: 0, client };
    alone(alloc, &mut link, pipeline, recording, watch)
}

/// A client alone, through the driver. Answers what `client_alone` does.
pub(crate) fn driver_alone(
    alloc: Global,
    pipeline: Pipeline,
    recording: &[u8],
    watch: Watch,
) -> Result<u64, Stopped> {
    let mut tracked = Tracked::new(alloc, Wish::Newest)?;
    alone(alloc, &mut tracked, pipeline, recording, watch)
}

/// Asks pipelines of a kind, and is played what is recorded.
fn alone<A: Asks>(
    alloc: Global,
    link: &mut A,
    pipeline: Pipeline,
    recording: &[u8],
    watch: Watch,
) -> Result<u64, Stopped> {
    let mut tally = Tally::new();
    let x = pipeline.sevens(alloc)?;
    let mut rest = settle(link, &mut tally, recording, watch)?;
    link.ask(hello(alloc)?)?;
    link.ask(logon(alloc)?)?;
    rest = settle(link, &mut tally, rest, watch)?;
    let mut number = 0u32;
    for _ in 0..recording.len() {
        if rest.is_empty() {
            break;
        }
        submit(alloc, link, pipeline, number, &x)?;
        rest = settle(link, &mut tally, rest, watch)?;
        number = number.wrapping_add(1);
    }
    Ok(tally.check(recording.len()))
}
