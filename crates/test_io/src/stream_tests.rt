//! Streams that fail at each call.

use crate::heard::{Said, are_heard, shown};
use crate::requests::asking;
use crate::streams_of::{Drip, MANY, Table, Trickle, served, server};
use client::Losses;
use client_blocking::ask_all;
use server::{Cause, Worked};
use std::alloc::Global;
use std::test::Fail;
use streams::{History, StreamFault};

/// What is asked, what is answered, and where in the answer each summary begins that commits.
#[derive(Drop)]
struct Talk {
    asked: Vec<u8>,
    answered: Vec<u8>,
    commits: Vec<usize>,
}

impl Talk {
    /// How many commits have a summary that begins in so many bytes.
    fn begun(&self, written: usize) -> usize {
        self.commits.iter().filter(|at| **at <= written).count()
    }
}

/// Takes out what waits.
fn out_of(server: &mut Table, conn: u64, answered: &mut Vec<u8>) -> Result<(), Fail> {
    let bytes = server.take_out(conn, 65_536)?;
    answered.extend_from_slice(&bytes)?;
    Ok(())
}

/// Steps until nothing is due, each taken out.
fn work_all(server: &mut Table, conn: u64, talk: &mut Talk) -> Result<(), Fail> {
    for _step in 0..100 {
        let before = talk.answered.len();
        match server.work(conn)? {
            Worked::Idle | Worked::Full | Worked::Ended(_) => return Ok(()),
            Worked::Wrote { entry: Some(_), .. } => talk.commits.push(before)?,
            Worked::Row | Worked::Wrote { .. } => {}
        }
        out_of(server, conn, &mut talk.answered)?;
    }
    Ok(())
}

/// Takes all that is asked, and answers it.
fn talk_on(server: &mut Table, conn: u64, talk: &mut Talk) -> Result<(), Fail> {
    let mut rest = 0;
    for _piece in 0..100 {
        if rest >= talk.asked.len() {
            break;
        }
        let took = server.feed(conn, &talk.asked[rest..])?;
        rest = rest.wrapping_add(took.used);
        out_of(server, conn, &mut talk.answered)?;
        work_all(server, conn, talk)?;
    }
    Ok(())
}

/// What the client asks, before anything is answered.
fn asked(alloc: Global) -> Result<Vec<u8>, Fail> {
    let mut asked = Vec::new(alloc);
    asked.extend_from_slice(&asking(alloc)?.take_out(65_536)?)?;
    Ok(asked)
}

/// The conversation, fed and worked by hand.
fn conversation(alloc: Global) -> Result<Talk, Fail> {
    let mut talk = Talk {
        asked: asked(alloc)?,
        answered: Vec::new(alloc),
        commits: Vec::new(alloc),
    };
    let mut server = server(alloc)?;
    let conn = server.open()?;
    talk_on(&mut server, conn, &mut talk)?;
    Ok(talk)
}

/// What `serve_one` left: what was written, how many entries, how many bytes were read, and its answer.
#[derive(Drop)]
struct Served {
    out: Vec<u8>,
    entries: usize,
    read: usize,
    answer: Result<Cause, StreamFault>,
}

/// A source that gives 5 bytes at once, and a sink that takes 7, until they have failed.
fn streams_of(alloc: Global, bytes: &[u8], reads: usize, writes: usize) -> (Trickle<'_>, Drip) {
    let source = Trickle {
        rest: bytes,
        step: 5,
        reads,
        failed: false,
        ended: false,
        moved: History::new(),
    };
    let sink = Drip {
        bytes: Vec::new(alloc),
        step: 7,
        writes,
        room: MANY,
        failed: false,
    };
    (source, sink)
}

/// Serves bytes over streams that fail after so many calls.
fn serves(alloc: Global, asked: &[u8], reads: usize, writes: usize) -> Result<Served, Fail> {
    let (mut source, mut sink) = streams_of(alloc, asked, reads, writes);
    let (answer, entries) = served(alloc, &mut source, &mut sink)?;
    Ok(Served {
        out: sink.bytes,
        entries,
        read: asked.len().saturating_sub(source.rest.len()),
        answer,
    })
}

fn is_front(front: &[u8], whole: &[u8]) -> bool {
    front.len() <= whole.len() && front == &whole[..front.len()]
}

#[test]
fn serves_what_is_worked_by_hand(rt: HostRuntime) -> Result<(), Fail> {
    let talk = conversation(rt.alloc())?;
    let served = serves(rt.alloc(), &talk.asked, MANY, MANY)?;
    assert!(rt; served.out.as_slice() == talk.answered.as_slice());
    assert!(rt; served.answer == Ok(Cause::Lost));
    assert!(rt; served.entries == 2 && talk.commits.len() == 2);
    Ok(())
}

/// Whether what was written is a beginning of what the bytes that were read make due, all of it if no write failed, and the ledger is that
/// of these bytes, with each commit whose summary was to be written next.
fn is_of_what_was_read(alloc: Global, talk: &Talk, served: &Served) -> Result<bool, Fail> {
    let read = &talk.asked[..served.read.min(talk.asked.len())];
    let alone = serves(alloc, read, MANY, MANY)?;
    let is_whole = served.out.len() == alone.out.len();
    Ok(
        is_front(&served.out, &alone.out)
            && is_front(&alone.out, &talk.answered)
            && is_whole == (served.answer == Err(StreamFault::ReadFailed))
            && served.entries == alone.entries
            && (is_whole || talk.begun(served.out.len()) <= served.entries),
    )
}

/// Whether so many reads and writes are enough to serve all.
fn is_enough(talk: &Talk, served: &Served) -> bool {
    served.answer == Ok(Cause::Lost) && served.read == talk.asked.len()
}

/// The kth read fails, for each k, and what was written is all that the bytes that were read make due.
#[test]
fn each_read_fails_when_served(rt: HostRuntime) -> Result<(), Fail> {
    let talk = conversation(rt.alloc())?;
    for reads in 0..MANY {
        let served = serves(rt.alloc(), &talk.asked, reads, MANY)?;
        if is_enough(&talk, &served) {
            assert!(rt; reads > 30);
            return Ok(());
        }
        assert!(rt;
            served.answer == Err(StreamFault::ReadFailed),
            "after {reads} reads"
        );
        assert!(rt;
            is_of_what_was_read(rt.alloc(), &talk, &served)?,
            "after {reads} reads"
        );
    }
    assert!(rt; false);
    Ok(())
}

/// The kth write fails, for each k, and what was written is a beginning of that.
#[test]
fn each_write_fails_when_served(rt: HostRuntime) -> Result<(), Fail> {
    let talk = conversation(rt.alloc())?;
    for writes in 0..MANY {
        let served = serves(rt.alloc(), &talk.asked, MANY, writes)?;
        if is_enough(&talk, &served) {
            assert!(rt; writes > 20);
            return Ok(());
        }
        assert!(rt;
            served.answer == Err(StreamFault::WriteFailed),
            "after {writes} writes"
        );
        assert!(rt;
            is_of_what_was_read(rt.alloc(), &talk, &served)?,
            "after {writes} writes"
        );
    }
    assert!(rt; false);
    Ok(())
}

/// What a client hears of bytes, and what becomes of the rest when it is lost then.
fn hears(alloc: Global, bytes: &[u8]) -> Result<(Vec<Said>, Losses), Fail> {
    let mut client = asking(alloc)?;
    let mut heard = Vec::new(alloc);
    let mut rest = 0;
    for _piece in 0..100 {
        if rest >= bytes.len() {
            break;
        }
        let (used, item) = client.feed(&bytes[rest..])?;
        rest = rest.wrapping_add(used);
        if shown(&item) != Said::Nothing {
            heard.push(shown(&item))?;
        }
    }
    Ok((heard, client.lost()))
}

/// The answer to what is asked, without the version, which was heard before.
fn answer(alloc: Global) -> Result<Vec<u8>, Fail> {
    let talk = conversation(alloc)?;
    let mut answer = Vec::new(alloc);
    answer.extend_from_slice(talk.answered.get(4..).unwrap_or(&[]))?;
    Ok(answer)
}

/// What came of asking over streams.
#[derive(Drop)]
struct Asking {
    out: Vec<u8>,
    fault: Option<StreamFault>,
    /// How many bytes were read, how much was heard of them, and how many requests were lost then.
    read: usize,
    heard: usize,
    lost: usize,
}

/// Asks over streams that fail after so many calls; None if it isn't told what the bytes say that were read, nothing where a write failed,
/// and then the outcomes of those that wait.
fn asks(alloc: Global, answer: &[u8], reads: usize, writes: usize) -> Result<Option<Asking>, Fail> {
    let mut client = asking(alloc)?;
    let (mut source, mut sink) = streams_of(alloc, answer, reads, writes);
    let told = ask_all(alloc, &mut client, &mut source, &mut sink);
    let read = answer.len().saturating_sub(source.rest.len());
    let (heard, losses) = hears(alloc, &answer[..read.min(answer.len())])?;
    if !are_heard(&told.heard, &heard) || told.losses.as_slice() != losses.as_slice() {
        return Ok(None);
    }
    Ok(Some(Asking {
        out: sink.bytes,
        fault: told.fault,
        read,
        heard: heard.len(),
        lost: losses.as_slice().len(),
    }))
}

/// Whether asking so ends without a fault: all was written, read and heard.
fn is_all(asked: &[u8], answer: &[u8], told: &Asking) -> bool {
    told.fault == None
        && told.out.as_slice() == asked
        && (told.read, told.heard, told.lost) == (answer.len(), 11, 0)
}

/// Whether asking over streams that fail after so many calls ends by this fault, and what was written is a beginning of what is asked.
fn ends_by(told: &Option<Asking>, asked: &[u8], fault: StreamFault) -> bool {
    match told {
        Some(told) => {
            let is_silent = fault == StreamFault::ReadFailed || told.read == 0;
            told.fault == Some(fault) && is_front(&told.out, asked) && is_silent
        }
        None => false,
    }
}

/// The kth read fails, for each k.
#[test]
fn each_read_fails_when_asking(rt: HostRuntime) -> Result<(), Fail> {
    let (answer, asked) = (answer(rt.alloc())?, asked(rt.alloc())?);
    for reads in 0..MANY {
        let told = asks(rt.alloc(), &answer, reads, MANY)?;
        if told
            .as_ref()
            .is_some_and(|told| is_all(&asked, &answer, told))
        {
            assert!(rt; reads > 20);
            return Ok(());
        }
        assert!(rt;
            ends_by(&told, &asked, StreamFault::ReadFailed),
            "after {reads} reads"
        );
    }
    assert!(rt; false);
    Ok(())
}

/// The kth write fails, for each k: nothing is read.
#[test]
fn each_write_fails_when_asking(rt: HostRuntime) -> Result<(), Fail> {
    let (answer, asked) = (answer(rt.alloc())?, asked(rt.alloc())?);
    for writes in 0..MANY {
        let told = asks(rt.alloc(), &answer, MANY, writes)?;
        if told
            .as_ref()
            .is_some_and(|told| is_all(&asked, &answer, told))
        {
            assert!(rt; writes > 20);
            return Ok(());
        }
        assert!(rt;
            ends_by(&told, &asked, StreamFault::WriteFailed),
            "after {writes} writes"
        );
    }
    assert!(rt; false);
    Ok(())
}
