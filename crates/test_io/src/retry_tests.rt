//! What is known of a transaction under a token, by what its attempts tell.
use crate::requests::{BEGIN_UNDER_NONE, PUT, request};
use crate::streams_of::{MANY, Table, Trickle, server};
use client::{Client, Heard, Outcome, SubmitFault};
use client_blocking::{Told, ask_all};
use engine::Engine;
use messages::{Request, Response};
use std::alloc::Global;
use std::test::*;
use streams::{Buffer, History, Sink, Source};
use wire::{Version, Wish};

/// What is known of a transaction under a token.
#[derive(Clone, Copy, Debug, PartialEq, Eq)]
enum Known {
    /// The writes stand exactly once, and no attempt adds them again, nor one that is still on its way.
    Stands,
    /// Other writes stand under the token: of an earlier attempt, which saw other data, or of whoever took the token first.
    Taken,
    /// It was refused for good, and nothing of it stands: not of this attempt, nor of any before it.
    Refused,
    /// Nothing yet: another attempt may tell.
    Open,
}

/// What is known where the same requests are refused each time: nothing of them stands, unless an earlier attempt may have committed.
fn refused_for_good(doubted: bool) -> Known {
    if doubted { Known::Open } else { Known::Refused }
}

/// What a refusal by the server tells.
fn refused(code: &str, doubted: bool) -> Known {
    if code == "Neo.ClientError.Transaction.TokenClash" {
        return Known::Taken;
    }
    if code.starts_with("Neo.ClientError.") {
        return refused_for_good(doubted);
    }
    Known::Open
}

/// What an attempt tells, which sets `doubted` where it may have committed.
fn known_of(told: &Told, doubted: &mut bool) -> Known {
    for heard in &told.heard {
        if let Heard::Summary {
            outcome,
            response,
            ..
        } = heard
        {
            match (outcome, response) {
                (Outcome::Committed, _) => return Known::Stands,
                // The first that is refused: all behind it is ignored.
                (Outcome::Refused, Response::Failure { code, .. }) => {
                    return refused(code.as_str(), *doubted);
                }
                _ => {}
            }
        }
    }
    for (_, outcome) in told.losses.as_slice() {
        *doubted |= *outcome == Outcome::Unknown;
    }
    Known::Open
}

/// One attempt, over a connection of its own, of requests from HELLO to the one COMMIT.
fn attempt(
    alloc: Global,
    asked: &[Request],
    source: &mut impl Source,
    sink: &mut impl Sink,
    doubted: &mut bool,
) -> Result<Known, Fail> {
    let mut client = Client::new(alloc, Wish::Only(Version::V51))?;
    let _version = ask_all(alloc, &mut client, source, sink);
    for request in asked {
        match client.submit(request.clone()?) {
            Ok(_) => {}
            // The connection ended before its version came, or no memory was left: nothing was sent.
            Err(SubmitFault::Closed | SubmitFault::Memory) => return Ok(Known::Open),
            Err(_) => return Ok(refused_for_good(*doubted)),
        }
    }
    let told = ask_all(alloc, &mut client, source, sink);
    Ok(known_of(&told, doubted))
}

/// One attempt after the other, each over the next of these connections, until one tells. `doubted` is false before the first.
fn until_known(
    alloc: Global,
    asked: &[Request],
    connections: &mut [(impl Source, impl Sink)],
    doubted: &mut bool,
) -> Result<Known, Fail> {
    for (source, sink) in connections {
        let known = attempt(alloc, asked, source, sink, doubted)?;
        if known != Known::Open {
            return Ok(known);
        }
    }
    Ok(Known::Open)
}

/// A transaction under a token, one under it that saw other data, and one under another token with a query that the server doesn't know.
const ASKED: &[&str] = &[
    "hello",
    "logon",
    "begin token 9f3c",
    PUT,
    "pull -1",
    "commit",
];

const OTHER: &[&str] = &[
    "hello",
    "logon",
    "begin token 9f3c",
    "run PUT A2836B6579816B8576616C756502",
    "pull -1",
    "commit",
];

const NOPE: &[&str] = &[
    "hello",
    "logon",
    "begin token 9f3d",
    "run NOPE A0",
    "pull -1",
    "commit",
];

/// Transactions whose BEGIN can't be written, since its token has no byte, or 65 bytes.
const TOO_SHORT: &[&str] = &["hello", "logon", BEGIN_UNDER_NONE];

const TOO_LONG: &[&str] = &[
    "hello",
    "logon",
    "begin token aaaaaaaaaaaaaaaaaaaaaaaaaaaaaaaaaaaaaaaaaaaaaaaaaaaaaaaaaaaaaaaaa",
];

/// The version, SUCCESS, and FAILURE of a LOGON, by a code that is final and by one that isn't.
const UNAUTHORIZED: &[u8] =
    b"\x00\x00\x01\x05\x00\x03\xB1\x70\xA0\x00\x00\x00\x39\xB1\x7F\xA2\x84code\xD0\x25Neo.ClientError.Security.Unauthorized\x87message\x81n\x00\x00";

const TRANSIENT: &[u8] =
    b"\x00\x00\x01\x05\x00\x03\xB1\x70\xA0\x00\x00\x00\x28\xB1\x7F\xA2\x84code\xD0\x14Neo.TransientError.N\x87message\x81n\x00\x00";

/// What a connection gives: so many bytes of what the server answers, or others.
enum Connection {
    Served(usize),
    Said(&'static [u8]),
}

use Connection::*;

/// What is asked over which connections, what is known in the end, and with how many of them.
type Case = (&'static [&'static str], &'static [Connection], Known, usize);

const CASES: [Case; 10] = [
    // If the version alone comes, the COMMIT may stand, as it does here.
    (
        ASKED,
        &[Served(4), Served(MANY), Served(MANY)],
        Known::Stands,
        2,
    ),
    (ASKED, &[Served(MANY)], Known::Stands, 1),
    (OTHER, &[Served(MANY)], Known::Taken, 1),
    (
        OTHER,
        &[Said(&[]), Served(4), Served(MANY)],
        Known::Taken,
        3,
    ),
    (NOPE, &[Served(MANY), Served(MANY)], Known::Refused, 1),
    (
        NOPE,
        &[Said(&[]), Said(TRANSIENT), Served(MANY)],
        Known::Refused,
        3,
    ),
    (
        ASKED,
        &[Said(UNAUTHORIZED), Served(MANY)],
        Known::Refused,
        1,
    ),
    (ASKED, &[Served(4), Said(UNAUTHORIZED)], Known::Open, 2),
    (
        TOO_SHORT,
        &[Said(&[]), Served(4), Served(4)],
        Known::Refused,
        2,
    ),
    (TOO_LONG, &[Said(&[]), Served(4)], Known::Refused, 2),
];

/// How many items come and how many steps are worked, at most.
const MOST: usize = 32;

/// What a server answers on a connection of its own, which is lost then.
fn answers(alloc: Global, server: &mut Table, asked: &[u8]) -> Result<Vec<u8>, Fail> {
    let conn = server.open()?;
    let mut rest = asked;
    for _item in 0..MOST {
        let took = server.feed(conn, rest)?;
        rest = rest.get(took.used..).unwrap_or(&[]);
    }
    for _step in 0..MOST {
        server.work(conn)?;
    }
    let answers = server.take_out(conn, MANY)?.to_vec(alloc)?;
    server.lost(conn);
    Ok(answers)
}

/// What an attempt puts out, to which the version alone is answered.
fn put_out(alloc: Global, asked: &[Request]) -> Result<Vec<u8>, Fail> {
    let mut sink = Buffer::new(Vec::new(alloc));
    attempt(
        alloc,
        asked,
        &mut trickle(&[0, 0, 1, 5]),
        &mut sink,
        &mut false,
    )?;
    Ok(sink.into_bytes())
}

/// What each connection of a case gives.
fn given(
    alloc: Global,
    server: &mut Table,
    asked: &[Request],
    connections: &[Connection],
) -> Result<Vec<Vec<u8>>, Fail> {
    let out = put_out(alloc, asked)?;
    let mut given = Vec::new(alloc);
    for one in connections {
        match one {
            Served(count) => {
                let mut bytes = answers(alloc, server, out.as_slice())?;
                bytes.truncate(*count);
                given.push(bytes)?;
            }
            Said(bytes) => given.push(bytes.to_vec(alloc)?)?,
        }
    }
    Ok(given)
}

/// Whether the attempts of a case tell what they have to, over so many connections.
fn is_known(alloc: Global, server: &mut Table, case: &Case) -> Result<bool, Fail> {
    let (script, connections, known, used) = case;
    let mut asked = Vec::new(alloc);
    for one in *script {
        asked.push(request(alloc, Version::V51, one)?)?;
    }
    let given = given(alloc, server, asked.as_slice(), connections)?;
    let mut streams = Vec::new(alloc);
    for bytes in &given {
        streams.push((trickle(bytes), Buffer::new(Vec::new(alloc))))?;
    }
    let told = until_known(alloc, asked.as_slice(), streams.as_mut_slice(), &mut false)?;
    let begun = streams.iter().filter(|(_, sink)| !sink.bytes().is_empty());
    Ok(told == *known && begun.count() == *used)
}

#[test]
fn retries_until_it_is_known(rt: HostRuntime) -> Result<(), Fail> {
    let alloc = rt.alloc();
    let mut server = server(alloc)?;
    for (row, case) in CASES.iter().enumerate() {
        assert!(rt; is_known(alloc, &mut server, case)?, "row {row}");
    }
    assert!(rt; server.engine().ledger().len() == 1);
    Ok(())
}

/// A source of these bytes, one by one.
fn trickle(bytes: &[u8]) -> Trickle<'_> {
    Trickle {
        rest: bytes,
        step: 1,
        reads: MANY,
        failed: false,
        ended: false,
        moved: History::new(),
    }
}
