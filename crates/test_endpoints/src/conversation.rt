//! Conversations with a server as data, for its tests.

use engine::{Engine, FixedTable, OneUser};
use machine::State;
use packstream::{PackFault, Reason};
use server::{Cause, Refused, Server, Took, What, Worked};
use std::alloc::{AllocError, Global};
use std::process::Abort;
use std::test::Fail;
use wire::Version;

pub type Table = Server<FixedTable, OneUser>;

/// The handshake of the newest, one for 4.4 alone, and one for 5.0 alone.
pub const OFFER: &[u8] = &[
    0x60, 0x60, 0xB0, 0x17, 0, 1, 1, 5, 0, 0, 4, 4, 0, 0, 0, 0, 0, 0, 0, 0,
];

pub const OLD_OFFER: &[u8] = &[
    0x60, 0x60, 0xB0, 0x17, 0, 0, 4, 4, 0, 0, 0, 0, 0, 0, 0, 0, 0, 0, 0, 0,
];

pub const OFFER_OF_5_0: &[u8] = &[
    0x60, 0x60, 0xB0, 0x17, 0, 0, 0, 5, 0, 0, 0, 0, 0, 0, 0, 0, 0, 0, 0, 0,
];

/// HELLO of the agent `t/1` at 5.1.
pub const HELLO: &[u8] = &[
    0xB1, 0x01, 0xA1, 0x8A, 0x75, 0x73, 0x65, 0x72, 0x5F, 0x61, 0x67, 0x65, 0x6E, 0x74, 0x83, 0x74,
    0x2F, 0x31,
];

/// HELLO at 4.4 and 5.0: basic, `user`, `pass`.
pub const OLD_HELLO: &[u8] = &[
    0xB1, 0x01, 0xA4, 0x8A, 0x75, 0x73, 0x65, 0x72, 0x5F, 0x61, 0x67, 0x65, 0x6E, 0x74, 0x83, 0x74,
    0x2F, 0x31, 0x86, 0x73, 0x63, 0x68, 0x65, 0x6D, 0x65, 0x85, 0x62, 0x61, 0x73, 0x69, 0x63, 0x89,
    0x70, 0x72, 0x69, 0x6E, 0x63, 0x69, 0x70, 0x61, 0x6C, 0x84, 0x75, 0x73, 0x65, 0x72, 0x8B, 0x63,
    0x72, 0x65, 0x64, 0x65, 0x6E, 0x74, 0x69, 0x61, 0x6C, 0x73, 0x84, 0x70, 0x61, 0x73, 0x73,
];

/// The SUCCESS of a HELLO on connection 0, in its chunk.
pub const GREETING: &[u8] = &[
    0x00, 0x2B, 0xB1, 0x70, 0xA2, 0x86, 0x73, 0x65, 0x72, 0x76, 0x65, 0x72, 0x8B, 0x42, 0x6F, 0x6C,
    0x74, 0x54, 0x61, 0x62, 0x6C, 0x65, 0x2F, 0x31, 0x8D, 0x63, 0x6F, 0x6E, 0x6E, 0x65, 0x63, 0x74,
    0x69, 0x6F, 0x6E, 0x5F, 0x69, 0x64, 0x86, 0x62, 0x6F, 0x6C, 0x74, 0x2D, 0x30, 0, 0,
];

/// LOGON: basic, `user`, `pass`; and with the credentials `bad`.
pub const LOGON: &[u8] = &[
    0xB1, 0x6A, 0xA3, 0x86, 0x73, 0x63, 0x68, 0x65, 0x6D, 0x65, 0x85, 0x62, 0x61, 0x73, 0x69, 0x63,
    0x89, 0x70, 0x72, 0x69, 0x6E, 0x63, 0x69, 0x70, 0x61, 0x6C, 0x84, 0x75, 0x73, 0x65, 0x72, 0x8B,
    0x63, 0x72, 0x65, 0x64, 0x65, 0x6E, 0x74, 0x69, 0x61, 0x6C, 0x73, 0x84, 0x70, 0x61, 0x73, 0x73,
];

pub const BAD_LOGON: &[u8] = &[
    0xB1, 0x6A, 0xA3, 0x86, 0x73, 0x63, 0x68, 0x65, 0x6D, 0x65, 0x85, 0x62, 0x61, 0x73, 0x69, 0x63,
    0x89, 0x70, 0x72, 0x69, 0x6E, 0x63, 0x69, 0x70, 0x61, 0x6C, 0x84, 0x75, 0x73, 0x65, 0x72, 0x8B,
    0x63, 0x72, 0x65, 0x64, 0x65, 0x6E, 0x74, 0x69, 0x61, 0x6C, 0x73, 0x83, 0x62, 0x61, 0x64,
];

/// RUN ROWS with n 3, and its SUCCESS in its chunk.
pub const ROWS: &[u8] = &[
    0xB3, 0x10, 0x84, 0x52, 0x4F, 0x57, 0x53, 0xA1, 0x81, 0x6E, 0x03, 0xA0,
];

pub const FIELDS: &[u8] = &[
    0, 0x16, 0xB1, 0x70, 0xA2, 0x86, 0x66, 0x69, 0x65, 0x6C, 0x64, 0x73, 0x91, 0x81, 0x69, 0x87,
    0x74, 0x5F, 0x66, 0x69, 0x72, 0x73, 0x74, 0, 0, 0,
];

/// RUN PUT of 1 with the key `a`, and RUN GET of it.
pub const PUT: &[u8] = &[
    0xB3, 0x10, 0x83, 0x50, 0x55, 0x54, 0xA2, 0x83, 0x6B, 0x65, 0x79, 0x81, 0x61, 0x85, 0x76, 0x61,
    0x6C, 0x75, 0x65, 0x01, 0xA0,
];

pub const GET: &[u8] = &[
    0xB3, 0x10, 0x83, 0x47, 0x45, 0x54, 0xA1, 0x83, 0x6B, 0x65, 0x79, 0x81, 0x61, 0xA0,
];

/// RUN NOPE.
pub const NOPE: &[u8] = &[0xB3, 0x10, 0x84, 0x4E, 0x4F, 0x50, 0x45, 0xA0, 0xA0];

pub const PULL_ALL: &[u8] = &[0xB1, 0x3F, 0xA1, 0x81, 0x6E, 0xFF];

pub const PULL_TWO: &[u8] = &[0xB1, 0x3F, 0xA1, 0x81, 0x6E, 0x02];

pub const PULL_THREE: &[u8] = &[0xB1, 0x3F, 0xA1, 0x81, 0x6E, 0x03];

pub const DISCARD_ALL: &[u8] = &[0xB1, 0x2F, 0xA1, 0x81, 0x6E, 0xFF];

pub const RESET: &[u8] = &[0xB0, 0x0F];

pub const BEGIN: &[u8] = &[0xB1, 0x11, 0xA0];

pub const COMMIT: &[u8] = &[0xB0, 0x12];

pub const GOODBYE: &[u8] = &[0xB0, 0x02];

/// FAILUREs in their chunks, each with a code and a message.
pub const INVALID: &[u8] =
    b"\x00\x52\xB1\x7F\xA2\x84code\xD0\x1FNeo.ClientError.Request.Invalid\x87message\xD0\x1Frequest not valid in this state\x00\x00";

pub const UNAUTHORIZED: &[u8] =
    b"\x00\x4F\xB1\x7F\xA2\x84code\xD0\x25Neo.ClientError.Security.Unauthorized\x87message\xD0\x16authentication refused\x00\x00";

pub const UNKNOWN_TEXT: &[u8] =
    b"\x00\x44\xB1\x7F\xA2\x84code\xD0\x25Neo.ClientError.Statement.UnknownText\x87message\x8Cunknown text\x00\x00";

pub const TOO_MANY_WRITES: &[u8] =
    b"\x00\x52\xB1\x7F\xA2\x84code\xD0\x29Neo.ClientError.Transaction.TooManyWrites\x87message\xD0\x15more than 1024 writes\x00\x00";

pub const NOT_IN_VERSION: &[u8] =
    b"\x00\x53\xB1\x7F\xA2\x84code\xD0\x26Neo.ClientError.Statement.NotInVersion\x87message\xD0\x19value not in this version\x00\x00";

pub const ROW_TOO_LARGE: &[u8] =
    b"\x00\x4D\xB1\x7F\xA2\x84code\xD0\x25Neo.ClientError.Statement.RowTooLarge\x87message\xD0\x14row past 65536 bytes\x00\x00";

/// A step of a connection, and what it tells.
pub enum Step {
    /// A session is opened, of this connection.
    Opens,
    OpensNone,
    /// Bytes are fed, so many are used.
    Feed(&'static [u8], usize, What),
    /// Each of the bytes is a piece, and ends nothing.
    Bytes(&'static [u8]),
    /// Bytes are fed in one piece, and used: the first, others so many times, and the last.
    Long(&'static [u8], &'static [u8], usize, &'static [u8], What),
    /// A message of fewer than 256 bytes is fed in one chunk.
    Send(&'static [u8], What),
    Work(Worked),
    /// So many rows that are owed are written.
    Rows(usize),
    /// Steps until there is nothing to do.
    WorkAll(Worked),
    /// All that waits to go is taken out.
    Out(&'static [u8]),
    /// At most so many bytes are taken out, and these they are.
    Next(usize, &'static [u8]),
    /// At most so many bytes are taken out, and so many they are.
    Takes(usize, usize),
    Noop(bool),
    Stands(State),
    /// Why the session has ended.
    Ends(Option<Cause>),
    /// The session is given up.
    Loses(Option<Cause>),
    NoSession,
    /// The first fault of what the lent reader has read, and its place.
    Reads(Reason, usize),
    NoReader,
    /// So many entries are in the ledger.
    Entries(usize),
}

use Step::*;

/// A connection, and steps of it that are taken so many times.
pub type Turn = (u64, usize, &'static [Step]);

/// A session in Ready at 5.1, with nothing to go.
pub const READY: &[Step] = &[
    Opens,
    Feed(OFFER, 20, What::Handshake(Some(Version::V51))),
    Send(HELLO, What::Message),
    Send(LOGON, What::Message),
    WorkAll(Worked::Idle),
    Stands(State::Ready),
    // 4 + 47 + 7 bytes.
    Takes(1000, 58),
];

/// Pieces are fed, and so says the session to the last.
pub fn feeds(server: &mut Table, conn: u64, pieces: &[&[u8]]) -> Result<Took, Refused> {
    let mut took = Took {
        used: 0,
        what: What::Part,
    };
    for piece in pieces {
        took = server.feed(conn, piece)?;
    }
    Ok(took)
}

/// Works until there is nothing to do; `Row`, which no conversation wants of it, if that takes more than 2,000 steps.
fn work_all(server: &mut Table, conn: u64) -> Result<Worked, Refused> {
    for _step in 0..2000 {
        match server.work(conn)? {
            Worked::Row | Worked::Wrote { .. } => {}
            done => return Ok(done),
        }
    }
    Ok(Worked::Row)
}

/// Whether each of the bytes is a piece that ends nothing.
fn are_parts(server: &mut Table, conn: u64, bytes: &[u8]) -> bool {
    let part = Took {
        used: 1,
        what: What::Part,
    };
    for byte in bytes {
        if server.feed(conn, &[*byte]) != Ok(part) {
            return false;
        }
    }
    true
}

/// The first bytes, others so many times, and the last.
fn long(
    alloc: Global,
    first: &[u8],
    other: &[u8],
    times: usize,
    last: &[u8],
) -> Result<Vec<u8>, AllocError> {
    let mut bytes = Vec::new(alloc);
    bytes.extend_from_slice(first)?;
    for _time in 0..times {
        bytes.extend_from_slice(other)?;
    }
    bytes.extend_from_slice(last)?;
    Ok(bytes)
}

/// The first fault of what the lent reader has read, and its place.
fn fault_in(server: &Table, conn: u64) -> Option<(Reason, usize)> {
    match server.reader(conn)?.finish() {
        Err(PackFault::Refused(reason, place)) => Some((reason, place)),
        _ => None,
    }
}

/// Whether a step that moves no bytes of a message tells what it should.
fn is_told(server: &mut Table, conn: u64, step: &Step) -> bool {
    match step {
        Stands(state) => server.state(conn) == Some(*state),
        Ends(cause) => server.cause(conn) == *cause,
        Loses(cause) => server.lost(conn) == *cause,
        NoSession => server.work(conn) == Err(Refused::NoSuchConnection),
        Reads(reason, place) => fault_in(server, conn) == Some((*reason, *place)),
        NoReader => server.reader(conn).is_none(),
        Entries(count) => server.engine().ledger().len() == *count,
        OpensNone => server.open() == Err(Refused::SessionsFull),
        Opens => server.open() == Ok(conn),
        Bytes(bytes) => are_parts(server, conn, bytes),
        _ => false,
    }
}

/// Whether so many of these bytes are used, and this is told of them.
fn is_fed(server: &mut Table, conn: u64, bytes: &[u8], used: usize, what: &What) -> bool {
    match server.feed(conn, bytes) {
        Ok(took) => took.used == used && took.what == *what,
        Err(_) => false,
    }
}

/// Whether what is taken out is this.
fn is_out(server: &mut Table, conn: u64, most: usize, bytes: &[u8]) -> bool {
    match server.take_out(conn, most) {
        Ok(out) => out.as_slice() == bytes,
        Err(_) => false,
    }
}

/// Whether the bytes, if there is memory for them, are used whole, and this is told of them.
fn is_long(server: &mut Table, conn: u64, bytes: Result<Vec<u8>, AllocError>, what: &What) -> bool {
    match bytes {
        Ok(bytes) => is_fed(server, conn, &bytes, bytes.len(), what),
        Err(_) => false,
    }
}

/// Whether this is told of a message in one chunk.
fn is_sent(server: &mut Table, conn: u64, message: &[u8], what: &What) -> bool {
    let header = [0, (message.len() % 256) as u8];
    match feeds(server, conn, &[&header, message, &[0, 0]]) {
        Ok(took) => took.what == *what,
        Err(_) => false,
    }
}

/// Whether so many bytes are taken out.
fn takes(server: &mut Table, conn: u64, most: usize, count: usize) -> bool {
    match server.take_out(conn, most) {
        Ok(out) => out.len() == count,
        Err(_) => false,
    }
}

/// Whether a step of this connection tells what it should.
fn is_so(alloc: Global, server: &mut Table, conn: u64, step: &Step) -> bool {
    match step {
        Feed(bytes, used, what) => is_fed(server, conn, bytes, *used, what),
        Long(first, other, times, last, what) => {
            is_long(server, conn, long(alloc, first, other, *times, last), what)
        }
        Send(message, what) => is_sent(server, conn, message, what),
        Work(told) => server.work(conn) == Ok(*told),
        Rows(count) => server.write_rows(conn) == *count,
        WorkAll(told) => work_all(server, conn) == Ok(*told),
        Out(bytes) => is_out(server, conn, 1000000, bytes),
        Next(most, bytes) => is_out(server, conn, *most, bytes),
        Takes(most, count) => takes(server, conn, *most, *count),
        Noop(put) => server.noop(conn) == Ok(*put),
        _ => is_told(server, conn, step),
    }
}

/// Steps of a connection of the conversation of this name.
pub fn converse(
    rt: &impl Abort,
    alloc: Global,
    server: &mut Table,
    conn: u64,
    name: &str,
    steps: &[Step],
) -> Result<(), Fail> {
    for (place, step) in steps.iter().enumerate() {
        assert!(rt;
            is_so(alloc, server, conn, step),
            "{name}: {conn}, step {place}"
        );
    }
    Ok(())
}

/// A server without sessions, of the user `user` with `pass`.
pub fn server(alloc: Global) -> Result<Table, AllocError> {
    let gate = OneUser::new(alloc, "user", "pass")?;
    Ok(Server::new(alloc, FixedTable::new(alloc), gate))
}

/// A conversation with a server of its own.
pub fn plays(rt: &impl Abort, alloc: Global, name: &str, turns: &[Turn]) -> Result<(), Fail> {
    let mut server = server(alloc)?;
    for (conn, times, steps) in turns {
        for _time in 0..*times {
            converse(rt, alloc, &mut server, *conn, name, steps)?;
        }
    }
    Ok(())
}
