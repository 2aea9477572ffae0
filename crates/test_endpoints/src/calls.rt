//! Calls of a client as data, for its tests.

use crate::answers::{prints, said_request};
use bytes::BytesMut;
use client::*;
use machine::Phase;
use messages::{Mode, Request};
use std::alloc::{AllocError, Global};
use std::process::Abort;
use std::test::*;
use structures::Cell;
use wire::{Version, Wish, put_message};

pub const SUCCESS: &[u8] = &[0xB1, 0x70, 0xA0];

pub const IGNORED: &[u8] = &[0xB0, 0x7E];
/// A SUCCESS with the entry `has_more`, true.
pub const MORE: &[u8] = &[
    0xB1, 0x70, 0xA1, 0x88, 0x68, 0x61, 0x73, 0x5F, 0x6D, 0x6F, 0x72, 0x65, 0xC3,
];
/// A SUCCESS with the entry `has_more`, 1.
pub const MORE_OF_ONE: &[u8] = &[
    0xB1, 0x70, 0xA1, 0x88, 0x68, 0x61, 0x73, 0x5F, 0x6D, 0x6F, 0x72, 0x65, 0x01,
];
/// The row of the number 1.
pub const ROW: &[u8] = &[0xB1, 0x71, 0x91, 0x01];
/// The FAILURE of an unknown text.
pub const FAILURE: &[u8] = &[
    0xB1, 0x7F, 0xA2, 0x84, 0x63, 0x6F, 0x64, 0x65, 0xD0, 0x25, 0x4E, 0x65, 0x6F, 0x2E, 0x43, 0x6C,
    0x69, 0x65, 0x6E, 0x74, 0x45, 0x72, 0x72, 0x6F, 0x72, 0x2E, 0x53, 0x74, 0x61, 0x74, 0x65, 0x6D,
    0x65, 0x6E, 0x74, 0x2E, 0x55, 0x6E, 0x6B, 0x6E, 0x6F, 0x77, 0x6E, 0x54, 0x65, 0x78, 0x74, 0x87,
    0x6D, 0x65, 0x73, 0x73, 0x61, 0x67, 0x65, 0x8C, 0x75, 0x6E, 0x6B, 0x6E, 0x6F, 0x77, 0x6E, 0x20,
    0x74, 0x65, 0x78, 0x74,
];

/// The answers to an offer.
pub const OLD: &[u8] = &[0, 0, 4, 4];

pub const NEW: &[u8] = &[0, 0, 1, 5];

pub const AT_5_0: &[u8] = &[0, 0, 0, 5];

/// A request.
pub enum Asked {
    /// The request of a script's line; and as it is at 4.4 and 5.0, if a HELLO has the login.
    Line(&'static str),
    Old(&'static str),
    /// RUN with a text of so many bytes among its parameters.
    Echo(usize),
    /// RUN with so many lists inside of one another among its parameters.
    Nested(usize),
    /// RUN with two parameters of one key.
    Twice,
    /// BEGIN under a token of so many bytes.
    BeginUnder(usize),
}

/// What a feed tells.
pub enum Told {
    Nothing(usize),
    Version(Version),
    NoVersion,
    Row,
    Summary(u64, Outcome, Phase),
    Closed,
    BadPeer,
}

/// A call of a client, and what it has to answer.
pub enum Step {
    /// What a submit answers: that it is accepted, or the text of its refusal.
    Asks(Asked, &'static str),
    /// Bytes as they come, a message in one chunk, and a chunk as long as can be.
    Feeds(&'static [u8], Told),
    Hears(&'static [u8], Told),
    FeedsTheLongest(Told),
    /// Bytes are fed to their end, and so many summaries come.
    FeedsAll(&'static [u8], usize),
    /// How many bytes are taken out of at most so many, and which.
    Takes(usize, usize),
    TakesOut(usize, &'static [u8]),
    /// How many requests wait, and the phase.
    Stands(usize, Phase),
    /// The ordinal of the first request that waits.
    First(u64),
    /// Whether an answer is still to come.
    Awaits(bool),
    /// Whether what was read of a message that comes in pieces is a whole value.
    Reads(bool),
    Loses(&'static [(u64, Outcome)]),
}

use Asked::*;
use Step::*;

fn is_told(fed: &Result<(usize, Heard), ClientFault>, told: &Told) -> bool {
    match (fed, told) {
        (Ok((used, Heard::Nothing)), Told::Nothing(wanted)) => used == wanted,
        (Ok((_, Heard::Version(Some(heard)))), Told::Version(wanted)) => heard == wanted,
        (Ok((_, Heard::Version(None))), Told::NoVersion) => true,
        (Ok((_, Heard::Row(_))), Told::Row) => true,
        (
            Ok(
                (
                    _,
                    Heard::Summary {
                        ordinal,
                        phase,
                        outcome,
                        response: _,
                    },
                ),
            ),
            Told::Summary(number, result, led_to),
        ) => ordinal == number && outcome == result && phase == led_to,
        (Err(ClientFault::Closed), Told::Closed) => true,
        (Err(ClientFault::BadPeer), Told::BadPeer) => true,
        _ => false,
    }
}

/// So many parameters `x` of a RUN.
fn echo(alloc: Global, cells: Result<Vec<Cell>, AllocError>) -> Result<Request, AllocError> {
    let mut params = Vec::new(alloc);
    for cell in cells? {
        params.push((String::from_str(alloc, "x")?, cell))?;
    }
    Ok(Request::Run {
        text: String::from_str(alloc, "ECHO")?,
        params,
        mode: Mode::Write,
        token: None,
    })
}

/// A text of so many bytes.
fn text(alloc: Global, len: usize) -> Result<Vec<Cell>, AllocError> {
    Ok(vec![in alloc; Cell::Text("x".repeat(alloc, len)?)]?)
}

/// So many lists inside of one another.
fn nested(alloc: Global, depth: usize) -> Result<Vec<Cell>, AllocError> {
    let mut cell = Cell::Null;
    for _ in 0..depth {
        cell = Cell::List(vec![in alloc; cell]?);
    }
    Ok(vec![in alloc; cell]?)
}

fn two(alloc: Global) -> Result<Vec<Cell>, AllocError> {
    Ok(vec![in alloc; Cell::Null, Cell::Null]?)
}

fn begin_under(alloc: Global, len: usize) -> Result<Request, AllocError> {
    Ok(Request::Begin {
        mode: Mode::Write,
        token: Some("a".repeat(alloc, len)?),
    })
}

fn request(alloc: Global, asked: &Asked) -> Option<Request> {
    match asked {
        Line(line) => said_request(alloc, Version::V51, line),
        Old(line) => said_request(alloc, Version::V44, line),
        Echo(len) => echo(alloc, text(alloc, *len)).ok(),
        Nested(depth) => echo(alloc, nested(alloc, *depth)).ok(),
        Twice => echo(alloc, two(alloc)).ok(),
        BeginUnder(len) => begin_under(alloc, *len).ok(),
    }
}

/// Whether a submit answers so.
fn answers(alloc: Global, client: &mut Client, asked: &Asked, answer: &str) -> bool {
    let Some(request) = request(alloc, asked) else {
        return false;
    };
    match client.submit(request) {
        Ok(_) => answer == "accepted",
        Err(fault) => prints(alloc, &fault, answer),
    }
}

/// The message in one chunk; None without one, or without memory.
fn chunked(alloc: Global, message: &[u8]) -> Option<BytesMut> {
    if message.is_empty() {
        return None;
    }
    let mut bytes = BytesMut::new(alloc);
    match put_message(message, &mut bytes) {
        Ok(()) => Some(bytes),
        Err(_) => None,
    }
}

/// A chunk as long as can be, without the end of its message.
fn longest_chunk(alloc: Global) -> Result<Vec<u8>, AllocError> {
    let mut bytes = Vec::new(alloc);
    bytes.extend_from_slice(&[0xFF, 0xFF])?;
    for _ in 0..65535 {
        bytes.push(0x90)?;
    }
    Ok(bytes)
}

/// Feeds bytes of the server, and answers how many summaries they had; None if it is refused.
fn hear(client: &mut Client, bytes: &[u8]) -> Option<usize> {
    let mut rest = bytes;
    let mut summaries: usize = 0;
    while !rest.is_empty() {
        let Ok((used, heard)) = client.feed(rest) else {
            return None;
        };
        if let Heard::Summary { .. } = heard {
            summaries = summaries.saturating_add(1);
        }
        let (_, after) = rest.split_at(used);
        rest = after;
    }
    Some(summaries)
}

/// Whether this is told of a message in one chunk.
fn is_heard(alloc: Global, client: &mut Client, message: &[u8], told: &Told) -> bool {
    match chunked(alloc, message) {
        Some(bytes) => is_told(&client.feed(&bytes), told),
        None => false,
    }
}

/// Whether this is told of a chunk as long as can be.
fn is_longest(alloc: Global, client: &mut Client, told: &Told) -> bool {
    match longest_chunk(alloc) {
        Ok(bytes) => is_told(&client.feed(&bytes), told),
        Err(_) => false,
    }
}

/// Whether so many bytes are taken out.
fn takes(client: &mut Client, max: usize, count: usize) -> bool {
    match client.take_out(max) {
        Ok(bytes) => bytes.len() == count,
        Err(_) => false,
    }
}

/// Whether these bytes are taken out.
fn takes_out(client: &mut Client, max: usize, wanted: &[u8]) -> bool {
    match client.take_out(max) {
        Ok(bytes) => bytes.as_slice() == wanted,
        Err(_) => false,
    }
}

/// Whether a call of the client answers what it has to.
fn is_so(alloc: Global, client: &mut Client, step: &Step) -> bool {
    match step {
        Asks(asked, answer) => answers(alloc, client, asked, answer),
        Feeds(bytes, told) => is_told(&client.feed(bytes), told),
        Hears(message, told) => is_heard(alloc, client, message, told),
        FeedsTheLongest(told) => is_longest(alloc, client, told),
        FeedsAll(bytes, summaries) => hear(client, bytes) == Some(*summaries),
        Takes(max, count) => takes(client, *max, *count),
        TakesOut(max, bytes) => takes_out(client, *max, bytes),
        Stands(count, phase) => client.pending() == *count && client.phase() == *phase,
        First(ordinal) => client.first_waiting() == *ordinal,
        Awaits(is_waiting) => client.awaits() == *is_waiting,
        Reads(is_whole) => client.reader().finish().is_ok() == *is_whole,
        Loses(losses) => client.lost().as_slice() == *losses,
    }
}

/// These calls are made of a client of its own.
pub fn plays(
    rt: &(impl Abort + AllocGlobal),
    name: &str,
    wish: Wish,
    parts: &[&[Step]],
) -> Result<(), Fail> {
    let mut client = Client::new(rt.alloc(), wish)?;
    for (part, steps) in parts.iter().enumerate() {
        for (place, step) in steps.iter().enumerate() {
            assert!(rt;
                is_so(rt.alloc(), &mut client, step),
                "{name}: part {part}, step {place}"
            );
        }
    }
    Ok(())
}
