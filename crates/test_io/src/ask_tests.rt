//! A client over streams, and what it tells of them.
use crate::heard::{Said, are_heard};
use crate::requests::request;
use crate::streams_of::{Drip, MANY, Trickle};
use client::{Client, Outcome};
use client_blocking::ask_all;
use machine::Phase;
use std::alloc::Global;
use std::test::*;
use streams::{History, StreamFault};
use wire::{Version, Wish};

/// The answer to an offer, and SUCCESS in one chunk.
const OLD: &[u8] = &[0, 0, 4, 4];

const SUCCESS: &[u8] = &[0, 3, 0xB1, 0x70, 0xA0, 0, 0];
/// SUCCESS three times.
const ALL: &[u8] = &[
    0, 3, 0xB1, 0x70, 0xA0, 0, 0, 0, 3, 0xB1, 0x70, 0xA0, 0, 0, 0, 3, 0xB1, 0x70, 0xA0, 0, 0,
];
/// SUCCESS, and then a row that nothing asked for.
const ROW: &[u8] = &[
    0, 3, 0xB1, 0x70, 0xA0, 0, 0, 0, 4, 0xB1, 0x71, 0x91, 1, 0, 0,
];

/// What a client does before it asks.
enum Before {
    Feeds(&'static [u8]),
    /// A request of 4.4, by its line.
    Submits(&'static str),
}

use Before::*;

/// A client that asks over streams, and what it has to tell.
struct Case {
    wish: Wish,
    before: &'static [Before],
    input: &'static [u8],
    /// How many bytes the source gives at once, and how often it is read before it fails.
    step: usize,
    reads: usize,
    /// How many bytes the sink takes before it fails.
    room: usize,
    heard: &'static [Said],
    losses: &'static [(u64, Outcome)],
    fault: Option<StreamFault>,
    written: usize,
}

const V44: Wish = Wish::Only(Version::V44);

/// A client at 4.4 that is logged on, with its output of 87 bytes still to be taken out: it says goodbye, or RESET, BEGIN and COMMIT
/// wait.
const GOODBYE: &[Before] = &[
    Feeds(OLD),
    Submits("hello"),
    Feeds(SUCCESS),
    Submits("goodbye"),
];

const TRANSACTION: &[Before] = &[
    Feeds(OLD),
    Submits("hello"),
    Feeds(SUCCESS),
    Submits("reset"),
    Submits("begin"),
    Submits("commit"),
];

const ANSWERED: &[Said] = &[
    Said::Summary(1, Outcome::Done, Phase::Ready),
    Said::Summary(2, Outcome::Done, Phase::TxReady),
    Said::Summary(3, Outcome::Committed, Phase::Ready),
];

const FIRST_ANSWERED: &[Said] = &[Said::Summary(1, Outcome::Done, Phase::Ready)];

/// RESET, BEGIN and COMMIT without an answer.
const LOST: &[(u64, Outcome)] = &[
    (1, Outcome::Lost),
    (2, Outcome::Lost),
    (3, Outcome::Unknown),
];

const REST_LOST: &[(u64, Outcome)] = &[(2, Outcome::Lost), (3, Outcome::Unknown)];

const CASES: [Case; 7] = [
    // All is answered.
    Case {
        wish: V44,
        before: TRANSACTION,
        input: ALL,
        step: 1,
        reads: MANY,
        room: MANY,
        heard: ANSWERED,
        losses: &[],
        fault: None,
        written: 106,
    },
    // The input ends early.
    Case {
        wish: V44,
        before: TRANSACTION,
        input: SUCCESS,
        step: 1,
        reads: MANY,
        room: MANY,
        heard: FIRST_ANSWERED,
        losses: REST_LOST,
        fault: None,
        written: 106,
    },
    // A bad answer.
    Case {
        wish: V44,
        before: TRANSACTION,
        input: ROW,
        step: 1,
        reads: MANY,
        room: MANY,
        heard: FIRST_ANSWERED,
        losses: REST_LOST,
        fault: None,
        written: 106,
    },
    // A source and a sink that fail.
    Case {
        wish: V44,
        before: TRANSACTION,
        input: ALL,
        step: 1,
        reads: 10,
        room: MANY,
        heard: FIRST_ANSWERED,
        losses: REST_LOST,
        fault: Some(StreamFault::ReadFailed),
        written: 106,
    },
    Case {
        wish: V44,
        before: TRANSACTION,
        input: ALL,
        step: 1,
        reads: MANY,
        room: 90,
        heard: &[],
        losses: LOST,
        fault: Some(StreamFault::WriteFailed),
        written: 90,
    },
    // Nothing is read for a GOODBYE.
    Case {
        wish: V44,
        before: GOODBYE,
        input: &[],
        step: 1,
        reads: 0,
        room: MANY,
        heard: &[],
        losses: &[(1, Outcome::Lost)],
        fault: None,
        written: 93,
    },
    // A client that has just begun hears the version.
    Case {
        wish: Wish::Newest,
        before: &[],
        input: OLD,
        step: MANY,
        reads: MANY,
        room: MANY,
        heard: &[Said::Version(Some(Version::V44))],
        losses: &[],
        fault: None,
        written: 20,
    },
];

fn prepare(alloc: Global, client: &mut Client, before: &[Before]) -> Result<(), Fail> {
    for step in before {
        match step {
            Feeds(bytes) => {
                client.feed(bytes)?;
            }
            Submits(line) => {
                client.submit(request(alloc, Version::V44, line)?)?;
            }
        }
    }
    Ok(())
}

/// Whether asking over a case's streams tells what it has to.
fn asks(alloc: Global, client: &mut Client, case: &Case) -> bool {
    let mut source = Trickle {
        rest: case.input,
        step: case.step,
        reads: case.reads,
        failed: false,
        ended: false,
        moved: History::new(),
    };
    let mut sink = Drip {
        bytes: Vec::new(alloc),
        step: MANY,
        writes: MANY,
        room: case.room,
        failed: false,
    };
    let told = ask_all(alloc, client, &mut source, &mut sink);
    are_heard(told.heard.as_slice(), case.heard)
        && told.losses.as_slice() == case.losses
        && told.fault == case.fault
        && sink.bytes.len() == case.written
}

#[test]
fn tells_what_came_of_asking(rt: HostRuntime) -> Result<(), Fail> {
    for (row, case) in CASES.iter().enumerate() {
        let mut client = Client::new(rt.alloc(), case.wish)?;
        prepare(rt.alloc(), &mut client, case.before)?;
        assert!(rt; asks(rt.alloc(), &mut client, case), "row {row}");
    }
    Ok(())
}
