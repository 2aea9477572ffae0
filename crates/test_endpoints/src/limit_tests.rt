//! Where a server's limits are, and what comes past them.

use crate::conversation::Step::*;
use crate::conversation::{
    BEGIN, GET, HELLO, LOGON, NOT_IN_VERSION, OFFER, OLD_HELLO, OLD_OFFER, PULL_ALL, PUT, READY,
    RESET, ROW_TOO_LARGE, Step, TOO_MANY_WRITES, Turn, plays,
};
use machine::{Kind, State};
use server::{Cause, What, Worked};
use std::test::Fail;
use wire::Version;

const OPENS_AT_THE_NEWER: &[Step] = &[Opens, Feed(OFFER, 20, What::Handshake(Some(Version::V51)))];

/// A chunk as long as can be begins, and goes on five bytes at a time.
const BEGINS_THE_LONGEST: &[Step] = &[
    Opens,
    Feed(OFFER, 20, What::Handshake(Some(Version::V51))),
    Feed(&[0xFF, 0xFF], 2, What::Part),
];

const GOES_ON: &[Step] = &[Feed(&[0; 5], 5, What::Part)];

const PASSES_THE_LIMIT: &[Step] = &[
    Feed(&[0], 1, What::Part),
    Feed(&[2, 0xB0, 0x0F], 1, What::Malformed),
    Feed(&[0xB0], 0, What::Closed),
    Work(Worked::Ended(Cause::TooBig)),
];

const IS_FULL: &[Step] = &[
    Feed(&[0, 2, 0xB0, 0x0F, 0, 0], 0, What::Full),
    WorkAll(Worked::Ended(Cause::Invalid)),
];

const OPENS: &[Step] = &[Opens];

const OPENS_NONE: &[Step] = &[OpensNone];

const LOSES_ONE: &[Step] = &[Loses(Some(Cause::Lost)), Loses(None), NoSession];

/// A transaction begins with a PUT, and its summaries are taken out.
const BEGINS: &[Step] = &[
    Send(BEGIN, What::Message),
    Send(PUT, What::Message),
    Send(PULL_ALL, What::Message),
    WorkAll(Worked::Idle),
    // 7 + 24 + 22 bytes.
    Takes(1000, 53),
];

/// A PUT is answered, and its summaries are taken out.
const PUTS_ONCE: &[Step] = &[
    Send(PUT, What::Message),
    Send(PULL_ALL, What::Message),
    WorkAll(Worked::Idle),
    // 24 + 22 bytes.
    Takes(1000, 46),
];

const WRITES_TOO_MUCH: &[Step] = &[
    Stands(State::TxReady),
    Send(PUT, What::Message),
    WorkAll(Worked::Idle),
    Out(TOO_MANY_WRITES),
    Send(PULL_ALL, What::Message),
    WorkAll(Worked::Idle),
    Out(&[0, 2, 0xB0, 0x7E, 0, 0]),
    Stands(State::Failed),
    Entries(0),
];

/// A session in Ready at 4.4, with nothing to go.
const OLD_READY: &[Step] = &[
    Opens,
    Feed(OLD_OFFER, 20, What::Handshake(Some(Version::V44))),
    Send(OLD_HELLO, What::Message),
    WorkAll(Worked::Idle),
    Stands(State::Ready),
    // 4 + 47 bytes.
    Takes(1000, 51),
];

/// RUN PUT with the key `a` and a time of 4.4 in a zone, without the end of its message.
const BEGINS_A_TIME: &[Step] = &[
    Feed(&[0, 28], 2, What::Part),
    Feed(
        &[
            0xB3, 0x10, 0x83, 0x50, 0x55, 0x54, 0xA2, 0x83, 0x6B, 0x65, 0x79, 0x81, 0x61, 0x85,
            0x76, 0x61, 0x6C, 0x75, 0x65, 0xB3, 0x66, 0x00, 0x00, 0x83, 0x55, 0x54, 0x43, 0xA0,
        ],
        28,
        What::Part,
    ),
];

/// RUN PUT with the key `a` and 12,000 nodes of 4.4, of 22 + 12,000 * 5 + 1 bytes, without the end of its message.
const BEGINS_NODES: &[Step] = &[
    Feed(&[0xEA, 0x77], 2, What::Part),
    Long(
        &[
            0xB3, 0x10, 0x83, 0x50, 0x55, 0x54, 0xA2, 0x83, 0x6B, 0x65, 0x79, 0x81, 0x61, 0x85,
            0x76, 0x61, 0x6C, 0x75, 0x65, 0xD5, 0x2E, 0xE0,
        ],
        &[0xB3, 0x4E, 0x01, 0x90, 0xA0],
        12000,
        &[0xA0],
        What::Part,
    ),
];

/// The message ends, and its value is put.
const PUTS: &[Step] = &[
    Feed(&[0, 0], 2, What::Message),
    Send(PULL_ALL, What::Message),
    WorkAll(Worked::Idle),
    Stands(State::Ready),
    Entries(1),
    Send(GET, What::Message),
    Send(PULL_ALL, What::Message),
    Work(Worked::Wrote {
        ordinal: 3,
        kind: Kind::Run,
        state: State::Streaming,
        entry: None,
    }),
    Work(Worked::Row),
];

/// What was put is got at 5.1: its RUN succeeds, and its row is refused.
const GETS: &[Step] = &[
    Send(GET, What::Message),
    WorkAll(Worked::Idle),
    Stands(State::Streaming),
    // 26 bytes, and four more of the field's name.
    Takes(1000, 30),
    Send(PULL_ALL, What::Message),
    WorkAll(Worked::Idle),
];

const TIME_IS_REFUSED: &[Step] = &[Out(NOT_IN_VERSION), Stands(State::Failed), Entries(1)];

/// Nodes that are put at 4.4 are longer at 5.1, by their element ids.
const NODES_ARE_REFUSED: &[Step] = &[Out(ROW_TOO_LARGE), Stands(State::Failed), Entries(1)];

/// The session is asked for the longest row that a RUN ECHO can ask for, and nothing is taken out.
const ASKS_FOR_THE_LONGEST: &[Step] = &[
    Opens,
    Feed(OFFER, 20, What::Handshake(Some(Version::V51))),
    Send(HELLO, What::Message),
    Send(LOGON, What::Message),
    // A RUN ECHO whose request has the limit's 65,536 bytes, in its chunks.
    Long(
        &[
            0xFF, 0xFF, 0xB3, 0x10, 0x84, 0x45, 0x43, 0x48, 0x4F, 0xA1, 0x81, 0x78, 0xCD, 0xFF,
            0xF2,
        ],
        &[0],
        65522,
        &[0, 1, 0xA0, 0, 0],
        What::Message,
    ),
    Send(PULL_ALL, What::Message),
    WorkAll(Worked::Full),
    Noop(false),
];

const IS_CLOSED: Worked = Worked::Wrote {
    ordinal: 3,
    kind: Kind::Pull,
    state: State::Ready,
    entry: Some(1),
};

/// It has no room for a summary before 81 bytes are taken out.
const WRITES_WHEN_THERE_IS_ROOM: &[Step] = &[
    // 4 + 47 + 7 + 26 bytes came before the row, and 65,532 are its own.
    Takes(80, 80),
    Work(Worked::Full),
    Takes(1, 1),
    Work(IS_CLOSED),
    Takes(100000, 65616 - 81 + 36),
];

/// Conversations, each with a server of its own.
const CONVERSATIONS: &[(&str, &[Turn])] = &[
    (
        "a message of two chunks whose lengths together are past the limit",
        &[
            (0, 1, BEGINS_THE_LONGEST),
            (0, 65535 / 5, GOES_ON),
            (0, 1, PASSES_THE_LIMIT),
        ],
    ),
    (
        "full at 32 slots",
        &[
            (0, 1, OPENS_AT_THE_NEWER),
            (0, 32, &[Send(RESET, What::Message)]),
            (0, 1, IS_FULL),
        ],
    ),
    (
        "sixteen live",
        &[
            (0, 1, OPENS),
            (1, 1, OPENS),
            (2, 1, OPENS),
            (3, 1, OPENS),
            (4, 1, OPENS),
            (5, 1, OPENS),
            (6, 1, OPENS),
            (7, 1, OPENS),
            (8, 1, OPENS),
            (9, 1, OPENS),
            (10, 1, OPENS),
            (11, 1, OPENS),
            (12, 1, OPENS),
            (13, 1, OPENS),
            (14, 1, OPENS),
            (15, 1, OPENS),
            (16, 1, OPENS_NONE),
            (3, 1, LOSES_ONE),
            (16, 1, OPENS),
        ],
    ),
    (
        "a transaction's 1,025th write",
        &[
            (0, 1, READY),
            (0, 1, BEGINS),
            (0, 1023, PUTS_ONCE),
            (0, 1, WRITES_TOO_MUCH),
        ],
    ),
    (
        "a value of another version",
        &[
            (0, 1, OLD_READY),
            (0, 1, BEGINS_A_TIME),
            (0, 1, PUTS),
            (1, 1, READY),
            (1, 1, GETS),
            (1, 1, TIME_IS_REFUSED),
        ],
    ),
    (
        "a row too large",
        &[
            (0, 1, OLD_READY),
            (0, 1, BEGINS_NODES),
            (0, 1, PUTS),
            (1, 1, READY),
            (1, 1, GETS),
            (1, 1, NODES_ARE_REFUSED),
        ],
    ),
    (
        "a client that takes nothing asks for the longest row of an ECHO",
        &[
            (0, 1, ASKS_FOR_THE_LONGEST),
            (0, 1, WRITES_WHEN_THERE_IS_ROOM),
        ],
    ),
];

#[test]
fn keeps_its_limits(rt: HostRuntime) -> Result<(), Fail> {
    for (name, turns) in CONVERSATIONS {
        plays(&rt, rt.alloc(), name, turns)?;
    }
    Ok(())
}
