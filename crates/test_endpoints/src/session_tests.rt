//! What a session answers, by its bytes.

use crate::conversation::Step::*;
use crate::conversation::{
    BAD_LOGON, BEGIN, COMMIT, DISCARD_ALL, FIELDS, GOODBYE, GREETING, HELLO, INVALID, LOGON, NOPE,
    OFFER, OFFER_OF_5_0, OLD_HELLO, OLD_OFFER, PULL_ALL, PULL_THREE, PULL_TWO, PUT, READY, RESET,
    ROWS, Step, Turn, UNAUTHORIZED, UNKNOWN_TEXT, converse, feeds, plays, server,
};
use crate::repeats::{
    ADDS_FIRST, ADDS_SECOND, CLASHES, COMMITS_FIRST, PUTS_ALONE, PUTS_INSIDE, PUTS_UNDER_T1,
    TELLS_FIRST,
};
use machine::{Kind, State};
use packstream::Reason;
use server::{Cause, Took, What, Worked};
use std::alloc::Global;
use std::process::Abort;
use std::test::Fail;
use wire::Version;

const GREETED: Worked = Worked::Wrote {
    ordinal: 0,
    kind: Kind::Hello,
    state: State::Unauth,
    entry: None,
};

const GREETS: &[Step] = &[
    Opens,
    Noop(false),
    Bytes(&[0x60, 0x60, 0xB0, 0x17, 0, 1, 1]),
    Feed(
        &[5, 0, 0, 4, 4, 0, 0, 0, 0, 0, 0, 0, 0],
        13,
        What::Handshake(Some(Version::V51)),
    ),
    Out(&[0, 0, 1, 5]),
    Feed(&[0, 0, 0], 2, What::Noop),
    Send(HELLO, What::Message),
    Work(GREETED),
    Work(Worked::Idle),
    Out(GREETING),
    Noop(true),
    Out(&[0, 0]),
    Send(HELLO, What::Message),
    WorkAll(Worked::Ended(Cause::Invalid)),
    Out(INVALID),
    Stands(State::Defunct),
    Noop(false),
    Feed(&[0], 0, What::Closed),
];

const GREETS_OLD: &[Step] = &[
    Opens,
    Feed(OLD_OFFER, 20, What::Handshake(Some(Version::V44))),
    Out(&[0, 0, 4, 4]),
    Bytes(&[0, 63]),
    Bytes(OLD_HELLO),
    Bytes(&[0]),
    Feed(&[0, 0, 0], 1, What::Message),
    WorkAll(Worked::Idle),
    Out(GREETING),
    Stands(State::Ready),
    Send(LOGON, What::Malformed),
    WorkAll(Worked::Ended(Cause::Malformed)),
    Out(&[]),
];

/// A HELLO with the login makes a session of 5.0 ready, and a LOGON is no request of it.
const GREETS_AT_5_0: &[Step] = &[
    Opens,
    Feed(OFFER_OF_5_0, 20, What::Handshake(Some(Version::V50))),
    Send(OLD_HELLO, What::Message),
    WorkAll(Worked::Idle),
    Next(4, &[0, 0, 0, 5]),
    Out(GREETING),
    Stands(State::Ready),
    Send(LOGON, What::Malformed),
    WorkAll(Worked::Ended(Cause::Malformed)),
    Out(&[]),
];

/// Nor is a HELLO without the login.
const GREETS_WITHOUT_LOGIN: &[Step] = &[
    Opens,
    Feed(OFFER_OF_5_0, 20, What::Handshake(Some(Version::V50))),
    Send(HELLO, What::Malformed),
    WorkAll(Worked::Ended(Cause::Malformed)),
    Out(&[0, 0, 0, 5]),
];

/// The first of two proposals that is taken, and what is said if none is, or to another magic.
const PROPOSES_FIVE: &[Step] = &[
    Opens,
    Feed(
        &[
            0x60, 0x60, 0xB0, 0x17, 0, 0, 0, 5, 0, 0, 4, 4, 0, 0, 0, 0, 0, 0, 0, 0,
        ],
        20,
        What::Handshake(Some(Version::V50)),
    ),
    Next(10, &[0, 0, 0, 5]),
    Ends(None),
];

const PROPOSES_A_RANGE: &[Step] = &[
    Opens,
    Feed(
        &[
            0x60, 0x60, 0xB0, 0x17, 0, 2, 1, 5, 0, 0, 0, 0, 0, 0, 0, 0, 0, 0, 0, 0,
        ],
        20,
        What::Handshake(Some(Version::V51)),
    ),
    Next(10, &[0, 0, 1, 5]),
    Ends(None),
];

const PROPOSES_THREE: &[Step] = &[
    Opens,
    Feed(
        &[
            0x60, 0x60, 0xB0, 0x17, 0, 0, 0, 3, 0, 0, 0, 0, 0, 0, 0, 0, 0, 0, 0, 0,
        ],
        20,
        What::Handshake(None),
    ),
    Next(10, &[0, 0, 0, 0]),
    Ends(Some(Cause::NoVersion)),
];

const HAS_ANOTHER_MAGIC: &[Step] = &[
    Opens,
    Feed(
        &[
            0x60, 0x60, 0xB0, 0x18, 0, 0, 1, 5, 0, 0, 4, 4, 0, 0, 0, 0, 0, 0, 0, 0,
        ],
        20,
        What::BadMagic,
    ),
    Next(10, &[]),
    Ends(Some(Cause::BadMagic)),
];

const LEAVES: &[Step] = &[
    Opens,
    Feed(OFFER, 20, What::Handshake(Some(Version::V51))),
    Send(GOODBYE, What::Message),
    WorkAll(Worked::Ended(Cause::Goodbye)),
    Out(&[0, 0, 1, 5]),
];

const IS_REFUSED: &[Step] = &[
    Opens,
    Feed(OFFER, 20, What::Handshake(Some(Version::V51))),
    Out(&[0, 0, 1, 5]),
    Send(HELLO, What::Message),
    WorkAll(Worked::Idle),
    Out(GREETING),
    Send(BAD_LOGON, What::Message),
    WorkAll(Worked::Ended(Cause::AuthRefused)),
    Out(UNAUTHORIZED),
    Stands(State::Defunct),
];

const IS_INVALID: &[Step] = &[
    Send(PULL_ALL, What::Message),
    WorkAll(Worked::Ended(Cause::Invalid)),
    Out(INVALID),
];

const CLOSED: Worked = Worked::Wrote {
    ordinal: 4,
    kind: Kind::Pull,
    state: State::Ready,
    entry: Some(1),
};

const STREAMS: &[Step] = &[
    Send(ROWS, What::Message),
    WorkAll(Worked::Idle),
    Rows(0),
    Out(FIELDS),
    Send(PULL_TWO, What::Message),
    Rows(2),
    Rows(0),
    WorkAll(Worked::Idle),
    Stands(State::Streaming),
    Out(&[
        0, 4, 0xB1, 0x71, 0x91, 0x01, 0, 0, 0, 4, 0xB1, 0x71, 0x91, 0x02, 0, 0, 0, 0x0D, 0xB1,
        0x70, 0xA1, 0x88, 0x68, 0x61, 0x73, 0x5F, 0x6D, 0x6F, 0x72, 0x65, 0xC3, 0, 0,
    ]),
    Send(PULL_TWO, What::Message),
    Work(Worked::Row),
    Work(CLOSED),
    Out(&[
        0, 4, 0xB1, 0x71, 0x91, 0x03, 0, 0, 0, 0x20, 0xB1, 0x70, 0xA3, 0x88, 0x62, 0x6F, 0x6F,
        0x6B, 0x6D, 0x61, 0x72, 0x6B, 0x84, 0x62, 0x6B, 0x3A, 0x31, 0x84, 0x74, 0x79, 0x70, 0x65,
        0x81, 0x72, 0x86, 0x74, 0x5F, 0x6C, 0x61, 0x73, 0x74, 0x00, 0, 0,
    ]),
    Send(ROWS, What::Message),
    Send(DISCARD_ALL, What::Message),
    Work(Worked::Wrote {
        ordinal: 5,
        kind: Kind::Run,
        state: State::Streaming,
        entry: None,
    }),
    Out(FIELDS),
    WorkAll(Worked::Idle),
    Out(&[
        0, 0x20, 0xB1, 0x70, 0xA3, 0x88, 0x62, 0x6F, 0x6F, 0x6B, 0x6D, 0x61, 0x72, 0x6B, 0x84,
        0x62, 0x6B, 0x3A, 0x32, 0x84, 0x74, 0x79, 0x70, 0x65, 0x81, 0x72, 0x86, 0x74, 0x5F, 0x6C,
        0x61, 0x73, 0x74, 0x00, 0, 0,
    ]),
    Send(ROWS, What::Message),
    WorkAll(Worked::Idle),
    Out(FIELDS),
    Send(PULL_THREE, What::Message),
    WorkAll(Worked::Idle),
    Stands(State::Ready),
    Out(&[
        0, 4, 0xB1, 0x71, 0x91, 0x01, 0, 0, 0, 4, 0xB1, 0x71, 0x91, 0x02, 0, 0, 0, 4, 0xB1, 0x71,
        0x91, 0x03, 0, 0, 0, 0x20, 0xB1, 0x70, 0xA3, 0x88, 0x62, 0x6F, 0x6F, 0x6B, 0x6D, 0x61,
        0x72, 0x6B, 0x84, 0x62, 0x6B, 0x3A, 0x33, 0x84, 0x74, 0x79, 0x70, 0x65, 0x81, 0x72, 0x86,
        0x74, 0x5F, 0x6C, 0x61, 0x73, 0x74, 0x00, 0, 0,
    ]),
    Entries(3),
];

const IS_RESET: &[Step] = &[
    Send(ROWS, What::Message),
    Send(PULL_ALL, What::Message),
    Work(Worked::Wrote {
        ordinal: 2,
        kind: Kind::Run,
        state: State::Streaming,
        entry: None,
    }),
    Out(FIELDS),
    Work(Worked::Row),
    Out(&[0, 4, 0xB1, 0x71, 0x91, 0x01, 0, 0]),
    Send(RESET, What::Message),
    Stands(State::Interrupted),
    Send(ROWS, What::Message),
    Send(RESET, What::Message),
    WorkAll(Worked::Idle),
    Out(&[
        0, 2, 0xB0, 0x7E, 0, 0, 0, 3, 0xB1, 0x70, 0xA0, 0, 0, 0, 2, 0xB0, 0x7E, 0, 0, 0, 3, 0xB1,
        0x70, 0xA0, 0, 0,
    ]),
    Stands(State::Ready),
    Entries(0),
];

/// BEGIN, a RUN that fails, PULL and COMMIT in one pipeline.
const FAILS: &[Step] = &[
    Send(BEGIN, What::Message),
    Send(NOPE, What::Message),
    Send(PULL_ALL, What::Message),
    Send(COMMIT, What::Message),
    Work(Worked::Wrote {
        ordinal: 2,
        kind: Kind::Begin,
        state: State::TxReady,
        entry: None,
    }),
    Out(&[0, 3, 0xB1, 0x70, 0xA0, 0, 0]),
    Work(Worked::Wrote {
        ordinal: 3,
        kind: Kind::Run,
        state: State::Failed,
        entry: None,
    }),
    Out(UNKNOWN_TEXT),
    WorkAll(Worked::Idle),
    Out(&[0, 2, 0xB0, 0x7E, 0, 0, 0, 2, 0xB0, 0x7E, 0, 0]),
    Stands(State::Failed),
    Entries(0),
];

/// What waits is worked before a malformed end.
const ENDS_MALFORMED: &[Step] = &[
    Send(BEGIN, What::Message),
    WorkAll(Worked::Idle),
    Stands(State::TxReady),
    Out(&[0, 3, 0xB1, 0x70, 0xA0, 0, 0]),
    Feed(
        &[0, 2, 0xB0, 0x12, 0, 0, 0, 1, 0xC0, 0, 0],
        6,
        What::Message,
    ),
    Feed(&[0, 1, 0xC0, 0, 0], 5, What::Malformed),
    Feed(&[0, 2, 0xB0, 0x0F, 0, 0], 0, What::Closed),
    Work(Worked::Wrote {
        ordinal: 3,
        kind: Kind::Commit,
        state: State::Ready,
        entry: Some(1),
    }),
    Work(Worked::Ended(Cause::Malformed)),
    Out(&[
        0, 0x11, 0xB1, 0x70, 0xA1, 0x88, 0x62, 0x6F, 0x6F, 0x6B, 0x6D, 0x61, 0x72, 0x6B, 0x84,
        0x62, 0x6B, 0x3A, 0x31, 0, 0,
    ]),
    Entries(1),
];

/// A list that claims more members than there are bytes.
const CLAIMS_TOO_MUCH: &[Step] = &[
    Opens,
    Feed(OFFER, 20, What::Handshake(Some(Version::V51))),
    Feed(
        &[0, 5, 0xD6, 0xFF, 0xFF, 0xFF, 0xFF, 0, 0],
        9,
        What::Malformed,
    ),
    Work(Worked::Ended(Cause::Malformed)),
];

/// A transaction that puts one value.
const COMMITS: &[Step] = &[
    Send(BEGIN, What::Message),
    WorkAll(Worked::Idle),
    Out(&[0, 3, 0xB1, 0x70, 0xA0, 0, 0]),
    Send(PUT, What::Message),
    WorkAll(Worked::Idle),
    Out(&[
        0, 0x14, 0xB1, 0x70, 0xA2, 0x86, 0x66, 0x69, 0x65, 0x6C, 0x64, 0x73, 0x90, 0x87, 0x74,
        0x5F, 0x66, 0x69, 0x72, 0x73, 0x74, 0, 0, 0,
    ]),
    Stands(State::TxStreaming),
    Send(PULL_ALL, What::Message),
    WorkAll(Worked::Idle),
    Out(&[
        0, 0x12, 0xB1, 0x70, 0xA2, 0x84, 0x74, 0x79, 0x70, 0x65, 0x81, 0x77, 0x86, 0x74, 0x5F,
        0x6C, 0x61, 0x73, 0x74, 0, 0, 0,
    ]),
    Entries(0),
    Send(COMMIT, What::Message),
    WorkAll(Worked::Idle),
    Out(&[
        0, 0x11, 0xB1, 0x70, 0xA1, 0x88, 0x62, 0x6F, 0x6F, 0x6B, 0x6D, 0x61, 0x72, 0x6B, 0x84,
        0x62, 0x6B, 0x3A, 0x31, 0, 0,
    ]),
    Stands(State::Ready),
    Entries(1),
];

/// A message in pieces, of which the reader is lent.
const LENDS_ITS_READER: &[Step] = &[
    Opens,
    Reads(Reason::Short, 0),
    Feed(OFFER, 20, What::Handshake(Some(Version::V51))),
    // A structure, its tag, a dictionary, and a key of two bytes of which one has come, in two chunks.
    Feed(&[0, 2, 0xB1, 0x01, 0, 9, 0xA1, 0x82, 0x61], 9, What::Part),
    Reads(Reason::Short, 3),
    // A byte that announces nothing makes every continuation bad, but the message isn't at its end.
    Feed(&[0x62, 0xC7, 0xA0], 3, What::Part),
    Reads(Reason::Marker, 6),
    Feed(&[0xA0, 0xA0, 0xA0], 3, What::Part),
    Reads(Reason::Marker, 6),
    Feed(&[0, 0], 2, What::Malformed),
    Reads(Reason::Short, 0),
];

/// Conversations, each with a server of its own.
const CONVERSATIONS: &[(&str, &[Turn])] = &[
    ("greets", &[(0, 1, GREETS)]),
    ("greets at the older version", &[(0, 1, GREETS_OLD)]),
    (
        "greets at 5.0",
        &[(0, 1, GREETS_AT_5_0), (1, 1, GREETS_WITHOUT_LOGIN)],
    ),
    (
        "takes the first proposal that it has",
        &[
            (0, 1, PROPOSES_FIVE),
            (1, 1, PROPOSES_A_RANGE),
            (2, 1, PROPOSES_THREE),
            (3, 1, HAS_ANOTHER_MAGIC),
        ],
    ),
    ("leaves", &[(0, 1, LEAVES)]),
    ("is refused", &[(0, 1, IS_REFUSED)]),
    ("is invalid", &[(0, 1, READY), (0, 1, IS_INVALID)]),
    ("streams rows", &[(0, 1, READY), (0, 1, STREAMS)]),
    ("a reset interrupts", &[(0, 1, READY), (0, 1, IS_RESET)]),
    (
        "a failure is followed by ignored",
        &[(0, 1, READY), (0, 1, FAILS)],
    ),
    ("ends malformed", &[(0, 1, READY), (0, 1, ENDS_MALFORMED)]),
    ("claims too much", &[(0, 1, CLAIMS_TOO_MUCH)]),
    ("commits a transaction", &[(0, 1, READY), (0, 1, COMMITS)]),
    (
        "a repeated transaction commits once",
        &[
            (0, 1, READY),
            (0, 1, PUTS_UNDER_T1),
            (0, 1, COMMITS_FIRST),
            (0, 2, PUTS_ALONE),
            (1, 1, READY),
            (1, 1, PUTS_UNDER_T1),
            (1, 1, TELLS_FIRST),
            (1, 2, PUTS_ALONE),
            (2, 1, READY),
            (2, 1, CLASHES),
        ],
    ),
    (
        "a token of a RUN inside a transaction",
        &[
            (0, 1, READY),
            (0, 1, PUTS_INSIDE),
            (0, 1, ADDS_FIRST),
            (0, 1, PUTS_INSIDE),
            (0, 1, ADDS_SECOND),
        ],
    ),
    (
        "lends its reader",
        &[(99, 1, &[NoReader]), (0, 1, LENDS_ITS_READER)],
    ),
];

#[test]
fn converses(rt: HostRuntime) -> Result<(), Fail> {
    for (name, turns) in CONVERSATIONS {
        plays(&rt, rt.alloc(), name, turns)?;
    }
    Ok(())
}

/// HELLO of the older version in its chunk, and the end of its message.
const WHOLE_HELLO: &[u8] = &[
    0, 0x3F, 0xB1, 1, 0xA4, 0x8A, 0x75, 0x73, 0x65, 0x72, 0x5F, 0x61, 0x67, 0x65, 0x6E, 0x74, 0x83,
    0x74, 0x2F, 0x31, 0x86, 0x73, 0x63, 0x68, 0x65, 0x6D, 0x65, 0x85, 0x62, 0x61, 0x73, 0x69, 0x63,
    0x89, 0x70, 0x72, 0x69, 0x6E, 0x63, 0x69, 0x70, 0x61, 0x6C, 0x84, 0x75, 0x73, 0x65, 0x72, 0x8B,
    0x63, 0x72, 0x65, 0x64, 0x65, 0x6E, 0x74, 0x69, 0x61, 0x6C, 0x73, 0x84, 0x70, 0x61, 0x73, 0x73,
    0, 0,
];

const OFFERS_OLD: &[Step] = &[
    Opens,
    Feed(OLD_OFFER, 20, What::Handshake(Some(Version::V44))),
    Out(&[0, 0, 4, 4]),
];

const GREETS_READY: &[Step] = &[WorkAll(Worked::Idle), Stands(State::Ready), Out(GREETING)];

/// The session that is fed HELLO in these pieces greets at the end of the last.
fn greets_at_the_last(
    rt: &impl Abort,
    alloc: Global,
    first: &[u8],
    second: &[u8],
    last: &[u8],
) -> Result<(), Fail> {
    let mut server = server(alloc)?;
    converse(rt, alloc, &mut server, 0, "a HELLO that is cut", OFFERS_OLD)?;
    let whole = Took {
        used: last.len(),
        what: What::Message,
    };
    let took = feeds(&mut server, 0, &[first, second, last]);
    assert!(rt;
        took == Ok(whole),
        "at {} and {}",
        first.len(),
        second.len()
    );
    converse(
        rt,
        alloc,
        &mut server,
        0,
        "a HELLO that is cut",
        GREETS_READY,
    )
}

#[test]
fn greets_however_hello_is_cut(rt: HostRuntime) -> Result<(), Fail> {
    for (one, _) in WHOLE_HELLO.iter().enumerate() {
        let (first, rest) = WHOLE_HELLO.split_at(one);
        for (two, _) in rest.iter().enumerate() {
            let (second, last) = rest.split_at(two);
            greets_at_the_last(&rt, rt.alloc(), first, second, last)?;
        }
    }
    Ok(())
}
