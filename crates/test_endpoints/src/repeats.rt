//! Transactions under a token, and what a session answers if they are repeated.

use crate::conversation::Step::*;
use crate::conversation::{BEGIN, COMMIT, PULL_ALL, PUT, Step};
use machine::{Kind, State};
use server::{What, Worked};

/// BEGIN with the token `t1`.
const BEGIN_T1: &[u8] = b"\xB1\x11\xA1\x8Btx_metadata\xA1\x85token\x82t1";

/// RUN PUT of 1 and of 2 with the key `a`, of 1 with the token `t2`.
const PUT_T2: &[u8] =
    b"\xB3\x10\x83PUT\xA2\x83key\x81a\x85value\x01\xA1\x8Btx_metadata\xA1\x85token\x82t2";

const PUT_TWO: &[u8] = b"\xB3\x10\x83PUT\xA2\x83key\x81a\x85value\x02\xA0";

/// The SUCCESS of a COMMIT, with the bookmark of the first entry and of the second.
const FIRST: &[u8] = b"\x00\x11\xB1\x70\xA1\x88bookmark\x84bk:1\x00\x00";

const SECOND: &[u8] = b"\x00\x11\xB1\x70\xA1\x88bookmark\x84bk:2\x00\x00";

const TOKEN_CLASH: &[u8] =
    b"\x00\x56\xB1\x7F\xA2\x84code\xD0\x26Neo.ClientError.Transaction.TokenClash\x87message\xD0\x1Ctoken used with other writes\x00\x00";

/// The SUCCESS of a RUN PUT, and that of its PULL outside a transaction with the bookmark of the second entry.
const PUT_ALONE: &[u8] =
    b"\x00\x14\xB1\x70\xA2\x86fields\x90\x87t_first\x00\x00\x00\x00\x20\xB1\x70\xA3\x88bookmark\x84bk:2\x84type\x81w\x86t_last\x00\x00\x00";

/// The summary of a COMMIT, the sixth request of its connection: where it adds the first entry, where that entry was there, and where
/// other writes were.
const ADDED: Worked = Worked::Wrote {
    ordinal: 5,
    kind: Kind::Commit,
    state: State::Ready,
    entry: Some(1),
};

const REPEATED: Worked = Worked::Wrote {
    ordinal: 5,
    kind: Kind::Commit,
    state: State::Ready,
    entry: None,
};

const CLASHED: Worked = Worked::Wrote {
    ordinal: 5,
    kind: Kind::Commit,
    state: State::Failed,
    entry: None,
};

/// BEGIN with the token, a RUN that puts 1, and its PULL; their summaries are taken out.
pub const PUTS_UNDER_T1: &[Step] = &[
    Send(BEGIN_T1, What::Message),
    Send(PUT, What::Message),
    Send(PULL_ALL, What::Message),
    WorkAll(Worked::Idle),
    // 7 + 24 + 22 bytes.
    Takes(1000, 53),
    Send(COMMIT, What::Message),
];

/// The transaction commits.
pub const COMMITS_FIRST: &[Step] = &[Work(ADDED), Out(FIRST), Stands(State::Ready), Entries(1)];

/// It was committed before: nothing is added, and the bookmark is the first one's.
pub const TELLS_FIRST: &[Step] = &[Work(REPEATED), Out(FIRST), Stands(State::Ready), Entries(2)];

/// The token stands with other writes: the transaction fails, and is gone.
pub const CLASHES: &[Step] = &[
    Send(BEGIN_T1, What::Message),
    Send(PUT_TWO, What::Message),
    Send(PULL_ALL, What::Message),
    WorkAll(Worked::Idle),
    Takes(1000, 53),
    Send(COMMIT, What::Message),
    Work(CLASHED),
    Out(TOKEN_CLASH),
    Send(COMMIT, What::Message),
    WorkAll(Worked::Idle),
    Out(b"\x00\x02\xB0\x7E\x00\x00"),
    Stands(State::Failed),
    Entries(2),
];

/// A RUN with a token outside a transaction, and its PULL: each time it tells the same.
pub const PUTS_ALONE: &[Step] = &[
    Send(PUT_T2, What::Message),
    Send(PULL_ALL, What::Message),
    WorkAll(Worked::Idle),
    Out(PUT_ALONE),
    Stands(State::Ready),
    Entries(2),
];

/// A transaction without a token, in which a RUN has one, is added.
pub const PUTS_INSIDE: &[Step] = &[
    Send(BEGIN, What::Message),
    Send(PUT_T2, What::Message),
    Send(PULL_ALL, What::Message),
    WorkAll(Worked::Idle),
    Takes(1000, 53),
    Send(COMMIT, What::Message),
    WorkAll(Worked::Idle),
];

pub const ADDS_FIRST: &[Step] = &[Out(FIRST), Entries(1)];

pub const ADDS_SECOND: &[Step] = &[Out(SECOND), Entries(2)];
