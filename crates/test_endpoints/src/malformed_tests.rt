//! Messages that stand for no request, each whole in one piece.

use crate::conversation::Step::*;
use crate::conversation::{OFFER, Step, Turn, plays};
use server::{Cause, What, Worked};
use std::test::Fail;
use wire::Version;

const SHAKES: &[Step] = &[Opens, Feed(OFFER, 20, What::Handshake(Some(Version::V51)))];

const ENDS: &[Step] = &[Work(Worked::Ended(Cause::Malformed))];

/// Messages that stand for no request, each whole in one chunk and in one piece: bytes behind a value, no request of the version, a field
/// too many, a PULL of no rows, and a parameter that is no cell.
const TRAILING: &[Step] = &[Feed(&[0, 3, 0xB0, 0x0F, 0, 0, 0], 7, What::Malformed)];

const NO_REQUEST: &[Step] = &[Feed(&[0, 3, 0xB1, 0x70, 0xA0, 0, 0], 7, What::Malformed)];

const A_FIELD_TOO_MANY: &[Step] = &[Feed(&[0, 3, 0xB1, 0x0F, 0xA0, 0, 0], 7, What::Malformed)];

const NO_ROWS: &[Step] = &[Feed(
    &[0, 6, 0xB1, 0x3F, 0xA1, 0x81, 0x6E, 0, 0, 0],
    10,
    What::Malformed,
)];

const UNKNOWN_CELL: &[Step] = &[Feed(
    &[
        0, 13, 0xB3, 0x10, 0x83, 0x4F, 0x4E, 0x45, 0xA1, 0x81, 0x61, 0xB1, 0x5A, 0, 0xA0, 0, 0,
    ],
    17,
    What::Malformed,
)];

/// Sessions one after the other, each ended by one of the messages that stand for no request.
const GIVES_UP: &[Turn] = &[
    (0, 1, SHAKES),
    (0, 1, TRAILING),
    (0, 1, ENDS),
    (1, 1, SHAKES),
    (1, 1, NO_REQUEST),
    (1, 1, ENDS),
    (2, 1, SHAKES),
    (2, 1, A_FIELD_TOO_MANY),
    (2, 1, ENDS),
    (3, 1, SHAKES),
    (3, 1, NO_ROWS),
    (3, 1, ENDS),
    (4, 1, SHAKES),
    (4, 1, UNKNOWN_CELL),
    (4, 1, ENDS),
];

#[test]
fn gives_up_what_is_malformed_in_one_piece(rt: HostRuntime) -> Result<(), Fail> {
    plays(&rt, rt.alloc(), "malformed in one piece", GIVES_UP)
}
