//! That each kind of message goes the short ways, is scanned and is spelled. No clause says that anything does: what doesn't is right too.
use crate::answers::said_request;
use crate::messages_tests::{
    BEGIN_OF_T1, FIELDS_OF_ROWS, HELLO_OF_AGENT, HELLO_OF_USER, LOGON_OF_USER, NULL_METADATA,
    PULL_OF_LAST, PULL_ONE, TOKEN_OF_64, TOKEN_OF_65, TOKEN_OF_NONE, UNKNOWN_TEXT,
};
use bytes::BytesMut;
use messages::short_ways::{scan_request, scan_response, spell_request, spell_response};
use std::alloc::Global;
use std::test::*;
use wire::Version;

/// HELLO of the agent `t/1`, its login in another order, and an entry that is ignored.
const HELLO_IN_ANOTHER_ORDER: &[u8] = &[
    0xB1, 0x01, 0xA5, 0x8B, 0x63, 0x72, 0x65, 0x64, 0x65, 0x6E, 0x74, 0x69, 0x61, 0x6C, 0x73, 0x84,
    0x70, 0x61, 0x73, 0x73, 0x86, 0x73, 0x63, 0x68, 0x65, 0x6D, 0x65, 0x85, 0x62, 0x61, 0x73, 0x69,
    0x63, 0x89, 0x70, 0x72, 0x69, 0x6E, 0x63, 0x69, 0x70, 0x61, 0x6C, 0x84, 0x75, 0x73, 0x65, 0x72,
    0x81, 0x78, 0x01, 0x8A, 0x75, 0x73, 0x65, 0x72, 0x5F, 0x61, 0x67, 0x65, 0x6E, 0x74, 0x83, 0x74,
    0x2F, 0x31,
];
/// HELLO at 5.1 of the agent `t/1`, with an entry that is ignored.
const HELLO_WITH_MORE: &[u8] = &[
    0xB1, 0x01, 0xA2, 0x8A, 0x75, 0x73, 0x65, 0x72, 0x5F, 0x61, 0x67, 0x65, 0x6E, 0x74, 0x83, 0x74,
    0x2F, 0x31, 0x81, 0x78, 0xA1, 0x81, 0x79, 0x91, 0x01,
];
/// LOGON, basic, `user`, `pass`, in another order.
const LOGON_IN_ANOTHER_ORDER: &[u8] = &[
    0xB1, 0x6A, 0xA3, 0x8B, 0x63, 0x72, 0x65, 0x64, 0x65, 0x6E, 0x74, 0x69, 0x61, 0x6C, 0x73, 0x84,
    0x70, 0x61, 0x73, 0x73, 0x86, 0x73, 0x63, 0x68, 0x65, 0x6D, 0x65, 0x85, 0x62, 0x61, 0x73, 0x69,
    0x63, 0x89, 0x70, 0x72, 0x69, 0x6E, 0x63, 0x69, 0x70, 0x61, 0x6C, 0x84, 0x75, 0x73, 0x65, 0x72,
];
/// RUN of `ONE` with the parameter `a`, in mode Read.
const RUN_READING: &[u8] = &[
    0xB3, 0x10, 0x83, 0x4F, 0x4E, 0x45, 0xA1, 0x81, 0x61, 0x01, 0xA1, 0x84, 0x6D, 0x6F, 0x64, 0x65,
    0x81, 0x72,
];
/// RUN of `ONE` in mode Write with the token `t1`.
const RUN_OF_T1: &[u8] = &[
    0xB3, 0x10, 0x83, 0x4F, 0x4E, 0x45, 0xA0, 0xA1, 0x8B, 0x74, 0x78, 0x5F, 0x6D, 0x65, 0x74, 0x61,
    0x64, 0x61, 0x74, 0x61, 0xA1, 0x85, 0x74, 0x6F, 0x6B, 0x65, 0x6E, 0x82, 0x74, 0x31,
];
/// RUN of `ONE` in mode Read with the token `t1`.
const READING_OF_T1: &[u8] = &[
    0xB3, 0x10, 0x83, 0x4F, 0x4E, 0x45, 0xA0, 0xA2, 0x84, 0x6D, 0x6F, 0x64, 0x65, 0x81, 0x72, 0x8B,
    0x74, 0x78, 0x5F, 0x6D, 0x65, 0x74, 0x61, 0x64, 0x61, 0x74, 0x61, 0xA1, 0x85, 0x74, 0x6F, 0x6B,
    0x65, 0x6E, 0x82, 0x74, 0x31,
];
/// RUN of `ONE` in mode Read with the token `t1` before the mode.
const TOKEN_BEFORE_MODE: &[u8] = &[
    0xB3, 0x10, 0x83, 0x4F, 0x4E, 0x45, 0xA0, 0xA2, 0x8B, 0x74, 0x78, 0x5F, 0x6D, 0x65, 0x74, 0x61,
    0x64, 0x61, 0x74, 0x61, 0xA1, 0x85, 0x74, 0x6F, 0x6B, 0x65, 0x6E, 0x82, 0x74, 0x31, 0x84, 0x6D,
    0x6F, 0x64, 0x65, 0x81, 0x72,
];
/// RUN of `ONE` in mode Write with the token `t1`, further words beside it, and entries that are ignored.
const RUN_WITH_MORE: &[u8] = &[
    0xB3, 0x10, 0x83, 0x4F, 0x4E, 0x45, 0xA0, 0xA4, 0x82, 0x64, 0x62, 0x81, 0x64, 0x84, 0x6D, 0x6F,
    0x64, 0x65, 0x81, 0x77, 0x8A, 0x74, 0x78, 0x5F, 0x74, 0x69, 0x6D, 0x65, 0x6F, 0x75, 0x74, 0x05,
    0x8B, 0x74, 0x78, 0x5F, 0x6D, 0x65, 0x74, 0x61, 0x64, 0x61, 0x74, 0x61, 0xA2, 0x83, 0x61, 0x70,
    0x70, 0x81, 0x78, 0x85, 0x74, 0x6F, 0x6B, 0x65, 0x6E, 0x82, 0x74, 0x31,
];
/// BEGIN in mode Read with the token `t1`.
const BEGIN_READING_OF_T1: &[u8] = &[
    0xB1, 0x11, 0xA2, 0x84, 0x6D, 0x6F, 0x64, 0x65, 0x81, 0x72, 0x8B, 0x74, 0x78, 0x5F, 0x6D, 0x65,
    0x74, 0x61, 0x64, 0x61, 0x74, 0x61, 0xA1, 0x85, 0x74, 0x6F, 0x6B, 0x65, 0x6E, 0x82, 0x74, 0x31,
];
/// BEGIN in mode Read with entries that are ignored.
const BEGIN_WITH_MORE: &[u8] = &[
    0xB1, 0x11, 0xA3, 0x82, 0x64, 0x62, 0x81, 0x64, 0x84, 0x6D, 0x6F, 0x64, 0x65, 0x81, 0x72, 0x89,
    0x62, 0x6F, 0x6F, 0x6B, 0x6D, 0x61, 0x72, 0x6B, 0x73, 0x91, 0x81, 0x61,
];
/// BEGIN in mode Read.
const BEGIN_READING: &[u8] = &[0xB1, 0x11, 0xA1, 0x84, 0x6D, 0x6F, 0x64, 0x65, 0x81, 0x72];
/// PULL of one row with a `qid` before the number.
const LAST_THEN_PULL: &[u8] = &[
    0xB1, 0x3F, 0xA2, 0x83, 0x71, 0x69, 0x64, 0xFF, 0x81, 0x6E, 0x01,
];
/// DISCARD of all rows with a `qid`.
const DISCARD_OF_LAST: &[u8] = &[
    0xB1, 0x2F, 0xA2, 0x81, 0x6E, 0xFF, 0x83, 0x71, 0x69, 0x64, 0xFF,
];
/// DISCARD of all rows.
const DISCARD_ALL: &[u8] = &[0xB1, 0x2F, 0xA1, 0x81, 0x6E, 0xFF];
/// PULL of 1,000 rows.
const PULL_1000: &[u8] = &[0xB1, 0x3F, 0xA1, 0x81, 0x6E, 0xC9, 0x03, 0xE8];
/// The FAILURE with the code `a.b` and the message `no`.
const ERROR: &[u8] = &[
    0xB1, 0x7F, 0xA2, 0x84, 0x63, 0x6F, 0x64, 0x65, 0x83, 0x61, 0x2E, 0x62, 0x87, 0x6D, 0x65, 0x73,
    0x73, 0x61, 0x67, 0x65, 0x82, 0x6E, 0x6F,
];
/// The FAILURE with the code `a.b` and the message `no` in another order, with an entry that is ignored.
const ERROR_WITH_MORE: &[u8] = &[
    0xB1, 0x7F, 0xA3, 0x87, 0x6D, 0x65, 0x73, 0x73, 0x61, 0x67, 0x65, 0x82, 0x6E, 0x6F, 0x81, 0x78,
    0x01, 0x84, 0x63, 0x6F, 0x64, 0x65, 0x83, 0x61, 0x2E, 0x62,
];
/// The RECORD of a number and a text.
const ROW: &[u8] = &[0xB1, 0x71, 0x92, 0x01, 0x81, 0x61];
/// HELLO without a login.
const NO_LOGIN: &[u8] = &[
    0xB1, 0x01, 0xA1, 0x8A, 0x75, 0x73, 0x65, 0x72, 0x5F, 0x61, 0x67, 0x65, 0x6E, 0x74, 0x83, 0x74,
    0x2F, 0x31,
];
/// LOGOFF.
const LOGOFF: &[u8] = &[0xB0, 0x6B];
/// GOODBYE.
const GOODBYE: &[u8] = &[0xB0, 0x02];
/// RESET.
const RESET: &[u8] = &[0xB0, 0x0F];
/// COMMIT.
const COMMIT: &[u8] = &[0xB0, 0x12];
/// ROLLBACK.
const ROLLBACK: &[u8] = &[0xB0, 0x13];
/// RUN of `ONE` without parameters, in mode Write.
const RUN_ALONE: &[u8] = &[0xB3, 0x10, 0x83, 0x4F, 0x4E, 0x45, 0xA0, 0xA0];
/// BEGIN in mode Write.
const BEGIN_ALONE: &[u8] = &[0xB1, 0x11, 0xA0];
/// IGNORED.
const IGNORED: &[u8] = &[0xB0, 0x7E];
/// SUCCESS without metadata.
const NOTHING_MORE: &[u8] = &[0xB1, 0x70, 0xA0];
/// PULL of no row.
const PULL_NONE: &[u8] = &[0xB1, 0x3F, 0xA1, 0x81, 0x6E, 0x00];

/// Versions, bytes of requests, and those that are written of each: each kind, each form that a client of ours writes, and others.
const REQUESTS: &[(Version, &[u8], &[u8])] = &[
    (Version::V44, HELLO_OF_USER, HELLO_OF_USER),
    (Version::V50, HELLO_OF_USER, HELLO_OF_USER),
    (Version::V44, HELLO_IN_ANOTHER_ORDER, HELLO_OF_USER),
    (Version::V51, HELLO_OF_AGENT, HELLO_OF_AGENT),
    (Version::V51, HELLO_WITH_MORE, HELLO_OF_AGENT),
    (Version::V51, HELLO_OF_USER, HELLO_OF_AGENT),
    (Version::V51, LOGON_OF_USER, LOGON_OF_USER),
    (Version::V51, LOGON_IN_ANOTHER_ORDER, LOGON_OF_USER),
    (Version::V51, LOGOFF, LOGOFF),
    (Version::V44, GOODBYE, GOODBYE),
    (Version::V50, RESET, RESET),
    (Version::V51, COMMIT, COMMIT),
    (Version::V51, ROLLBACK, ROLLBACK),
    (Version::V51, RUN_ALONE, RUN_ALONE),
    (Version::V50, RUN_READING, RUN_READING),
    (Version::V44, RUN_OF_T1, RUN_OF_T1),
    (Version::V51, READING_OF_T1, READING_OF_T1),
    (Version::V51, TOKEN_BEFORE_MODE, READING_OF_T1),
    (Version::V51, RUN_WITH_MORE, RUN_OF_T1),
    (Version::V51, BEGIN_ALONE, BEGIN_ALONE),
    (Version::V50, BEGIN_READING, BEGIN_READING),
    (Version::V44, BEGIN_OF_T1, BEGIN_OF_T1),
    (Version::V51, BEGIN_READING_OF_T1, BEGIN_READING_OF_T1),
    (Version::V51, TOKEN_OF_64, TOKEN_OF_64),
    (Version::V51, BEGIN_WITH_MORE, BEGIN_READING),
    (Version::V51, PULL_ONE, PULL_ONE),
    (Version::V44, PULL_1000, PULL_1000),
    (Version::V51, PULL_OF_LAST, PULL_ONE),
    (Version::V51, LAST_THEN_PULL, PULL_ONE),
    (Version::V51, DISCARD_ALL, DISCARD_ALL),
    (Version::V50, DISCARD_OF_LAST, DISCARD_ALL),
];

/// Whether a request is scanned, and spelled as these bytes.
fn is_asked_short(alloc: Global, version: Version, bytes: &[u8], written: &[u8]) -> bool {
    let Ok(request) = scan_request(alloc, version, bytes) else {
        return false;
    };
    let mut out = BytesMut::new(alloc);
    spell_request(version, &request, &mut out) && out.as_slice() == written
}

#[test]
fn requests(rt: HostRuntime) {
    for (version, bytes, written) in REQUESTS {
        assert!(rt;
            is_asked_short(rt.alloc(), *version, bytes, written),
            "at {bytes:?}"
        );
    }
}

/// Versions, bytes of responses, and those that are written of each.
const RESPONSES: &[(Version, &[u8], &[u8])] = &[
    (Version::V51, NOTHING_MORE, NOTHING_MORE),
    (Version::V44, FIELDS_OF_ROWS, FIELDS_OF_ROWS),
    (Version::V51, ROW, ROW),
    (Version::V50, IGNORED, IGNORED),
    (Version::V51, UNKNOWN_TEXT, UNKNOWN_TEXT),
    (Version::V44, ERROR, ERROR),
    (Version::V51, ERROR_WITH_MORE, ERROR),
];

/// Whether a response is scanned, and spelled as these bytes.
fn is_said_short(alloc: Global, version: Version, bytes: &[u8], written: &[u8]) -> bool {
    let Ok(response) = scan_response(alloc, version, bytes) else {
        return false;
    };
    let mut out = BytesMut::new(alloc);
    spell_response(version, &response, &mut out) && out.as_slice() == written
}

#[test]
fn responses(rt: HostRuntime) {
    for (version, bytes, written) in RESPONSES {
        assert!(rt;
            is_said_short(rt.alloc(), *version, bytes, written),
            "at {bytes:?}"
        );
    }
}

/// Bytes that stand for no request of the version: the way over a value tells why.
const UNREAD: &[(Version, &[u8])] = &[
    (Version::V44, LOGOFF),
    (Version::V50, LOGON_OF_USER),
    (Version::V44, NO_LOGIN),
    (Version::V51, PULL_NONE),
    (Version::V51, NULL_METADATA),
    (Version::V51, TOKEN_OF_NONE),
    (Version::V51, TOKEN_OF_65),
];

/// Requests of 5.1 by their lines that can't be written at the version.
const UNWRITTEN: &[(Version, &str)] = &[
    (Version::V44, "logoff"),
    (Version::V50, "logon"),
    (Version::V44, "hello"),
    (Version::V51, "pull 0"),
    (
        Version::V51,
        "begin token aaaaaaaaaaaaaaaaaaaaaaaaaaaaaaaaaaaaaaaaaaaaaaaaaaaaaaaaaaaaaaaaa",
    ),
];

/// Whether the request of a line isn't spelled, which stays as it was.
fn is_left(alloc: Global, version: Version, line: &str) -> bool {
    let mut out = BytesMut::new(alloc);
    match said_request(alloc, Version::V51, line) {
        Some(request) => !spell_request(version, &request, &mut out) && out.is_empty(),
        None => false,
    }
}

#[test]
fn left(rt: HostRuntime) {
    for (version, bytes) in UNREAD {
        assert!(rt;
            scan_request(rt.alloc(), *version, bytes).is_err(),
            "at {bytes:?}"
        );
    }
    for (version, line) in UNWRITTEN {
        assert!(rt; is_left(rt.alloc(), *version, line), "at {line}");
    }
}
