//! What lines say, and the texts of their faults and of a stream's.

use cli_scripts::*;
use std::alloc::{AllocError, Global};
use std::fmt;
use std::test::*;
use streams::StreamFault;
use wire::Version;

/// Who reads a text.
enum Reader {
    /// A line of a world.
    Line,
    /// A line that is a request.
    Request,
    /// The lines of a world.
    Script,
    /// Lines that are requests.
    Requests,
    /// A line that is a request, and what it means at a version.
    Meaning(Version),
}

/// Lines of a world, and what they say.
const LINES: &[(&[u8], &str)] = &[
    (b"open newest", "Open(Ours(Newest))"),
    (b"open 4.4", "Open(Ours(Only(V44)))"),
    (b"open 5.0", "Open(Ours(Only(V50)))"),
    (b"open 5.1", "Open(Ours(Only(V51)))"),
    (b"open foreign", "Open(Foreign)"),
    (b"submit 0 hello", "Submit { conn: 0, request: Hello }"),
    (
        b"submit 007 pull -1",
        "Submit { conn: 7, request: Pull(All) }",
    ),
    (b"server 0 6", "ToServer { conn: 0, amount: Bytes(6) }"),
    (b"server 1 all", "ToServer { conn: 1, amount: All }"),
    (b"client 0 0", "ToClient { conn: 0, amount: Bytes(0) }"),
    (
        b"client 18446744073709551615 all",
        "ToClient { conn: 18446744073709551615, amount: All }",
    ),
    (b"work 0", "Work { conn: 0, times: Once }"),
    (b"work 0 all", "Work { conn: 0, times: All }"),
    (b"noop 2", "Noop { conn: 2 }"),
    (b"cut 2", "Cut { conn: 2 }"),
    (b"clientlost 2", "ClientLost { conn: 2 }"),
    (b"serverlost 2", "ServerLost { conn: 2 }"),
    (b"foreign 1 B00f", "Foreign { conn: 1, bytes: [176, 15] }"),
];

/// Lines that are requests, and what they say.
const REQUESTS: &[(&[u8], &str)] = &[
    (b"hello", "Hello"),
    (b"logon", "Logon"),
    (b"logon bad", "LogonBad"),
    (b"logoff", "Logoff"),
    (b"goodbye", "Goodbye"),
    (b"reset", "Reset"),
    (
        b"run ROWS A1816E03",
        "Run { text: \"ROWS\", params: [(\"n\", Int(3))], mode: Write, token: None }",
    ),
    (
        b"run ONE a0 r",
        "Run { text: \"ONE\", params: [], mode: Read, token: None }",
    ),
    (
        b"run E A1817890",
        "Run { text: \"E\", params: [(\"x\", List([]))], mode: Write, token: None }",
    ),
    // A node in the form of 4.4, which 5.1 doesn't read.
    (
        b"run E A18178B34E0190A0",
        "Run { text: \"E\", params: [(\"x\", Node(Node { id: 1, labels: [], properties: [], element_id: None }))], mode: Write, token: None }",
    ),
    // The text é.
    (
        b"run \xC3\xA9 A0",
        "Run { text: \"é\", params: [], mode: Write, token: None }",
    ),
    (
        b"run ONE A0 token t1",
        "Run { text: \"ONE\", params: [], mode: Write, token: Some(\"t1\") }",
    ),
    (
        b"run token A0 r token token",
        "Run { text: \"token\", params: [], mode: Read, token: Some(\"token\") }",
    ),
    (
        b"run token A0",
        "Run { text: \"token\", params: [], mode: Write, token: None }",
    ),
    (b"begin", "Begin { mode: Write, token: None }"),
    (b"begin r", "Begin { mode: Read, token: None }"),
    (
        b"begin token r",
        "Begin { mode: Write, token: Some(\"r\") }",
    ),
    (
        b"begin r token r",
        "Begin { mode: Read, token: Some(\"r\") }",
    ),
    // A token of 65 bytes, which no message has.
    (
        b"begin token aaaaaaaaaaaaaaaaaaaaaaaaaaaaaaaaaaaaaaaaaaaaaaaaaaaaaaaaaaaaaaaaa",
        "Begin { mode: Write, token: Some(\"aaaaaaaaaaaaaaaaaaaaaaaaaaaaaaaaaaaaaaaaaaaaaaaaaaaaaaaaaaaaaaaaa\") }",
    ),
    (b"commit", "Commit"),
    (b"rollback", "Rollback"),
    (b"discard 1", "Discard(Of(1))"),
    (b"discard -1", "Discard(All)"),
    (b"pull 0", "Pull(Of(0))"),
    (b"pull -0", "Pull(Of(0))"),
    (b"pull -2", "Pull(Of(-2))"),
    (b"pull 9223372036854775807", "Pull(Of(9223372036854775807))"),
    (
        b"pull -9223372036854775808",
        "Pull(Of(-9223372036854775808))",
    ),
];

/// Lines of a world that can't be read.
const UNREADABLE: &[&[u8]] = &[
    b"open",
    b"open 5.2",
    b"open newest newest",
    b"submit 0",
    b"submit hello",
    b"submit +0 hello",
    b"submit -1 hello",
    b"submit 18446744073709551616 hello",
    b"submit 0 hello hello",
    b"server 0",
    b"server 0 -1",
    b"server 0 any",
    b"server 0 18446744073709551616",
    b"client 0 1 1",
    b"work",
    b"work 0 1",
    b"noop 0 0",
    b"cut x",
    b"clientlost",
    b"serverlost  0",
    b" cut 0",
    b"cut 0 ",
    b"foreign 0",
    b"foreign 0 ",
    b"foreign 0 B",
    b"foreign 0 BG",
    b"hello",
    b"Open newest",
    b"",
];

/// Lines that are no request.
const NO_REQUESTS: &[&[u8]] = &[
    b"submit 0 hello",
    b"logon good",
    b"logoff now",
    b"begin w",
    b"begin token",
    b"begin r token",
    b"begin token t r",
    b"begin r token t t",
    b"commit token t",
    b"pull",
    b"pull +1",
    b"pull 9223372036854775808",
    b"pull -9223372036854775809",
    b"pull --1",
    b"discard all",
    b"run ROWS",
    b"run ROWS  A0",
    b"run  A0",
    b"run ROWS 01",
    b"run ROWS A0 w",
    b"run ROWS A0 r r",
    b"run ROWS A0 token",
    b"run ROWS token t A0",
    b"run ROWS A0A0",
    // Two equal keys; a structure that no version has.
    b"run ROWS A2816101816102",
    b"run ROWS A18178B0FF",
    // A byte that begins no character.
    b"run \xFF A0",
    b"",
];

/// Whole scripts, with empty lines.
const WHOLE_SCRIPTS: &[(&[u8], &str)] = &[
    (
        b"\nopen 5.1\n\nwork 0 all\n",
        "Ok([Numbered { number: 2, said: Open(Ours(Only(V51))) }, Numbered { number: 4, said: Work { conn: 0, times: All } }])",
    ),
    (b"open 5.1\n\nwork\nwork\n", "Err(Unreadable(3))"),
];

/// Whole scripts of requests.
const WHOLE_REQUESTS: &[(&[u8], &str)] = &[
    (
        b"hello\npull 2",
        "Ok([Numbered { number: 1, said: Hello }, Numbered { number: 2, said: Pull(Of(2)) }])",
    ),
    (b"\n\nnothing", "Err(Unreadable(3))"),
];

/// What requests mean at 4.4 and 5.0, if a HELLO has the login, and at 5.1.
const MEANT_WITH_LOGIN: &[(&[u8], &str)] = &[(
    b"hello",
    "Hello { agent: \"t/1\", auth: Some(Auth { scheme: \"basic\", principal: \"user\", .. }) }",
)];

const MEANT_AT_51: &[(&[u8], &str)] = &[
    (b"hello", "Hello { agent: \"t/1\", auth: None }"),
    (b"pull 3", "Pull(Of(3))"),
    (
        b"begin token t1",
        "Begin { mode: Write, token: Some(\"t1\") }",
    ),
];

/// All that is read.
const READ: [(Reader, &[(&[u8], &str)]); 7] = [
    (Reader::Line, LINES),
    (Reader::Request, REQUESTS),
    (Reader::Script, WHOLE_SCRIPTS),
    (Reader::Requests, WHOLE_REQUESTS),
    (Reader::Meaning(Version::V44), MEANT_WITH_LOGIN),
    (Reader::Meaning(Version::V50), MEANT_WITH_LOGIN),
    (Reader::Meaning(Version::V51), MEANT_AT_51),
];

/// All that isn't.
const UNREAD: [(Reader, &[&[u8]]); 2] = [
    (Reader::Line, UNREADABLE),
    (Reader::Request, NO_REQUESTS),
];

/// What a reader tells of a text.
fn told(alloc: Global, reader: &Reader, text: &[u8]) -> Result<String, AllocError> {
    match reader {
        Reader::Line => match read_line(alloc, text) {
            Ok(line) => format!(in alloc; "{line:?}"),
            Err(fault) => format!(in alloc; "{fault}"),
        },
        Reader::Request => match read_request(alloc, text) {
            Ok(request) => format!(in alloc; "{request:?}"),
            Err(fault) => format!(in alloc; "{fault}"),
        },
        Reader::Script => format!(in alloc; "{:?}", read_script(alloc, text)),
        Reader::Requests => format!(in alloc; "{:?}", read_requests(alloc, text)),
        Reader::Meaning(version) => match read_request(alloc, text) {
            Ok(request) => format!(in alloc; "{:?}", request.into_request(alloc, *version)?),
            Err(fault) => format!(in alloc; "{fault}"),
        },
    }
}

#[test]
fn texts_are_read(rt: HostRuntime) -> Result<(), Fail> {
    for (reader, rows) in &READ {
        for (text, want) in *rows {
            assert!(rt;
                told(rt.alloc(), reader, text)?.as_str() == *want,
                "{text:?}"
            );
        }
    }
    for (reader, texts) in &UNREAD {
        for text in *texts {
            assert!(rt;
                told(rt.alloc(), reader, text)?.as_str() == "unreadable",
                "{text:?}"
            );
        }
    }
    Ok(())
}

/// Whether the fault prints so.
fn prints(alloc: Global, fault: &impl fmt::Display, wanted: &str) -> bool {
    match format!(in alloc; "{fault}") {
        Ok(text) => text.as_str() == wanted,
        Err(_) => false,
    }
}

#[test]
fn texts_of_faults(rt: HostRuntime) {
    let alloc = rt.alloc();
    assert!(rt; prints(alloc, &ScriptFault::Unreadable(4), "line 4 unreadable"));
    assert!(rt; prints(alloc, &ScriptFault::Memory, "out of memory"));
    assert!(rt; prints(alloc, &LineFault::Memory, "out of memory"));
    assert!(rt; prints(alloc, &StreamFault::ReadFailed, "I1"));
    assert!(rt; prints(alloc, &StreamFault::WriteFailed, "I2"));
    assert!(rt; prints(alloc, &StreamFault::Memory, "I3"));
}
