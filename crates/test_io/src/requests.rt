//! What clients ask, by the lines of scripts.

use cli_scripts::read_request;
use client::Client;
use messages::{Mode, Request};
use std::alloc::Global;
use std::test::Fail;
use wire::{Version, Wish};

/// RUN PUT of the key `k` and the number 1.
pub(crate) const PUT: &str = "run PUT A2836B6579816B8576616C756501";

/// BEGIN under a token of no byte, which no line of a script says.
pub(crate) const BEGIN_UNDER_NONE: &str = "begin token ";

/// The request of a line, as it is at a version.
pub(crate) fn request(alloc: Global, version: Version, line: &str) -> Result<Request, Fail> {
    if line == BEGIN_UNDER_NONE {
        return Ok(Request::Begin {
            mode: Mode::Write,
            token: Some(String::new(alloc)),
        });
    }
    let said = read_request(alloc, line.as_bytes())?;
    Ok(said.into_request(alloc, version)?)
}

/// HELLO, LOGON, a transaction and a result: two commits in all.
const ALL: [&str; 8] = [
    "hello",
    "logon",
    "begin",
    PUT,
    "pull -1",
    "commit",
    "run ROWS A1816E03",
    "pull -1",
];

/// A client at 5.1 that has heard the version, with these requests in its pipeline.
pub(crate) fn asking(alloc: Global) -> Result<Client, Fail> {
    let mut client = Client::new(alloc, Wish::Only(Version::V51))?;
    client.feed(&[0, 0, 1, 5])?;
    for line in ALL {
        client.submit(request(alloc, Version::V51, line)?)?;
    }
    Ok(client)
}
