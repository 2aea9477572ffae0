//! The requests of the workloads.
use crate::asking::Asks;
use crate::link::{Link, Ours, Pair, Stopped, new_server};
use crate::tally::Tally;
use crate::transport::{exchange, turn};
use client::Client;
use messages::{Auth, Count, Mode, Request};
use std::alloc::{AllocError, Global};
use structures::Cell;
use wire::Wish;

/// A server with a session at 5.1, whose client is let in.
pub(crate) fn pair(alloc: Global) -> Result<Pair, Stopped> {
    let mut server = new_server(alloc)?;
    let mut tally = Tally::new();
    let link = connect(alloc, &mut server, &mut tally)?;
    Ok(Pair {
        server,
        link,
        tally,
    })
}

/// Opens a session at 5.1, whose client is let in.
pub(crate) fn connect(
    alloc: Global,
    server: &mut Ours,
    tally: &mut Tally,
) -> Result<Link, Stopped> {
    let conn = server.open()?;
    let client = Client::new(alloc, Wish::Newest)?;
    let mut link = Link { conn, client };
    log_on(alloc, server, &mut link, tally)?;
    Ok(link)
}

fn log_on(
    alloc: Global,
    server: &mut Ours,
    link: &mut Link,
    tally: &mut Tally,
) -> Result<(), Stopped> {
    turn(server, link, tally)?;
    link.client.submit(hello(alloc)?)?;
    link.client.submit(logon(alloc)?)?;
    exchange(server, link, tally)
}

pub(crate) fn hello(alloc: Global) -> Result<Request, AllocError> {
    Ok(Request::Hello {
        agent: String::from_str(alloc, "t/1")?,
        auth: None,
    })
}

pub(crate) fn logon(alloc: Global) -> Result<Request, AllocError> {
    Ok(Request::Logon(Auth {
        scheme: String::from_str(alloc, "basic")?,
        principal: String::from_str(alloc, "user")?,
        credentials: String::from_str(alloc, "pass")?,
    }))
}

/// Submits a RUN with these parameters, and a PULL of all.
pub(crate) fn ask<A: Asks>(
    alloc: Global,
    link: &mut A,
    text: &str,
    params: Vec<(String, Cell)>,
) -> Result<(), Stopped> {
    link.ask(run(alloc, text, params)?)?;
    link.ask(Request::Pull(Count::All))
}

/// Submits a transaction of one put, under a token or under none: the value of a number for its key.
pub(crate) fn ask_put<A: Asks>(
    alloc: Global,
    link: &mut A,
    number: u32,
    token: Option<String>,
) -> Result<(), Stopped> {
    link.ask(Request::Begin {
        mode: Mode::Write,
        token,
    })?;
    ask(alloc, link, "PUT", put_parameters(alloc, number, number)?)?;
    link.ask(Request::Commit)
}

/// The key of a number, and a value.
pub(crate) fn put_parameters(
    alloc: Global,
    key: u32,
    value: u32,
) -> Result<Vec<(String, Cell)>, AllocError> {
    let mut params = key_parameter(alloc, key)?;
    params.push(named(alloc, "value", Cell::Int(i64::from(value)))?)?;
    Ok(params)
}

fn run(alloc: Global, text: &str, params: Vec<(String, Cell)>) -> Result<Request, AllocError> {
    Ok(Request::Run {
        text: String::from_str(alloc, text)?,
        params,
        mode: Mode::Write,
        token: None,
    })
}

fn named(alloc: Global, name: &str, value: Cell) -> Result<(String, Cell), AllocError> {
    Ok((String::from_str(alloc, name)?, value))
}

/// One parameter.
pub(crate) fn parameter(
    alloc: Global,
    name: &str,
    value: Cell,
) -> Result<Vec<(String, Cell)>, AllocError> {
    let mut params = Vec::new(alloc);
    params.push(named(alloc, name, value)?)?;
    Ok(params)
}

/// The key of a number as the parameter `key`.
pub(crate) fn key_parameter(alloc: Global, number: u32) -> Result<Vec<(String, Cell)>, AllocError> {
    parameter(alloc, "key", Cell::Text(key_of(alloc, number)?))
}

/// Four letters, one for each half byte of the number's lower two bytes, from the highest.
pub(crate) fn key_of(alloc: Global, number: u32) -> Result<String, AllocError> {
    let mut text = String::with_capacity(alloc, 4)?;
    for shift in [12, 8, 4, 0] {
        let half = (number >> shift & 15) as u8;
        text.push(char::from(b'a' + half))?;
    }
    Ok(text)
}
