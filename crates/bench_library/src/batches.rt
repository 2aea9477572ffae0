//! Workloads of whole requests.
use crate::asking::Asks;
use crate::link::{Link, Ours, Pair, Stopped, new_server};
use crate::played::work;
use crate::requests::{ask, ask_put, connect, key_parameter, parameter};
use crate::tally::Tally;
use crate::tokens::Tokens;
use crate::transport::{down, exchange, up};
use engine::Engine;
use std::alloc::{AllocError, Global};
use structures::Cell;

/// What a client asks in one pipeline.
#[derive(Clone, Copy)]
pub(crate) enum Pipeline {
    /// So many times RUN of one row and PULL of all.
    Ones(u32),
    /// RUN of so many rows and PULL of all.
    Rows(u32),
    /// RUN that sends so many bytes back, and PULL of all.
    Echo(u32),
    /// A transaction of one put, over so many keys in turn, with these tokens.
    Put(u32, Tokens),
    /// A get.
    Get,
}

impl Pipeline {
    /// A kind of pipeline by its number.
    pub fn of(kind: u8, size: u32) -> Pipeline {
        match kind {
            0 => Pipeline::Ones(size),
            1 => Pipeline::Rows(size),
            2 => Pipeline::Echo(size),
            3 => Pipeline::Put(size, Tokens::Without),
            4 => Pipeline::Put(size, Tokens::OfTheirOwn),
            _ => Pipeline::Get,
        }
    }

    /// The bytes of 7 that it sends back.
    pub fn sevens(self, alloc: Global) -> Result<Vec<u8>, AllocError> {
        match self {
            Pipeline::Echo(bytes) => vec![in alloc; 7u8; bytes as usize],
            _ => Ok(Vec::new(alloc)),
        }
    }
}

/// Submits so many times RUN of one row and PULL of all.
fn submit_ones<A: Asks>(alloc: Global, link: &mut A, count: u32) -> Result<(), Stopped> {
    for _ in 0..count {
        ask(alloc, link, "ONE", Vec::new(alloc))?;
    }
    Ok(())
}

/// Submits one pipeline, by its number.
pub(crate) fn submit<A: Asks>(
    alloc: Global,
    link: &mut A,
    pipeline: Pipeline,
    number: u32,
    x: &Vec<u8>,
) -> Result<(), Stopped> {
    match pipeline {
        Pipeline::Ones(count) => submit_ones(alloc, link, count),
        Pipeline::Rows(count) => {
            let params = parameter(alloc, "n", Cell::Int(i64::from(count)))?;
            ask(alloc, link, "ROWS", params)
        }
        Pipeline::Echo(_) => {
            let params = parameter(alloc, "x", Cell::Bytes(x.clone()?))?;
            ask(alloc, link, "ECHO", params)
        }
        Pipeline::Put(keys, tokens) => {
            ask_put(alloc, link, number % keys.max(1), tokens.of(alloc, number)?)
        }
        Pipeline::Get => ask(alloc, link, "GET", key_parameter(alloc, number)?),
    }
}

/// So many pipelines of a kind, each answered before the next.
pub(crate) fn pipelines(
    alloc: Global,
    pair: &mut Pair,
    pipeline: Pipeline,
    times: u32,
) -> Result<(), Stopped> {
    let x = pipeline.sevens(alloc)?;
    for number in 0..times {
        submit(alloc, &mut pair.link, pipeline, number, &x)?;
        exchange(&mut pair.server, &mut pair.link, &mut pair.tally)?;
    }
    Ok(())
}

/// So many sessions, each with so many requests, interleaved by single pieces and single steps.
pub(crate) fn sessions(alloc: Global, count: u32, requests: u32) -> Result<u64, Stopped> {
    let mut server = new_server(alloc)?;
    let mut tally = Tally::new();
    let mut links = links(alloc, &mut server, &mut tally, count)?;
    for _ in 0..requests / 2 {
        ask_in_turn(alloc, &mut server, &mut links, &mut tally)?;
    }
    Ok(tally.check(server.engine().ledger().len()))
}

/// So many sessions of one server.
fn links(
    alloc: Global,
    server: &mut Ours,
    tally: &mut Tally,
    count: u32,
) -> Result<Vec<Link>, Stopped> {
    let mut links = Vec::new(alloc);
    for _ in 0..count {
        links.push(connect(alloc, server, tally)?)?;
    }
    Ok(links)
}

/// A RUN of one row and a PULL of all by each session, a step of each after the other.
fn ask_in_turn(
    alloc: Global,
    server: &mut Ours,
    links: &mut [Link],
    tally: &mut Tally,
) -> Result<(), Stopped> {
    for link in &mut *links {
        ask(alloc, link, "ONE", Vec::new(alloc))?;
    }
    for link in &mut *links {
        up(server, link, tally)?;
    }
    work(server, 0, links.len() as u64)?;
    for link in &mut *links {
        down(server, link, tally)?;
    }
    Ok(())
}
