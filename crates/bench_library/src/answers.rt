//! A client alone, over prepared answers of a server.
use crate::link::{Link, Stopped};
use crate::requests::{ask, hello, logon, parameter};
use crate::tally::Tally;
use crate::transport::hear;
use bytes::BytesMut;
use client::Client;
use messages::{Response, write_response};
use std::alloc::Global;
use structures::Cell;
use wire::{Version, Wish, put_message};

/// Adds a response as chunks.
fn add(alloc: Global, response: &Response, out: &mut BytesMut) -> Result<(), Stopped> {
    let mut text = BytesMut::new(alloc);
    let Ok(()) = write_response(Version::V51, response, &mut text) else {
        return Err(Stopped);
    };
    match put_message(&text, out) {
        Ok(()) => Ok(()),
        Err(_) => Err(Stopped),
    }
}

/// What a server says of a RUN and a PULL of so many rows of one integer.
fn answers(alloc: Global, rows: u32) -> Result<BytesMut, Stopped> {
    let mut out = BytesMut::new(alloc);
    let done = Response::Success(Vec::new(alloc));
    add(alloc, &done, &mut out)?;
    for number in 0..rows {
        let mut cells = Vec::new(alloc);
        cells.push(Cell::Int(i64::from(number)))?;
        add(alloc, &Response::Record(cells), &mut out)?;
    }
    add(alloc, &done, &mut out)?;
    Ok(out)
}

/// A client at 5.1 that is let in.
fn known(alloc: Global, tally: &mut Tally) -> Result<Link, Stopped> {
    let client = Client::new(alloc, Wish::Only(Version::V51))?;
    let mut link = Link { conn: 0, client };
    hear(&mut link, &[0, 0, 1, 5], tally)?;
    link.client.submit(hello(alloc)?)?;
    link.client.submit(logon(alloc)?)?;
    let _asked = link.client.take_out(usize::MAX)?;
    hear(&mut link, &answers(alloc, 0)?, tally)?;
    Ok(link)
}

/// Hears so many results of so many rows of one integer, and answers how many rows these were.
pub(crate) fn rows_heard(alloc: Global, rows: u32, turns: u32) -> Result<u64, Stopped> {
    let mut tally = Tally::new();
    let mut link = known(alloc, &mut tally)?;
    let told = answers(alloc, rows)?;
    for _ in 0..turns {
        let params = parameter(alloc, "n", Cell::Int(i64::from(rows)))?;
        ask(alloc, &mut link, "ROWS", params)?;
        let _asked = link.client.take_out(usize::MAX)?;
        hear(&mut link, &told, &mut tally)?;
    }
    Ok(tally.rows)
}
