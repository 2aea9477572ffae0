//! Costs that are to stay flat: bytes of records with many keys, and of pieces with many messages.
use crate::link::Stopped;
use crate::requests::key_of;
use bytes::BytesMut;
use messages::{Response, read_response, write_response};
use std::alloc::{AllocError, Global};
use structures::Cell;
use wire::{Dechunk, Piece, Version, put_message, put_noop};

/// A record of one dictionary with so many keys.
fn record(alloc: Global, keys: u32) -> Result<Response, AllocError> {
    let mut entries = Vec::new(alloc);
    for number in 0..keys {
        entries.push((key_of(alloc, number)?, Cell::Int(7)))?;
    }
    let mut cells = Vec::new(alloc);
    cells.push(Cell::Dict(entries))?;
    Ok(Response::Record(cells))
}

/// The text of a record of one dictionary with so many keys.
fn record_text(alloc: Global, keys: u32) -> Result<BytesMut, Stopped> {
    let mut text = BytesMut::new(alloc);
    write(&record(alloc, keys)?, &mut text)?;
    Ok(text)
}

fn write(response: &Response, out: &mut BytesMut) -> Result<(), Stopped> {
    match write_response(Version::V51, response, out) {
        Ok(()) => Ok(()),
        Err(_) => Err(Stopped),
    }
}

/// Reads a record so many times, and answers the bytes of its text.
pub(crate) fn records_read(alloc: Global, keys: u32, turns: u32) -> Result<u64, Stopped> {
    let text = record_text(alloc, keys)?;
    for _ in 0..turns {
        let Ok(_response) = read_response(alloc, Version::V51, &text) else {
            return Err(Stopped);
        };
    }
    Ok(text.len() as u64)
}

/// Writes a record so many times, and answers the bytes of its text.
pub(crate) fn records_written(alloc: Global, keys: u32, turns: u32) -> Result<u64, Stopped> {
    let record = record(alloc, keys)?;
    for _ in 0..turns {
        let mut text = BytesMut::new(alloc);
        write(&record, &mut text)?;
    }
    Ok(record_text(alloc, keys)?.len() as u64)
}

/// About so many bytes of messages of two bytes, each with a no-op behind it.
fn small_messages(alloc: Global, bytes: u32) -> Result<BytesMut, Stopped> {
    let mut out = BytesMut::new(alloc);
    for _ in 0..bytes / 8 {
        if put_message(&[0xB0, 0x0F], &mut out).is_err() || put_noop(&mut out).is_err() {
            return Err(Stopped);
        }
    }
    Ok(out)
}

/// Takes a piece of about so many bytes apart so many times, and answers how many messages it has in all.
pub(crate) fn pieces_taken(alloc: Global, bytes: u32, turns: u32) -> Result<u64, Stopped> {
    let piece = small_messages(alloc, bytes)?;
    let mut messages = 0u64;
    for _ in 0..turns {
        messages = messages.saturating_add(messages_in(alloc, &piece)?);
    }
    Ok(messages)
}

/// How many messages a piece has.
fn messages_in(alloc: Global, piece: &[u8]) -> Result<u64, Stopped> {
    let mut chunks = Dechunk::new(alloc);
    let mut messages = 0u64;
    let mut at = 0usize;
    for _ in 0..piece.len() {
        let Some(rest) = piece.get(at..) else {
            return Err(Stopped);
        };
        let Ok(fed) = chunks.feed(rest) else {
            return Err(Stopped);
        };
        at = at.saturating_add(fed.used);
        if matches!(fed.what, Piece::Message(_)) {
            messages = messages.saturating_add(1);
        }
        if at >= piece.len() {
            break;
        }
    }
    Ok(messages)
}
