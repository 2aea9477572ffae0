//! The codec, the fixed table, and workloads over a client and a server in one process, behind C calls, for programs that time them from
//! outside. Each call makes all that it needs, and answers a number that its caller can check: of the workloads one of all that was moved
//! and heard; or 0 at want of memory or an answer that it doesn't wait for.
#![tactic(auto)]

mod answers;
mod asking;
mod batches;
#[cfg(test)]
mod calls_tests;
mod codec;
mod growth;
mod link;
mod pieces;
mod played;
mod requests;
mod table;
mod tally;
mod tokens;
mod transport;
mod workload;

use crate::answers::rows_heard;
use crate::batches::{Pipeline, sessions};
use crate::growth::{pieces_taken, records_read, records_written};
use crate::pieces::Long;
use crate::played::{Watch, client_alone, driver_alone, server_alone};
use crate::workload::{Workload, run};
use std::alloc::Global;

/// So many pipelines of a kind (0 RUN and PULL of one row, 1 of rows, 2 of bytes that are sent back, so many by the size; 3 a transaction of one
/// put, over so many keys in turn, 4 the same under a token), each answered before the next.
#[unsafe(no_mangle)]
pub extern "C" fn bench_pipelines(alloc: Global, kind: u8, size: u32, times: u32) -> u64 {
    run(alloc, Workload::Pipelines(Pipeline::of(kind, size), times)).unwrap_or(0)
}

/// So many transactions of one put each, in a pipeline each; then so many gets, each its own commit.
#[unsafe(no_mangle)]
pub extern "C" fn bench_gets(alloc: Global, puts: u32, gets: u32) -> u64 {
    run(alloc, Workload::Gets(puts, gets)).unwrap_or(0)
}

/// A request of so many bytes, with Bytes or a list of small integers by the marker, fed to the server in pieces of a length, so
/// many times.
#[unsafe(no_mangle)]
pub extern "C" fn bench_pieces_to_server(
    alloc: Global,
    marker: u8,
    bytes: u32,
    piece: u32,
    turns: u32,
) -> u64 {
    let message = Long {
        marker,
        bytes: bytes as usize,
        piece: piece as usize,
    };
    run(alloc, Workload::ToServer(message, turns)).unwrap_or(0)
}

/// A row of so many bytes, with Bytes or a list of small integers by the marker, fed to the client in pieces of a length, so many
/// times.
#[unsafe(no_mangle)]
pub extern "C" fn bench_pieces_to_client(
    alloc: Global,
    marker: u8,
    bytes: u32,
    piece: u32,
    turns: u32,
) -> u64 {
    let message = Long {
        marker,
        bytes: bytes as usize,
        piece: piece as usize,
    };
    run(alloc, Workload::ToClient(message, turns)).unwrap_or(0)
}

/// So many sessions, each with so many requests, interleaved by single pieces and single steps.
#[unsafe(no_mangle)]
pub extern "C" fn bench_sessions(alloc: Global, count: u32, requests: u32) -> u64 {
    sessions(alloc, count, requests).unwrap_or(0)
}

/// A server alone works the requests of a recording with so many sessions; it answers as many bytes as are recorded, or, if they are
/// watched, the bytes that are recorded.
#[unsafe(no_mangle)]
pub extern "C" fn bench_server_alone(
    alloc: Global,
    sessions: u32,
    watch: u8,
    recording: &[u8],
) -> u64 {
    server_alone(alloc, sessions, recording, Watch::of(watch)).unwrap_or(0)
}

/// A client alone asks pipelines of a kind and size, and hears the answers of a recording; it asks by as many bytes as are recorded, or, where
/// they are watched, by the bytes that are recorded.
#[unsafe(no_mangle)]
pub extern "C" fn bench_client_alone(
    alloc: Global,
    kind: u8,
    size: u32,
    watch: u8,
    recording: &[u8],
) -> u64 {
    client_alone(alloc, Pipeline::of(kind, size), recording, Watch::of(watch)).unwrap_or(0)
}

/// A client alone, through the driver, which keeps what is told until each exchange is over; then it is counted and forgotten.
#[unsafe(no_mangle)]
pub extern "C" fn bench_driver_alone(
    alloc: Global,
    kind: u8,
    size: u32,
    watch: u8,
    recording: &[u8],
) -> u64 {
    driver_alone(alloc, Pipeline::of(kind, size), recording, Watch::of(watch)).unwrap_or(0)
}

/// Reads a record of one dictionary with so many keys so many times, and answers the bytes of its text.
#[unsafe(no_mangle)]
pub extern "C" fn bench_records_read(alloc: Global, keys: u32, turns: u32) -> u64 {
    records_read(alloc, keys, turns).unwrap_or(0)
}

/// Writes a record of one dictionary with so many keys so many times, and answers the bytes of its text.
#[unsafe(no_mangle)]
pub extern "C" fn bench_records_written(alloc: Global, keys: u32, turns: u32) -> u64 {
    records_written(alloc, keys, turns).unwrap_or(0)
}

/// Takes a piece of about so many bytes, of small messages and no-ops, apart so many times, and answers the messages in all.
#[unsafe(no_mangle)]
pub extern "C" fn bench_pieces_taken(alloc: Global, bytes: u32, turns: u32) -> u64 {
    pieces_taken(alloc, bytes, turns).unwrap_or(0)
}

/// A client alone hears so many rows so many times, and answers how many these were.
#[unsafe(no_mangle)]
pub extern "C" fn bench_rows_heard(alloc: Global, rows: u32, turns: u32) -> u64 {
    rows_heard(alloc, rows, turns).unwrap_or(0)
}
