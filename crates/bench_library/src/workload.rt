//! What is timed with one client.
use crate::batches::{Pipeline, pipelines};
use crate::link::{Pair, Stopped};
use crate::pieces::{Long, to_client, to_server};
use crate::requests::pair;
use std::alloc::Global;

/// A workload with its counts.
#[derive(Clone, Copy)]
pub(crate) enum Workload {
    /// Pipelines of a kind, each answered before the next.
    Pipelines(Pipeline, u32),
    /// Gets, behind so many transactions of one put.
    Gets(u32, u32),
    /// A request that the server reads in pieces, and how many times.
    ToServer(Long, u32),
    /// A row that the client reads in pieces, and how many times.
    ToClient(Long, u32),
}

/// The check number of a workload.
pub(crate) fn run(alloc: Global, workload: Workload) -> Result<u64, Stopped> {
    let mut pair = pair(alloc)?;
    run_on(alloc, &mut pair, workload)?;
    Ok(pair.check())
}

fn run_on(alloc: Global, pair: &mut Pair, workload: Workload) -> Result<(), Stopped> {
    match workload {
        Workload::Pipelines(pipeline, times) => pipelines(alloc, pair, pipeline, times),
        Workload::Gets(puts, gets) => {
            pipelines(alloc, pair, Pipeline::of(3, puts), puts)?;
            pipelines(alloc, pair, Pipeline::Get, gets)
        }
        Workload::ToServer(message, turns) => to_server(alloc, pair, message, turns),
        Workload::ToClient(message, turns) => to_client(alloc, pair, message, turns),
    }
}
