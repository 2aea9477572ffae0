//! Streams that give and take a little at once, and fail.

ghost use Rattle.std.specs.Prelude.{◌≡◌, [], IfOk};
ghost use Rattle.engine.specs.Prelude.{ledger_of};
ghost use Rattle.server.specs.Views.{rest_of};

use engine::{Engine, FixedTable, OneUser};
use server::{Cause, Server};
use server_blocking::serve_one;
use std::alloc::Global;
use std::test::Fail;
use streams::{Failed, History, Sink, Source, StreamFault};

/// A server over an empty table and the gate of `user` with `pass`.
pub type Table = Server<FixedTable, OneUser>;

/// So often, or so much, that it isn't reached.
pub const MANY: usize = 100_000;

/// A source that gives at most so many bytes at once, and fails once it was read so often.
#[derive(Drop)]
pub struct Trickle<'a> {
    pub rest: &'a [u8],
    pub step: usize,
    pub reads: usize,
    pub failed: bool,
    pub ended: bool,
    pub moved: History,
}

impl Source for Trickle<'_> {
    ghost use Rattle.std.specs.Prelude.{None};

    ghost left = { λ _. None };

    ghost given = { λ s. s.moved.bytes };

    ghost has_ended = { λ s. s.ended };

    ghost has_failed = { λ s. s.failed };

    ghost reads = { λ s. s.reads };

    fn read(&mut self, buffer: &mut [u8]) -> Result<usize, Failed> {
        if self.failed || self.reads == 0 {
            self.failed = true;
            return Err(Failed);
        }
        self.reads -= 1;
        let n = self.rest.len().min(buffer.len()).min(self.step);
        let (front, after) = self.rest.split_at(n);
        buffer[..n].copy_from_slice(front);
        self.rest = after;
        self.ended = n == 0;
        self.moved.add(front);
        Ok(n)
    }
}

/// A sink that takes at most so many bytes at once, and fails once it was written so often, or has so many bytes.
#[derive(Drop)]
pub struct Drip {
    pub bytes: Vec<u8>,
    pub step: usize,
    pub writes: usize,
    pub room: usize,
    pub failed: bool,
}

impl Sink for Drip {
    ghost use Rattle.std.specs.Prelude.{None};

    ghost taken = { λ _. None };

    ghost put = { λ s. s.bytes.items };

    ghost has_failed = { λ s. s.failed };

    fn write(&mut self, bytes: &[u8]) -> Result<usize, Failed> {
        let n = bytes.len().min(self.step).min(self.room);
        if self.failed || self.writes == 0 || n == 0 {
            self.failed = true;
            return Err(Failed);
        }
        if self.bytes.extend_from_slice(&bytes[..n]).is_err() {
            self.failed = true;
            return Err(Failed);
        }
        self.writes -= 1;
        self.room -= n;
        Ok(n)
    }
}

/// A new server.
pub fn server(alloc: Global) -> Result<Table, Fail>
    ensures { IfOk result (λ server. (rest_of ledger_of server).sessions ≡ []) }
{
    let gate = OneUser::new(alloc, "user", "pass")?;
    Ok(Server::new(alloc, FixedTable::new(alloc), gate))
}

/// Serves a client of a server of its own: what came of it, and how many entries the ledger has then.
pub fn served(
    alloc: Global,
    source: &mut Trickle<'_>,
    sink: &mut Drip,
) -> Result<(Result<Cause, StreamFault>, usize), Fail> {
    let gate = OneUser::new(alloc, "user", "pass")?;
    let mut server = Server::new(alloc, FixedTable::new(alloc), gate);
    let conn = server.open()?;
    let ended = serve_one(alloc, &mut server, conn, source, sink);
    Ok((ended, server.engine().ledger().len()))
}
