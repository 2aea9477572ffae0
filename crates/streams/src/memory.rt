//! A source and a sink in memory.
ghost use Rattle.std.specs.Prelude.{◌≡◌, ◌<◌, ◌+◌, ◌⊎◌, ◌↔◌, true, false, IsErr, IfOk, OnErr, Some, length, []};
ghost use Rattle.std.specs.Io.KnownBytes.{WriteAppends};
ghost use Rattle.streams.specs.Moving.{Moves};
ghost use Rattle.std.specs.Vec.{vec_len, vec_capacity};

use crate::history::History;
use crate::traits::{Failed, Sink, Source};

/// A source of the bytes of a slice.
#[derive(Drop)]
pub struct Slice<'a> {
    rest: &'a [u8],
    ended: bool,
    moved: History,
}

impl<'a> Slice<'a> {
    /// Makes a source of these bytes. It allocates nothing.
    pub fn new(bytes: &'a [u8]) -> Slice<'a>
        ensures rest { result.rest.now ≡ bytes.entry.now }
        ensures ended { result.ended ≡ false }
        ensures moved { result.moved.bytes ≡ [] }
    {
        Slice {
            rest: bytes,
            ended: false,
            moved: History::new(),
        }
    }
}

impl Source for Slice<'_> {
    ghost use Rattle.std.specs.Prelude.{Some, false, length};

    ghost left = { λ s. Some s.rest.now };

    ghost given = { λ s. s.moved.bytes };

    ghost has_ended = { λ s. s.ended };

    ghost has_failed = { λ _. false };

    ghost reads = { λ s. length s.rest.now };

    fn read(&mut self, buffer: &mut [u8]) -> Result<usize, Failed> {
        let n = self.rest.len().min(buffer.len());
        let (front, after) = self.rest.split_at(n);
        buffer[..n].copy_from_slice(front);
        self.rest = after;
        self.ended = n == 0;
        self.moved.add(front);
        Ok(n)
    }
}

/// A sink in memory, which fails if memory runs out.
#[derive(Drop)]
pub struct Buffer {
    bytes: Vec<u8>,
    failed: bool,
}

impl Buffer {
    /// Makes a sink that appends to these bytes. It allocates nothing.
    pub fn new(bytes: Vec<u8>) -> Buffer
        ensures { (result.bytes.items ≡ bytes.items) × (result.failed ≡ false) }
    {
        Buffer {
            bytes,
            failed: false,
        }
    }

    /// Returns the bytes that were written.
    pub fn bytes(&self) -> &[u8]
        ensures { result.now ≡ self.now.bytes.items }
    {
        self.bytes.as_slice()
    }

    /// Returns the bytes that were written, and ends the sink.
    pub fn into_bytes(self) -> Vec<u8>
        ensures { result.items ≡ self.bytes.items }
    {
        self.bytes
    }
}

impl Sink for Buffer {
    ghost use Rattle.std.specs.Prelude.{Some};

    ghost taken = { λ b. Some b.bytes.items };

    ghost put = { λ b. b.bytes.items };

    ghost has_failed = { λ b. b.failed };

    // It fails if it had failed before, or if the vector has no capacity for the bytes and gets none.
    fn write(&mut self, bytes: &[u8]) -> Result<usize, Failed>
        ensures failed { IsErr result ↔ (self.new.failed ≡ true) }
        ensures stays { self.old.failed ≡ true → self.new.failed ≡ true }
        ensures full { OnErr result ((self.old.failed ≡ true)
            ⊎ (vec_capacity self.old.bytes < vec_len self.old.bytes + length bytes.now)) }
        ensures whole { IfOk result (λ n. n ≡ length bytes.now) }
        ensures bytes { WriteAppends (Some self.old.bytes.items) (Some self.new.bytes.items) result bytes.now }
        ensures moves { Moves self.old.bytes.items self.new.bytes.items result bytes.now }
    {
        if self.failed {
            return Err(Failed);
        }
        if self.bytes.extend_from_slice(bytes).is_err() {
            self.failed = true;
            return Err(Failed);
        }
        Ok(bytes.len())
    }
}
