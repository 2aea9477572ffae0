//! Bytes on their way.
ghost use Rattle.std.specs.Prelude.{◌≡◌, ◌<◌, ◌^◌, [], ◌++◌, length, take, drop, OnOk};
ghost use Rattle.world.specs.Views.{flow_of};

use bytes::{Bytes, BytesMut};
use std::alloc::{AllocError, Global};

/// Bytes that one end gave and the other hasn't taken, in order. Those that came last may lie apart, so that they are
/// held before there is room to join them.
#[derive(Drop)]
pub(crate) struct Flow {
    pub first: BytesMut,
    pub more: Bytes,
}

impl Flow {
    /// None. Takes no memory.
    pub fn new(alloc: Global) -> Flow
        ensures { flow_of result ≡ [] }
    {
        Flow {
            first: BytesMut::new(alloc),
            more: Bytes::new(),
        }
    }

    /// How many there are.
    pub fn len(&self) -> usize
        ensures { result ≡ length (flow_of self.now) }
    {
        self.first.len() + self.more.len()
    }

    /// Joins them; if there is no room they stay as they are.
    pub fn join(&mut self) -> Result<(), AllocError>
        ensures same { flow_of self.new ≡ flow_of self.old }
        ensures joined { OnOk result (self.new.more ≡ []) }
    {
        if self.more.is_empty() {
            return Ok(());
        }
        self.first.extend_from_slice(self.more.as_slice())?;
        self.more = Bytes::new();
        Ok(())
    }

    /// More come behind those that are joined. Takes no memory.
    pub fn put(&mut self, more: Bytes)
        requires { self.old.more ≡ [] }
        ensures held { flow_of self.new ≡ flow_of self.old ++ more }
        ensures few { length more < 2 ^ 63 }
    {
        self.more = more;
    }

    /// The first of those that are joined, at most so many.
    pub fn front(&self, max: usize) -> &[u8]
        requires { self.now.more ≡ [] }
        ensures { result.now ≡ take max (flow_of self.now) }
    {
        let count = max.min(self.first.len());
        &self.first.as_slice()[..count]
    }

    /// The first are taken, of those that are joined.
    pub fn advance(&mut self, used: usize)
        requires { self.old.more ≡ [] }
        ensures { flow_of self.new ≡ drop used (flow_of self.old) }
    {
        let count = used.min(self.first.len());
        self.first.advance(count);
    }

    /// All are taken.
    pub fn clear(&mut self)
        ensures { flow_of self.new ≡ [] }
    {
        self.first.clear();
        self.more = Bytes::new();
    }
}
