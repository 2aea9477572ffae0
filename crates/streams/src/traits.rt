//! Sources, which are read, and sinks, which are written to.
ghost use Rattle.std.specs.Prelude.{◌≡◌, ◌<◌, ℕ, List, Option, Bool, length, true, ◌↔◌, IsErr, IfOk};
ghost use Rattle.streams.specs.Moving.{Moves};
ghost use Rattle.std.specs.Io.{ReadsAtMost, WritesAtMost};
ghost use Rattle.std.specs.Io.KnownBytes.{ReadConsumes, WriteAppends};

/// A stream has failed, and goes on failing.
#[derive(Clone, Copy, Debug, PartialEq, Eq)]
pub struct Failed;

/// A stream that bytes are read from.
///
/// A type of your own reports in `ended` whether a read reached the end, and adds to `moved`, a `History`, the bytes that it gave:
///
/// ```rust
/// let n = self.rest.len().min(buffer.len()).min(self.step);
/// let (front, after) = self.rest.split_at(n);
/// buffer[..n].copy_from_slice(front);
/// self.rest = after;
/// self.ended = n == 0;
/// self.moved.add(front);
/// Ok(n)
/// ```
pub trait Source {
    // The bytes that are still to come, if they are known.
    ghost left: { Self → Option (List ℕ) };

    // All bytes that its reads have given.
    ghost given: { Self → List ℕ };

    // The last read reached the end.
    ghost has_ended: { Self → Bool };

    ghost has_failed: { Self → Bool };

    // How many more reads may give bytes.
    ghost reads: { Self → ℕ };

    /// Reads bytes into the first part of the buffer. Returns how many; 0 for a buffer that isn't empty is the end.
    ///
    /// # Errors
    ///
    /// `Failed` if and only if the source has failed by then. No byte has moved then.
    fn read(&mut self, buffer: &mut [u8]) -> Result<usize, Failed>
        ensures failed { IsErr result ↔ (has_failed self.new ≡ true) }
        ensures stays { has_failed self.old ≡ true → has_failed self.new ≡ true }
        ensures bound { ReadsAtMost result buffer.new }
        ensures bytes { ReadConsumes (left self.old) (left self.new) result buffer.new }
        ensures moves { Moves (given self.old) (given self.new) result buffer.new }
        ensures ends { IfOk result (λ n. 0 < length buffer.old → ((n ≡ 0) ↔ (has_ended self.new ≡ true))) }
        ensures lowers { IfOk result (λ n. 0 < n → reads self.new < reads self.old) };
}

/// A stream that bytes are written to.
pub trait Sink {
    // The bytes that it holds, if they are known.
    ghost taken: { Self → Option (List ℕ) };

    // All bytes that its writes have taken.
    ghost put: { Self → List ℕ };

    ghost has_failed: { Self → Bool };

    /// Takes the first bytes. Returns how many; at least one if there is one.
    ///
    /// # Errors
    ///
    /// `Failed` if and only if the sink has failed by then. No byte has moved then.
    fn write(&mut self, bytes: &[u8]) -> Result<usize, Failed>
        ensures failed { IsErr result ↔ (has_failed self.new ≡ true) }
        ensures stays { has_failed self.old ≡ true → has_failed self.new ≡ true }
        ensures bound { WritesAtMost result bytes.now }
        ensures some { IfOk result (λ n. 0 < length bytes.now → 0 < n) }
        ensures bytes { WriteAppends (taken self.old) (taken self.new) result bytes.now }
        ensures moves { Moves (put self.old) (put self.new) result bytes.now };
}

/// A source of the bytes of a peer that is also written to. It may say when it can be read. Each `Source` is one that can always be read.
pub trait PeerSource {
    // The bytes that are still to come, if they are known.
    ghost left: { Self → Option (List ℕ) };

    // All bytes that its reads have given.
    ghost given: { Self → List ℕ };

    ghost has_failed: { Self → Bool };

    // How many more reads may give bytes.
    ghost reads: { Self → ℕ };

    // That a read may ask for so many bytes when the sink to the peer holds these.
    ghost may_read: { Self → Option (List ℕ) → ℕ → Type 0 };

    /// Reads as a source does. The sink is the one to the peer, and doesn't change.
    fn read_after<O: Sink>(&mut self, sink: &O, buffer: &mut [u8]) -> Result<usize, Failed>
        requires turn { may_read self.old (O.taken sink.now) (length buffer.old) }
        ensures failed { IsErr result ↔ (has_failed self.new ≡ true) }
        ensures stays { has_failed self.old ≡ true → has_failed self.new ≡ true }
        ensures bound { ReadsAtMost result buffer.new }
        ensures bytes { ReadConsumes (left self.old) (left self.new) result buffer.new }
        ensures moves { Moves (given self.old) (given self.new) result buffer.new }
        ensures lowers { IfOk result (λ n. 0 < n → reads self.new < reads self.old) };
}

impl<I: Source> PeerSource for I {
    ghost left = { λ s. I.left s };

    ghost given = { λ s. I.given s };

    ghost has_failed = { λ s. I.has_failed s };

    ghost reads = { λ s. I.reads s };

    ghost may_read = { λ _ _ _. Unit {0} };

    fn read_after<O: Sink>(&mut self, _sink: &O, buffer: &mut [u8]) -> Result<usize, Failed> {
        self.read(buffer)
    }
}
