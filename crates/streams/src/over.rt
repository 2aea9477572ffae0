//! A source or a sink over a reader or a writer of the standard library.
ghost use Rattle.std.specs.Prelude.{◌≡◌, ◌<◌, [], false, None, IfSome, IfOk, IfErr, option_copied, is_some};
ghost use Rattle.std.specs.Option.{ForSome};
ghost use Rattle.std.specs.Io.{ReadsAtMost, WritesAtMost};
ghost use Rattle.std.specs.Io.KnownBytes.{ReadConsumes, WriteAppends};
ghost use Rattle.streams.specs.Reasons.{IsReason};

use crate::history::History;
use crate::traits::{Failed, Sink, Source};
use std::io;
use std::io::{ErrorKind, Read, Write};

/// The most reads of an `Over`.
const MOST_READS: u64 = 1 << 63;

/// The most calls that one write makes.
const MOST_TRIES: u64 = 1 << 63;

/// A source or a sink over a reader or a writer of the standard library.
///
/// It has failed after an error of a call, after a write that takes no byte, and after 2^63 reads, and keeps the error. A call that a signal
/// interrupts is no failure: it is made again.
#[derive(Drop)]
pub struct Over<S> {
    stream: S,
    reads: u64,
    error: Option<io::Error>,
    ended: bool,
    moved: History,
    ghost reason: { ForSome error IsReason },
}

impl<S> Over<S> {
    /// Makes a stream over this reader or writer, which hasn't failed and has 2^63 reads left. It allocates nothing.
    pub fn new(stream: S) -> Over<S>
        ensures stream { result.stream ≡ stream }
        ensures reads { result.reads ≡ MOST_READS }
        ensures error { result.error ≡ None }
        ensures ended { result.ended ≡ false }
        ensures moved { result.moved.bytes ≡ [] }
    {
        Over {
            stream,
            reads: MOST_READS,
            error: None,
            ended: false,
            moved: History::new(),
        }
    }

    /// Returns the history of the bytes that it has moved.
    pub fn moved(&self) -> &History
        ensures { result.now ≡ self.now.moved }
    {
        &self.moved
    }

    /// Returns true if the last read reached the end.
    pub fn has_ended(&self) -> bool
        ensures { result ≡ self.now.ended }
    {
        self.ended
    }

    /// Returns the error by which it has failed, if it has.
    pub fn error(&self) -> Option<&io::Error>
        ensures kept { option_copied result ≡ self.now.error }
        ensures reason { IfSome result (λ e. IsReason e.now) }
    {
        self.error.as_ref()
    }
}

/// Returns the error of a stream that was called too often.
fn too_many_calls() -> io::Error
    ensures { IsReason result }
{
    io::Error::other("2^63 calls were made")
}

/// Reads, and reads again if a signal interrupts the call. Each call counts as a read.
fn read_past_signals<R: Read>(
    stream: &mut R,
    reads: &mut u64,
    buffer: &mut [u8],
) -> io::Result<usize>
    ensures bound { ReadsAtMost result buffer.new }
    ensures bytes { ReadConsumes (R.remaining stream.old) (R.remaining stream.new) result buffer.new }
    ensures reason { IfErr result IsReason }
    ensures counts { IfOk result (λ _. reads.new < reads.old) }
{
    while *reads > 0 {
        *reads -= 1;
        match stream.read(buffer) {
            Err(error) if error.kind() == ErrorKind::Interrupted => {}
            read => return read,
        }
    }
    Err(too_many_calls())
}

/// Writes, and writes again if a signal interrupts the call.
fn write_past_signals<W: Write>(stream: &mut W, bytes: &[u8]) -> io::Result<usize>
    ensures bound { WritesAtMost result bytes.now }
    ensures bytes { WriteAppends (W.contents stream.old) (W.contents stream.new) result bytes.now }
    ensures reason { IfErr result IsReason }
{
    for _ in 0..MOST_TRIES {
        match stream.write(bytes) {
            Err(refusal) if refusal.kind() == ErrorKind::Interrupted => {}
            written => return written,
        }
    }
    Err(too_many_calls())
}

impl<R: Read> Source for Over<R> {
    ghost left = { λ s. R.remaining s.stream };

    ghost given = { λ s. s.moved.bytes };

    ghost has_ended = { λ s. s.ended };

    ghost has_failed = { λ s. is_some s.error };

    ghost reads = { λ s. s.reads };

    fn read(&mut self, buffer: &mut [u8]) -> Result<usize, Failed> {
        if self.error.is_some() {
            return Err(Failed);
        }
        match read_past_signals(&mut self.stream, &mut self.reads, buffer) {
            Ok(n) => {
                self.ended = n == 0;
                self.moved.add(&buffer[..n]);
                Ok(n)
            }
            Err(error) => {
                self.error = Some(error);
                Err(Failed)
            }
        }
    }
}

impl<W: Write> Sink for Over<W> {
    ghost taken = { λ s. W.contents s.stream };

    ghost put = { λ s. s.moved.bytes };

    ghost has_failed = { λ s. is_some s.error };

    fn write(&mut self, bytes: &[u8]) -> Result<usize, Failed> {
        if self.error.is_some() {
            return Err(Failed);
        }
        if bytes.is_empty() {
            return Ok(0);
        }
        let error = match write_past_signals(&mut self.stream, bytes) {
            Ok(0) => io::Error::new(ErrorKind::WriteZero, "no byte was taken"),
            Ok(n) => {
                self.moved.add(&bytes[..n]);
                return Ok(n);
            }
            Err(error) => error,
        };
        self.error = Some(error);
        Err(Failed)
    }
}
