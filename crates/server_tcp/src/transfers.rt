//! Reads and writes that never wait.
ghost use Rattle.std.specs.Prelude.{◌≡◌, ◌<◌, ◌≤◌, length, take, IfOk};
ghost use Rattle.std.specs.Io.KnownBytes.{Appends, Consumes, IsAtEnd};
ghost use Rattle.server_event_loop.specs.Peers.{got_count, told_count};

use server_event_loop::{Failed, Got};
use std::io::{ErrorKind, Read, Write};

/// The most tries of one call that signals interrupt.
const MOST_TRIES: u64 = 1 << 63;

/// Reads what is there into the front of the buffer, which isn't empty. Nothing where a read would wait; what a signal interrupts is tried
/// again; every other error fails the connection.
pub(crate) fn read_now<R: Read>(stream: &mut R, buffer: &mut [u8]) -> Result<Got, Failed>
    ensures within { got_count result ≤ length buffer.new }
    ensures bytes { Consumes (R.remaining stream.old) (R.remaining stream.new)
        (take (got_count result) buffer.new) }
    ensures end { 0 < length buffer.new → IfOk result (λ got. got ≡ Got.End → IsAtEnd (R.remaining stream.new)) }
{
    for _ in 0..MOST_TRIES {
        match stream.read(buffer) {
            Ok(0) => return Ok(Got::End),
            Ok(count) => return Ok(Got::Bytes(count)),
            Err(error) => match error.kind() {
                ErrorKind::Interrupted => {}
                ErrorKind::WouldBlock => return Ok(Got::Nothing),
                _ => return Err(Failed),
            },
        }
    }
    Err(Failed)
}

/// Writes a front of the bytes, and answers how many; 0 where a write would wait. What a signal interrupts is tried again; every other error
/// fails the connection.
pub(crate) fn write_now<W: Write>(stream: &mut W, bytes: &[u8]) -> Result<usize, Failed>
    ensures within { told_count result ≤ length bytes.now }
    ensures bytes { Appends (W.contents stream.old) (W.contents stream.new)
        (take (told_count result) bytes.now) }
{
    for _ in 0..MOST_TRIES {
        match stream.write(bytes) {
            Ok(count) => return Ok(count),
            Err(error) => match error.kind() {
                ErrorKind::Interrupted => {}
                ErrorKind::WouldBlock => return Ok(0),
                _ => return Err(Failed),
            },
        }
    }
    Err(Failed)
}
