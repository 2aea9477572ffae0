//! Why a program stops before its lines end.
ghost use Rattle.std.specs.Prelude.{◌≡◌};
ghost use Rattle.cli_output.specs.Stopping.{Gets, stop_status, stop_text};

use crate::printed_lines::tell;
use itoa::Buffer;
use streams::{Sink, StreamFault};

/// Why a program stops before its lines end.
#[derive(Clone, Copy, Debug, PartialEq, Eq)]
pub enum StopReason {
    /// The line of this number, from 1, can't be read.
    Unreadable(usize),
    /// A stream has failed, or there is no memory.
    Broken(StreamFault),
}

impl From<StreamFault> for StopReason {
    ghost use Rattle.std.specs.Prelude.{◌≡◌};
    ghost use Rattle.cli_output.specs.declared.stop.StopReason.{StopReason};

    ghost from_gives = { λ fault stop. stop ≡ StopReason.Broken fault };

    fn from(fault: StreamFault) -> StopReason {
        StopReason::Broken(fault)
    }
}

/// Writes why a program stops, of a line that can't be read also what is expected there, and answers its exit status: 2 for such a line, 1 for a
/// stream that has failed, 3 for want of memory. Takes no memory.
pub fn put_stop<E: Sink>(stop: StopReason, err: &mut E) -> u8
    ensures status { result ≡ stop_status stop }
    ensures text { Gets (E.has_failed err.old) (E.has_failed err.new) (E.taken err.old)
        (E.taken err.new) (stop_text stop) }
{
    match stop {
        StopReason::Unreadable(number) => {
            put_unreadable(number, err);
            2
        }
        StopReason::Broken(fault) => put_fault(fault, err),
    }
}

fn put_unreadable<E: Sink>(number: usize, err: &mut E)
    ensures { Gets (E.has_failed err.old) (E.has_failed err.new) (E.taken err.old)
        (E.taken err.new) (stop_text (StopReason.Unreadable number)) }
{
    let mut digits = Buffer::new();
    tell(b"line ", err);
    tell(digits.format(number).as_bytes(), err);
    tell(
        b" unreadable\nexpected hello, logon [bad], logoff, goodbye, reset, run TEXT HEX [r] [token T], begin [r] [token T], commit, rollback, discard N or pull N\n",
        err,
    );
}

/// Writes a fault on a line, `fault I1` and the like, and answers the exit status: 3 for want of memory, else 1. Takes no memory.
pub fn put_fault<E: Sink>(fault: StreamFault, err: &mut E) -> u8
    ensures status { result ≡ stop_status (StopReason.Broken fault) }
    ensures text { Gets (E.has_failed err.old) (E.has_failed err.new) (E.taken err.old)
        (E.taken err.new) (stop_text (StopReason.Broken fault)) }
{
    match fault {
        StreamFault::ReadFailed => put(b"fault I1\n", 1, err),
        StreamFault::WriteFailed => put(b"fault I2\n", 1, err),
        StreamFault::Memory => put(b"fault I3\n", 3, err),
    }
}

/// Writes a text, and answers the status.
fn put<E: Sink>(text: &[u8], status: u8, err: &mut E) -> u8
    ensures status { result ≡ status }
    ensures text { Gets (E.has_failed err.old) (E.has_failed err.new) (E.taken err.old)
        (E.taken err.new) text.now }
{
    tell(text, err);
    status
}
