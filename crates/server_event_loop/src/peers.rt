//! The world outside: peers by the numbers of their connections, and what is ready.
ghost use Rattle.std.specs.Prelude.{◌≡◌, ◌≢◌, ℕ};
ghost use Rattle.server_event_loop.specs.Peers.{Wire, Hears, Tells, got_count, told_count};

use crate::limits::Readiness;

/// A connection, or what waits for all of them, has failed.
#[derive(Clone, Copy)]
pub struct Failed;

/// What came of a read.
#[derive(Clone, Copy)]
pub enum Got {
    /// So many bytes, at the front of the buffer.
    Bytes(usize),
    /// None now.
    Nothing,
    /// None ever more.
    End,
}

/// What came of greeting the next peer.
#[derive(Clone, Copy)]
pub enum Greeting {
    /// There is a guest.
    Guest,
    /// Nobody waits.
    Nobody,
    /// Somebody waits and can't be taken now, as for want of descriptors.
    Later,
}

/// What is ready.
#[derive(Clone, Copy)]
pub enum Ready {
    /// Somebody waits to be greeted.
    Guest,
    /// Something may be tried on the connection with this number.
    Conn { conn: u64, ready: Readiness },
}

/// Peers by the numbers of their connections. Nothing here waits but `wait`.
pub trait Peers {
    // Of each connection by its number: its bytes that came and went, if they are known, and how often it was read or written.
    ghost wire: { Self → ℕ → Wire };

    /// Waits until something is ready, for so many milliseconds at most.
    fn wait(&mut self, most: u64) -> Result<(), Failed>
        ensures same { (k : ℕ) → wire self.new k ≡ wire self.old k };

    /// The next of what is ready; None if that is all.
    fn ready(&mut self) -> Option<Ready>
        ensures same { (k : ℕ) → wire self.new k ≡ wire self.old k };

    /// The time in milliseconds, from some start on.
    fn now(&mut self) -> u64
        ensures same { (k : ℕ) → wire self.new k ≡ wire self.old k };

    /// Takes the next peer that waits as the guest.
    fn greet(&mut self) -> Greeting
        ensures same { (k : ℕ) → wire self.new k ≡ wire self.old k };

    /// Gives the guest this number, of a connection of which nothing has come or gone. If that can't be, it is sent away, and false is answered.
    fn seat(&mut self, conn: u64) -> bool
        ensures same { (k : ℕ) → wire self.new k ≡ wire self.old k };

    /// Sends the guest away.
    fn refuse(&mut self)
        ensures same { (k : ℕ) → wire self.new k ≡ wire self.old k };

    /// Reads bytes of a connection into the front of the buffer.
    fn read(&mut self, conn: u64, buffer: &mut [u8]) -> Result<Got, Failed>
        ensures hears { Hears (wire self.old conn) (wire self.new conn) (got_count result) buffer.new }
        ensures others { (k : ℕ) → k ≢ conn → wire self.new k ≡ wire self.old k };

    /// Writes a front of the bytes, and answers how many; 0 where none goes now.
    fn write(&mut self, conn: u64, bytes: &[u8]) -> Result<usize, Failed>
        ensures tells { Tells (wire self.old conn) (wire self.new conn) (told_count result) bytes.now }
        ensures others { (k : ℕ) → k ≢ conn → wire self.new k ≡ wire self.old k };

    /// Shuts the writing side of a connection: nothing more is written.
    fn finish(&mut self, conn: u64)
        ensures same { (k : ℕ) → wire self.new k ≡ wire self.old k };

    /// Closes a connection.
    fn close(&mut self, conn: u64)
        ensures same { (k : ℕ) → wire self.new k ≡ wire self.old k };
}

/// How many bytes were read.
pub(crate) fn count_of(got: &Result<Got, Failed>) -> usize
    ensures { result ≡ got_count got.now }
{
    match got {
        Ok(Got::Bytes(count)) => *count,
        _ => 0,
    }
}
