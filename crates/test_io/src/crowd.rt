//! Peers in memory, and who is told of their ends.
ghost use Rattle.std.specs.Prelude.{◌≤◌, length};
ghost use Rattle.server_event_loop.specs.Peers.{got_count, told_count};

use server_event_loop::{Failed, Got, Greeting, Journal, Parting, Peers, Readiness, Ready};
use std::alloc::Global;
use std::test::Fail;

/// No wait of so many milliseconds is for anybody.
const LONGEST: u64 = 1_000_000;

/// So many turns are never wanted.
const MOST_TURNS: u32 = 100_000;

/// How a peer goes on once it has sent all.
#[derive(Clone, Copy, PartialEq, Eq)]
pub enum After {
    /// It waits.
    Waits,
    /// It sends no more, and takes what comes.
    Ends,
    /// It is gone, so that reads and writes fail.
    Breaks,
}

/// A peer, whose place in the crowd is the number of its connection: it sends and takes so many bytes between two waits.
#[derive(Drop)]
pub struct Guest {
    sends: Vec<u8>,
    sent: usize,
    step: usize,
    takes: usize,
    after: After,
    told: Vec<u8>,
    /// Bytes that it sends and takes until the next wait.
    may_send: usize,
    may_take: usize,
    /// Whether something is ready of it that wasn't told.
    news: bool,
    is_closed: bool,
}

impl Guest {
    /// Sends these parts, so many bytes between two waits, and takes so many.
    pub fn new(
        alloc: Global,
        parts: &[&[u8]],
        step: usize,
        takes: usize,
        after: After,
    ) -> Result<Guest, Fail> {
        let mut sends = Vec::new(alloc);
        for part in parts {
            sends.extend_from_slice(part)?;
        }
        Ok(Guest {
            sends,
            sent: 0,
            step,
            takes,
            after,
            told: Vec::new(alloc),
            may_send: step,
            may_take: takes,
            news: true,
            is_closed: false,
        })
    }

    /// What it was told.
    pub fn told(&self) -> &[u8] {
        self.told.as_slice()
    }

    pub fn is_closed(&self) -> bool {
        self.is_closed
    }

    /// The next bytes may be sent and taken, and whether that is news.
    fn renew(&mut self) {
        let sends = self.may_send == 0 && self.step != 0 && self.sent < self.sends.len();
        let takes = self.may_take == 0 && self.takes != 0;
        if sends || takes {
            self.news = true;
        }
        self.may_send = self.step;
        self.may_take = self.takes;
    }

    fn read(&mut self, buffer: &mut [u8]) -> Result<Got, Failed>
        ensures within { got_count result ≤ length buffer.new }
    {
        let (_, rest) = self
            .sends
            .as_slice()
            .split_at(self.sent.min(self.sends.len()));
        if rest.is_empty() {
            return match self.after {
                After::Waits => Ok(Got::Nothing),
                After::Ends => Ok(Got::End),
                After::Breaks => Err(Failed),
            };
        }
        let count = rest.len().min(buffer.len()).min(self.may_send);
        let (front, _) = rest.split_at(count);
        buffer[..count].copy_from_slice(front);
        self.sent = self.sent.saturating_add(count);
        self.may_send -= count;
        Ok(if count == 0 {
            Got::Nothing
        } else {
            Got::Bytes(count)
        })
    }

    fn write(&mut self, bytes: &[u8]) -> Result<usize, Failed>
        ensures within { told_count result ≤ length bytes.now }
    {
        if self.after == After::Breaks && self.sent == self.sends.len() {
            return Err(Failed);
        }
        let count = bytes.len().min(self.may_take);
        let (front, _) = bytes.split_at(count);
        match self.told.extend_from_slice(front) {
            Ok(()) => {
                self.may_take -= count;
                Ok(count)
            }
            Err(_) => Err(Failed),
        }
    }
}

/// Peers that come at once. What is ready of them is told once, as by the system of sockets.
#[derive(Drop)]
pub struct Crowd {
    guests: Vec<Guest>,
    greeted: usize,
    seated: usize,
    is_told: bool,
    time: u64,
    /// Waits in which time passed, and nothing was ready.
    naps: u32,
    /// Waits for no time in which nothing was ready.
    turns: u32,
}

impl Crowd {
    pub fn new(guests: Vec<Guest>) -> Crowd {
        Crowd {
            guests,
            greeted: 0,
            seated: 0,
            is_told: false,
            time: 0,
            naps: 0,
            turns: 0,
        }
    }

    pub fn guests(&self) -> &[Guest] {
        self.guests.as_slice()
    }

    pub fn naps(&self) -> u32 {
        self.naps
    }

    pub fn turns(&self) -> u32 {
        self.turns
    }

    fn has_news(&self) -> bool {
        !self.is_told || self.guests.iter().take(self.seated).any(|guest| guest.news)
    }
}

impl Peers for Crowd {
    ghost use Rattle.std.specs.Prelude.{None};

    ghost wire = { λ _ _. record { heard = None; told = None; asked = 0 } };

    /// Fails where nothing is ready and no time is up, and after very many turns.
    fn wait(&mut self, most: u64) -> Result<(), Failed> {
        for guest in self.guests.iter_mut() {
            guest.renew();
        }
        if self.has_news() {
            return Ok(());
        }
        if most == 0 && self.turns < MOST_TURNS {
            self.turns = self.turns.saturating_add(1);
            return Ok(());
        }
        if most == 0 || LONGEST < most {
            return Err(Failed);
        }
        self.naps = self.naps.saturating_add(1);
        self.time = self.time.saturating_add(most);
        Ok(())
    }

    fn ready(&mut self) -> Option<Ready> {
        if !self.is_told {
            self.is_told = true;
            return Some(Ready::Guest);
        }
        let seated = self.seated;
        let at = self
            .guests
            .iter()
            .take(seated)
            .position(|guest| guest.news)?;
        let guest = self.guests.get_mut(at)?;
        guest.news = false;
        Some(Ready::Conn {
            conn: at as u64,
            ready: Readiness {
                reads: true,
                writes: true,
                last: guest.after != After::Waits,
            },
        })
    }

    fn now(&mut self) -> u64 {
        self.time
    }

    fn greet(&mut self) -> Greeting {
        if self.greeted < self.guests.len() {
            self.greeted += 1;
            return Greeting::Guest;
        }
        Greeting::Nobody
    }

    fn seat(&mut self, conn: u64) -> bool {
        self.seated = self.seated.saturating_add(1);
        conn < self.seated as u64
    }

    fn refuse(&mut self) {}

    fn read(&mut self, conn: u64, buffer: &mut [u8]) -> Result<Got, Failed> {
        match self.guests.get_mut(conn as usize) {
            Some(guest) => guest.read(buffer),
            None => Err(Failed),
        }
    }

    fn write(&mut self, conn: u64, bytes: &[u8]) -> Result<usize, Failed> {
        match self.guests.get_mut(conn as usize) {
            Some(guest) => guest.write(bytes),
            None => Err(Failed),
        }
    }

    fn finish(&mut self, _conn: u64) {}

    fn close(&mut self, conn: u64) {
        if let Some(guest) = self.guests.get_mut(conn as usize) {
            guest.is_closed = true;
        }
    }
}

/// The ends that were told, in order.
#[derive(Drop)]
pub struct Ends {
    pub ends: Vec<(u64, Parting)>,
}

impl Journal for Ends {
    ghost use Rattle.std.specs.Prelude.{None};

    ghost told = { λ _. None };

    fn note(&mut self, conn: u64, parting: Parting) {
        let _kept = self.ends.push((conn, parting));
    }
}
