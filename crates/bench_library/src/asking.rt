//! Who asks a server: a client by its own calls, or through the driver.
use crate::link::{Link, Stopped};
use crate::tally::Tally;
use crate::transport::{PIECE, hear};
use client::ClientFault;
use client_tracking::TrackingClient;
use messages::Request;
use std::alloc::Global;
use wire::Wish;

/// What asks requests, and hears what they are answered.
pub(crate) trait Asks {
    fn ask(&mut self, request: Request) -> Result<(), Stopped>;

    /// Lends what waits to go.
    fn unsent(&self) -> &[u8];

    /// So many bytes of it are gone.
    fn sent(&mut self, count: usize);

    /// Hears a piece, and counts what it tells, or keeps it.
    fn hear(&mut self, piece: &[u8], tally: &mut Tally) -> Result<(), Stopped>;

    /// Counts what is kept, if no request waits, and forgets it.
    fn settle(&mut self, tally: &mut Tally) -> Result<(), Stopped>;
}

impl Asks for Link {
    fn ask(&mut self, request: Request) -> Result<(), Stopped> {
        self.client.submit(request)?;
        Ok(())
    }

    fn unsent(&self) -> &[u8] {
        self.client.unsent()
    }

    fn sent(&mut self, count: usize) {
        self.client.sent(count);
    }

    fn hear(&mut self, piece: &[u8], tally: &mut Tally) -> Result<(), Stopped> {
        hear(self, piece, tally)
    }

    fn settle(&mut self, _tally: &mut Tally) -> Result<(), Stopped> {
        Ok(())
    }
}

/// At least as many rows as any result has.
const MAX_ROWS: usize = 65536;

/// A client through the driver, and the ordinals that aren't counted.
#[derive(Drop)]
pub(crate) struct Tracked {
    tracking: TrackingClient,
    first: u64,
    after: u64,
}

impl Tracked {
    pub fn new(alloc: Global, wish: Wish) -> Result<Tracked, ClientFault> {
        Ok(Tracked {
            tracking: TrackingClient::new(alloc, wish, MAX_ROWS)?,
            first: 0,
            after: 0,
        })
    }
}

/// Counts what the account tells of a request.
fn count(tracking: &mut TrackingClient, ordinal: u64, tally: &mut Tally) -> Result<(), Stopped> {
    for row in tracking.take_rows(ordinal) {
        tally.hear_row(&row);
    }
    match tracking.outcome(ordinal) {
        Some(outcome) => {
            tally.conclude(outcome);
            Ok(())
        }
        None => Err(Stopped),
    }
}

/// Feeds all of a piece.
fn feed(tracking: &mut TrackingClient, piece: &[u8]) -> Result<(), Stopped> {
    let mut rest = piece;
    while !rest.is_empty() {
        let used = tracking.feed(&rest[..rest.len().min(PIECE)])?;
        let (_, unused) = rest.split_at(used);
        rest = unused;
    }
    Ok(())
}

impl Asks for Tracked {
    fn ask(&mut self, request: Request) -> Result<(), Stopped> {
        let ordinal = self.tracking.ask(request)?;
        self.after = ordinal.saturating_add(1);
        Ok(())
    }

    fn unsent(&self) -> &[u8] {
        self.tracking.unsent()
    }

    fn sent(&mut self, count: usize) {
        self.tracking.sent(count);
    }

    fn hear(&mut self, piece: &[u8], _tally: &mut Tally) -> Result<(), Stopped> {
        feed(&mut self.tracking, piece)
    }

    fn settle(&mut self, tally: &mut Tally) -> Result<(), Stopped> {
        for ordinal in self.first..self.after {
            count(&mut self.tracking, ordinal, tally)?;
        }
        self.first = self.after;
        if self.tracking.settle() {
            Ok(())
        } else {
            Err(Stopped)
        }
    }
}
