//! What a connection's account says of the requests of its last call.
ghost use Rattle.std.specs.Prelude.{◌≡◌, map, option_map};
ghost use Rattle.structures_cells.specs.Shape.{shape, entry};
ghost use Rattle.client_tracking.specs.Account.{outcome_of, failure_of, response_of, rows_of, left_of, rows_taken};
ghost use Rattle.client_tracking.specs.Holding.{rest_in, account_of, row_view};
ghost use Rattle.driver.specs.Metadata.{metadata_in, named};

use crate::connection::Connection;
use client::Outcome;
use messages::Response;
use streams::{Sink, Source};
use structures::Cell;
use wire::Version;

/// The value under a name.
fn named<'a>(entries: &'a [(String, Cell)], name: &str) -> Option<&'a Cell>
    ensures { option_map (λ c. shape c.now) result ≡ named name.now (map entry entries.now) }
{
    for (key, value) in entries {
        if key.as_str() == name {
            return Some(value);
        }
    }
    None
}

impl<S: Source + Drop, T: Sink + Drop> Connection<S, T> {
    /// What became of a request; none if it wasn't asked since the last call began. Takes no memory.
    pub fn outcome(&self, ordinal: u64) -> Option<Outcome>
        ensures { result ≡ outcome_of (account_of self.now.tracking) ordinal }
    {
        self.tracking.outcome(ordinal)
    }

    /// The code and the message of its FAILURE, if it has one. Takes no memory.
    pub fn failure(&self, ordinal: u64) -> Option<(&str, &str)>
        ensures { option_map (λ f. (f.0.now, f.1.now)) result
            ≡ failure_of (account_of self.now.tracking) ordinal }
    {
        self.tracking.failure(ordinal)
    }

    /// The value that its SUCCESS has under this name: of a RUN `fields`, of the request for its rows `has_more`, and `bookmark` where it
    /// committed. Takes no memory.
    pub fn metadata(&self, ordinal: u64, name: &str) -> Option<&Cell>
        ensures { option_map (λ c. shape c.now) result
            ≡ named name.now (metadata_in (response_of (account_of self.now.tracking) ordinal)) }
    {
        match self.tracking.response(ordinal) {
            Some(Response::Success(metadata)) => named(metadata, name),
            _ => None,
        }
    }

    /// The rows that are held of a request for rows, the first that came, in order. Takes no memory.
    pub fn rows(&self, ordinal: u64) -> &[Vec<Cell>]
        ensures { map row_view result.now
            ≡ rows_of (rest_in self.now.tracking).knows.first (account_of self.now.tracking) ordinal }
    {
        self.tracking.rows(ordinal)
    }

    /// Takes the rows that are held of a request for rows, in order. Takes no memory.
    pub fn take_rows(&mut self, ordinal: u64) -> Vec<Vec<Cell>>
        ensures rows { map row_view result.items
            ≡ rows_of (rest_in self.old.tracking).knows.first (account_of self.old.tracking) ordinal }
        ensures client { rest_in self.new.tracking ≡ rest_in self.old.tracking }
        ensures account { account_of self.new.tracking
            ≡ rows_taken (rest_in self.old.tracking).knows.first (account_of self.old.tracking)
            ordinal }
    {
        self.tracking.take_rows(ordinal)
    }

    /// How many of its rows came behind those that were kept: each was read and dropped. Takes no memory.
    pub fn rows_left(&self, ordinal: u64) -> u64
        ensures { result
            ≡ left_of (rest_in self.now.tracking).knows.first (account_of self.now.tracking) ordinal }
    {
        self.tracking.rows_left(ordinal)
    }

    /// The version that the server took, none before its answer. Takes no memory.
    pub fn version(&self) -> Option<Version>
        ensures { result ≡ (rest_in self.now.tracking).knows.version }
    {
        self.tracking.version()
    }

    /// Whether it has ended: then no request is accepted any more. Takes no memory.
    pub fn has_ended(&self) -> bool
        ensures { result ≡ (rest_in self.now.tracking).knows.over }
    {
        self.tracking.has_ended()
    }
}
