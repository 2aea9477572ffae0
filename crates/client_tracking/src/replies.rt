//! What is known of each request.
ghost use Rattle.std.specs.Prelude.{◌≡◌, map, option_map, ◌<◌};
ghost use Rattle.messages.specs.View.{response_view};
ghost use Rattle.client_tracking.specs.Account.{reply_in, outcome_lost, outcome_of, response_of, failure_in, failure_of, rows_of, left_of, rows_taken, without_rows};
ghost use Rattle.client_tracking.specs.Holding.{reply_view, row_view, rest_in, account_of};

use crate::tracking::TrackingClient;
use client::Outcome;
use messages::Response;
use std::alloc::Global;
use std::mem;
use structures::Cell;

/// What was told of a request, up to its summary.
#[derive(Drop)]
pub(crate) struct Reply {
    pub ordinal: u64,
    pub outcome: Outcome,
    pub response: Response,
    /// The first of its rows.
    pub rows: Vec<Vec<Cell>>,
    /// How many rows came behind them that aren't kept.
    pub left: u64,
}

/// The reply to the request with this ordinal.
fn reply_in(replies: &[Reply], ordinal: u64) -> Option<&Reply>
    ensures { option_map (λ r. reply_view r.now) result ≡ reply_in ordinal (map reply_view replies.now) }
{
    for reply in replies {
        if reply.ordinal == ordinal {
            return Some(reply);
        }
    }
    None
}

/// Takes the rows of the reply to the request with this ordinal, if there is one.
fn take_rows_in(replies: &mut Vec<Reply>, alloc: Global, ordinal: u64) -> Option<Vec<Vec<Cell>>>
    ensures rows { option_map (λ rows. map row_view rows.items) result
        ≡ option_map (λ r. r.rows) (reply_in ordinal (map reply_view replies.old.items)) }
    ensures replies { map reply_view replies.new.items
        ≡ without_rows ordinal (map reply_view replies.old.items) }
{
    for i in 0..replies.len() {
        if replies[i].ordinal == ordinal {
            return Some(mem::replace(&mut replies[i].rows, Vec::new(alloc)));
        }
    }
    None
}

/// The outcome of this ordinal at the loss.
fn outcome_lost(losses: &[(u64, Outcome)], ordinal: u64) -> Option<Outcome>
    ensures { result ≡ outcome_lost ordinal losses.now }
{
    for loss in losses {
        if loss.0 == ordinal {
            return Some(loss.1);
        }
    }
    None
}

/// The code and the message, of a FAILURE.
fn failure_in(response: &Response) -> Option<(&str, &str)>
    ensures { option_map (λ f. (f.0.now, f.1.now)) result ≡ failure_in (response_view response.now) }
{
    match response {
        Response::Failure { code, message } => Some((code.as_str(), message.as_str())),
        _ => None,
    }
}

impl TrackingClient {
    /// What became of a request, as soon as it is known; none while it waits. Takes no memory.
    pub fn outcome(&self, ordinal: u64) -> Option<Outcome>
        ensures { result ≡ outcome_of (account_of self.now) ordinal }
    {
        match reply_in(&self.replies, ordinal) {
            Some(reply) => Some(reply.outcome),
            None => outcome_lost(self.losses.as_slice(), ordinal),
        }
    }

    /// Its summary, if it has come: the metadata, or the FAILURE's code and message. Takes no memory.
    pub fn response(&self, ordinal: u64) -> Option<&Response>
        ensures { option_map (λ x. response_view x.now) result
            ≡ response_of (account_of self.now) ordinal }
    {
        let reply = reply_in(&self.replies, ordinal)?;
        Some(&reply.response)
    }

    /// The code and the message of its FAILURE, if that has come. Takes no memory.
    pub fn failure(&self, ordinal: u64) -> Option<(&str, &str)>
        ensures { option_map (λ f. (f.0.now, f.1.now)) result
            ≡ failure_of (account_of self.now) ordinal }
    {
        let reply = reply_in(&self.replies, ordinal)?;
        failure_in(&reply.response)
    }

    /// The rows that are held of a request, the first that came, in order; those so far, while it waits. Takes no memory.
    pub fn rows(&self, ordinal: u64) -> &[Vec<Cell>]
        ensures { map row_view result.now
            ≡ rows_of (rest_in self.now).knows.first (account_of self.now) ordinal }
    {
        match reply_in(&self.replies, ordinal) {
            Some(reply) => &reply.rows,
            None => {
                if self.client.first_waiting() == ordinal {
                    &self.rows
                } else {
                    &[]
                }
            }
        }
    }

    /// How many rows of a request came behind those that were kept: each was read and dropped. Takes no memory.
    pub fn rows_left(&self, ordinal: u64) -> u64
        ensures { result ≡ left_of (rest_in self.now).knows.first (account_of self.now) ordinal }
    {
        match reply_in(&self.replies, ordinal) {
            Some(reply) => reply.left,
            None => {
                if self.client.first_waiting() == ordinal {
                    self.left
                } else {
                    0
                }
            }
        }
    }

    /// Takes the rows that are held of a request, which may go on to come while it waits first. Takes no memory.
    pub fn take_rows(&mut self, ordinal: u64) -> Vec<Vec<Cell>>
        ensures rows { map row_view result.items
            ≡ rows_of (rest_in self.old).knows.first (account_of self.old) ordinal }
        ensures client { rest_in self.new ≡ rest_in self.old }
        ensures account { account_of self.new
            ≡ rows_taken (rest_in self.old).knows.first (account_of self.old) ordinal }
    {
        if let Some(rows) = take_rows_in(&mut self.replies, self.alloc, ordinal) {
            return rows;
        }
        if self.client.first_waiting() == ordinal {
            return mem::replace(&mut self.rows, Vec::new(self.alloc));
        }
        Vec::new(self.alloc)
    }
}
