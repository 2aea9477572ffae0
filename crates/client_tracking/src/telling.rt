//! What an attempt tells, by the outcomes of its requests.
ghost use Rattle.std.specs.Prelude.{◌≡◌};
ghost use Rattle.client_tracking.specs.Account.{outcome_of, failure_of};
ghost use Rattle.client_tracking.specs.Telling.{adds_nothing, is_committed, is_refused, all_nothing, is_clash, is_final, any_final, tells_of};
ghost use Rattle.client_tracking.specs.Holding.{account_of};

use crate::attempts::Tells;
use crate::tracking::TrackingClient;
use client::Outcome;

/// Whether it says for sure that nothing was committed.
fn adds_nothing(outcome: Option<Outcome>) -> bool
    ensures { result ≡ adds_nothing outcome }
{
    matches!(
        outcome,
        Some(Outcome::Done | Outcome::Refused | Outcome::Ignored | Outcome::Lost)
    )
}

/// Whether it says that this committed.
fn is_committed(outcome: Option<Outcome>) -> bool
    ensures { result ≡ is_committed outcome }
{
    matches!(outcome, Some(Outcome::Committed))
}

/// Whether it says that there was a FAILURE.
fn is_refused(outcome: Option<Outcome>) -> bool
    ensures { result ≡ is_refused outcome }
{
    matches!(outcome, Some(Outcome::Refused))
}

impl TrackingClient {
    /// Whether each of the first requests is told to have committed nothing.
    fn all_nothing(&self, count: u64) -> bool
        ensures { result ≡ all_nothing (outcome_of (account_of self.now)) count }
    {
        let mut all = true;
        for i in 0..count {
            all = adds_nothing(self.outcome(i)) && all;
        }
        all
    }

    /// Whether its FAILURE comes each time: its code says that the request has to be changed.
    fn is_final(&self, ordinal: u64) -> bool
        ensures { result ≡ is_final (failure_of (account_of self.now) ordinal) }
    {
        match self.failure(ordinal) {
            Some((code, _)) => code.as_bytes().starts_with("Neo.ClientError.".as_bytes()),
            None => false,
        }
    }

    /// Whether one of the first requests is refused for good.
    fn any_final(&self, count: u64) -> bool
        ensures { result ≡ any_final (account_of self.now) count }
    {
        let mut any = false;
        for i in 0..count {
            any = self.is_final(i) || any;
        }
        any
    }

    /// Whether its FAILURE says that other writes stand under the token.
    fn is_clash(&self, ordinal: u64) -> bool
        ensures { result ≡ is_clash (failure_of (account_of self.now) ordinal) }
    {
        match self.failure(ordinal) {
            Some((code, _)) => code == "Neo.ClientError.Transaction.TokenClash",
            None => false,
        }
    }

    /// What an attempt of one transaction tells that asked so many requests, of which this is the COMMIT's ordinal: a doubt, if nothing else is
    /// sure. Of FAILUREs alone whose code begins with `Neo.ClientError.` it tells Refused; another may not come again, and adds nothing as well.
    /// Takes no memory.
    pub fn tells(&self, commit: u64, count: u64) -> Tells
        ensures { result ≡ tells_of (account_of self.now) commit count }
    {
        let last = self.outcome(commit);
        if is_committed(last) {
            return Tells::Stands;
        }
        if is_refused(last) && self.is_clash(commit) {
            return Tells::Clash;
        }
        if !self.all_nothing(count) {
            return Tells::Doubt;
        }
        if self.any_final(count) {
            return Tells::Refused;
        }
        Tells::Nothing
    }
}
